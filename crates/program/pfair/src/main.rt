//! `pfair`: windows of Pfair tasks, and the tables, decisions and lags of task files.
#![tactic(auto)]

use pfair_board::OpenGate;
use pfair_file::{ProgramFault, given_words, opened};
use pfair_reports::{decisions, lags, replay, replay_placed, windows, write_fault};
use pfair_text::send;
use pfair_words::schedule::{Asked, read_words};
use std::process::ExitCode;
use std::sync::Wait;
use std::thread::Threads;

fn main(rt: HostRuntime) -> ExitCode {
    match run(&rt, &rt) {
        Ok(()) => ExitCode::SUCCESS,
        Err(fault) => ExitCode::from(write_fault(&fault, &mut rt.stderr())),
    }
}

// Does what the command line asks for. The second handle is the one by which threads are started.
fn run<P: Threads + Wait + Sync>(rt: &HostRuntime, threads: &P) -> Result<(), ProgramFault> {
    let words = given_words(rt, ProgramFault::CommandLine)?;
    let mut out = rt.stdout();
    match read_words(rt.alloc(), words.as_slice())? {
        Asked::Windows { weight, count } => windows(rt.alloc(), weight, count, &mut out),
        Asked::Replay { file, affinity } => {
            let mut reader = opened(rt, &file)?;
            if affinity {
                replay_placed(threads, rt.alloc(), &mut reader, &mut out, &OpenGate)
            } else {
                replay(threads, rt.alloc(), &mut reader, &mut out, &OpenGate)
            }
        }
        Asked::Decisions { file } => decisions(rt.alloc(), &mut opened(rt, &file)?, &mut out),
        Asked::Lags { file } => lags(rt.alloc(), &mut opened(rt, &file)?, &mut out),
        Asked::Help { text } => Ok(send(&mut out, text.as_bytes())?),
    }
}
