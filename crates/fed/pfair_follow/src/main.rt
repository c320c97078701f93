//! `pfair_follow`: the rows of task files, and schedules, decisions and lags of rows as they come.
#![tactic(auto)]

ghost use Rattle.std.specs.Prelude.{IfOk};
ghost use Rattle.pfair_follow.specs.Runs.{IsFresh};

mod fault;
mod rows;
mod state;

use fault::{FollowFault, write_fault};
use pfair_feed::{Follower, Output};
use pfair_file::{ProgramFault, given_words, opened};
use pfair_ready::HeapReady;
use pfair_table::Script;
use pfair_text::send;
use pfair_words::follow::{Asked, Feed, Start, read_words};
use rows::{entries, follow_and_leave, follow_rows};
use state::{later, load, save};
use std::process::ExitCode;

fn main(rt: HostRuntime) -> ExitCode {
    match run(&rt) {
        Ok(()) => ExitCode::SUCCESS,
        Err(fault) => ExitCode::from(write_fault(&fault, &mut rt.stderr())),
    }
}

// Does what the command line asks for.
fn run(rt: &HostRuntime) -> Result<(), FollowFault> {
    let words = given_words(rt, ProgramFault::CommandLine)?;
    match read_words(rt.alloc(), words.as_slice())? {
        Asked::Entries { file } => {
            Ok(entries(rt.alloc(), &mut opened(rt, &file)?, &mut rt.stdout())?)
        }
        Asked::Replay { feed, affinity } => {
            let output = if affinity {
                Output::PlacedTables
            } else {
                Output::Tables
            };
            run_fed(rt, output, &feed)
        }
        Asked::Decisions { feed } => run_fed(rt, Output::Decisions, &feed),
        Asked::Lags { feed } => run_fed(rt, Output::Lags, &feed),
        Asked::Help { text } => Ok(send(&mut rt.stdout(), text.as_bytes()).map_err(
            ProgramFault::from,
        )?),
    }
}

// Feeds the run that is asked for with the rows of standard input, and saves the state that it leaves.
fn run_fed(rt: &HostRuntime, output: Output, feed: &Feed) -> Result<(), FollowFault> {
    let mut follower = begun(rt, output, feed)?;
    let (alloc, is_strict) = (rt.alloc(), feed.is_strict);
    let (mut reader, mut writer, mut complaints) = (rt.stdin(), rt.stdout(), rt.stderr());
    let Some(file) = &feed.save else {
        let end = follow_rows(
            alloc,
            &mut follower,
            &mut reader,
            &mut writer,
            &mut complaints,
            is_strict,
        );
        return Ok(end?);
    };
    let text = follow_and_leave(
        alloc,
        &mut follower,
        &mut reader,
        &mut writer,
        &mut complaints,
        is_strict,
    )?;
    save(rt, file, &text)
}

fn begun(rt: &HostRuntime, output: Output, feed: &Feed) -> Result<Follower<HeapReady>, FollowFault>
    ensures { IfOk result IsFresh }
{
    match &feed.start {
        Start::First(settings) => {
            prove!(settings.processors() >= 1);
            let capacity = Script::LONGEST_LOG as u32;
            Ok(Follower::new(rt.alloc(), *settings, capacity, output, feed.from)?)
        }
        Start::Later(resumed) => {
            let state = load(rt.alloc(), &mut opened(rt, &resumed.file)?)?;
            later(rt.alloc(), state, resumed, output, feed.from)
        }
    }
}
