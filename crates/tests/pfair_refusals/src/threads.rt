//! A worker, and runs of a script in threads, one for each processor.
ghost use Rattle.std.specs.Prelude.{◌≡◌};
ghost use Rattle.pfair_desk.specs.Desks.{IsDeskOf};

use crate::board::row;
use crate::entries::{is_whole, ten};
use crate::{Look, Made, Named};
use pfair_board::{Board, Desk, Finished, Hints, OpenGate, RunFault, run_dispatchers, run_worker};
use pfair_entry::Entry;
use pfair_ready::HeapReady;
use pfair_table::{Script, Settings};
use std::alloc::{AllocError, Global};
use std::sync::Wait;
use std::thread::Threads;

pub(crate) fn looks<P: Threads + Wait + Sync>(rt: &P, alloc: Global) -> [Named; 2] {
    [
        ("run_worker without hints", works_on_new(rt, alloc)),
        ("run_dispatchers of two processors", runs(rt, alloc)),
    ]
}

// The script of the ten entries.
fn sample(alloc: Global) -> Made<Script> {
    let settings = Settings::new(2, 6, 6).ok_or(AllocError)?;
    let mut logs = Vec::new(alloc);
    push_logs(alloc, &mut logs)?;
    Script::new(settings, logs).ok().ok_or(AllocError)
}

// The logs of the two processors.
fn push_logs(alloc: Global, logs: &mut Vec<Vec<Entry>>) -> Made<()> {
    for processor in 0..2 {
        let mut log = Vec::new(alloc);
        push_log(&mut log, processor)?;
        logs.push(log)?;
    }
    Ok(())
}

fn push_log(log: &mut Vec<Entry>, processor: u8) -> Made<()> {
    for (of, _, entry) in ten()? {
        if of == processor {
            log.push(entry)?;
        }
    }
    Ok(())
}

// A run of the ten entries in threads.
fn runs<P: Threads + Wait + Sync>(rt: &P, alloc: Global) -> Look {
    let script = sample(alloc)?;
    match run_dispatchers::<HeapReady, _>(rt, alloc, &script, &OpenGate) {
        Ok(finished) => Ok(is_finished(&finished)),
        Err(fault) => Ok(fault == RunFault::Memory),
    }
}

// Whether both desks hold the ten entries, and both runs have all tables and places.
fn is_finished(finished: &Finished) -> bool {
    finished.board.capacity() == 5
        && finished.desks.len() == 2
        && finished.desks.iter().all(holds_ten)
        && finished.runs.len() == 2
        && finished.runs.iter().all(is_whole)
}

fn holds_ten(desk: &Desk) -> bool {
    let held = desk.replica();
    held.missing(0).is_none() && held.missing(1).is_none() && held.frontier() == 6
}

fn works_on_new<P: Wait>(rt: &P, alloc: Global) -> Look {
    works_on(rt, alloc, &Board::new(alloc, 2, 5)?)
}

// A worker of the second log, while the first stands on the board: no hint tells of it, so that the
// worker's last refresh finds it.
fn works_on<P: Wait>(rt: &P, alloc: Global, board: &Board) -> Look {
    if board.processors() != 2 || board.capacity() != 5 {
        return Ok(false);
    }
    publishes_first(board, &mut row(board, 0)?)?;
    works(rt, alloc, board, &mut row(board, 1)?)
}

// Publishes the first log.
fn publishes_first(board: &Board, desk: &mut Desk) -> Made<()>
    requires { IsDeskOf desk.old board.now }
{
    for (processor, _, entry) in ten()? {
        if processor == 0 && desk.publish(board, entry).is_err() {
            return Err(AllocError);
        }
    }
    Ok(())
}

fn works<P: Wait>(rt: &P, alloc: Global, board: &Board, desk: &mut Desk) -> Look
    requires own { IsDeskOf desk.old board.now }
    requires first { desk.old.next_number ≡ 1 }
    requires processors { board.now.processors ≡ 2 }
    requires capacity { board.now.capacity ≡ 5 }
{
    let settings = Settings::new(2, 6, 6).ok_or(AllocError)?;
    let hints = Hints::all(alloc, 1)?.pop().ok_or(AllocError)?;
    let ten = ten()?;
    let log = [ten[5].2, ten[6].2, ten[7].2, ten[8].2, ten[9].2];
    match run_worker::<HeapReady, _>(rt, alloc, settings, desk, board, &log, hints, &OpenGate) {
        Ok(run) => Ok(is_whole(&run)),
        Err(fault) => Ok(fault == RunFault::Memory),
    }
}
