//! Runs of scripts in threads.
ghost use Rattle.std.specs.Prelude.{◌≡◌, ◌<◌, ◌≤◌, ◌+◌, IfOk, length, vec_len};
ghost use Rattle.pfair_desk.specs.Desks.{IsDeskOf};

use crate::gates::{InTurn, Meeting, OpenBefore, ShutGate};
use crate::sample::{
    busy, entry, falling, first_log, is_sample, sample, second_log, silent, silent_log,
};
use pfair_board::{Board, Desk, Gate, Hints, OpenGate, RunFault, run_dispatchers, run_worker};
use pfair_entry::Entry;
use pfair_lattice::Flat;
use pfair_ready::HeapReady;
use pfair_table::Settings;
use std::alloc::{AllocError, Global};
use std::process::Abort;
use std::sync::Wait;
use std::thread;
use std::thread::Threads;

/// The desk of a row, one of a new set.
pub(crate) fn row(board: &Board, processor: u8) -> Result<Desk, AllocError>
    requires { processor < board.now.processors }
    ensures { IfOk result (λ desk. IsDeskOf desk board.now × (desk.next_number ≡ 1)) }
{
    let mut desks = board.desks()?;
    Ok(desks.swap_remove(processor as usize))
}

// The hints of the last of some workers.
fn last_of(rt: &impl Abort, all: &mut Vec<Hints>) -> Hints {
    all.pop().expect(rt, "hints")
}

#[test]
fn two_workers_meet(rt: HostRuntime) {
    let (script, gate) = (sample(&rt, rt.alloc()), Meeting::new());
    let run = run_dispatchers::<HeapReady, _>(&rt, rt.alloc(), &script, &gate);
    let finished = run.expect(&rt, "a run");
    assert!(&rt; finished.runs.len() == 2 && finished.runs.iter().all(is_sample));
    assert!(&rt; gate.has_ended() && finished.board.processors() == 2);
    let mut fresh = row(&finished.board, 0).expect(&rt, "memory");
    assert!(&rt; fresh.refresh(&finished.board) == Ok(10));
}

#[test]
fn a_script_stalls(rt: HostRuntime) {
    let script = falling(&rt, rt.alloc());
    let run = run_dispatchers::<HeapReady, _>(&rt, rt.alloc(), &script, &OpenGate);
    assert!(&rt; matches!(run, Err(RunFault::Stalled { slot: 5 })));
}

#[test]
fn a_gate_gives_up(rt: HostRuntime) {
    let script = sample(&rt, rt.alloc());
    let run = run_dispatchers::<HeapReady, _>(&rt, rt.alloc(), &script, &ShutGate);
    assert!(&rt; matches!(run, Err(RunFault::GateGaveUp)));
}

#[test]
fn sixty_four_workers_come_to_each_slot_in_turn(rt: HostRuntime) {
    let script = silent(&rt, rt.alloc());
    let gate = InTurn::new(&rt, rt.alloc(), 64);
    let run = run_dispatchers::<HeapReady, _>(&rt, rt.alloc(), &script, &gate);
    let finished = run.expect(&rt, "a run");
    assert!(&rt; finished.runs.len() == 64 && gate.has_opened(2));
    for run in &finished.runs {
        assert!(&rt; run.tables.len() == 2 && run.tables.iter().all(|table| table.is_empty()));
    }
}

#[test]
fn ten_runs_of_eight_workers(rt: HostRuntime) {
    let script = busy(&rt, rt.alloc());
    for _ in 0..10 {
        let run = run_dispatchers::<HeapReady, _>(&rt, rt.alloc(), &script, &OpenGate);
        assert!(&rt; run.is_ok());
    }
}

// Whether a worker of the sample works out its tables on a board, and its desk then holds all ten
// entries.
fn works<P: Wait, G: Gate>(
    rt: &P,
    alloc: Global,
    board: &Board,
    desk: &mut Desk,
    log: &[Entry],
    hints: Hints,
    gate: &G,
) -> bool
    requires own { IsDeskOf desk.old board.now }
    requires room { desk.old.next_number + length log.now ≤ board.now.capacity + 1 }
    requires processors { board.now.processors ≡ 2 }
{
    let Some(settings) = Settings::new(2, 6, 6) else {
        return false;
    };
    match run_worker::<HeapReady, G>(rt, alloc, settings, desk, board, log, hints, gate) {
        Ok(run) => is_sample(&run) && holds_ten(desk),
        Err(_) => false,
    }
}

fn holds_ten(desk: &Desk) -> bool {
    desk.replica().missing(0).is_none() && desk.replica().missing(1).is_none()
}

// Both workers of the sample work, in two threads.
fn both_work<P: Threads + Wait + Abort + Sync>(
    rt: &P,
    alloc: Global,
    board: &Board,
    gate: &Meeting,
    desks: (Desk, Desk),
) -> bool
    requires processors { board.now.processors ≡ 2 }
    requires capacity { board.now.capacity ≡ 5 }
    requires first { IsDeskOf desks.0 board.now × (desks.0.next_number ≡ 1) }
    requires second { IsDeskOf desks.1 board.now × (desks.1.next_number ≡ 1) }
{
    let (first, second) = desks;
    let mut all = Hints::all(alloc, 2).expect(rt, "memory");
    let others = last_of(rt, &mut all);
    let mine = last_of(rt, &mut all);
    let logs = (first_log(rt), second_log(rt));
    let (left, right) = (&logs.0, &logs.1);
    let (one, other) = thread::join(
        rt,
        move || -> bool
            requires { IsDeskOf first board.now × (first.next_number ≡ 1) × (board.now.capacity ≡ 5) × (board.now.processors ≡ 2) }
        {
            let mut desk = first;
            works(rt, alloc, board, &mut desk, left, mine, gate)
        },
        move || -> bool
            requires { IsDeskOf second board.now × (second.next_number ≡ 1) × (board.now.capacity ≡ 5) × (board.now.processors ≡ 2) }
        {
            let mut desk = second;
            works(rt, alloc, board, &mut desk, right, others, gate)
        },
    );
    one && other
}

#[test]
fn two_workers_on_one_board(rt: HostRuntime) {
    let board = Board::new(rt.alloc(), 2, 5).expect(&rt, "memory");
    let first = row(&board, 0).expect(&rt, "memory");
    let second = row(&board, 1).expect(&rt, "memory");
    let gate = Meeting::new();
    assert!(&rt; both_work(&rt, rt.alloc(), &board, &gate, (first, second)));
    assert!(&rt; gate.has_ended());
}

// Publishes a log. Answers whether all went well.
fn publish_all(board: &Board, desk: &mut Desk, log: &[Entry]) -> bool
    requires { IsDeskOf desk.old board.now }
    ensures { IsDeskOf desk.new board.now }
{
    for entry in log {
        if desk.publish(board, *entry).is_err() {
            return false;
        }
    }
    true
}

// Whether a worker of three comes to a slot at which its gate gives up.
fn gives_up<P: Wait, G: Gate>(
    rt: &P,
    alloc: Global,
    board: &Board,
    desk: &mut Desk,
    log: &[Entry],
    hints: Hints,
    gate: &G,
) -> bool
    requires own { IsDeskOf desk.old board.now }
    requires room { desk.old.next_number + length log.now ≤ board.now.capacity + 1 }
    requires processors { board.now.processors ≡ 3 }
{
    let Some(settings) = Settings::new(3, 1, 6) else {
        return false;
    };
    let run = run_worker::<HeapReady, G>(rt, alloc, settings, desk, board, log, hints, gate);
    matches!(run, Err(RunFault::GateGaveUp))
}

// A worker tells of its log and comes to a shut gate, since its desk holds the other logs. Another
// worker then comes to slot 5, which the last of the five entries settles. As long as the third
// one's end of the hints is held it makes no last refresh, and without a hint of each entry it would
// wait for good.
fn assert_told<P: Wait + Abort>(
    rt: &P,
    alloc: Global,
    board: &Board,
    desks: (Desk, Desk),
    ends: (Hints, Hints),
)
    requires processors { board.now.processors ≡ 3 }
    requires capacity { board.now.capacity ≡ 5 }
    requires first { IsDeskOf desks.0 board.now × (desks.0.next_number ≡ 1) }
    requires second { IsDeskOf desks.1 board.now × (desks.1.next_number ≡ 1) }
{
    let (mut teller, mut listener) = desks;
    let (mine, others) = ends;
    assert!(rt; teller.refresh(board) == Ok(10) && listener.refresh(board) == Ok(10));
    let log = silent_log(rt);
    assert!(rt; gives_up(rt, alloc, board, &mut teller, &log, mine, &ShutGate));
    let gate = OpenBefore { slot: 5 };
    assert!(rt; gives_up(rt, alloc, board, &mut listener, &[], others, &gate));
}

// The logs of all workers of three but one stand on the board.
fn publish_others(rt: &impl Abort, board: &Board, teller: u8)
    requires { board.now.processors ≡ 3 }
{
    for processor in 0..3u8 {
        if processor != teller {
            let mut desk = row(board, processor).expect(rt, "memory");
            assert!(rt; publish_all(board, &mut desk, &silent_log(rt)));
        }
    }
}

// The ends of two workers of three come out of those of all.
fn ends_of(rt: &impl Abort, all: &mut Vec<Hints>, teller: u8, listener: u8) -> (Hints, Hints)
    requires all { vec_len all.old ≡ 3 }
    requires workers { (teller < 3) × (listener < 3) }
{
    let mine = all.swap_remove(teller as usize);
    // the last one is in the place of the first that came out
    let place = if listener == 2 { teller } else { listener };
    assert!(rt; place < 2);
    let others = all.swap_remove(place as usize);
    (mine, others)
}

#[test]
fn a_worker_tells_each_other_of_its_log(rt: HostRuntime) {
    for teller in 0..3u8 {
        for after in 1..3u8 {
            let listener = (teller + after) % 3;
            let board = Board::new(rt.alloc(), 3, 5).expect(&rt, "memory");
            publish_others(&rt, &board, teller);
            let first = row(&board, teller).expect(&rt, "memory");
            let second = row(&board, listener).expect(&rt, "memory");
            let mut all = Hints::all(rt.alloc(), 3).expect(&rt, "memory");
            let ends = ends_of(&rt, &mut all, teller, listener);
            assert_told(&rt, rt.alloc(), &board, (first, second), ends);
        }
    }
}

// A worker whose log has another entry at its first number than stands there goes astray, and its
// desk holds what stands.
fn goes_astray<P: Wait + Abort>(
    rt: &P,
    alloc: Global,
    board: &Board,
    desk: &mut Desk,
    standing: Entry,
)
    requires own { IsDeskOf desk.old board.now }
    requires first { desk.old.next_number ≡ 1 }
    requires capacity { board.now.capacity ≡ 1 }
    requires processors { board.now.processors ≡ 1 }
{
    let mut all = Hints::all(alloc, 1).expect(rt, "memory");
    let hints = last_of(rt, &mut all);
    let settings = Settings::new(1, 1, 1).expect(rt, "settings");
    let log = [entry(rt, 2, None)];
    let run = run_worker::<HeapReady, _>(rt, alloc, settings, desk, board, &log, hints, &OpenGate);
    assert!(rt; matches!(run, Err(RunFault::Astray)));
    assert!(rt; desk.replica().get(0, 1) == Some(Flat::One(standing)));
}

#[test]
fn another_pen_leads_astray(rt: HostRuntime) {
    let board = Board::new(rt.alloc(), 1, 1).expect(&rt, "memory");
    let standing = entry(&rt, 1, None);
    let mut first = row(&board, 0).expect(&rt, "memory");
    assert!(&rt; first.publish(&board, standing) == Ok(1));
    let mut second = row(&board, 0).expect(&rt, "memory");
    goes_astray(&rt, rt.alloc(), &board, &mut second, standing);
}
