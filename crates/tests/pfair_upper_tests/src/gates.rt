//! Replays whose workers wait for each other at a gate, or whose gate gives up.

use crate::reports::{Command, PLACED, SAMPLE, TABLES, assert_fault, run};
use pfair_board::Gate;
use std::alloc::Global;
use std::process::Abort;
use std::sync::Wait;
use std::sync::atomic::{AtomicU64, Ordering};
use std::thread;
use std::thread::Threads;

const REPLAYS: [(Command, &str); 2] = [(Command::Replay, TABLES), (Command::Placed, PLACED)];

// Each of two workers' first come ends only after the other's first has begun. It counts the calls
// of each.
#[derive(Drop)]
struct Meeting {
    first: AtomicU64,
    second: AtomicU64,
}

impl Gate for Meeting {
    ghost use Rattle.std.specs.Prelude.{true};

    ghost may_give_up = { true };

    fn come<P: Wait>(&self, _rt: &P, worker: u8, _slot: u64) -> bool {
        let (mine, other) = if worker == 0 {
            (&self.first, &self.second)
        } else {
            (&self.second, &self.first)
        };
        if mine.fetch_add(1, Ordering::SeqCst) > 0 {
            return true;
        }
        for _ in 0..10_000_000 {
            if other.load(Ordering::SeqCst) > 0 {
                return true;
            }
            thread::yield_now();
        }
        false
    }
}

fn assert_meeting<P: Abort + Threads + Wait + Sync>(
    rt: &P,
    alloc: Global,
    command: Command,
    rows: &str,
) {
    let gate = Meeting {
        first: AtomicU64::new(0),
        second: AtomicU64::new(0),
    };
    let mut text: Vec<u8> = Vec::new(alloc);
    assert!(rt; run(rt, alloc, command, &mut SAMPLE.as_bytes(), &mut text, &gate).is_ok());
    assert_eq!(rt; text.as_slice(), rows.as_bytes());
    assert_eq!(rt; gate.first.load(Ordering::SeqCst), 6);
    assert_eq!(rt; gate.second.load(Ordering::SeqCst), 6);
}

#[test]
fn two_workers_that_wait_for_each_other(rt: HostRuntime) {
    for (command, rows) in REPLAYS {
        assert_meeting(&rt, rt.alloc(), command, rows);
    }
}

// Gives up from one of its calls on, counted from 1.
#[derive(Drop)]
struct TiringGate {
    calls: AtomicU64,
    tired: u64,
}

impl Gate for TiringGate {
    ghost use Rattle.std.specs.Prelude.{true};

    ghost may_give_up = { true };

    fn come<P: Wait>(&self, _rt: &P, _worker: u8, _slot: u64) -> bool {
        self.calls.fetch_add(1, Ordering::SeqCst).saturating_add(1) < self.tired
    }
}

fn assert_tired<P: Abort + Threads + Wait + Sync>(
    rt: &P,
    alloc: Global,
    command: Command,
    rows: &str,
    tired: u64,
) {
    let gate = TiringGate {
        calls: AtomicU64::new(0),
        tired,
    };
    let mut text: Vec<u8> = Vec::new(alloc);
    let outcome = run(rt, alloc, command, &mut SAMPLE.as_bytes(), &mut text, &gate);
    // two workers come before each of six slots
    if tired > 12 {
        assert!(rt; outcome.is_ok());
        assert_eq!(rt; text.as_slice(), rows.as_bytes());
        return;
    }
    let fault = outcome.err().expect(rt, "a fault");
    assert_fault(rt, alloc, &fault, "pfair: 53 gate gave up\n", 3);
    assert!(rt; text.is_empty());
}

#[test]
fn a_gate_that_gives_up_from_one_of_its_calls_on(rt: HostRuntime) {
    for (command, rows) in REPLAYS {
        for tired in 1..=13 {
            assert_tired(&rt, rt.alloc(), command, rows, tired);
        }
    }
}
