//! Gates that wait, count or give up.

use pfair_board::Gate;
use std::alloc::Global;
use std::process::Abort;
use std::sync::Wait;
use std::sync::atomic::{AtomicU64, Ordering};
use std::thread;

/// Each of two workers' first come ends only after the other's first has begun. It counts the calls
/// of each.
#[derive(Drop)]
pub(crate) struct Meeting {
    first: AtomicU64,
    second: AtomicU64,
}

impl Meeting {
    pub(crate) fn new() -> Meeting {
        Meeting {
            first: AtomicU64::new(0),
            second: AtomicU64::new(0),
        }
    }

    /// Whether each worker has come six times.
    pub(crate) fn has_ended(&self) -> bool {
        self.first.load(Ordering::SeqCst) == 6 && self.second.load(Ordering::SeqCst) == 6
    }
}

impl Gate for Meeting {
    ghost use Rattle.std.specs.Prelude.{true};

    ghost may_give_up = { true };

    fn come<P: Wait>(&self, _rt: &P, worker: u8, _slot: u64) -> bool {
        let (mine, other) = if worker == 0 {
            (&self.first, &self.second)
        } else {
            (&self.second, &self.first)
        };
        if mine.fetch_add(1, Ordering::SeqCst) > 0 {
            return true;
        }
        comes_to(other, 1)
    }
}

// Waits until so many calls are counted. Answers whether they were.
fn comes_to(calls: &AtomicU64, wanted: u64) -> bool {
    for _ in 0..10_000_000 {
        if calls.load(Ordering::SeqCst) >= wanted {
            return true;
        }
        thread::yield_now();
    }
    false
}

/// Gives up at once.
#[derive(Drop)]
pub(crate) struct ShutGate;

impl Gate for ShutGate {
    ghost use Rattle.std.specs.Prelude.{true};

    ghost may_give_up = { true };

    fn come<P: Wait>(&self, _rt: &P, _worker: u8, _slot: u64) -> bool {
        false
    }
}

/// Opens before a slot, and gives up there.
#[derive(Drop)]
pub(crate) struct OpenBefore {
    pub(crate) slot: u64,
}

impl Gate for OpenBefore {
    ghost use Rattle.std.specs.Prelude.{true};

    ghost may_give_up = { true };

    fn come<P: Wait>(&self, _rt: &P, _worker: u8, slot: u64) -> bool {
        slot < self.slot
    }
}

/// Opens to each worker at slots 0, 1, 2 and so on, once for each, and counts its calls.
#[derive(Drop)]
pub(crate) struct InTurn {
    calls: Vec<AtomicU64>,
}

impl InTurn {
    pub(crate) fn new(rt: &impl Abort, alloc: Global, workers: u8) -> InTurn {
        let mut calls = Vec::new(alloc);
        for _ in 0..workers {
            calls.push(AtomicU64::new(0)).expect(rt, "memory");
        }
        InTurn { calls }
    }

    /// Whether each worker has come so often.
    pub(crate) fn has_opened(&self, often: u64) -> bool {
        self.calls
            .iter()
            .all(|calls| calls.load(Ordering::SeqCst) == often)
    }
}

impl Gate for InTurn {
    ghost use Rattle.std.specs.Prelude.{true};

    ghost may_give_up = { true };

    fn come<P: Wait>(&self, _rt: &P, worker: u8, slot: u64) -> bool {
        match self.calls.get(worker as usize) {
            Some(calls) => calls.fetch_add(1, Ordering::SeqCst) == slot,
            None => false,
        }
    }
}
