//! What processors announce of tasks, and the entries of their logs.
ghost use Rattle.std.specs.Prelude.{◌≡◌, Some, IfOk, IfErr};
ghost use Rattle.pfair_entry.specs.Entry.{name_of, IsEntry, entry_fault, entry_fault_number};

use pfair_lattice::Exact;
use pfair_weight::{TaskName, Weight};
use std::marker::Model;
use thiserror::Error;

/// What a processor announces of a task: that it arrives, that it departs, or that its subtasks
/// come late.
///
/// Late subtasks are those of an intra-sporadic task, early ones those of a task with early release
/// (Anderson and Srinivasan, 2000).
#[derive(Clone, Copy, Debug, PartialEq, Eq)]
pub enum Announcement {
    /// A task arrives, and its windows count from the slot of the announcement.
    Arrive {
        /// The name under which it is known until it is gone.
        name: TaskName,
        /// Its share of a processor.
        weight: Weight,
        /// Whether a subtask may run before its release, as soon as the subtask before it in the
        /// same job has run.
        early: bool,
    },
    /// A task departs: it gets no more quanta, and its weight is free once its last window and group
    /// deadline allow it.
    Depart {
        /// The task's name.
        name: TaskName,
    },
    /// From one subtask of a task on, all are released later.
    Late {
        /// The task's name.
        name: TaskName,
        /// The first subtask that is late, counted from 1; at most
        /// [`Entry::LAST_INDEX`](crate::entry::Entry::LAST_INDEX).
        index: u64,
        /// By how many slots; at least 1, at most
        /// [`Entry::LONGEST_DELAY`](crate::entry::Entry::LONGEST_DELAY).
        by: u64,
    },
}

impl Exact for Announcement {
    ghost use Rattle.std.proofs.Common.{rules};

    ghost exact = { λ x y. Prim.search rules };
}

impl Announcement {
    /// Returns the name of the task that it is about.
    pub fn name(&self) -> TaskName
        ensures { result ≡ name_of self.now }
    {
        match self {
            Announcement::Arrive { name, .. }
            | Announcement::Depart { name }
            | Announcement::Late { name, .. } => *name,
        }
    }
}

/// The most processors, each with a log of its own.
pub const MAX_PROCESSORS: u8 = 64;

/// An announcement, and the entry that makes it.
#[derive(Clone, Copy, Debug, PartialEq, Eq)]
pub struct Said {
    /// The processor in whose log the entry stands, counted from 0.
    pub proc: u8,
    /// The entry's number in that log, counted from 1.
    pub number: u32,
    /// What is announced.
    pub announcement: Announcement,
}

/// Why a floor and an announcement make no entry.
#[derive(Clone, Copy, PartialEq, Eq, Debug, Error)]
pub enum EntryFault {
    /// The floor or the stamp is past [`Entry::LAST_SLOT`].
    #[error("slot too far")]
    StampTooFar,
    /// The stamp is before the floor.
    #[error("stamp before floor")]
    StampBeforeFloor,
    /// The index of the first late subtask is 0 or past [`Entry::LAST_INDEX`].
    #[error("bad index")]
    BadIndex,
    /// The delay is 0 or longer than [`Entry::LONGEST_DELAY`].
    #[error("bad delay")]
    BadDelay,
}

impl EntryFault {
    /// Returns the number under which the fault is reported: 8, 7, 10 and 9, in the order of the
    /// variants.
    pub fn number(&self) -> u8
        ensures { result ≡ entry_fault_number self.now }
    {
        match self {
            EntryFault::StampBeforeFloor => 7,
            EntryFault::StampTooFar => 8,
            EntryFault::BadDelay => 9,
            EntryFault::BadIndex => 10,
        }
    }
}

/// One entry of a processor's log: a floor, and perhaps an announcement with its stamp. Floor and
/// stamp are slots.
///
/// By the floor the processor commits itself: from this entry on nothing in its log is stamped
/// before it. The stamp is the slot at whose boundary the announcement is decided.
#[derive(Clone, Copy, Debug, PartialEq, Eq)]
pub struct Entry {
    floor: u64,
    said: Option<(u64, Announcement)>,
}

impl Model for Entry {
    ghost use Rattle.pfair_entry.specs.Entry.{Logged, IsEntry};

    ghost Value = { Logged };

    ghost view = { λ e. record { floor = e.floor; said = e.said } };

    ghost invariant = { λ e. IsEntry (record { floor = e.floor; said = e.said }) };

    ghost inverse = { λ l. record { floor = l.floor; said = l.said } };
}

impl Exact for Entry {
    ghost use Rattle.std.proofs.Common.{rules};

    ghost exact = { λ x y. Prim.search rules };
}

impl Entry {
    /// The last slot that a floor or a stamp may name.
    pub const LAST_SLOT: u64 = 1_000_000;

    /// The last subtask from which on a task may come late, counted from 1: at most one for each slot.
    pub const LAST_INDEX: u64 = Entry::LAST_SLOT;

    /// The longest delay, in slots.
    pub const LONGEST_DELAY: u64 = 1_048_576;

    /// Creates the entry with this floor, and perhaps an announcement with its stamp.
    ///
    /// # Errors
    /// The first of these that applies: `StampTooFar`, `StampBeforeFloor`, `BadIndex`, `BadDelay`.
    pub fn new(floor: u64, said: Option<(u64, Announcement)>) -> Result<Entry, EntryFault>
        ensures ok { IfOk result (λ e. (e ≡ record { floor = floor; said = said }) × IsEntry e) }
        ensures err { IfErr result (λ fault. entry_fault (record { floor = floor; said = said }) ≡ Some fault) }
    {
        if floor > Entry::LAST_SLOT {
            return Err(EntryFault::StampTooFar);
        }
        let Some((stamp, announcement)) = &said else {
            return Ok(Entry { floor, said });
        };
        if *stamp > Entry::LAST_SLOT {
            return Err(EntryFault::StampTooFar);
        }
        if *stamp < floor {
            return Err(EntryFault::StampBeforeFloor);
        }
        match announcement {
            // a weight is within its limits
            Announcement::Arrive { weight, .. } => prove!(weight.cost() >= 1),
            Announcement::Depart { .. } => {}
            Announcement::Late { index, by, .. } => {
                if *index == 0 || *index > Entry::LAST_INDEX {
                    return Err(EntryFault::BadIndex);
                }
                if *by == 0 || *by > Entry::LONGEST_DELAY {
                    return Err(EntryFault::BadDelay);
                }
            }
        }
        Ok(Entry { floor, said })
    }

    /// Returns the slot before which nothing is stamped from this entry on; at most
    /// [`Entry::LAST_SLOT`].
    pub fn floor(&self) -> u64
        ensures value { result ≡ self.now.floor }
        ensures entry { IsEntry self.now }
    {
        self.floor
    }

    /// Returns the announcement, with the slot of its stamp, which is at or after the floor and at
    /// most [`Entry::LAST_SLOT`].
    pub fn said(&self) -> Option<(u64, Announcement)>
        ensures value { result ≡ self.now.said }
        ensures entry { IsEntry self.now }
    {
        self.said
    }
}
