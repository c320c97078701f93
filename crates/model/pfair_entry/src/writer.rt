//! A processor's writer of its own log.
ghost use Rattle.std.specs.Prelude.{◌≡◌, ◌+◌, ◌<◌, ◌≤◌, IfOk, IfErr, OnErr};
ghost use Rattle.pfair_entry.specs.Entry.{IsEntry};
ghost use Rattle.pfair_entry.specs.Writer.{IsNote, IsNoteFaultOf, note_fault_number};

use crate::entry::{Announcement, Entry, EntryFault};
use std::marker::Model;
use thiserror::Error;

/// Why a note is not the next entry of its log.
#[derive(Clone, Copy, PartialEq, Eq, Debug, Error)]
pub enum NoteFault {
    /// The log has as many entries as it has room for.
    #[error("log full")]
    LogFull,
    /// The floor is lower than that of the entry before.
    #[error("floor fell")]
    FloorFell,
    /// The floor and the announcement make no entry.
    #[error(transparent)]
    Refused(EntryFault),
}

impl NoteFault {
    /// Returns the number under which the fault is reported: 12 and 11, or that of the entry's fault.
    pub fn number(&self) -> u8
        ensures { result ≡ note_fault_number self.now }
    {
        match self {
            NoteFault::FloorFell => 11,
            NoteFault::LogFull => 12,
            NoteFault::Refused(fault) => fault.number(),
        }
    }
}

/// Writes one processor's log: numbers its entries 1, 2, 3 and so on, and keeps their floors from
/// falling.
#[derive(Debug, Drop)]
pub struct Writer {
    capacity: u32,
    written: u32,
    floor: u64,
}

impl Model for Writer {
    ghost use Rattle.std.specs.Prelude.{◌≤◌};
    ghost use Rattle.pfair_entry.specs.Writer.{Written};

    ghost Value = { Written };

    ghost view = { λ w. record { capacity = w.capacity; written = w.written; floor = w.floor } };

    ghost invariant = { λ w. w.written ≤ w.capacity };
}

impl Writer {
    /// The most entries of a log.
    pub const LONGEST_LOG: u32 = 4_096;

    /// Creates the writer of an empty log that has room for `capacity` entries.
    pub fn new(capacity: u32) -> Writer
        ensures { result ≡ record { capacity = capacity; written = 0; floor = 0 } }
    {
        Writer {
            capacity,
            written: 0,
            floor: 0,
        }
    }

    /// Returns the next entry of the log, after its number, which is counted from 1.
    ///
    /// # Errors
    /// The first of these that applies, and then the writer is unchanged: `LogFull`, `FloorFell`,
    /// and `Refused` as [`Entry::new`] refuses.
    pub fn note(
        &mut self,
        floor: u64,
        said: Option<(u64, Announcement)>,
    ) -> Result<(u32, Entry), NoteFault>
        ensures number { IfOk result (λ n. n.0 ≡ self.old.written + 1) }
        ensures entry { IfOk result (λ n. (n.1 ≡ record { floor = floor; said = said }) × IsEntry n.1) }
        ensures room { IfOk result (λ _. (self.old.written < self.old.capacity) × (self.old.floor ≤ floor)) }
        ensures after { IfOk result (λ n. self.new ≡ record self.old { written = n.0; floor = floor }) }
        ensures noted { IfOk result (λ n. IsNote self.old n self.new) }
        ensures err { IfErr result (IsNoteFaultOf self.old (record { floor = floor; said = said })) }
        ensures unchanged { OnErr result (self.new ≡ self.old) }
    {
        if self.written == self.capacity {
            return Err(NoteFault::LogFull);
        }
        if floor < self.floor {
            return Err(NoteFault::FloorFell);
        }
        let entry = Entry::new(floor, said).map_err(NoteFault::Refused)?;
        self.written += 1;
        self.floor = floor;
        Ok((self.written, entry))
    }
}
