//! Entries and names, as C has them.
ghost use Rattle.std.specs.Prelude.{◌≡◌, ◌<◌, IfOk, IfErr, OnOk};
ghost use Rattle.pfair_c.specs.Entries.{entry_row, change_of, logged_of, IsInRange, IsMeant, IsEntryFault};
ghost use Rattle.pfair_c.specs.Rows.{name_row};

use crate::answer::OUT_OF_RANGE;
use pfair_entry::{Announcement, Change, Entry, Notice, checked_entry};
use pfair_weight::TaskName;

/// An entry of a log.
#[repr(C)]
#[derive(Clone, Copy, Default)]
pub struct PfairEntry {
    /// From this entry on nothing is stamped before this slot.
    pub floor: u64,
    /// What is announced: 0 nothing, 1 an arrival, 2 a departure, 3 a late release.
    pub kind: u64,
    /// The stamp, if something is announced.
    pub at: u64,
    /// The task, if something is announced.
    pub name: PfairName,
    /// Of an arrival: the quanta of each period.
    pub cost: u64,
    /// Of an arrival: the slots of a period.
    pub period: u64,
    /// Of an arrival: 1 if subtasks may run early, else 0.
    pub early: u64,
    /// Of a late release: the first subtask that comes late.
    pub index: u64,
    /// Of a late release: by how many slots.
    pub by: u64,
}

/// Returns the entry that C's fields make, or the number of the first fault that applies: a field out of
/// its range (100), then the name's fault, the weight's, the entry's.
pub(crate) fn read_entry(entry: &PfairEntry) -> Result<Entry, u32>
    ensures ok { IfOk result (λ read. read ≡ logged_of entry.now) }
    ensures meant { OnOk result (IsMeant entry.now) }
    ensures err { IfErr result (IsEntryFault entry.now) }
    ensures numbered { IfErr result (λ number. (0 < number) × (10 < number → number ≡ 100)) }
{
    let change = match entry.kind {
        0 => None,
        1 if entry.early <= 1 => Some(Change::Arrive {
            cost: entry.cost,
            period: entry.period,
            early: entry.early == 1,
        }),
        2 => Some(Change::Depart),
        3 => Some(Change::Late {
            index: entry.index,
            by: entry.by,
        }),
        _ => return Err(OUT_OF_RANGE),
    };
    let notice = match change {
        None => None,
        Some(change) => {
            if entry.name.length > 16 {
                return Err(2);
            }
            let name = &entry.name.bytes[..entry.name.length as usize];
            Some(Notice {
                at: entry.at,
                name,
                change,
            })
        }
    };
    checked_entry(entry.floor, notice).map_err(|fault| fault.number() as u32)
}

pub(crate) fn entry_row(entry: &Entry) -> PfairEntry
    ensures { result ≡ entry_row entry.now }
{
    let silent = PfairEntry {
        floor: entry.floor(),
        ..PfairEntry::default()
    };
    let Some((at, announcement)) = entry.said() else {
        return silent;
    };
    let said = PfairEntry {
        at,
        name: name_row(&announcement.name()),
        ..silent
    };
    match announcement {
        Announcement::Arrive { weight, early, .. } => PfairEntry {
            kind: 1,
            cost: weight.cost(),
            period: weight.period(),
            early: early as u64,
            ..said
        },
        Announcement::Depart { .. } => PfairEntry { kind: 2, ..said },
        Announcement::Late { index, by, .. } => PfairEntry {
            kind: 3,
            index,
            by,
            ..said
        },
    }
}

/// A name: its first `length` bytes.
#[repr(C)]
#[derive(Clone, Copy, Default)]
pub struct PfairName {
    /// The bytes; in a name that is given out, zeros behind the name's own.
    pub bytes: [u8; 16],
    /// How many bytes the name has.
    pub length: u64,
}

pub(crate) fn name_row(name: &TaskName) -> PfairName
    ensures { result ≡ name_row name.now }
{
    let mut bytes = [0; 16];
    let own = name.as_bytes();
    bytes[..own.len()].copy_from_slice(own);
    PfairName {
        bytes,
        length: own.len() as u64,
    }
}
