//! Announcements before they are checked, as a file, a row or C has them: their kinds and fields.
ghost use Rattle.std.specs.Prelude.{◌≡◌, IfOk, ◌≢◌, IfNone, IfSome};
ghost use Rattle.pfair_entry.specs.Notice.{checked, notice_fault_number, unchecked, IsLoggable};
ghost use Rattle.pfair_entry.specs.Kinds.{change_of, kind_name, kind_named};
ghost use Rattle.pfair_entry.specs.declared.notice.Kind.{Kind};

use crate::entry::{Announcement, Entry, EntryFault};
use pfair_weight::{NameFault, TaskName, Weight, WeightFault};
use thiserror::Error;

/// What is announced of a task, in unchecked numbers.
#[derive(Clone, Copy)]
pub enum Change {
    /// It arrives.
    Arrive {
        /// Its quanta in each period.
        cost: u64,
        /// The slots of a period.
        period: u64,
        /// Whether its subtasks may run early.
        early: bool,
    },
    /// It departs.
    Depart,
    /// Its subtasks come late.
    Late {
        /// The first of them, counted from 1.
        index: u64,
        /// By how many slots.
        by: u64,
    },
}

/// An announcement before it is checked.
#[derive(Clone, Copy)]
pub struct Notice<'a> {
    /// The slot of the stamp.
    pub at: u64,
    /// The bytes of the task's name.
    pub name: &'a [u8],
    /// What is announced.
    pub change: Change,
}

/// Why a floor and a notice make no entry, or none that a log can have.
#[derive(Clone, Copy, Debug, PartialEq, Eq, Error)]
pub enum NoticeFault {
    /// Number 12: the log has as many entries as there is room for.
    #[error("log full")]
    LogFull,
    /// Numbers 1 to 3: the name is no task's name.
    #[error(transparent)]
    Name(NameFault),
    /// Numbers 4 to 6: cost and period make no weight.
    #[error(transparent)]
    Weight(WeightFault),
    /// Numbers 7 to 10: floor, stamp and announcement make no entry.
    #[error(transparent)]
    Entry(EntryFault),
}

impl NoticeFault {
    /// Returns the number under which the fault is reported: 12, or that of the fault that it has.
    pub fn number(&self) -> u8
        ensures { result ≡ notice_fault_number self.now }
    {
        match self {
            NoticeFault::LogFull => 12,
            NoticeFault::Name(fault) => fault.number(),
            NoticeFault::Weight(fault) => fault.number(),
            NoticeFault::Entry(fault) => fault.number(),
        }
    }
}

/// Returns the entry with this floor, and perhaps an announcement.
///
/// # Errors
/// The first of these that applies: `Name`, `Weight` and `Entry`.
#[tactic(auto, using(crate::proofs::Refusals::first_faults))]
pub fn checked_entry(floor: u64, notice: Option<Notice<'_>>) -> Result<Entry, NoticeFault>
    ensures checked { result ≡ checked (unchecked floor notice.entry) }
    ensures entry { IfOk result (λ made. (made ≡ unchecked floor notice.entry) × IsLoggable made) }
{
    let Some(notice) = notice else {
        return Entry::new(floor, None).map_err(NoticeFault::Entry);
    };
    let name = TaskName::from_bytes(notice.name).map_err(NoticeFault::Name)?;
    let announcement = match notice.change {
        Change::Arrive {
            cost,
            period,
            early,
        } => {
            let weight = Weight::new(cost, period).map_err(NoticeFault::Weight)?;
            Announcement::Arrive {
                name,
                weight,
                early,
            }
        }
        Change::Depart => Announcement::Depart { name },
        Change::Late { index, by } => Announcement::Late { name, index, by },
    };
    Entry::new(floor, Some((notice.at, announcement))).map_err(NoticeFault::Entry)
}

/// What is announced of a task.
#[derive(Clone, Copy, PartialEq, Eq, Debug)]
pub enum Kind {
    /// It arrives: cost, period, and whether it is early.
    Arrive,
    /// It departs.
    Depart,
    /// Its subtasks come late: the first of them, and by how many slots.
    Late,
}

impl Kind {
    /// Returns the kind that files and rows name so.
    pub fn named(name: &[u8]) -> Option<Kind>
        ensures value { result ≡ kind_named name.now }
        ensures some { IfSome result (λ kind. name.now ≡ kind_name kind) }
        ensures none { IfNone result ((kind : Kind) → name.now ≢ kind_name kind) }
    {
        if name == b"arrive".as_slice() {
            return Some(Kind::Arrive);
        }
        if name == b"depart".as_slice() {
            return Some(Kind::Depart);
        }
        if name == b"late".as_slice() {
            return Some(Kind::Late);
        }
        None
    }
}

/// The fields of all kinds, each as it was read, or why it wasn't.
#[derive(Clone, Copy)]
pub struct ChangeFields<E> {
    /// The quanta of each period of a task that arrives.
    pub cost: Result<u64, E>,
    /// The slots of a period.
    pub period: Result<u64, E>,
    /// Whether its subtasks may run early.
    pub early: Result<bool, E>,
    /// The first subtask that comes late, counted from 1.
    pub index: Result<u64, E>,
    /// By how many slots.
    pub by: Result<u64, E>,
}

impl<E: Copy> ChangeFields<E> {
    /// Returns the change of this kind.
    ///
    /// # Errors
    /// Why the first of the kind's own fields wasn't read, in the order above.
    pub fn change(self, kind: Kind) -> Result<Change, E>
        ensures { result ≡ change_of kind self }
    {
        match kind {
            Kind::Arrive => Ok(Change::Arrive {
                cost: self.cost?,
                period: self.period?,
                early: self.early?,
            }),
            Kind::Depart => Ok(Change::Depart),
            Kind::Late => Ok(Change::Late {
                index: self.index?,
                by: self.by?,
            }),
        }
    }
}
