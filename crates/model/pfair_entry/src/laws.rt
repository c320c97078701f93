//! The laws of names, of entries and of logs. Each function does nothing: its contract is the law.
ghost use Rattle.pfair_lattice.specs.Held.{IsExact};
ghost use Rattle.pfair_entry.specs.Writer.{EveryLogRises};

use crate::entry::Entry;
use pfair_weight::TaskName;

/// `==` of names holds of names with the same bytes, and of no others.
#[tactic(auto, using(crate::specs::Entry::names_exact))]
pub fn names_are_told_apart()
    ensures { IsExact ⟦<TaskName as PartialEq>⟧.eq }
{}

/// `==` of entries holds of entries with the same floor, stamp and announcement, and of no others.
pub fn entries_are_told_apart()
    ensures { IsExact ⟦<Entry as PartialEq>⟧.eq }
{}

/// The notes that a writer accepts are numbered 1, 2, 3 and so on, as many as there are, and their
/// floors never fall.
#[tactic(auto, using(crate::proofs::Notes::every_log_rises))]
pub fn notes_rise()
    ensures { EveryLogRises }
{}
