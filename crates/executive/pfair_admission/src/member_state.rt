//! Members as a run begins with them.
ghost use Rattle.std.specs.Prelude.{◌≡◌, ◌+◌, nat_le, sum_by};
ghost use Rattle.std.specs.List.{list_all};
ghost use Rattle.pfair_weight.specs.Window.{IsWeight};
ghost use Rattle.pfair_admission.specs.Carried.{is_left_at, is_summed_up, member_in};

use crate::decision::Refusal;
use crate::delay::{Delay, leaves_room};
use crate::incarnation::has_come;
use pfair_entry::Entry;
use pfair_weight::{TaskName, Weight};
use std::alloc::AllocError;
use thiserror::Error;

/// A member as a run begins with it: what [`Members::carried`] makes of it, and what
/// [`Members::restore`] makes a member of.
#[derive(Debug, Drop)]
pub struct MemberState {
    /// The task's name.
    pub name: TaskName,
    /// The task's weight.
    pub weight: Weight,
    /// Whether it may run early.
    pub early: bool,
    /// The slot in which it counts as joined.
    pub joined: u64,
    /// The index of its next subtask, from 1.
    pub next: u64,
    /// The slot from which its weight and its name are free, if it is departing.
    pub freed_at: Option<u64>,
    /// Its accepted delays: one of subtask 1 for all of subtasks that ran, and those to come.
    pub delays: Vec<Delay>,
}

/// Why a member can't be restored.
#[derive(Clone, Copy, Debug, PartialEq, Eq, Error)]
pub enum RestoreFault {
    /// No task of this name and weight would be admitted.
    #[error("{0}")]
    NotAdmitted(Refusal),
    /// No run leaves such a member to a next one.
    #[error("not left by a run")]
    NotLeft,
    /// An allocation failed.
    #[error("out of memory")]
    Memory,
}

impl From<AllocError> for RestoreFault {
    ghost use Rattle.pfair_admission.specs.declared.member_state.RestoreFault.TheVariants.{Memory};

    ghost from_gives = { λ _ r. r ≡ Memory };

    fn from(_error: AllocError) -> RestoreFault {
        RestoreFault::Memory
    }
}

impl MemberState {
    // Whether a run that ended before the slot can have left it.
    pub(crate) fn is_left_at(&self, slot: u64) -> bool
        ensures value { result ≡ is_left_at slot (member_in self.now) }
        ensures weight { IsWeight self.now.weight.cost self.now.weight.period }
    {
        let cost = self.weight.cost();
        if cost > Entry::LAST_INDEX || self.next < 1 || self.next > cost + 1 {
            return false;
        }
        if self.joined >= slot || has_come(self.freed_at, slot - 1) {
            return false;
        }
        is_summed_up(&self.delays, self.next) && leaves_room(&self.delays, self.joined)
    }
}

// Whether all delays but the first are of subtask `next` or later ones, and so is the first, or it is of subtask 1.
fn is_summed_up(delays: &[Delay], next: u64) -> bool
    ensures { result ≡ is_summed_up next delays.now }
{
    match delays.split_first() {
        Some((first, later)) => {
            (first.index == 1 || first.index >= next) && are_to_come(later, next)
        }
        None => true,
    }
}

fn are_to_come(delays: &[Delay], next: u64) -> bool
    ensures { result ≡ list_all (λ d. nat_le next d.index) delays.now }
{
    delays.iter().all(|d| d.index >= next)
}
