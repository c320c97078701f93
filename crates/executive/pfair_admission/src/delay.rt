//! Late releases that were accepted.
ghost use Rattle.std.specs.Prelude.{◌≡◌, ◌==◌, ◌+◌, ◌<◌, ◌≤◌, ◌^◌, IfOk, sum_by, filter, nat_le, nat_lt};
ghost use Rattle.std.specs.List.{list_any};
ghost use Rattle.pfair_admission.specs.Carried.{delays_from};

use crate::members::Members;
use std::alloc::{AllocError, Global};

/// A late release that was accepted: subtask `index` and all after it come `by` slots later.
#[derive(Clone, Copy, Debug, PartialEq, Eq)]
pub struct Delay {
    /// The first subtask that comes later, from 1.
    pub index: u64,
    /// By how many slots.
    pub by: u64,
}

pub(crate) fn delay_up_to(delays: &[Delay], index: u64) -> u64
    requires { sum_by (λ d. d.by) delays.now < 2 ^ 64 }
    ensures { result ≡ sum_by (λ d. d.by) (filter (λ d. nat_le d.index index) delays.now) }
{
    delays
        .iter()
        .filter(|d| d.index <= index)
        .map(|d| d.by)
        .sum()
}

pub(crate) fn is_delayed_at(delays: &[Delay], index: u64) -> bool
    ensures { result ≡ list_any (λ d. d.index == index) delays.now }
{
    delays.iter().any(|d| d.index == index)
}

/// Whether a slot put off by all delays is at most the last of a boundary.
pub(crate) fn leaves_room(delays: &[Delay], slot: u64) -> bool
    ensures { result ≡ nat_le (slot + sum_by (λ d. d.by) delays.now) Members.LAST_SLOT }
{
    let mut end = slot;
    for delay in delays {
        end = end.saturating_add(delay.by);
    }
    end <= Members::LAST_SLOT
}

fn has_passed(delays: &[Delay], next: u64) -> bool
    ensures { result ≡ list_any (λ d. nat_lt d.index next) delays.now }
{
    delays.iter().any(|d| d.index < next)
}

/// The delays of a carried member: those before subtask `next` as one, of subtask 1, and the others
/// at lower indexes.
#[tactic(auto, using(crate::proofs::Carrying::none_passed, crate::proofs::Carrying::some_passed, crate::proofs::Carrying::before_next))]
pub(crate) fn carried_delays(
    alloc: Global,
    delays: &[Delay],
    next: u64,
    subtasks: u64,
) -> Result<Vec<Delay>, AllocError>
    requires sum { sum_by (λ d. d.by) delays.now < 2 ^ 64 }
    requires earlier { subtasks < next }
    ensures { IfOk result (λ all. all.items ≡ delays_from next subtasks delays.now) }
{
    let mut all = Vec::new(alloc);
    if has_passed(delays, next) {
        let by = delay_up_to(delays, next - 1);
        all.push(Delay { index: 1, by })?;
    }
    for delay in delays {
        if delay.index >= next {
            let index = delay.index - subtasks;
            let by = delay.by;
            all.push(Delay { index, by })?;
        }
    }
    Ok(all)
}
