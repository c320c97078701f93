//! The laws of windows, of jobs and of names, for every weight, subtask and offset.
//!
//! Each function states one law and does nothing.
ghost use Rattle.pfair_weight.specs.Laws.{NoWindowIsEmpty, WindowsRise, WindowsMeet, WindowsByShare, GroupDeadlines, DelaysShift, JobsFillPeriods, JobsRepeat, NamesInByteOrder};

use crate::name::TaskName;

/// Each window opens before it closes.
#[tactic(auto, using(crate::specs::WindowFacts::window_not_empty))]
pub fn no_window_is_empty()
    ensures { NoWindowIsEmpty }
{}

/// Of two subtasks the later one's window opens later and closes later.
pub fn windows_rise()
    ensures { WindowsRise }
{}

/// The next window opens where this one closes, or with a b-bit of 1 one slot before: two windows
/// in a row share at most one slot, and no slot lies between them.
#[tactic(auto, using(crate::specs::WindowFacts::windows_overlap, crate::specs::WindowFacts::b_bit_at_most_one))]
pub fn windows_meet()
    ensures { WindowsMeet }
{}

/// Slot s after the offset lies in the window of subtask i exactly if the weight's share of the
/// s + 1 slots up to its end is more than i - 1 quanta, and that of the s slots before it less
/// than i quanta. This is what keeps a task's lag between -1 and 1 (Baruah, Cohen, Plaxton and
/// Varvel, 1996).
pub fn windows_by_share()
    ensures { WindowsByShare }
{}

/// A group deadline is 0 for a light weight and the deadline for a weight of 1. For a heavy weight
/// it is never before the deadline, at most a period after it, and no earlier for a later subtask.
pub fn group_deadlines()
    ensures { GroupDeadlines }
{}

/// A greater offset puts a window, and the group deadline of a heavy weight, off by as many slots.
pub fn delays_shift()
    ensures { DelaysShift }
{}

/// The subtasks that start a job are the first of each run of as many subtasks as the cost says.
/// The first is released where a period begins and the last is due where it ends, with b-bit 0.
pub fn jobs_fill_periods()
    ensures { JobsFillPeriods }
{}

/// All that PD2 looks at repeats after a job: some jobs later a window opens and closes as many
/// periods later, with the same b-bit, and a heavy weight's group deadline is as much later.
pub fn jobs_repeat()
    ensures { JobsRepeat }
{}

/// `==` of names is true exactly if their bytes are identical. By `cmp` a proper prefix
/// of a name goes before it, and else the first byte that differs decides.
pub fn names_in_byte_order()
    ensures { NamesInByteOrder ⟦<TaskName as PartialEq>⟧.eq ⟦<TaskName as Ord>⟧.cmp }
{}
