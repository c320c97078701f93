//! The laws of fluid schedules and of busy bounds, for every weight, subtask and offset, and the
//! theorem of runs.
//!
//! Each function states one law and does nothing.
ghost use Rattle.pfair_optimal.specs.Laws.{SharesFillWindows, SharesFitSlots, GroupDeadlinesEndCascades, GroupDeadlinesAreLeast, BusyBoundsLast, RunsNeverMiss, BeginningsNeverMiss, SomeRunIsFull};

/// In the fluid schedule each subtask gets a quantum in its window and nothing outside of it: its
/// shares of slots are above 0 exactly in the window, at most the cost, and add up to the period.
#[tactic(auto, using(crate::proofs::BusyBounds::fill_windows))]
pub fn shares_fill_windows()
    ensures { SharesFillWindows }
{}

/// The shares of two subtasks of one task in a slot add up to at most the cost, and no three have a
/// share in one slot. If a b-bit is 1, the last share of that window and the first one of the next add
/// up to the cost.
#[tactic(auto, using(crate::proofs::BusyBounds::fit_slots))]
pub fn shares_fit_slots()
    ensures { SharesFitSlots }
{}

/// The group deadline of a heavy subtask with b-bit 1 is where its cascade ends: the first time from
/// its deadline on, k slots after it, at which the k-th subtask after it isn't due, or is due with
/// b-bit 0 (Anderson and Srinivasan).
#[tactic(auto, using(crate::proofs::BusyBounds::end_cascades))]
pub fn group_deadlines_end_cascades()
    ensures { GroupDeadlinesEndCascades }
{}

/// The group deadline of a heavy subtask is the papers': the least time from its deadline on at which
/// a cascade of windows of two slots ends, that is, at which some subtask of the task is due with
/// b-bit 0, or one slot before some subtask is due whose window has three slots (Anderson and
/// Srinivasan). The weight is below 1.
#[tactic(auto, using(crate::proofs::Cascades::group_deadlines_are_least))]
pub fn group_deadlines_are_least()
    ensures { GroupDeadlinesAreLeast }
{}

/// The busy bound, which is the group deadline of a heavy subtask and the deadline and b-bit of a
/// light one, is past each such cascade; and no subtask that is released before it has a greater share
/// of its first slot than the next subtask.
#[tactic(auto, using(crate::proofs::BusyBounds::bounds_last))]
pub fn busy_bounds_last()
    ensures { BusyBoundsLast }
{}

/// In a run no task misses a deadline. A run is plain data: the rows of each slot, the members, and
/// the final offsets. Its premises: each table has the first of the eligible subtasks in PD2 order,
/// each task holds its weight up to the busy bound of the last subtask that it ran, and the weights
/// held in a slot add up to at most the number of processors.
#[tactic(auto, using(crate::proofs::Counting::runs))]
pub fn runs_never_miss()
    ensures { RunsNeverMiss }
{}

/// The same for the beginning of a run: if the slots below a number keep the premises, no task misses
/// a deadline in them, whatever comes later. Offsets are those at the end of the beginning.
#[tactic(auto, using(crate::proofs::Counting::beginnings))]
pub fn beginnings_never_miss()
    ensures { BeginningsNeverMiss }
{}

/// The premises of a run don't contradict each other: two tasks of weight 1/2 that take turns on one
/// processor meet them, and fill it.
#[tactic(auto, using(crate::proofs::Halves::some_run))]
pub fn some_run_is_full()
    ensures { SomeRunIsFull }
{}
