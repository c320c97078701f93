//! The laws of members over boundaries, and the theorem that no admitted task misses.
//!
//! Each function states one law and does nothing. Slots count from the first run's first slot, and
//! each law holds of a first run and of each run that follows, with the members that the last one
//! left, whatever the numbers of slots of the runs before.
ghost use Rattle.pfair_in_time.specs.Runs.{DispatchersNeverMiss, DispatchersRunOn, NeverMisses, BooksShowLags, LagsStayWithinOne, NoneMisses, WindowsAreKept, DeadlinesAreKept};
ghost use Rattle.pfair_in_time.specs.Laws.{BoundariesKeepMembers};
ghost use Rattle.pfair_in_time.specs.Schedules.{TablesRepeat, RepeatsByPeriods, ServedWhereThereIsRoom, NoneServesMore};

use pfair_lag::laws::{lags_keep_deadlines, lags_keep_windows};
use pfair_table::laws::one_schedule;

/// No admitted task misses its deadline. Whatever a replica holds, by the tables that follow from it,
/// each row of a slot is that of a member's next subtask, before its deadline and, unless the task may
/// run early, from its release on; and after the slot the deadline of the next subtask of each member
/// that isn't departing is still to come. Premises: a frame of at least one slot, and replicas that
/// hold what their contracts say, for this run and for those before it.
#[tactic(auto, using(crate::proofs::ThroughRuns::none_misses))]
pub fn none_misses()
    ensures { NoneMisses }
{}

/// No admitted task misses its deadline by a dispatcher's plan, whatever events the dispatcher had:
/// while its replica has nothing torn, each slot that it has planned has the table that follows from
/// the replica, and is served as [`none_misses`] says.
pub fn dispatchers_never_miss()
    ensures { DispatchersNeverMiss }
{
    // a dispatcher is alike to itself
    one_schedule();
}

/// No admitted task misses its deadline by what a concrete dispatcher has planned, after any calls:
/// while its replica has nothing torn, each of these slots has the table that follows from the
/// replica, and is served as [`none_misses`] says.
///
/// Premises: what the calls of each dispatcher ensure of it. If its run isn't the first, the
/// dispatchers of the runs before, each of which was handed on by
/// [`next_run`](pfair_table::Dispatcher::next_run).
#[tactic(auto, using(crate::proofs::ThroughRuns::never_misses))]
pub fn never_misses()
    ensures { NeverMisses }
{}

/// A dispatcher that `next_run` gave is in a run after those of the dispatchers before it, so that
/// all laws of runs hold of it.
#[tactic(auto, using(crate::proofs::ThroughRuns::dispatchers_run_on))]
pub fn dispatchers_run_on()
    ensures { DispatchersRunOn }
{}

/// If a member isn't departing, isn't early and has no delay, each of its subtasks that has run did so
/// in its window, counted from the slot from which its subtasks count, and each that was due has run,
/// in whichever run that was. So its lag stays strictly between -1 and 1 (`lags_keep_windows` of
/// `pfair_lag`).
#[tactic(auto, using(crate::proofs::ThroughRuns::windows_are_kept))]
pub fn windows_are_kept()
    ensures { WindowsAreKept }
{}

/// If a member isn't departing and has no delay, early or not, each of its subtasks that has run did
/// so before its deadline, and each that was due has run. So its lag stays below 1
/// (`lags_keep_deadlines` of `pfair_lag`).
#[tactic(auto, using(crate::proofs::ThroughRuns::deadlines_are_kept))]
pub fn deadlines_are_kept()
    ensures { DeadlinesAreKept }
{}

/// The lag of a member that isn't departing and has no delay is below one quantum after each slot and,
/// unless the task is early, above minus one: as a numerator, less than the period, and greater than
/// minus the period.
pub fn lags_stay_within_one()
    ensures { LagsStayWithinOne }
{
    lags_keep_windows();
    lags_keep_deadlines();
}

/// Lags go on from run to run: a book that begins with the members of a run, each with the slots and
/// quanta that it had before, and is notified of the run's slots, has after each of them the members
/// that stay, each with its lag. By `runs_go_on` of `pfair_table` these are the lags that they have in
/// the one long run.
#[tactic(auto, using(crate::proofs::ThroughRuns::books_show_lags))]
pub fn books_show_lags()
    ensures { BooksShowLags }
{}

/// A set that starts together and fits is served: let nothing be announced but arrivals at slot 0,
/// under distinct names and with periods that divide the frame. All are admitted exactly if in a frame
/// they need no more quanta than its slots have on all processors, and then each has by each of its
/// deadlines the quanta that are due.
pub fn served_where_there_is_room()
    ensures { ServedWhereThereIsRoom }
{}

/// If a set that starts together doesn't fit, no scheduler can meet all its deadlines: if the
/// arrivals of [`served_where_there_is_room`] need more quanta than that, then by any tables with
/// at most as many rows in a slot as there are processors, some task is late at one of its
/// deadlines up to the end of the frame.
pub fn none_serves_more()
    ensures { NoneServesMore }
{}

/// A static schedule repeats: let nothing be announced but arrivals at slot 0, and let h be a common
/// multiple of the periods of those that are admitted. Then the table of slot t + h is that of slot t,
/// with each subtask's index greater by the quanta that its task has in h slots, cost * h / period.
#[tactic(auto, using(crate::proofs::Repeats::tables_repeat))]
pub fn tables_repeat()
    ensures { TablesRepeat }
{}

/// So the first h tables give those of all slots, without a bound: the table of slot t is that of slot
/// t mod h, with each index greater by the quanta that its task has in the whole cycles before.
#[tactic(auto, using(crate::proofs::Repeats::repeats_by_periods))]
pub fn repeats_by_periods()
    ensures { RepeatsByPeriods }
{}

/// Each member after a boundary was a member before it or joined at it, and each member before it is
/// still one or is freed. A member's offsets never fall, and those of subtasks that ran, or whose
/// release is before the boundary, stay.
#[tactic(auto, using(crate::proofs::Worlds::boundaries_keep_members))]
pub fn boundaries_keep_members()
    ensures { BoundariesKeepMembers }
{}
