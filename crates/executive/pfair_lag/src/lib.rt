//! Lags of tasks, and whether the slots in which a task ran lie in the windows of its subtasks.
//!
//! The lag of a task at time t is its weight's share of the t slots before, less the quanta that it
//! received in them: `(e/p) * t - A(t)` for a weight of cost e and period p. It is kept as the
//! numerator `e * t - p * A(t)` over p. A schedule is proportionate-fair (Pfair) for a task if its
//! lag stays strictly between -1 and 1 at all times, and it is so exactly if each subtask runs
//! in its window (Baruah, Cohen, Plaxton and Varvel 1996). If tasks may run ahead of their
//! windows (early release, ERfair; Anderson and Srinivasan) the lag need only stay below 1, which
//! it does exactly if each subtask runs before its deadline. Both are tested here in both forms,
//! for any schedule.
#![tactic(auto)]

mod book;
mod deadlines;
mod fault;
mod lag;
pub mod laws;
mod windows;

pub use book::LagBook;
pub use deadlines::{first_late, meets_deadlines};
pub use fault::PickFault;
pub use lag::{lag_below, lag_within};
use pfair_table::Settings;
pub use windows::{Miss, first_miss, in_windows};

/// The last time up to which schedules are tested, in slots.
pub const MAX_HORIZON: u64 = Settings::MAX_SLOTS;
