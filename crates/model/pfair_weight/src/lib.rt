//! Task names, weights, and the windows of their subtasks.
//!
//! Time is counted in slots and work in quanta: slot t is the time from t to t + 1, and a task gets
//! at most one quantum in it. A task's weight is a cost of e quanta in each period of p slots, and
//! its i-th quantum, counted from 1, serves subtask i. Each subtask has a window of slots in which
//! it has to run, at an offset from which the task's time is counted (Baruah, Cohen, Plaxton and
//! Varvel, 1996; the offset, the b-bit and the group deadline are those of Anderson and
//! Srinivasan's papers on PD2 and on intra-sporadic tasks).
#![tactic(auto)]

pub mod laws;
mod name;
pub(crate) mod stepper;
mod weight;
mod window;

pub use name::{NameFault, TaskName};
pub use stepper::Stepper;
pub use weight::{Weight, WeightFault};
pub use window::{MAX_INDEX, MAX_OFFSET, b_bit, deadline, group_deadline, release, starts_job};
