//! What the commands of `pfair` write, over any reader and writer: the tables, decisions and lags of
//! task files, and the windows of a weight.
#![tactic(auto)]

mod fault;
mod schedule_rows;
mod tables;
mod window_rows;

pub use fault::write_fault;
pub use pfair_file::ProgramFault;
pub use schedule_rows::{decisions, lags};
pub use tables::{replay, replay_placed};
pub use window_rows::windows;
