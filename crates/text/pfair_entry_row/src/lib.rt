//! One entry of a log as a row of eleven fields: written, and read back.
#![tactic(auto)]

mod fault;
pub mod laws;
mod line;
mod read;
mod write;

pub use fault::RowFault;
pub use line::{cut, is_dash, read_number, read_truth};
pub use read::{LONGEST_ROW, read_row};
pub use write::{add_entry, truth_word};
