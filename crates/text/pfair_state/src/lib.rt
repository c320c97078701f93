//! The state in which a run begins, as rows: written down, so that a process that ends can begin
//! where it was, and that two machines can compare what they have.
#![tactic(auto)]

mod fault;
pub mod laws;
mod read;
mod rows;
mod write;

pub use fault::{ReadFault, Why};
pub use read::read_state;
pub use write::add_state;
