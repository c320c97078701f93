//! A board of set-once cells, one for each entry of each log, and the desks that set and read them.
//!
//! The board has no lock. A [`Desk`] reads the entry of a cell and keeps it for good, and two desks
//! that meet hold the exact join of both. The module [`laws`] says that, whatever
//! desks do, none holds anything but entries of set cells.
#![tactic(auto)]

mod board;
mod desk;
mod fault;
pub mod laws;

pub use board::Board;
pub use desk::Desk;
pub use fault::PublishFault;
pub use pfair_replica::TakeFault as LookFault;
