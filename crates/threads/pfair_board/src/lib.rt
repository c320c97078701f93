//! The dispatchers' threads, which share a board: set-once cells, one for each entry of each log.
//!
//! The board has no lock. A [`Desk`] reads the entry of a cell and keeps it for good, and two desks
//! that meet hold the exact join of both. The module [`laws`] says that, whatever
//! desks do, none holds anything but entries of set cells. In [`run_dispatchers`] each processor of
//! a script has a thread with a desk and a log of its own, which works out every slot by itself; in
//! [`run_dispatchers_into`] the first one's tables go to a [`Sink`] as they are planned. Boards and
//! desks are those of `pfair_desk`, and are called by their names here.
#![tactic(auto)]

mod dispatchers;
pub mod laws;
mod threads;
mod worker;

pub use dispatchers::{Finished, run_dispatchers, run_dispatchers_into};
pub use pfair_desk::{Board, Desk, LookFault, PublishFault};
pub use pfair_table::{Run, RunFault};
pub use threads::Hints;
pub use worker::{Gate, OpenGate, Sink, run_worker};
