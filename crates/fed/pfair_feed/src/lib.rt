//! A dispatcher that is fed: a [`Follower`] takes entries one after another, in whatever order they
//! come, and writes the rows of each slot as soon as its entries settle the slot. [`follow`] feeds it
//! the rows of entries that a reader gives.
#![tactic(auto)]

mod complaint;
mod entries;
mod follower;
mod input;
pub mod laws;
mod output;

pub use complaint::{report_dropped, report_missing, report_refused};
pub use entries::entries_of;
pub use follower::Follower;
pub use input::{feed, follow};
pub use output::Output;
