//! What processors tell each other: announcements of tasks, the entries of a log that make them,
//! and the writer of a log.
//!
//! Each processor keeps a log of numbered entries. An entry has a floor, a slot below which neither it
//! nor a later entry of the log is stamped, and at most one announcement with its stamp, the slot at
//! which it takes effect: a task arrives or departs, or its subtasks are released late.
#![tactic(auto)]

mod entry;
pub mod laws;
mod notice;
mod writer;

pub use entry::{Announcement, Entry, EntryFault, MAX_PROCESSORS, Said};
pub use notice::{Change, ChangeFields, Kind, Notice, NoticeFault, checked_entry};
pub use writer::{NoteFault, Writer};
