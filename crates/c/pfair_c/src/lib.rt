//! The Pfair executive for C: the windows of subtasks, and dispatchers behind handles.
//! `include/pfair.h` declares each call.
//!
//! Each call checks what C's types leave open, calls the crates below, and answers with a number.
#![tactic(auto)]

mod answer;
mod decisions;
mod dispatcher;
mod entry;
mod file;
mod held;
mod lags;
mod members;
mod misses;
mod open;
mod plan;
mod quanta;
mod resume;
mod table;
mod take;
mod version;
mod window;

pub use decisions::{PfairDecision, pfair_decisions};
pub use dispatcher::{pfair_absorb, pfair_close, pfair_next_run, pfair_open};
pub use entry::{PfairEntry, PfairName};
pub use file::{PfairFileFault, pfair_read_file};
pub use held::{
    PfairKey, PfairSettings, pfair_below, pfair_faults, pfair_held, pfair_mark, pfair_missing,
    pfair_settings,
};
pub use lags::{PfairLag, pfair_lags};
pub use members::{PfairMember, pfair_members};
pub use misses::{PfairMiss, pfair_first_late, pfair_first_miss};
pub use plan::{
    PfairStep, pfair_forget, pfair_frontier, pfair_next_slot, pfair_plan_next, pfair_plan_to,
    pfair_reopen, pfair_reserve,
};
pub use quanta::{PfairQuantum, pfair_quanta};
pub use resume::{PfairStateFault, pfair_resume, pfair_state};
pub use table::{PfairPick, pfair_places, pfair_table};
pub use take::{PfairTakenLog, pfair_take, pfair_take_log};
pub use version::pfair_version;
pub use window::{PfairWindow, pfair_window, pfair_windows};
