//! The command lines of both programs: what their words ask for.
#![tactic(auto)]

mod command;
pub mod follow;
pub mod laws;
pub mod schedule;
