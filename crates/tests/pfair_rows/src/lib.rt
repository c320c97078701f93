//! Worked runs, from announcements to tables: tests of the crates below by short texts.
//!
//! Each run is written as the events that come to a dispatcher, and what it has to answer, to plan
//! and to decide.
#![tactic(auto)]

#[cfg(test)]
mod notation;
#[cfg(test)]
mod run;
#[cfg(test)]
mod runs;
#[cfg(test)]
mod shown;
