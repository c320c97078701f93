//! Boards and desks, and runs of scripts in threads, through public calls.
//!
//! `sample` and `gates` have what the tests of `board` run; `desk` has those of boards without threads.
#![tactic(auto)]

#[cfg(test)]
mod board;
#[cfg(test)]
mod desk;
#[cfg(test)]
mod gates;
#[cfg(test)]
mod sample;
