//! Tests of lags, texts of faults, fed runs and reports, through public calls.
//!
//! `devices` has readers and writers that are slow or fail; the other modules have tests.
#![tactic(auto)]

#[cfg(test)]
mod devices;
#[cfg(test)]
mod failures;
#[cfg(test)]
mod faults;
#[cfg(test)]
mod follower;
#[cfg(test)]
mod gates;
#[cfg(test)]
mod lag;
#[cfg(test)]
mod reports;
