//! Worked rows of the crates below the tables: windows, the order, logs, replicas, members and ready
//! structures.
//!
//! Each module tests one crate through its public calls; `admission` and `full_replicas` do so at the
//! sizes that users have, with ample memory.
#![tactic(auto)]

#[cfg(test)]
mod admission;
#[cfg(test)]
mod entry;
#[cfg(test)]
mod full_replicas;
#[cfg(test)]
mod order;
#[cfg(test)]
mod ready;
#[cfg(test)]
mod replica;
#[cfg(test)]
mod weight;
