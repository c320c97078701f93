//! Values that join: an order in which any two values have a least upper bound, and maps of such
//! values at any depth.
//!
//! Everything that processors tell each other is kept in such values. From the two laws of
//! [`Join`] (`le` is an order, `join` the least value above both sides) follow those that
//! replication rests on: joins are commutative, associative and idempotent. So neither the order
//! in which news comes in nor repeats change what a replica ends up with. A third law is about a
//! join for which an allocation fails: it leaves a value between the old one and the join, and
//! joining again gives the very same join. A join with a value below it allocates nothing.
//!
//! [`Flat`] makes a type that joins of any contents: one value, or `Torn` if two different ones
//! met. [`JoinMap`] joins key by key; since its values may be maps again, one proof serves every
//! nesting. The module [`laws`] states each law as the contract of a public function.
//!
//! A type on top supplies [`Exact`], which says that its `==` holds of identical values alone. For
//! a plain struct or enum with a derived `==` that is one line:
//!
//!     #[derive(Clone, Copy, Debug, PartialEq, Eq)]
//!     pub struct Reading { pub slot: u64, pub level: Option<u32> }
//!     impl Exact for Reading {
//!         ghost use Rattle.std.proofs.Common.{rules};
//!         ghost exact = { λ x y. Prim.search rules };
//!     }
//!     pub type Readings = JoinMap<u8, JoinMap<u32, Flat<Reading>>>;
//!
//! Contracts see a map as the list of its entries in key order, so that equal maps have equal
//! contents.
#![tactic(auto)]

mod join;
mod join_map;
pub mod laws;

pub use join::{Exact, Join};
pub use join_map::{Flat, JoinMap};
