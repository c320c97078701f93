//! The laws that hold of every type that joins, and of maps of them at any depth. Each function
//! does nothing: its contract is the law.
ghost use Rattle.pfair_lattice.specs.Order.{IsOrder, IsLeastUpperBound, IsPartlyJoined, IsSingle, IsCommutative, IsAssociative, IsIdempotent, IsAbsorbing, IsOrderOfJoin};
ghost use Rattle.pfair_lattice.specs.Entries.{IsKnownByKeys, IsComparedByKeys};
ghost use Rattle.pfair_lattice.specs.Held.{IsHeldJoin};

use crate::join::{Exact, Join};

/// `le` is an order: reflexive, transitive and antisymmetric.
pub fn le_is_an_order<J: Join>()
    ensures { IsOrder J.below }
{}

/// A join is the least value above both sides.
pub fn join_is_least<J: Join>()
    ensures { (x y z : J) → J.joins x y z → IsLeastUpperBound J.below x y z }
{}

/// Two values have one join at most.
pub fn join_is_single<J: Join>()
    ensures { IsSingle J.joins }
{}

/// A join doesn't depend on which side comes first.
pub fn join_is_commutative<J: Join>()
    ensures { IsCommutative J.joins }
{}

/// A join of three doesn't depend on how they are grouped.
pub fn join_is_associative<J: Join>()
    ensures { IsAssociative J.joins }
{}

/// A value joined with itself is itself.
pub fn join_is_idempotent<J: Join>()
    ensures { IsIdempotent J.joins }
{}

/// Joining the same value in again changes nothing.
pub fn join_again_changes_nothing<J: Join>()
    ensures { IsAbsorbing J.joins }
{}

/// One value is below another exactly if their join is the other.
pub fn le_is_the_order_of_join<J: Join>()
    ensures { IsOrderOfJoin J.below J.joins }
{}

/// What is left after a failed allocation lies between the old value and the join, and joining again
/// gives the same join.
pub fn want_of_memory_resumes<J: Join>()
    ensures { (old other now : J) → J.partly old other now → IsPartlyJoined J.below J.joins old other now }
{}

/// Maps that hold the same at every key are the same.
pub fn map_is_known_by_its_keys<K: Exact + Ord, V: Join>()
    ensures { IsKnownByKeys K.cmp V }
{}

/// One map is below another exactly if at every key what it holds is below what the other holds
/// there.
pub fn maps_compare_key_by_key<K: Exact + Ord, V: Join>()
    ensures { IsComparedByKeys K.cmp V.below }
{}

/// At one key of a map of contents the join is that of either side's contents: the one that is
/// there, the common one, or torn.
pub fn contents_join_at_a_key<T: Exact>()
    ensures { IsHeldJoin T.eq }
{}
