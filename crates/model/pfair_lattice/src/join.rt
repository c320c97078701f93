//! Values that can be joined: what two holders of parts of the same knowledge have together.
//!
//! A type that joins is a join semilattice, as the states of replicated data types are that merge
//! by joins (Shapiro, Preguiça, Baquero and Zawirski 2011). So values can be merged in any order,
//! in any grouping and as often as one likes, with the same outcome.
ghost use Rattle.std.specs.Prelude.{◌≡◌, ◌↔◌, IsTrue, IfOk, OnOk, OnErr, true};
ghost use Rattle.pfair_lattice.specs.Order.{IsOrder, IsLeastUpperBound, IsPartlyJoined, IsCommutative, IsAssociative, IsIdempotent, commutes, associates, idempotent};

use std::alloc::AllocError;

/// A type with an order in which a join is the least value above both of its sides.
///
/// An implementation proves the laws `order`, `least` and `resumes`; that joins are commutative,
/// associative and idempotent follows.
pub trait Join: Drop {
    /// The order: the first is below the second, or they are the same.
    ghost below: { Self → Self → Type 0 };

    /// The third is the first joined with the second.
    ghost joins: { Self → Self → Self → Type 0 };

    /// The third is the first with a part of the second joined in.
    ghost partly: { Self → Self → Self → Type 0 };

    /// Holds if a join or a copy may allocate.
    ghost takes_memory: { Type 0 };

    /// The second has something for which the first has no place: only then may joining it in
    /// allocate.
    ghost outgrows: { Self → Self → Type 0 };

    /// Joins `other` in.
    ///
    /// # Errors
    /// Returns [`AllocError`] if an allocation fails, which never happens if `other` is already
    /// below, or has nothing for which there is no place. Then a part of `other` is joined in: the
    /// value is above what it was and below the whole join, and joining `other` again gives the
    /// same join.
    fn join(&mut self, other: &Self) -> Result<(), AllocError>
        ensures joined { OnOk result (joins self.old other.now self.new) }
        ensures partly { OnErr result (partly self.old other.now self.new) }
        ensures lacking { OnErr result (¬ (below other.now self.old)) }
        ensures growth { OnErr result (outgrows self.old other.now) }
        ensures memory { OnErr result takes_memory };

    /// Returns whether this value is below `other`, or is the same.
    fn le(&self, other: &Self) -> bool
        ensures { IsTrue result ↔ below self.now other.now };

    /// Returns a second value that is equal to this one.
    ///
    /// # Errors
    /// Returns [`AllocError`] if an allocation fails.
    fn copy(&self) -> Result<Self, AllocError>
        ensures equal { IfOk result (λ copy. copy ≡ self.now) }
        ensures memory { OnErr result takes_memory };

    /// `below` is reflexive, transitive and antisymmetric.
    ghost order: { IsOrder below };

    /// A join is above both sides, and below whatever else is.
    ghost least: { (x y z : Self) → joins x y z → IsLeastUpperBound below x y z };

    /// What a failed allocation leaves is between the old value and the join, and joining again gives
    /// the same join.
    ghost resumes: { (x y z : Self) → partly x y z → IsPartlyJoined below joins x y z };

    /// Either side may come first.
    ghost commutative: { IsCommutative joins } = { commutes (record { order = order; least = least }) };

    /// Three may be grouped either way.
    ghost associative: { IsAssociative joins } = { associates (record { order = order; least = least }) };

    /// A value joined with itself is itself.
    ghost idempotent_join: { IsIdempotent joins } = { idempotent (record { order = order; least = least }) };
}

/// A type whose `==` holds of identical values alone, so that what compares equal can stand for one
/// another.
///
/// Keys of a [`JoinMap`](crate::join_map::JoinMap) and contents of a [`Flat`](crate::join_map::Flat)
/// have to be of such a type.
pub trait Exact: Copy + Eq {
    /// Values that are equal are the same.
    ghost exact: { (x y : Self) → Self.eq x y ≡ true → x ≡ y };
}

impl Exact for u8 {
    ghost use Rattle.std.proofs.Common.{rules};

    ghost exact = { λ x y. Prim.search rules };
}

impl Exact for u32 {
    ghost use Rattle.std.proofs.Common.{rules};

    ghost exact = { λ x y. Prim.search rules };
}

impl Exact for u64 {
    ghost use Rattle.std.proofs.Common.{rules};

    ghost exact = { λ x y. Prim.search rules };
}
