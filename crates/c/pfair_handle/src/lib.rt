//! Handles that C can hold: a pointer to a dispatcher on the heap, with what it owns.
//!
//! Only this crate needs proofs by hand: of a box as its pointer, and of the pointer without its type.
#![tactic(auto)]

ghost use Rattle.std.specs.Prelude.{◌≡◌, true, false, None, Some, IfErr, OnOk, OnErr, Err};
ghost use Rattle.pfair_replica.specs.Replica.{replica_of, SameShape, Below};
ghost use Rattle.pfair_replica.specs.Faults.{IsMergeFaultOf};
ghost use Rattle.pfair_handle.specs.Kept.{is_kept};
ghost use Rattle.pfair_handle.specs.Behind.{Between, IsAbsorbedTo, IsPartlyAbsorbedTo};

mod owner;

use owner::Loose;
pub use owner::{Owner, Served};
use pfair_replica::MergeFault;
use std::alloc::Global;
use std::mem::replace;

/// A dispatcher of C's, or none. C keeps it, and hands its address to each call.
#[repr(C)]
pub struct Handle {
    is_open: bool,
    /// The dispatcher, if there is one.
    pub owner: Owner,
    ghost open: { is_kept owner.kept ≡ is_open },
}

impl Handle {
    /// Returns whether there is a dispatcher.
    pub fn is_open(&self) -> bool
        ensures { result ≡ is_kept self.now.owner.kept }
    {
        self.is_open
    }

    /// Takes the dispatcher out.
    pub fn take(&mut self, alloc: Global) -> Box<Served, Global>
        requires { is_kept self.old.owner.kept ≡ true }
        ensures taken { self.old.owner.kept ≡ Some result.value }
        ensures left { self.new.owner.kept ≡ None }
    {
        let none = Handle {
            is_open: false,
            owner: Owner::none(alloc),
        };
        let Handle { is_open: _, owner } = replace(self, none);
        owner.into_loose().into_box()
    }

    /// Puts a dispatcher in.
    pub fn put(&mut self, served: Box<Served, Global>)
        requires { self.old.owner.kept ≡ None }
        ensures { self.new.owner.kept ≡ Some served.value }
    {
        let full = Handle {
            is_open: true,
            owner: Owner::of(Loose::of(served)),
        };
        let Handle { is_open: _, owner } = replace(self, full);
        owner.close();
    }

    /// Takes all that the other holds, as
    /// [`Dispatcher::absorb`](pfair_table::Dispatcher::absorb).
    ///
    /// # Errors
    /// Those of that call.
    pub fn absorb(&mut self, alloc: Global, other: &mut Handle) -> Result<(), MergeFault>
        requires open { is_kept self.old.owner.kept ≡ true }
        requires other_open { is_kept other.old.owner.kept ≡ true }
        ensures joined { OnOk result (IsAbsorbedTo self.old.owner.kept other.old.owner.kept self.new.owner.kept
            × Between self.old.owner.kept other.old.owner.kept (λ d o. SameShape d.replica o.replica)) }
        ensures fault { IfErr result (λ fault.
            Between self.old.owner.kept other.old.owner.kept (λ d o. IsMergeFaultOf d.replica o.replica fault)) }
        ensures unchanged { result ≡ Err MergeFault.OtherShape → self.new.owner.kept ≡ self.old.owner.kept }
        ensures partly { OnErr result (IsPartlyAbsorbedTo self.old.owner.kept other.old.owner.kept self.new.owner.kept) }
        ensures rest { Between self.old.owner.kept self.new.owner.kept (λ d e. e ≡ record d { replica = e.replica }) }
        ensures other { other.new.owner.kept ≡ other.old.owner.kept }
    {
        let mut served = self.take(alloc);
        let from = other.take(alloc);
        let answer = served.dispatcher.absorb(from.dispatcher.replica());
        self.put(served);
        other.put(from);
        answer
    }

    /// Returns whether the other holds all that this dispatcher holds, as
    /// [`Replica::le`](pfair_replica::Replica::le).
    pub fn le(&mut self, alloc: Global, other: &mut Handle) -> bool
        requires open { is_kept self.old.owner.kept ≡ true }
        requires other_open { is_kept other.old.owner.kept ≡ true }
        ensures below { result ≡ true → Between self.old.owner.kept other.old.owner.kept (λ d o. Below (replica_of d.replica) (replica_of o.replica)) }
        ensures not_below { result ≡ false →
            Between self.old.owner.kept other.old.owner.kept (λ d o. Below (replica_of d.replica) (replica_of o.replica) → ⊥) }
        ensures unchanged { self.new.owner.kept ≡ self.old.owner.kept }
        ensures other { other.new.owner.kept ≡ other.old.owner.kept }
    {
        let served = self.take(alloc);
        let beside = other.take(alloc);
        let below = served.dispatcher.replica().le(beside.dispatcher.replica());
        self.put(served);
        other.put(beside);
        below
    }
}
