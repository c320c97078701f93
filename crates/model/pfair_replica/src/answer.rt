//! What a take and a merge answer.
ghost use Rattle.std.specs.Prelude.{◌≡◌};
ghost use Rattle.pfair_replica.specs.Faults.{take_fault_number, merge_fault_number};

use std::alloc::AllocError;
use thiserror::Error;

/// How an entry was taken.
#[derive(Clone, Copy, Debug, PartialEq, Eq)]
pub enum Taken {
    /// Nothing was held at its key; now the entry is.
    New,
    /// The same entry was held already.
    Known,
    /// Another entry was held, or the key was torn; now it is torn.
    Torn,
}

/// Why an entry was not taken.
#[derive(Clone, Copy, Debug, PartialEq, Eq, Error)]
pub enum TakeFault {
    /// The replica has no such processor.
    #[error("no such processor")]
    NoSuchProcessor,
    /// The number is 0 or past the capacity.
    #[error("number out of range")]
    NumberOutOfRange,
    /// An allocation failed.
    #[error("out of memory")]
    Memory,
}

impl TakeFault {
    /// Returns the number under which the fault is reported: 13, 14 and 90, in the order of the
    /// variants.
    pub fn number(&self) -> u8
        ensures { result ≡ take_fault_number self.now }
    {
        match self {
            TakeFault::NoSuchProcessor => 13,
            TakeFault::NumberOutOfRange => 14,
            TakeFault::Memory => 90,
        }
    }
}

impl From<AllocError> for TakeFault {
    ghost use Rattle.pfair_replica.specs.declared.answer.TakeFault.TheVariants.{Memory};

    ghost from_gives = { λ _ e. e ≡ Memory };

    fn from(_error: AllocError) -> TakeFault {
        TakeFault::Memory
    }
}

/// Why a replica was not merged in, or not all of it.
#[derive(Clone, Copy, Debug, PartialEq, Eq, Error)]
pub enum MergeFault {
    /// It has another number of processors, or another capacity.
    #[error("other shape")]
    OtherShape,
    /// An allocation failed.
    #[error("out of memory")]
    Memory,
}

impl MergeFault {
    /// Returns the number under which the fault is reported: 15 and 90, in the order of the variants.
    pub fn number(&self) -> u8
        ensures { result ≡ merge_fault_number self.now }
    {
        match self {
            MergeFault::OtherShape => 15,
            MergeFault::Memory => 90,
        }
    }
}

impl From<AllocError> for MergeFault {
    ghost use Rattle.pfair_replica.specs.declared.answer.MergeFault.TheVariants.{Memory};

    ghost from_gives = { λ _ e. e ≡ Memory };

    fn from(_error: AllocError) -> MergeFault {
        MergeFault::Memory
    }
}
