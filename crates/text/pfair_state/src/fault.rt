//! Why a text isn't read as a state.
ghost use Rattle.std.specs.Prelude.{◌≡◌};
ghost use Rattle.pfair_state.specs.Reading.{read_fault_number};

use pfair_admission::RestoreFault;
use std::alloc::AllocError;
use thiserror::Error;

/// Why a text isn't the text of a state. Lines count from 1.
#[derive(Clone, Copy, Debug, PartialEq, Eq, Error)]
pub enum ReadFault {
    /// The line isn't a row that a state has there.
    #[error("no row of a state: line {line}")]
    NoRow {
        /// The line.
        line: u64,
    },
    /// The line is such a row, and what it says is refused.
    #[error("state refused: line {line}: {why}")]
    Refused {
        /// The line.
        line: u64,
        /// What is wrong with it.
        why: Why,
    },
    /// An allocation failed.
    #[error("out of memory")]
    Memory,
}

/// What is wrong with a row of a state.
#[derive(Clone, Copy, Debug, PartialEq, Eq, Error)]
pub enum Why {
    /// The rows are of another form than the one that this program knows.
    #[error("another form")]
    OtherForm,
    /// The processors, the frame or the slot are out of their ranges.
    #[error("out of range")]
    OutOfRange,
    /// The member can't be one.
    #[error("{0}")]
    Member(RestoreFault),
    /// The slot before the run can't have had this quantum beside those above.
    #[error("no such quantum")]
    Quantum,
    /// The last row tells another number of rows.
    #[error("rows are missing")]
    Incomplete,
}

impl ReadFault {
    /// Returns the number under which the fault is reported: 68, 69 and 90, in the order of the
    /// variants.
    pub fn number(&self) -> u8
        ensures { result ≡ read_fault_number self.now }
    {
        match self {
            ReadFault::NoRow { .. } => 68,
            ReadFault::Refused { .. } => 69,
            ReadFault::Memory => 90,
        }
    }
}

impl From<AllocError> for ReadFault {
    ghost use Rattle.std.specs.Prelude.{◌≡◌};
    ghost use Rattle.pfair_state.specs.declared.fault.ReadFault.TheVariants.{Memory};

    ghost from_gives = { λ _ f. f ≡ Memory };

    fn from(_error: AllocError) -> ReadFault {
        ReadFault::Memory
    }
}

// The line at a place, counted from 0, isn't a row that a state has there.
pub(crate) fn no_row(at: usize) -> ReadFault {
    ReadFault::NoRow {
        line: (at as u64).saturating_add(1),
    }
}

pub(crate) fn refused(at: usize, why: Why) -> ReadFault {
    ReadFault::Refused {
        line: (at as u64).saturating_add(1),
        why,
    }
}
