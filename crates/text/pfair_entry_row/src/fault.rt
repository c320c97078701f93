//! Why a row is refused.
ghost use Rattle.std.specs.Prelude.{◌≡◌};
ghost use Rattle.pfair_entry_row.specs.Row.{row_fault_number};

use pfair_entry::NoticeFault;
use thiserror::Error;

/// Why bytes are no row of an entry, or why the row that they are names none.
#[derive(Clone, Copy, PartialEq, Eq, Debug, Error)]
pub enum RowFault {
    /// Number 67: whatever may be written in the fields, this isn't the row of it. A field is
    /// missing or one too many, a number isn't spelled as it is written or doesn't fit into 64
    /// bits, a dash stands where the kind asks for a value or the other way round, or the kind is
    /// none.
    #[error("no entry's row")]
    NoRow,
    /// Numbers 1 to 10: floor and announcement make no entry.
    #[error(transparent)]
    Refused(NoticeFault),
    /// Number 13: the processor is past 255, so no run has it.
    #[error("no such processor")]
    NoSuchProcessor,
    /// Number 14: the entry's number doesn't fit into 32 bits, so no log has it.
    #[error("number out of range")]
    NumberOutOfRange,
}

impl RowFault {
    /// Returns the number under which the fault is reported: 67, that of the fault that it has, 13
    /// or 14.
    pub fn number(&self) -> u8
        ensures { result ≡ row_fault_number self.now }
    {
        match self {
            RowFault::NoRow => 67,
            RowFault::Refused(fault) => fault.number(),
            RowFault::NoSuchProcessor => 13,
            RowFault::NumberOutOfRange => 14,
        }
    }
}
