//! Why a desk refuses.
ghost use Rattle.std.specs.Prelude.{◌≡◌};
ghost use Rattle.pfair_desk.specs.Desks.{publish_fault_number};

use pfair_entry::Entry;
use thiserror::Error;

/// Why an entry was not published.
#[derive(Clone, Copy, Debug, PartialEq, Eq, Error)]
pub enum PublishFault {
    /// The desk's next number is past the capacity.
    #[error("row full")]
    RowFull,
    /// Another entry stands at the desk's next number.
    #[error("number taken")]
    Taken {
        /// The existing entry.
        standing: Entry,
    },
    /// An allocation failed.
    #[error("out of memory")]
    Memory,
}

impl PublishFault {
    /// Returns the number under which the fault is reported: 50, 51 and 90, in the order of the
    /// variants.
    pub fn number(&self) -> u8
        ensures { result ≡ publish_fault_number self.now }
    {
        match self {
            PublishFault::RowFull => 50,
            PublishFault::Taken { .. } => 51,
            PublishFault::Memory => 90,
        }
    }
}
