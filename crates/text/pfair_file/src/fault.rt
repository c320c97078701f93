//! Why a task file is refused.
ghost use Rattle.std.specs.Prelude.{◌≡◌};
ghost use Rattle.pfair_file.specs.ProgramFaults.{file_fault_number};
ghost use Rattle.pfair_file.specs.declared.fault.FileFault.TheVariants.{Memory};

use crate::field::Field;
use pfair_entry::NoticeFault;
use std::alloc::AllocError;
use thiserror::Error;

/// The first fault of a task file, or a failed allocation. A place is the number of the entry's table in
/// the file, counted from 1, and 0 for the file's own keys.
#[derive(Clone, Copy, Debug, PartialEq, Eq, Error)]
pub enum FileFault {
    /// Number 60: the bytes are no TOML document.
    #[error("not TOML")]
    NotToml,
    /// Number 61: a key isn't there.
    #[error("missing {field} at {place}")]
    Missing {
        place: u64,
        field: Field,
    },
    /// Number 62: what stands at a key is of another kind than the key asks for.
    #[error("{field} of wrong kind at {place}")]
    WrongKind {
        place: u64,
        field: Field,
    },
    /// Number 63: what stands at a key is of the right kind, and out of the key's range.
    #[error("{field} out of range at {place}")]
    Range {
        place: u64,
        field: Field,
    },
    /// Number 64: the keys of a table are in order, and make no entry.
    #[error("entry {number} of processor {proc} refused: {} {cause}", .cause.number())]
    Entry {
        /// The processor, counted from 0.
        proc: u8,
        /// The number that the entry would have in the processor's log, counted from 1.
        number: u32,
        /// Why there is no such entry.
        cause: NoticeFault,
    },
    /// Number 65: the version is none of 1 and 2.
    #[error("unknown version")]
    Version,
    /// Number 90: an allocation failed.
    #[error("out of memory")]
    Memory,
}

impl FileFault {
    /// Returns the number under which the fault is reported: 60 to 65 in the order of the variants,
    /// and 90 if an allocation failed.
    pub fn number(&self) -> u8
        ensures { result ≡ file_fault_number self.now }
    {
        match self {
            FileFault::NotToml => 60,
            FileFault::Missing { .. } => 61,
            FileFault::WrongKind { .. } => 62,
            FileFault::Range { .. } => 63,
            FileFault::Entry { .. } => 64,
            FileFault::Version => 65,
            FileFault::Memory => 90,
        }
    }
}

impl From<AllocError> for FileFault {
    ghost from_gives = { λ _ e. e ≡ Memory };

    fn from(_: AllocError) -> FileFault {
        FileFault::Memory
    }
}
