//! Why `pfair_follow` did not succeed.
ghost use Rattle.std.specs.Prelude.{◌≡◌};
ghost use Rattle.pfair_follow.specs.Runs.{follow_number, follow_status, is_refused};

use pfair_file::{ProgramFault, write_line};
use pfair_state::ReadFault;
use pfair_table::NextRunFault;
use std::alloc::AllocError;
use std::io::Write;
use thiserror::Error;

/// Why a command did not succeed.
#[derive(Clone, Copy, Debug, PartialEq, Eq, Error)]
pub enum FollowFault {
    /// A fault that both programs have.
    #[error("{0}")]
    Program(ProgramFault),
    /// Numbers 68 and 69: the file of a state isn't one, or is refused.
    #[error("{0}")]
    State(ReadFault),
    /// Numbers 33 and 34: no run follows, or none begins with that state.
    #[error("{0}")]
    NextRun(NextRunFault),
}

impl FollowFault {
    /// Returns the number of the fault, by which users and scripts know it.
    pub fn number(&self) -> u8
        ensures { result ≡ follow_number self.now }
    {
        match self {
            FollowFault::Program(fault) => fault.number(),
            FollowFault::State(fault) => fault.number(),
            FollowFault::NextRun(fault) => fault.number(),
        }
    }

    /// Returns the exit status that goes with the fault: that of a fault of both programs, 4 if an
    /// allocation failed, and else 2 for a state and 3 for a run that can't follow.
    pub fn status(&self) -> u8
        ensures { result ≡ follow_status self.now }
    {
        match self {
            FollowFault::Program(fault) => fault.status(),
            FollowFault::State(ReadFault::Memory) | FollowFault::NextRun(NextRunFault::Memory) => 4,
            FollowFault::State(_) => 2,
            FollowFault::NextRun(_) => 3,
        }
    }

    /// Returns whether the fault refuses one row, behind which the input can be read on.
    pub fn is_refusal(&self) -> bool
        ensures { result ≡ is_refused self.now }
    {
        match self {
            FollowFault::Program(fault) => fault.is_refusal(),
            _ => false,
        }
    }
}

impl From<ProgramFault> for FollowFault {
    ghost use Rattle.std.specs.Prelude.{◌≡◌};
    ghost use Rattle.pfair_follow.specs.declared.fault.FollowFault.TheVariants.{Program};

    ghost from_gives = { λ fault f. f ≡ Program fault };

    fn from(fault: ProgramFault) -> FollowFault {
        FollowFault::Program(fault)
    }
}

impl From<AllocError> for FollowFault {
    ghost use Rattle.std.specs.Prelude.{◌≡◌};
    ghost use Rattle.pfair_file.specs.declared.program_fault.ProgramFault.TheVariants.{Memory};
    ghost use Rattle.pfair_follow.specs.declared.fault.FollowFault.TheVariants.{Program};

    ghost from_gives = { λ _ f. f ≡ Program Memory };

    fn from(_error: AllocError) -> FollowFault {
        FollowFault::Program(ProgramFault::Memory)
    }
}

/// Writes the line of a fault, `pfair_follow: NUMBER TEXT`, in one write, and returns the exit
/// status, also if the writer fails. The line of a refused row was written with the row, and isn't
/// written again. It allocates nothing.
pub fn write_fault<W: Write>(fault: &FollowFault, writer: &mut W) -> u8
    ensures { result ≡ follow_status fault.now }
{
    if !fault.is_refusal() {
        write_line("pfair_follow", fault.number(), fault, writer);
    }
    fault.status()
}
