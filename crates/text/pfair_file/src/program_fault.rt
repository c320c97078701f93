//! Why a command of a program did not succeed: numbers, texts and exit statuses, and the line that
//! reports it.
ghost use Rattle.std.specs.Prelude.{◌≡◌};
ghost use Rattle.pfair_file.specs.ProgramFaults.{fault_number, fault_status, is_refusal, of_file, of_plan, of_run, of_take};
ghost use Rattle.pfair_file.specs.declared.program_fault.ProgramFault.TheVariants.{Memory, WriteFailed as WriteFailure};

use crate::fault::FileFault;
use pfair_entry_row::RowFault;
use pfair_replica::TakeFault;
use pfair_table::{PlanFault, RunFault};
use pfair_text::WriteFailed;
use pfair_weight::WeightFault;
use std::alloc::AllocError;
use std::fmt::Display;
use std::io::Write;
use thiserror::Error;

/// Why a command did not succeed.
#[derive(Clone, Copy, Debug, PartialEq, Eq, Error)]
pub enum ProgramFault {
    /// Numbers 4 to 6: a cost and a period make no weight.
    #[error("{0}")]
    Weight(WeightFault),
    /// Numbers 1 to 10, 13, 14 and 67: a line is no entry's row, or names no entry.
    #[error("{0}")]
    Row(RowFault),
    /// Number 13: there is no such processor.
    #[error("no such processor")]
    NoSuchProcessor,
    /// Number 14: the entry's number is 0, or past what a log has room for.
    #[error("number out of range")]
    NumberOutOfRange,
    /// Number 30: an entry has two contents; this is the least such key.
    #[error("entry {number} of processor {proc} torn")]
    Torn {
        /// The processor in whose log the entry stands, counted from 0.
        proc: u8,
        /// Its number in that log, counted from 1.
        number: u32,
    },
    /// Number 31: an allocation failed in an earlier plan.
    #[error("spent")]
    Spent,
    /// Number 52: the logs settle only the slots below this one, which is one of the run's.
    #[error("stalled at slot {slot}")]
    Stalled {
        /// The frontier of the logs.
        slot: u64,
    },
    /// Number 53: the gate of a run gave up.
    #[error("gate gave up")]
    GateGaveUp,
    /// Number 54: a worker of a run learned something other than the logs.
    #[error("gone astray")]
    Astray,
    /// Numbers 60 to 65: the first fault of a task file.
    #[error("{0}")]
    File(FileFault),
    /// Number 66: a task file has more bytes than the longest.
    #[error("file too long")]
    FileTooLong,
    /// Number 70: a file can't be opened, or a reader answered an error.
    #[error("reading failed")]
    ReadFailed,
    /// Number 71: a writer answered an error, or took none of a piece that isn't empty.
    #[error("writing failed")]
    WriteFailed,
    /// Number 80: no command has the form of these words.
    #[error("command line refused")]
    CommandLine,
    /// Number 90: an allocation failed.
    #[error("out of memory")]
    Memory,
}

impl ProgramFault {
    /// Returns the number of the fault, by which users and scripts know it.
    pub fn number(&self) -> u8
        ensures { result ≡ fault_number self.now }
    {
        match self {
            ProgramFault::Weight(fault) => fault.number(),
            ProgramFault::Row(fault) => fault.number(),
            ProgramFault::NoSuchProcessor => 13,
            ProgramFault::NumberOutOfRange => 14,
            ProgramFault::Torn { .. } => 30,
            ProgramFault::Spent => 31,
            ProgramFault::Stalled { .. } => 52,
            ProgramFault::GateGaveUp => 53,
            ProgramFault::Astray => 54,
            ProgramFault::File(fault) => fault.number(),
            ProgramFault::FileTooLong => 66,
            ProgramFault::ReadFailed => 70,
            ProgramFault::WriteFailed => 71,
            ProgramFault::CommandLine => 80,
            ProgramFault::Memory => 90,
        }
    }

    /// Returns the exit status that goes with the fault: 1 for a command line or a weight, 2 for a
    /// task file or a row, 3 for a run that can't go on, 4 if an allocation failed, 5 for reading or
    /// writing.
    pub fn status(&self) -> u8
        ensures { result ≡ fault_status self.now }
    {
        match self {
            ProgramFault::Weight(_) | ProgramFault::CommandLine => 1,
            ProgramFault::Row(_)
            | ProgramFault::NoSuchProcessor
            | ProgramFault::NumberOutOfRange
            | ProgramFault::File(_)
            | ProgramFault::FileTooLong => 2,
            ProgramFault::Torn { .. }
            | ProgramFault::Spent
            | ProgramFault::Stalled { .. }
            | ProgramFault::GateGaveUp
            | ProgramFault::Astray => 3,
            ProgramFault::Memory => 4,
            ProgramFault::ReadFailed | ProgramFault::WriteFailed => 5,
        }
    }

    /// Returns whether the fault refuses one line, behind which the input can be read on: the line is
    /// no entry's row, or its entry has no place in the logs.
    pub fn is_refusal(&self) -> bool
        ensures { result ≡ is_refusal self.now }
    {
        matches!(
            self,
            ProgramFault::Row(_) | ProgramFault::NoSuchProcessor | ProgramFault::NumberOutOfRange
        )
    }
}

impl From<AllocError> for ProgramFault {
    ghost from_gives = { λ _ e. e ≡ Memory };

    fn from(_: AllocError) -> ProgramFault {
        ProgramFault::Memory
    }
}

impl From<WriteFailed> for ProgramFault {
    ghost from_gives = { λ _ e. e ≡ WriteFailure };

    fn from(_: WriteFailed) -> ProgramFault {
        ProgramFault::WriteFailed
    }
}

impl From<FileFault> for ProgramFault {
    ghost from_gives = { λ fault e. e ≡ of_file fault };

    fn from(fault: FileFault) -> ProgramFault {
        match fault {
            FileFault::Memory => ProgramFault::Memory,
            fault => ProgramFault::File(fault),
        }
    }
}

impl From<TakeFault> for ProgramFault {
    ghost from_gives = { λ fault e. e ≡ of_take fault };

    fn from(fault: TakeFault) -> ProgramFault {
        match fault {
            TakeFault::NoSuchProcessor => ProgramFault::NoSuchProcessor,
            TakeFault::NumberOutOfRange => ProgramFault::NumberOutOfRange,
            TakeFault::Memory => ProgramFault::Memory,
        }
    }
}

impl From<PlanFault> for ProgramFault {
    ghost from_gives = { λ fault e. e ≡ of_plan fault };

    fn from(fault: PlanFault) -> ProgramFault {
        match fault {
            PlanFault::Torn { proc, number } => ProgramFault::Torn { proc, number },
            PlanFault::Spent => ProgramFault::Spent,
            PlanFault::Memory => ProgramFault::Memory,
        }
    }
}

impl From<RunFault> for ProgramFault {
    ghost from_gives = { λ fault e. e ≡ of_run fault };

    fn from(fault: RunFault) -> ProgramFault {
        match fault {
            RunFault::Memory => ProgramFault::Memory,
            RunFault::GateGaveUp => ProgramFault::GateGaveUp,
            RunFault::Astray => ProgramFault::Astray,
            RunFault::Stalled { slot } => ProgramFault::Stalled { slot },
        }
    }
}

// Room for the line of any fault. The longest is that of a refused entry, with the place of a bad
// byte of its name: behind the name of a program of 13 bytes it has 96 bytes where each number in
// it is the greatest of its type.
const LINE_ROOM: usize = 128;

/// Writes the line of a fault, `PROGRAM: NUMBER TEXT`, as far as the writer takes it.
///
/// The line goes out in one write, so that the lines of two processes that write to one terminal or
/// file don't mix; one that is longer than 128 bytes goes out in pieces, and is not cut. It allocates
/// nothing: a failed allocation may be the fault.
pub fn write_line<F: Display, W: Write>(program: &str, number: u8, fault: &F, writer: &mut W) {
    let mut line = [0; LINE_ROOM];
    let mut room = &mut line[..];
    let is_whole = writeln!(room, "{program}: {number} {fault}").is_ok();
    let length = LINE_ROOM.saturating_sub(room.len());
    let _ = if is_whole {
        writer.write_all(&line[..length])
    } else {
        writeln!(writer, "{program}: {number} {fault}")
    };
}
