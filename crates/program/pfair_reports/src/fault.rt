//! The line that reports a fault.
ghost use Rattle.std.specs.Prelude.{◌≡◌};
ghost use Rattle.pfair_file.specs.ProgramFaults.{fault_status};

use pfair_file::{ProgramFault, write_line};
use std::io::Write;

/// Writes the line of a fault, `pfair: NUMBER TEXT`, in one write, and returns its exit status, also
/// if the writer fails. It allocates nothing.
pub fn write_fault<W: Write>(fault: &ProgramFault, writer: &mut W) -> u8
    ensures { result ≡ fault_status fault.now }
{
    write_line("pfair", fault.number(), fault, writer);
    fault.status()
}
