//! The windows of a weight's subtasks, as a table.
ghost use Rattle.std.specs.Prelude.{◌≡◌, ◌≤◌, ◌++◌, OnOk, IsErrOf, IfErr, IfOk, ◌⊎◌};
ghost use Rattle.std.specs.Io.KnownBytes.{Appends, Keeps};
ghost use Rattle.pfair_text.specs.Rows.{TakesPrefix, IsOpen, line, text_so_far};
ghost use Rattle.pfair_reports.specs.Runs.{window_row, windows_text};
ghost use Rattle.pfair_file.specs.declared.program_fault.ProgramFault.TheVariants.{WriteFailed, Memory};

use csv::Writer;
use itoa::Buffer;
use pfair_entry::Entry;
use pfair_file::ProgramFault;
use pfair_text::{add_row, finish, new_text, send};
use pfair_weight::{Stepper, Weight};
use std::alloc::{AllocError, Global};
use std::io::Write;

/// Writes the windows of subtasks 1 to `count` of a weight at offset 0: a header, and for each
/// subtask a row of its index, release, deadline, b-bit and group deadline, as Baruah, Cohen,
/// Plaxton and Varvel and, for the last two, Anderson and Srinivasan define them.
///
/// `count` is at most [`LAST_INDEX`](Entry::LAST_INDEX). The whole text is made before the first
/// write. O(rows).
///
/// # Errors
/// [`ProgramFault::WriteFailed`] if the writer answered an error or took nothing; a prefix of
/// the text has then gone out. [`ProgramFault::Memory`] if an allocation fails; nothing
/// has then gone out.
pub fn windows<W: Write>(
    alloc: Global,
    weight: Weight,
    count: u64,
    writer: &mut W,
) -> Result<(), ProgramFault>
    requires { count ≤ Entry.LAST_INDEX }
    ensures ok { OnOk result (Appends (W.contents writer.old) (W.contents writer.new) (windows_text weight count)) }
    ensures failed { IsErrOf result WriteFailed → TakesPrefix (W.contents writer.old) (W.contents writer.new) (windows_text weight count) }
    ensures memory { IsErrOf result Memory → Keeps (W.contents writer.old) (W.contents writer.new) }
    ensures only { IfErr result (λ e. (e ≡ WriteFailed) ⊎ (e ≡ Memory)) }
{
    let text = windows_table(alloc, weight, count)?;
    Ok(send(writer, text.as_slice())?)
}

fn windows_table(alloc: Global, weight: Weight, count: u64) -> Result<Vec<u8>, AllocError>
    requires { count ≤ Entry.LAST_INDEX }
    ensures { IfOk result (λ text. text.items ≡ windows_text weight count) }
{
    let mut table = new_text(alloc);
    add_row(&mut table, &[b"i", b"r", b"d", b"b", b"D"])?;
    let mut stepper = Stepper::new(weight, 0);
    for _ in 0..count {
        add_window(&mut table, &stepper)?;
        stepper.advance();
    }
    finish(table)
}

// Adds the row of the subtask at which the stepper stands.
fn add_window(table: &mut Writer<Vec<u8>>, stepper: &Stepper) -> Result<(), AllocError>
    requires open { IsOpen table.old }
    requires offset { stepper.now.theta ≡ 0 }
    ensures open { OnOk result (IsOpen table.new) }
    ensures text { OnOk result (text_so_far table.new ≡ text_so_far table.old ++ line (window_row stepper.now.weight stepper.now.index)) }
{
    add_row(
        table,
        &[
            Buffer::new().format(stepper.index()).as_bytes(),
            Buffer::new().format(stepper.release()).as_bytes(),
            Buffer::new().format(stepper.deadline()).as_bytes(),
            Buffer::new().format(stepper.b_bit()).as_bytes(),
            Buffer::new().format(stepper.group_deadline()).as_bytes(),
        ],
    )
}
