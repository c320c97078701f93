//! The commands `decisions` and `lags`: what one dispatcher decides of a task file, and how far its
//! tasks are behind. One slot at a time is held.
ghost use Rattle.pfair_file.specs.ProgramFaults.{IsCommandOf};
ghost use Rattle.pfair_file.specs.Documents.{IsRefusalOf};
ghost use Rattle.pfair_reports.specs.Runs.{IsOutputOf, decisions_of_run, lags_of_run};

use pfair_file::{ProgramFault, read_script};
use pfair_output::{decisions_of_script, lags_of_script};
use pfair_ready::HeapReady;
use pfair_text::send;
use std::alloc::Global;
use std::io::{Read, Write};

/// Writes the decisions on all announcements that are stamped below the number of slots of the
/// script that a reader's bytes hold: a header, and for each a row of its slot, the processor and
/// the number of its entry, the task, what was decided, and the freeing slot or the number of the
/// refusal. They stand in the order in which they are decided.
///
/// The whole text is made before the first byte goes out; one slot at a time is held. No more than
/// 67,108,864 bytes are taken from the reader, or one more if the file is too long or an
/// allocation fails. The cost is that of reading the file, of running its script, and O(rows).
///
/// # Errors
/// Those of [`read_script`](pfair_file::read_script), [`ProgramFault::Stalled`] with the frontier of the
/// logs if it is below the number of slots, and
/// [`ProgramFault::Memory`] if an allocation fails: nothing has then been written.
/// [`ProgramFault::WriteFailed`] if the writer answered an error, or took nothing; a prefix of the
/// text has then gone out.
pub fn decisions<R: Read, W: Write>(
    alloc: Global,
    reader: &mut R,
    writer: &mut W,
) -> Result<(), ProgramFault>
    ensures { IsCommandOf (IsOutputOf decisions_of_run) IsRefusalOf result
        (R.remaining reader.old) (R.remaining reader.new) (W.contents writer.old) (W.contents writer.new) }
{
    let script = read_script(alloc, reader)?;
    let text = decisions_of_script::<HeapReady>(alloc, &script)?;
    Ok(send(writer, text.as_slice())?)
}

/// Writes the lags of the script that a reader's bytes hold: a header, and for each slot t, slots
/// in order, a row for each member that isn't departing after the boundary of t, in the order of
/// admission: the time t + 1, the task, and its lag at that time as a numerator over its period,
/// counted from its joining slot. The bytes that are read, the memory and the cost are as for
/// [`decisions`].
///
/// # Errors
/// Those of [`decisions`].
pub fn lags<R: Read, W: Write>(
    alloc: Global,
    reader: &mut R,
    writer: &mut W,
) -> Result<(), ProgramFault>
    ensures { IsCommandOf (IsOutputOf lags_of_run) IsRefusalOf result
        (R.remaining reader.old) (R.remaining reader.new) (W.contents writer.old) (W.contents writer.new) }
{
    let script = read_script(alloc, reader)?;
    let text = lags_of_script::<HeapReady>(alloc, &script)?;
    Ok(send(writer, text.as_slice())?)
}
