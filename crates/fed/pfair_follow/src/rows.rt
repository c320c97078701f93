//! What the commands write: the entries of a task file, and rows of a run that is fed by a reader.
ghost use Rattle.std.specs.Prelude.{ℕ, true, false, ◌≡◌, ◌≢◌, ◌⊎◌, ◌<◌, ◌≤◌, IfErr, IfOk, IsErrOf, OnOk, length};
ghost use Rattle.std.specs.Io.KnownBytes.{Appends, Keeps};
ghost use Rattle.pfair_text.specs.Rows.{TakesPrefix};
ghost use Rattle.pfair_feed.specs.Feeding.{IsCaughtUp};
ghost use Rattle.pfair_file.specs.ProgramFaults.{is_refusal, IsCommandOf};
ghost use Rattle.pfair_file.specs.declared.program_fault.ProgramFault.TheVariants.{Memory, Stalled, WriteFailed};
ghost use Rattle.pfair_follow.specs.Runs.{is_refused, AreTakenAll, IsEndOf, IsFollowed, IsFresh, IsSettled, head_from, IsFed, IsFedEndOf, IsScriptStalled, IsScriptWritten, OfItsScript, HasLeft, IsEndOfLeaving, IsOutputOf};
ghost use Rattle.pfair_file.specs.Documents.{IsRefusalOf};

use crate::fault::FollowFault;
use crate::state::left_text;
use pfair_feed::laws::{entries_give_their_schedule, lines_are_one, text_is_whole};
use pfair_feed::{Follower, entries_of, follow, report_dropped, report_missing};
use pfair_file::{ProgramFault, read_script};
use pfair_ready::Ready;
use pfair_text::send;
use std::alloc::Global;
use std::io::{Read, Write};

/// Reads rows of entries to the reader's end, and writes the rows of each slot as soon as the entries
/// settle the slot, flushed before more is read; before them the header, if the run is a first one and
/// no slot is left out.
///
/// Of a first run that is what `pfair` writes of a task file with the same entries, from the
/// follower's slot on, in whatever order their rows come and however often each. A refused row is
/// reported in a line to `complaints`, and is skipped unless `is_strict`; the line `?` asks for the
/// keys of the entries that would settle more. The cost is that of [`follow`].
///
/// # Errors
/// [`ProgramFault::Stalled`] with the first slot that isn't settled, if the input ends before all
/// are: the rows of those before it are written, and `complaints` has the keys. Else the fault at
/// which [`follow`] stopped, or that of the header. The writer has then the rows of what was read
/// before, and after [`ProgramFault::WriteFailed`] a prefix of those of the last row.
pub fn follow_rows<R: Ready, I: Read, W: Write, E: Write>(
    alloc: Global,
    follower: &mut Follower<R>,
    reader: &mut I,
    writer: &mut W,
    complaints: &mut E,
    is_strict: bool,
) -> Result<(), ProgramFault>
    requires { IsFresh follower.old }
    ensures settled { OnOk result (IsFollowed follower.old (IsSettled follower.old.dispatch.settings)
        (I.remaining reader.old) (I.remaining reader.new) (W.contents writer.old) (W.contents writer.new)) }
    ensures script { OnOk result (OfItsScript follower.old (I.remaining reader.old)
        (λ script. IsScriptWritten follower.old script (W.contents writer.old) (W.contents writer.new))) }
    ensures stalled { (slot : ℕ) → IsErrOf result (Stalled slot) → OfItsScript follower.old (I.remaining reader.old)
        (λ script. IsScriptStalled follower.old slot script (W.contents writer.old) (W.contents writer.new)) }
    ensures strict { OnOk result (is_strict ≡ true → AreTakenAll follower.old.dispatch.settings (I.remaining reader.old) (I.remaining reader.new)) }
    ensures lenient { IfErr result (λ e. is_strict ≡ false → is_refusal e ≡ false) }
    ensures ended { IfErr result (IsEndOf follower.old
        (I.remaining reader.old) (I.remaining reader.new) (W.contents writer.old) (W.contents writer.new)) }
{
    // what a follower has written from the first slot on is what is written at once, of a script too
    text_is_whole();
    entries_give_their_schedule();
    lines_are_one();
    feed_rows(
        alloc, follower, reader, writer, complaints, is_strict, false,
    )
}

/// Reads rows of entries as [`follow_rows`] does, but only until all slots of the run are settled, and
/// returns the text of the state that the run leaves.
///
/// What is read behind the row that settles the last slot is lost. The cost is that of [`follow`], and
/// of a next run.
///
/// # Errors
/// Those of [`follow_rows`]; and once all rows are written [`NextRunFault`](pfair_table::NextRunFault)
/// if no run can follow, and [`ProgramFault::Memory`] if an allocation fails.
pub fn follow_and_leave<R: Ready, I: Read, W: Write, E: Write>(
    alloc: Global,
    follower: &mut Follower<R>,
    reader: &mut I,
    writer: &mut W,
    complaints: &mut E,
    is_strict: bool,
) -> Result<Vec<u8>, FollowFault>
    requires { IsFresh follower.old }
    ensures left { IfOk result (λ text. HasLeft follower.old is_strict
        (I.remaining reader.old) (I.remaining reader.new) (W.contents writer.old) (W.contents writer.new) text.items) }
    ensures lenient { IfErr result (λ e. is_strict ≡ false → is_refused e ≡ false) }
    ensures ended { IfErr result (IsEndOfLeaving follower.old is_strict
        (I.remaining reader.old) (I.remaining reader.new) (W.contents writer.old) (W.contents writer.new)) }
{
    // what a follower has written from the first slot on is what is written at once
    text_is_whole();
    feed_rows(alloc, follower, reader, writer, complaints, is_strict, true)?;
    left_text(alloc, follower.dispatcher())
}

// Feeds a follower that is new: to the reader's end, or, with `to_last`, until all slots are planned.
fn feed_rows<R: Ready, I: Read, W: Write, E: Write>(
    alloc: Global,
    follower: &mut Follower<R>,
    reader: &mut I,
    writer: &mut W,
    complaints: &mut E,
    is_strict: bool,
    to_last: bool,
) -> Result<(), ProgramFault>
    requires { IsCaughtUp follower.old }
    ensures fed { OnOk result (IsFed is_strict to_last follower.old follower.new
        (I.remaining reader.old) (I.remaining reader.new) (W.contents writer.old) (W.contents writer.new)) }
    ensures settled { OnOk result (follower.new.dispatch.settings.slots ≤ length follower.new.dispatch.tables) }
    ensures lenient { IfErr result (λ e. is_strict ≡ false → is_refusal e ≡ false) }
    ensures ended { IfErr result (IsFedEndOf is_strict to_last follower.old follower.new
        (I.remaining reader.old) (I.remaining reader.new) (W.contents writer.old) (W.contents writer.new)) }
{
    begin(follower, writer)?;
    follow(
        alloc, follower, reader, writer, complaints, is_strict, to_last,
    )?;
    let slot = follower.dispatcher().next_slot();
    if slot < follower.dispatcher().settings().slots() {
        let _ = report_missing(follower, complaints);
        return Err(ProgramFault::Stalled { slot });
    }
    let _ = report_dropped(follower, complaints);
    Ok(())
}

fn begin<R: Ready, W: Write>(follower: &Follower<R>, writer: &mut W) -> Result<(), ProgramFault>
    ensures written { OnOk result (Appends (W.contents writer.old) (W.contents writer.new)
        (head_from follower.now.dispatch.origin follower.now.output follower.now.unwritten)) }
    ensures cut { IsErrOf result WriteFailed → TakesPrefix (W.contents writer.old) (W.contents writer.new)
        (head_from follower.now.dispatch.origin follower.now.output follower.now.unwritten) }
    ensures nothing { IfErr result (λ e. e ≢ WriteFailed → Keeps (W.contents writer.old) (W.contents writer.new)) }
    ensures cause { IfErr result (λ e. (e ≡ WriteFailed) ⊎ (e ≡ Memory)) }
{
    if follower.dispatcher().state().is_none() && follower.unwritten() == 0 {
        follower.write_header(writer)
    } else {
        Ok(())
    }
}

/// Writes the entries of the script that a reader's bytes hold, each as a row: the logs in order of
/// processors, and in each its entries from number 1 on, with the one that closes it. There is no
/// header.
///
/// The whole text is made before the first byte goes out. No more than 67,108,864 bytes are taken
/// from the reader, or one more if the file is too long or an allocation fails. The cost is that of
/// [`read_script`], and O(rows).
///
/// # Errors
/// Those of [`read_script`], and [`ProgramFault::Memory`] if an allocation fails: nothing has then
/// been written. [`ProgramFault::WriteFailed`] if the writer
/// answered an error, or took nothing; a prefix of the text has then gone out.
pub fn entries<R: Read, W: Write>(
    alloc: Global,
    reader: &mut R,
    writer: &mut W,
) -> Result<(), ProgramFault>
    ensures { IsCommandOf IsOutputOf IsRefusalOf result
        (R.remaining reader.old) (R.remaining reader.new) (W.contents writer.old) (W.contents writer.new) }
{
    let script = read_script(alloc, reader)?;
    let text = entries_of(alloc, &script)?;
    Ok(send(writer, text.as_slice())?)
}
