//! The lines of a reader, one after another.
ghost use Rattle.std.specs.Prelude.{◌≡◌, ◌≢◌, ℕ, List, Some, IfErr, OnOk, false, true, IsErrOf};
ghost use Rattle.std.specs.Io.KnownBytes.{Consumes};
ghost use Rattle.pfair_replica.specs.Replica.{SameShape, held};
ghost use Rattle.pfair_file.specs.ProgramFaults.{is_refusal};
ghost use Rattle.pfair_feed.specs.Feeding.{IsCaughtUp, IsFedLine, IsFedTo, IsLeft, IsStopped, IsWelcome, question, HasFailed, IsRowAt};
ghost use Rattle.pfair_lattice.specs.declared.join_map.Flat.TheVariants.{One};
ghost use Rattle.pfair_entry.specs.Entry.{Logged};
ghost use Rattle.pfair_entry_row.specs.Row.{IsEntryAt, entry_row};
ghost use Rattle.pfair_file.specs.declared.program_fault.ProgramFault.TheVariants.{Memory};

use crate::complaint::{report_missing, report_refused};
use crate::follower::Follower;
use pfair_entry_row::laws::rows_are_short;
use pfair_entry_row::{LONGEST_ROW, RowFault, read_row};
use pfair_file::ProgramFault;
use pfair_ready::Ready;
use std::alloc::Global;
use std::io::{Read, Write};

// How many bytes are asked for at once.
const PIECE: usize = 4096;

/// Feeds the lines of a reader to its end, or, with `to_last`, until all slots of the run are planned:
/// each to the next newline, as [`feed`] does one. A line of more than 256 bytes is refused, and only
/// its first bytes are kept.
///
/// A refused line is reported in a line to `complaints`, as far as that takes it, and skipped
/// unless `is_strict`; the line `?` asks for the keys that [`report_missing`] reports, and is always
/// skipped. What is behind the last newline is no row, since it may be the beginning of one. What is
/// read behind the line that plans the last slot is lost. The cost is that of [`feed`] for each line.
///
/// # Errors
/// - [`ProgramFault::ReadFailed`] if the reader answers an error, at once and whatever its kind.
/// - the fault of [`Follower::take`] if the follower stops at the entry of a line.
/// - [`ProgramFault::Memory`] also if an allocation for a line fails; nothing of the line is then taken.
/// - the fault of the first line that is refused, if `is_strict`.
pub fn follow<R: Ready, I: Read, W: Write, E: Write>(
    alloc: Global,
    follower: &mut Follower<R>,
    reader: &mut I,
    writer: &mut W,
    complaints: &mut E,
    is_strict: bool,
    to_last: bool,
) -> Result<(), ProgramFault>
    requires { IsCaughtUp follower.old }
    ensures fed { OnOk result (IsFedTo is_strict to_last (I.remaining reader.old) (I.remaining reader.new)
        follower.old follower.new (W.contents writer.old) (W.contents writer.new)) }
    ensures stopped { IfErr result (λ e. (bytes : List ℕ) × Consumes (I.remaining reader.old) (I.remaining reader.new) bytes
        × IsStopped bytes e follower.old follower.new (W.contents writer.old) (W.contents writer.new)) }
    ensures lenient { IfErr result (λ e. is_strict ≡ false → is_refusal e ≡ false) }
{
    // a line of which more is kept than a row has is none
    rows_are_short();
    let mut kept = Vec::new(alloc);
    let mut piece = [0u8; PIECE];
    for _ in 0..u64::MAX {
        let count = match reader.read(&mut piece) {
            Err(_) => return Err(ProgramFault::ReadFailed),
            Ok(0) => return Ok(()),
            Ok(count) => count,
        };
        for byte in &piece[..count] {
            if *byte == b'\n' {
                feed_line(follower, writer, complaints, is_strict, kept.as_slice())?;
                kept.clear();
                let dispatcher = follower.dispatcher();
                if to_last && dispatcher.next_slot() >= dispatcher.settings().slots() {
                    return Ok(());
                }
            } else if kept.len() <= LONGEST_ROW && kept.push(*byte).is_err() {
                return Err(ProgramFault::Memory);
            }
        }
    }
    Err(ProgramFault::ReadFailed)
}

// Feeds a whole line, given by its first 257 bytes at least.
fn feed_line<R: Ready, W: Write, E: Write>(
    follower: &mut Follower<R>,
    writer: &mut W,
    complaints: &mut E,
    is_strict: bool,
    line: &[u8],
) -> Result<(), ProgramFault>
    requires { IsCaughtUp follower.old }
    ensures fed { OnOk result (IsFedLine line.now follower.old follower.new (W.contents writer.old) (W.contents writer.new)) }
    ensures shape { OnOk result (SameShape follower.old.dispatch.replica follower.new.dispatch.replica) }
    ensures strict { OnOk result (is_strict ≡ true → IsWelcome follower.old.dispatch.replica.processors follower.old.dispatch.replica.capacity line.now) }
    ensures left { IfErr result (λ e. IsLeft line.now (Some 10) e follower.old follower.new (W.contents writer.old) (W.contents writer.new)) }
    ensures asked { IfErr result (λ e. is_refusal e ≡ true → line.now ≢ question) }
    ensures lenient { IfErr result (λ e. is_strict ≡ false → is_refusal e ≡ false) }
{
    rows_are_short();
    let fault = if line.len() > LONGEST_ROW {
        ProgramFault::Row(RowFault::NoRow)
    } else {
        match feed(follower, writer, line) {
            Err(fault) if fault.is_refusal() => fault,
            fed => return fed,
        }
    };
    if line == b"?".as_slice() {
        let _ = report_missing(follower, complaints);
        return Ok(());
    }
    report_refused(complaints, &fault, line);
    if is_strict { Err(fault) } else { Ok(()) }
}

/// Takes the entry whose row a line is, and writes the rows of the slots that it settles, as
/// [`Follower::take`]. The cost is that of this call, and O(bytes) for the line.
///
/// # Errors
/// - [`ProgramFault::Row`] if the line is no entry's row, with what is wrong with it: nothing has changed.
/// - the fault of [`Follower::take`] for its entry: the follower and the writer are then as that call leaves
///   them. The row of an entry that is held already never gives [`ProgramFault::Memory`].
pub fn feed<R: Ready, W: Write>(
    follower: &mut Follower<R>,
    writer: &mut W,
    line: &[u8],
) -> Result<(), ProgramFault>
    requires { IsCaughtUp follower.old }
    ensures fed { OnOk result (IsFedLine line.now follower.old follower.new (W.contents writer.old) (W.contents writer.new)) }
    ensures row { OnOk result (IsRowAt follower.old.dispatch.replica.processors follower.old.dispatch.replica.capacity line.now) }
    ensures shape { OnOk result (SameShape follower.old.dispatch.replica follower.new.dispatch.replica) }
    ensures refused { IfErr result (λ e. is_refusal e ≡ true →
        (follower.new ≡ follower.old) × IsFedLine line.now follower.old follower.new (W.contents writer.old) (W.contents writer.new)) }
    ensures failed { IfErr result (λ e. HasFailed line.now e follower.old follower.new (W.contents writer.old) (W.contents writer.new)) }
    ensures repeat { (processor number : ℕ) (e : Logged) → IsEntryAt processor number e → line.now ≡ entry_row processor number e
        → held follower.old.dispatch.replica processor number ≡ Some (One e) → IsErrOf result Memory → ⊥ }
{
    let (processor, number, entry) = read_row(line).map_err(ProgramFault::Row)?;
    follower.take(writer, processor, number, entry)?;
    Ok(())
}
