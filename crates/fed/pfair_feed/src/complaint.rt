//! The complaints about refused lines, about logs that are short, and about what a run drops.
ghost use Rattle.std.specs.Prelude.{◌≤◌, ℕ, List, length, OnErr, OnOk};
ghost use Rattle.std.specs.Io.KnownBytes.{Appends};
ghost use Rattle.pfair_text.specs.Rows.{TakesPrefix};
ghost use Rattle.pfair_feed.specs.Feeding.{dropped_text, key_line, missing_text};

use crate::follower::Follower;
use itoa::Buffer;
use pfair_file::ProgramFault;
use pfair_ready::Ready;
use pfair_text::{WriteFailed, send};
use std::io::Write;

// Room for the line of any refusal with the whole of a row.
const LINE_ROOM: usize = 512;

/// Writes the line of a refusal, `pfair_follow: NUMBER TEXT: LINE`, as far as the writer takes it.
///
/// It goes out in one write, cut to 512 bytes, and with a question mark in place of each byte that is
/// no printed character of ASCII. It allocates nothing.
pub fn report_refused<E: Write>(complaints: &mut E, fault: &ProgramFault, line: &[u8])
    ensures { (text : List ℕ) × (length text ≤ 512) × TakesPrefix (E.contents complaints.old) (E.contents complaints.new) text }
{
    let mut text = [0; LINE_ROOM];
    let mut room = &mut text[..];
    let number = fault.number();
    let _ = write!(&mut room, "pfair_follow: {number} {fault}: ");
    for byte in line {
        let is_shown = byte.is_ascii_graphic() || *byte == b' ';
        let shown = if is_shown { *byte } else { b'?' };
        let _ = room.write_all(&[shown]);
    }
    let _ = room.write_all(b"\n");
    let length = LINE_ROOM.saturating_sub(room.len());
    let _ = send(complaints, &text[..length]);
}

/// Writes a line `missing PROCESSOR,NUMBER` for each log whose entry right behind its sound beginning
/// would settle more slots and isn't held, in order of processors. A log with no room for it has no
/// line. It allocates nothing.
///
/// # Errors
/// [`WriteFailed`] if the writer answered an error, or took nothing; it has then a prefix of the
/// lines.
pub fn report_missing<R: Ready, E: Write>(
    follower: &Follower<R>,
    complaints: &mut E,
) -> Result<(), WriteFailed>
    ensures reported { OnOk result (Appends (E.contents complaints.old) (E.contents complaints.new) (missing_text follower.now)) }
    ensures cut { OnErr result (TakesPrefix (E.contents complaints.old) (E.contents complaints.new) (missing_text follower.now)) }
{
    for processor in 0..follower.dispatcher().settings().processors() {
        if let Some(number) = follower.missing(processor) {
            report_key(complaints, b"missing ", processor, number)?;
        }
    }
    Ok(())
}

/// Writes a line `dropped PROCESSOR,NUMBER` for each entry of a sound beginning whose announcement is
/// stamped after the last slot of the run, in order of processors and numbers: the run ends without
/// it, and the next one doesn't have it. It allocates nothing. O(entries).
///
/// # Errors
/// [`WriteFailed`] if the writer answered an error, or took nothing; it has then a prefix of the
/// lines.
pub fn report_dropped<R: Ready, E: Write>(
    follower: &Follower<R>,
    complaints: &mut E,
) -> Result<(), WriteFailed>
    ensures reported { OnOk result (Appends (E.contents complaints.old) (E.contents complaints.new) (dropped_text follower.now)) }
    ensures cut { OnErr result (TakesPrefix (E.contents complaints.old) (E.contents complaints.new) (dropped_text follower.now)) }
{
    for processor in 0..follower.dispatcher().settings().processors() {
        for index in 0..follower.dispatcher().replica().sound_count(processor) {
            if follower.is_dropped(processor, index + 1) {
                report_key(complaints, b"dropped ", processor, index + 1)?;
            }
        }
    }
    Ok(())
}

fn report_key<E: Write>(
    complaints: &mut E,
    word: &[u8],
    processor: u8,
    number: u32,
) -> Result<(), WriteFailed>
    ensures reported { OnOk result (Appends (E.contents complaints.old) (E.contents complaints.new) (key_line word.now processor number)) }
    ensures cut { OnErr result (TakesPrefix (E.contents complaints.old) (E.contents complaints.new) (key_line word.now processor number)) }
{
    send(complaints, word)?;
    send(complaints, Buffer::new().format(processor).as_bytes())?;
    send(complaints, b",")?;
    send(complaints, Buffer::new().format(number).as_bytes())?;
    send(complaints, b"\n")
}
