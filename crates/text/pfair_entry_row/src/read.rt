//! The entry that a row names.
ghost use Rattle.std.specs.Prelude.{◌≡◌, ℕ, Ok};
ghost use Rattle.pfair_entry.specs.Entry.{Logged};
ghost use Rattle.pfair_entry_row.specs.Row.{entry_row, IsEntryAt, IsReadingOf};

use crate::fault::RowFault;
use crate::line::read_line;
use pfair_entry::{Entry, checked_entry};

/// More bytes than any row of an entry has.
pub const LONGEST_ROW: usize = 256;

/// Returns the processor, the number and the entry that a row names, without its line's end.
///
/// Only the rows that [`add_entry`](crate::add_entry) writes are read, so each entry has one row.
/// O(bytes); it allocates nothing.
///
/// # Errors
/// The first that applies: [`RowFault::NoRow`] if the fields can't be those of any entry,
/// [`RowFault::Refused`] if a rule of entries refuses what they say,
/// [`RowFault::NoSuchProcessor`] if the processor is past 255, and
/// [`RowFault::NumberOutOfRange`] if the number doesn't fit into 32 bits.
pub fn read_row(row: &[u8]) -> Result<(u8, u32, Entry), RowFault>
    ensures reading { IsReadingOf row.now result }
    ensures back { (processor number : ℕ) (e : Logged) → IsEntryAt processor number e
        → row.now ≡ entry_row processor number e → result ≡ Ok (processor, number, e) }
{
    let Some(line) = read_line(row) else {
        return Err(RowFault::NoRow);
    };
    let entry = checked_entry(line.floor, line.notice).map_err(RowFault::Refused)?;
    let processor = u8::try_from(line.processor)
        .ok()
        .ok_or(RowFault::NoSuchProcessor)?;
    let number = u32::try_from(line.number)
        .ok()
        .ok_or(RowFault::NumberOutOfRange)?;
    Ok((processor, number, entry))
}
