//! The laws of rows. Each function does nothing: its contract is the law.
ghost use Rattle.std.specs.Prelude.{◌≡◌};
ghost use Rattle.pfair_entry_row.specs.Laws.{EachEntryHasItsRow, RowsAreLines, RowsAreReadOneWay, RowsAreShort, TextsAreRows};

use crate::read::LONGEST_ROW;

/// Entries that differ, in their processor, in their number or in what they say, have different
/// rows.
pub fn each_entry_has_its_row()
    ensures { EachEntryHasItsRow }
{}

/// What a row is read as is determined: as one entry, or as one fault.
#[tactic(auto, using(crate::proofs::Refused::one_way))]
pub fn rows_are_read_one_way()
    ensures { RowsAreReadOneWay }
{}

/// No line ends in a row.
#[tactic(auto, using(crate::proofs::Refused::rows_are_lines))]
pub fn rows_are_lines()
    ensures { RowsAreLines }
{}

/// A text of entries, a line for each, is cut at its line ends into their rows, and into nothing
/// besides.
#[tactic(auto, using(crate::proofs::Refused::texts_are_rows))]
pub fn texts_are_rows()
    ensures { TextsAreRows }
{}

/// No entry's row is longer than [`LONGEST_ROW`](crate::LONGEST_ROW).
pub fn rows_are_short()
    ensures bytes { LONGEST_ROW ≡ 256 }
    ensures rows { RowsAreShort }
{}
