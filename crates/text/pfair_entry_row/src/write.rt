//! The row of an entry.
ghost use Rattle.std.specs.Prelude.{◌≡◌, ◌++◌, ◌∷◌, IsTrue, OnOk};
ghost use Rattle.std.specs.Fmt.{decimal};
ghost use Rattle.std.specs.List.{list_all};
ghost use Rattle.pfair_text.specs.Rows.{IsOpen, is_plain, line, text_so_far};
ghost use Rattle.pfair_entry_row.specs.Row.{entry_fields, fields_of, truth, IsEntryAt};

use csv::Writer;
use itoa::Buffer;
use pfair_entry::{Announcement, Entry};
use pfair_text::add_row;
use std::alloc::AllocError;

// What a row has from the stamp on.
#[derive(Clone, Copy)]
struct StampedFields<'a> {
    at: &'a [u8],
    kind: &'a [u8],
    name: &'a [u8],
    cost: &'a [u8],
    period: &'a [u8],
    early: &'a [u8],
    index: &'a [u8],
    by: &'a [u8],
}

/// Adds the row of an entry: processor, number, floor, stamp, kind, name, cost, period, early,
/// index and delay, with a dash where the entry has nothing. [`read_row`](crate::read_row) gives
/// the three again.
///
/// # Errors
/// Returns [`AllocError`] if an allocation fails; the text is not to be used any more then.
pub fn add_entry(
    writer: &mut Writer<Vec<u8>>,
    processor: u8,
    number: u32,
    entry: &Entry,
) -> Result<(), AllocError>
    requires { IsOpen writer.old }
    ensures open { OnOk result (IsOpen writer.new) }
    ensures text { OnOk result (text_so_far writer.new ≡ text_so_far writer.old
        ++ line (entry_fields processor number entry.now)) }
    ensures entry { IsEntryAt processor number entry.now }
{
    let nothing = StampedFields {
        at: b"-",
        kind: b"-",
        name: b"-",
        cost: b"-",
        period: b"-",
        early: b"-",
        index: b"-",
        by: b"-",
    };
    let floor = entry.floor();
    let Some((at, announcement)) = entry.said() else {
        return add_said(writer, processor, number, floor, nothing);
    };
    let mut stamp = Buffer::new();
    let at = stamp.format(at).as_bytes();
    match announcement {
        Announcement::Arrive {
            name,
            weight,
            early,
        } => {
            let (mut cost, mut period) = (Buffer::new(), Buffer::new());
            let said = StampedFields {
                at,
                kind: b"arrive",
                name: name.as_bytes(),
                cost: cost.format(weight.cost()).as_bytes(),
                period: period.format(weight.period()).as_bytes(),
                early: truth_word(early).as_bytes(),
                ..nothing
            };
            add_said(writer, processor, number, floor, said)
        }
        Announcement::Depart { name } => {
            let said = StampedFields {
                at,
                kind: b"depart",
                name: name.as_bytes(),
                ..nothing
            };
            add_said(writer, processor, number, floor, said)
        }
        Announcement::Late { name, index, by } => {
            let (mut subtask, mut delay) = (Buffer::new(), Buffer::new());
            let said = StampedFields {
                at,
                kind: b"late",
                name: name.as_bytes(),
                index: subtask.format(index).as_bytes(),
                by: delay.format(by).as_bytes(),
                ..nothing
            };
            add_said(writer, processor, number, floor, said)
        }
    }
}

// Adds a row: processor, number, floor, and what it says.
fn add_said(
    writer: &mut Writer<Vec<u8>>,
    processor: u8,
    number: u32,
    floor: u64,
    said: StampedFields<'_>,
) -> Result<(), AllocError>
    requires open { IsOpen writer.old }
    requires plain { IsTrue (list_all is_plain (fields_of said)) }
    ensures open { OnOk result (IsOpen writer.new) }
    ensures text { OnOk result (text_so_far writer.new ≡ text_so_far writer.old
        ++ line (decimal processor ∷ decimal number ∷ decimal floor ∷ fields_of said.entry)) }
{
    add_row(
        writer,
        &[
            Buffer::new().format(processor).as_bytes(),
            Buffer::new().format(number).as_bytes(),
            Buffer::new().format(floor).as_bytes(),
            said.at,
            said.kind,
            said.name,
            said.cost,
            said.period,
            said.early,
            said.index,
            said.by,
        ],
    )
}

/// Returns the word for whether a task may run early.
pub fn truth_word(early: bool) -> &'static str
    ensures word { result.now ≡ truth early }
    ensures plain { IsTrue (is_plain result.now) }
{
    if early { "true" } else { "false" }
}
