//! The rows of a state.
#![tactic(auto, using(crate::proofs::RowsSpelled::plain_fields))]

ghost use Rattle.std.specs.Prelude.{◌≡◌, ◌<◌, ◌^◌, ◌++◌, min, length, IfOk, IfSome, IsTrue, OnOk};
ghost use Rattle.std.specs.List.{AllByRecursion, flat_map};
ghost use Rattle.pfair_text.specs.Rows.{IsOpen, is_plain, lines_text, text_so_far};
ghost use Rattle.pfair_state.specs.Reading.{AreSpelled, IsSpelledQuantum, IsWritable, member_said};
ghost use Rattle.pfair_state.specs.Rows.{member_rows, ran_rows, slot_field, state_text};

use csv::Writer;
use itoa::Buffer;
use pfair_admission::{Incarnation, Members};
use pfair_entry_row::truth_word;
use pfair_table::{Pick, State};
use pfair_text::add_row;
use std::alloc::AllocError;

/// Adds the rows of a state, which [`read_state`](crate::read_state) reads as this state. Just equal
/// states have equal rows, so that two machines compare the bytes.
///
/// Each row has less than 256 bytes. O(rows).
///
/// # Errors
/// Returns [`AllocError`] if an allocation fails; the text is not to be used any more then.
pub fn add_state(writer: &mut Writer<Vec<u8>>, state: &State) -> Result<(), AllocError>
    requires { IsOpen writer.old }
    ensures open { OnOk result (IsOpen writer.new) }
    ensures text { OnOk result (text_so_far writer.new ≡ text_so_far writer.old ++ state_text state.now) }
    ensures readable { OnOk result (IsWritable state.now) }
{
    let members = state.members();
    add_row(
        writer,
        &[
            b"state",
            b"1",
            Buffer::new().format(state.slot()).as_bytes(),
            Buffer::new().format(members.processors()).as_bytes(),
            Buffer::new().format(members.frame()).as_bytes(),
        ],
    )?;
    let of_members = add_members(writer, members)?;
    add_ran(writer, state.table(), state.places())?;
    let rows = of_members
        .saturating_add(state.table().len() as u64)
        .saturating_add(2);
    add_row(writer, &[b"end", Buffer::new().format(rows).as_bytes()])
}

// Adds the rows of all members, in the order of their admission, and returns how many, as far as 64 bits go.
fn add_members(writer: &mut Writer<Vec<u8>>, members: &Members) -> Result<u64, AllocError>
    requires { IsOpen writer.old }
    ensures open { OnOk result (IsOpen writer.new) }
    ensures text { OnOk result (text_so_far writer.new ≡ text_so_far writer.old ++ lines_text (flat_map member_rows members.now.members)) }
    ensures spelled { OnOk result (AllByRecursion (λ m. AreSpelled (member_said m)) members.now.members) }
    ensures count { IfOk result (λ rows. rows ≡ min (length (flat_map member_rows members.now.members)) 18446744073709551615) }
{
    let mut rows: u64 = 0;
    for place in 0..members.len() {
        let Some((_, member)) = members.at(place) else {
            unreachable!()
        };
        add_member(writer, member)?;
        rows = rows.saturating_add(1 + member.delays().len() as u64);
    }
    Ok(rows)
}

// Adds the rows of a member: its own, and one for each late release.
fn add_member(writer: &mut Writer<Vec<u8>>, member: &Incarnation) -> Result<(), AllocError>
    requires { IsOpen writer.old }
    ensures open { OnOk result (IsOpen writer.new) }
    ensures text { OnOk result (text_so_far writer.new ≡ text_so_far writer.old ++ lines_text (member_rows member.now)) }
    ensures spelled { OnOk result (AreSpelled (member_said member.now)) }
{
    let name = *member.name();
    add_row(
        writer,
        &[
            b"member",
            name.as_bytes(),
            Buffer::new().format(member.weight().cost()).as_bytes(),
            Buffer::new().format(member.weight().period()).as_bytes(),
            truth_word(member.early()).as_bytes(),
            Buffer::new().format(member.joined()).as_bytes(),
            Buffer::new().format(member.next()).as_bytes(),
            slot_field(member.freed_at(), &mut Buffer::new()).as_bytes(),
        ],
    )?;
    let delays = member.delays();
    for delay in delays {
        add_row(
            writer,
            &[
                b"late",
                name.as_bytes(),
                Buffer::new().format(delay.index).as_bytes(),
                Buffer::new().format(delay.by).as_bytes(),
            ],
        )?;
    }
    Ok(())
}

fn slot_field(slot: Option<u64>, buffer: &mut Buffer) -> &str
    ensures value { result.now ≡ slot_field slot }
    ensures fits { IfSome slot (λ t. t < 2 ^ 64) }
    ensures plain { IsTrue (is_plain result.now) }
{
    match slot {
        Some(slot) => buffer.format(slot),
        None => "-",
    }
}

fn add_ran(writer: &mut Writer<Vec<u8>>, table: &[Pick], places: &[u8]) -> Result<(), AllocError>
    requires open { IsOpen writer.old }
    requires places { length places.now ≡ length table.now }
    ensures open { OnOk result (IsOpen writer.new) }
    ensures text { OnOk result (text_so_far writer.new ≡ text_so_far writer.old ++ lines_text (ran_rows table.now places.now)) }
    ensures spelled { OnOk result (AllByRecursion IsSpelledQuantum table.now) }
{
    for (row, pick) in table.iter().enumerate() {
        add_row(
            writer,
            &[
                b"ran",
                pick.name.as_bytes(),
                Buffer::new().format(pick.index).as_bytes(),
                Buffer::new().format(places[row]).as_bytes(),
            ],
        )?;
    }
    Ok(())
}
