//! Tables as rows: slot, processor, task, index, and in a text with places the place.
#![tactic(auto, using(crate::proofs::SlotFacts::plain_fields))]

ghost use Rattle.std.specs.Prelude.{◌≡◌, ◌≤◌, ◌++◌, ◌∷◌, [], List, OnOk, IfOk, Some, drop, length, map, slice_get};
ghost use Rattle.pfair_text.specs.Rows.{IsOpen, line, lines_text, text_so_far};
ghost use Rattle.pfair_table.specs.Places.{places_in};
ghost use Rattle.pfair_table.specs.Table.{Table};
ghost use Rattle.pfair_output.specs.Replay.{slots_from, placed_header, placed_row, placed_rows_from, placed_table_rows, placed_text, places_at, replay_header, replay_text, table_rows};

use csv::Writer;
use itoa::Buffer;
use pfair_ready::Ready;
use pfair_table::{Dispatcher, Pick};
use pfair_text::{add_row, finish, new_text};
use std::alloc::{AllocError, Global};

/// Returns the tables of a run as rows that end with their places: row k of a slot's table with the
/// k-th of the slot's places.
///
/// If fewer places than rows are given, the other rows end with their index. O(rows) time and memory.
///
/// # Errors
/// Returns [`AllocError`] if an allocation fails.
pub fn placed_replay_of(
    alloc: Global,
    tables: &[Vec<Pick>],
    places: &[Vec<u8>],
) -> Result<Vec<u8>, AllocError>
    ensures { IfOk result (λ text. text.items ≡ placed_text (map (λ t. t.items) tables.now) (map (λ p. p.items) places.now)) }
{
    let mut writer = new_text(alloc);
    add_placed_header(&mut writer)?;
    for (slot, table) in tables.iter().enumerate() {
        add_table(&mut writer, slot as u64, table, slot_places(places, slot))?;
    }
    finish(writer)
}

/// Adds the header of tables as rows.
///
/// # Errors
/// Returns [`AllocError`] if an allocation fails.
pub fn add_replay_header(writer: &mut Writer<Vec<u8>>) -> Result<(), AllocError>
    requires { IsOpen writer.old }
    ensures open { OnOk result (IsOpen writer.new) }
    ensures text { OnOk result (text_so_far writer.new ≡ text_so_far writer.old ++ line replay_header) }
{
    add_row(writer, &[b"slot", b"processor", b"task", b"index"])
}

/// Adds the header of tables as rows that end with their places.
///
/// # Errors
/// Returns [`AllocError`] if an allocation fails.
pub fn add_placed_header(writer: &mut Writer<Vec<u8>>) -> Result<(), AllocError>
    requires { IsOpen writer.old }
    ensures open { OnOk result (IsOpen writer.new) }
    ensures text { OnOk result (text_so_far writer.new ≡ text_so_far writer.old ++ line placed_header) }
{
    add_row(
        writer,
        &[b"slot", b"processor", b"task", b"index", b"place"],
    )
}

/// Adds a row for each quantum of a slot's table, under the header of [`add_replay_header`]. O(rows).
///
/// # Errors
/// Returns [`AllocError`] if an allocation fails.
pub fn add_table_rows(
    writer: &mut Writer<Vec<u8>>,
    slot: u64,
    table: &[Pick],
) -> Result<(), AllocError>
    requires { IsOpen writer.old }
    ensures open { OnOk result (IsOpen writer.new) }
    ensures text { OnOk result (text_so_far writer.new ≡ text_so_far writer.old ++ lines_text (table_rows slot table.now)) }
    ensures more { OnOk result ((tables : List Table) → length tables ≡ slot → text_so_far writer.old ≡ replay_text tables
        → text_so_far writer.new ≡ replay_text (tables ++ table.now ∷ [])) }
{
    add_table(writer, slot, table, &[])
}

/// Adds a row for each quantum of a dispatcher's planned tables, from a slot on that isn't forgotten,
/// under the header of [`add_replay_header`]. O(rows).
///
/// # Errors
/// Returns [`AllocError`] if an allocation fails.
pub fn add_tables_from<R: Ready>(
    writer: &mut Writer<Vec<u8>>,
    dispatcher: &Dispatcher<R>,
    from: u64,
) -> Result<(), AllocError>
    requires open { IsOpen writer.old }
    requires unforgotten { dispatcher.now.forgotten ≤ from }
    ensures open { OnOk result (IsOpen writer.new) }
    ensures text { OnOk result (text_so_far writer.new ≡ text_so_far writer.old
        ++ lines_text (slots_from table_rows from (drop from dispatcher.now.tables))) }
{
    for slot in from..dispatcher.next_slot() {
        let Some(table) = dispatcher.table(slot) else {
            unreachable!()
        };
        add_table(writer, slot, table, &[])?;
    }
    Ok(())
}

/// Adds the same rows, each with its place at the end, under the header of [`add_placed_header`].
/// O(rows).
///
/// # Errors
/// Returns [`AllocError`] if an allocation fails.
pub fn add_placed_tables_from<R: Ready>(
    writer: &mut Writer<Vec<u8>>,
    dispatcher: &Dispatcher<R>,
    from: u64,
) -> Result<(), AllocError>
    requires open { IsOpen writer.old }
    requires unforgotten { dispatcher.now.forgotten ≤ from }
    ensures open { OnOk result (IsOpen writer.new) }
    ensures text { OnOk result (text_so_far writer.new ≡ text_so_far writer.old
        ++ lines_text (slots_from (placed_table_rows (places_in dispatcher.now.origin dispatcher.now.tables)) from
        (drop from dispatcher.now.tables))) }
{
    for slot in from..dispatcher.next_slot() {
        let Some(table) = dispatcher.table(slot) else {
            unreachable!()
        };
        let places = dispatcher.places(slot).unwrap_or(&[]);
        add_table(writer, slot, table, places)?;
    }
    Ok(())
}

fn slot_places(places: &[Vec<u8>], slot: usize) -> &[u8]
    ensures { result.now ≡ places_at (map (λ p. p.items) places.now) slot }
{
    match places.get(slot) {
        Some(here) => here.as_slice(),
        None => &[],
    }
}

// Adds a row for each quantum of a slot's table, which ends with its place if it has one.
fn add_table(
    writer: &mut Writer<Vec<u8>>,
    slot: u64,
    table: &[Pick],
    places: &[u8],
) -> Result<(), AllocError>
    requires open { IsOpen writer.old }
    ensures open { OnOk result (IsOpen writer.new) }
    ensures text { OnOk result (text_so_far writer.new ≡ text_so_far writer.old ++ lines_text (placed_rows_from places.now slot 0 table.now)) }
{
    for (row, pick) in table.iter().enumerate() {
        let (mut slot_text, mut row_text, mut index_text) = (
            Buffer::new(),
            Buffer::new(),
            Buffer::new(),
        );
        let slot = slot_text.format(slot).as_bytes();
        let number = row_text.format(row).as_bytes();
        let task = pick.name.as_bytes();
        let index = index_text.format(pick.index).as_bytes();
        match places.get(row) {
            Some(place) => {
                let mut place_text = Buffer::new();
                let place = place_text.format(*place).as_bytes();
                add_row(writer, &[slot, number, task, index, place])?;
            }
            None => add_row(writer, &[slot, number, task, index])?,
        }
    }
    Ok(())
}
