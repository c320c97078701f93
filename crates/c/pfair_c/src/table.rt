//! The table of a slot, and its places, in rows.
ghost use Rattle.std.specs.Prelude.{◌≡◌, ◌≤◌, length, map};
ghost use Rattle.pfair_c.specs.Answers.{Reads};
ghost use Rattle.pfair_c.specs.Rows.{pick_row, written_over};
ghost use Rattle.pfair_c.specs.RowsGiven.{AreGiven, rows_count, table_of, places_at};

use crate::answer::NOT_PLANNED;
use crate::entry::{PfairName, name_row};
use crate::open::{give_rows, lay_rows};
use pfair_handle::Handle;
use pfair_table::Pick;
use std::alloc::Global;

/// A quantum of a slot.
#[repr(C)]
#[derive(Clone, Copy)]
pub struct PfairPick {
    /// The task.
    pub name: PfairName,
    /// Its subtask, counted from 1.
    pub index: u64,
}

/// Writes the table of a planned slot, in the PD2 order. O(rows).
#[unsafe(no_mangle)]
pub extern "C" fn pfair_table(
    alloc: Global,
    handle: &mut Handle,
    slot: u64,
    count: &mut u64,
    rows: &mut [PfairPick],
) -> u32
    ensures { Reads handle.old.owner.kept handle.new.owner.kept result (count.old, rows.old) (count.new, rows.new) (AreGiven rows_count (table_of slot)) }
{
    give_rows(alloc, handle, count, rows, |dispatcher, count, rows| {
        let Some(table) = dispatcher.table(slot) else {
            return NOT_PLANNED;
        };
        lay_rows(table.len() as u64, count, rows, |rows| {
            write_table(table, rows)
        })
    })
}

/// Writes the places of a planned slot: for each row of its table the processor that runs it. O(rows).
#[unsafe(no_mangle)]
pub extern "C" fn pfair_places(
    alloc: Global,
    handle: &mut Handle,
    slot: u64,
    count: &mut u64,
    rows: &mut [u8],
) -> u32
    ensures { Reads handle.old.owner.kept handle.new.owner.kept result (count.old, rows.old) (count.new, rows.new) (AreGiven rows_count (places_at slot)) }
{
    give_rows(alloc, handle, count, rows, |dispatcher, count, rows| {
        let Some(places) = dispatcher.places(slot) else {
            return NOT_PLANNED;
        };
        lay_rows(places.len() as u64, count, rows, |rows| {
            rows[..places.len()].copy_from_slice(places)
        })
    })
}

fn write_table(table: &[Pick], rows: &mut [PfairPick])
    requires { length table.now ≤ length rows.old }
    ensures { rows.new ≡ written_over (map pick_row table.now) rows.old }
{
    for (place, pick) in table.iter().enumerate() {
        rows[place] = PfairPick {
            name: name_row(&pick.name),
            index: pick.index,
        };
    }
}
