//! The quanta of several slots, in rows.
ghost use Rattle.std.specs.Prelude.{◌≡◌, ◌≤◌, ◌<◌, length, slice_get};
ghost use Rattle.pfair_c.specs.Answers.{Reads};
ghost use Rattle.pfair_c.specs.Rows.{quantum_row, quanta_in, quanta_of, written_over};
ghost use Rattle.pfair_c.specs.RowsGiven.{AreGiven, rows_count, quanta_between};

use crate::answer::NOT_PLANNED;
use crate::entry::{PfairName, name_row};
use crate::open::{are_readable, give_rows, lay_rows};
use pfair_handle::Handle;
use pfair_ready::Ready;
use pfair_table::{Dispatcher, Pick, Settings};
use std::alloc::Global;

/// A quantum of one of several slots.
#[repr(C)]
#[derive(Clone, Copy)]
pub struct PfairQuantum {
    /// The slot.
    pub slot: u64,
    /// The row of the slot's table, counted from 0.
    pub row: u64,
    /// The processor that runs it, counted from 0.
    pub place: u64,
    /// The task.
    pub name: PfairName,
    /// Its subtask, counted from 1.
    pub index: u64,
}

/// Writes the quanta of the planned slots `from` to `to` - 1, slot by slot, each slot's in the order
/// of its table, with their places; none if `from` isn't below `to`. O(slots + rows).
#[unsafe(no_mangle)]
pub extern "C" fn pfair_quanta(
    alloc: Global,
    handle: &mut Handle,
    from: u64,
    to: u64,
    count: &mut u64,
    rows: &mut [PfairQuantum],
) -> u32
    ensures { Reads handle.old.owner.kept handle.new.owner.kept result (count.old, rows.old) (count.new, rows.new)
        (AreGiven rows_count (quanta_between from to)) }
{
    give_rows(alloc, handle, count, rows, |dispatcher, count, rows| {
        if !are_readable(dispatcher, from, to) {
            return NOT_PLANNED;
        }
        let wanted = write_quanta(dispatcher, from, to, &mut []);
        lay_rows(wanted, count, rows, |rows| {
            write_quanta(dispatcher, from, to, rows);
        })
    })
}

fn write_quanta<R: Ready>(
    dispatcher: &Dispatcher<R>,
    from: u64,
    to: u64,
    rows: &mut [PfairQuantum],
) -> u64
    requires unforgotten { from < to → dispatcher.now.forgotten ≤ from }
    requires few { to ≤ Settings.MAX_SLOTS }
    ensures count { result ≡ length (quanta_of dispatcher.now.origin dispatcher.now.tables from to) }
    ensures rows { length (quanta_of dispatcher.now.origin dispatcher.now.tables from to) ≤ length rows.old →
        rows.new ≡ written_over (quanta_of dispatcher.now.origin dispatcher.now.tables from to) rows.old }
{
    let mut count: u64 = 0;
    for slot in from..to {
        // the contract of places bounds the rows of all tables by the processors
        prove!(dispatcher.settings().processors() <= Settings::MAX_PROCESSORS);
        let places = dispatcher.places(slot).unwrap_or(&[]);
        let table = dispatcher.table(slot).unwrap_or(&[]);
        let next = count + table.len() as u64;
        if next <= rows.len() as u64 {
            write_rows(slot, table, places, &mut rows[count as usize..]);
        }
        count = next;
    }
    count
}

fn write_rows(slot: u64, table: &[Pick], places: &[u8], rows: &mut [PfairQuantum])
    requires { length table.now ≤ length rows.old }
    ensures { rows.new ≡ written_over (quanta_in places.now slot 0 table.now) rows.old }
{
    for (row, pick) in table.iter().enumerate() {
        rows[row] = quantum_row(slot, row, pick, places);
    }
}

fn quantum_row(slot: u64, row: usize, pick: &Pick, places: &[u8]) -> PfairQuantum
    ensures { result ≡ quantum_row slot row pick.now (slice_get places.now row) }
{
    PfairQuantum {
        slot,
        row: row as u64,
        place: places.get(row).copied().unwrap_or(0) as u64,
        name: name_row(&pick.name),
        index: pick.index,
    }
}
