//! The decisions of several slots, in rows.
ghost use Rattle.std.specs.Prelude.{◌≡◌, ◌≤◌, ◌<◌, length, map, min};
ghost use Rattle.pfair_c.specs.Answers.{Reads};
ghost use Rattle.pfair_c.specs.Rows.{decision_row, decisions_of, written_over};
ghost use Rattle.pfair_c.specs.RowsGiven.{AreGiven, rows_counted, decisions_between};

use crate::answer::NOT_PLANNED;
use crate::entry::{PfairName, name_row};
use crate::open::{are_readable, give_rows, lay_rows};
use pfair_admission::Decision;
use pfair_handle::Handle;
use pfair_ready::Ready;
use pfair_table::{Decided, Dispatcher};
use std::alloc::Global;

/// A decision at the boundary of one of several slots.
#[repr(C)]
#[derive(Clone, Copy)]
pub struct PfairDecision {
    /// The slot.
    pub slot: u64,
    /// The task.
    pub name: PfairName,
    /// The processor in whose log the entry stands, counted from 0.
    pub processor: u64,
    /// The entry's number there, counted from 1.
    pub number: u64,
    /// 0 admitted, 1 departing, 2 delayed, else the number of the refusal, 20 to 25.
    pub outcome: u64,
    /// Of a departure the slot from which weight and name are free, else 0.
    pub freed_at: u64,
}

/// Writes the decisions at the boundaries of the planned slots `from` to `to` - 1, slot by slot, each
/// slot's by processor and number; none if `from` isn't below `to`. O(slots + rows).
#[unsafe(no_mangle)]
pub extern "C" fn pfair_decisions(
    alloc: Global,
    handle: &mut Handle,
    from: u64,
    to: u64,
    count: &mut u64,
    rows: &mut [PfairDecision],
) -> u32
    ensures { Reads handle.old.owner.kept handle.new.owner.kept result (count.old, rows.old) (count.new, rows.new)
        (AreGiven rows_counted (decisions_between from to)) }
{
    give_rows(alloc, handle, count, rows, |dispatcher, count, rows| {
        if !are_readable(dispatcher, from, to) {
            return NOT_PLANNED;
        }
        let wanted = write_decisions(dispatcher, from, to, &mut []);
        lay_rows(wanted, count, rows, |rows| {
            write_decisions(dispatcher, from, to, rows);
        })
    })
}

fn write_decisions<R: Ready>(
    dispatcher: &Dispatcher<R>,
    from: u64,
    to: u64,
    rows: &mut [PfairDecision],
) -> u64
    requires { from < to → dispatcher.now.forgotten ≤ from }
    ensures count { result ≡ min (length (decisions_of dispatcher.now.decided from to)) 18446744073709551615 }
    ensures rows { length (decisions_of dispatcher.now.decided from to) ≤ length rows.old →
        rows.new ≡ written_over (decisions_of dispatcher.now.decided from to) rows.old }
{
    let mut count: u64 = 0;
    for slot in from..to {
        let decided = dispatcher.decisions(slot).unwrap_or(&[]);
        let next = count.saturating_add(decided.len() as u64);
        if next <= rows.len() as u64 {
            write_rows(slot, decided, &mut rows[count as usize..]);
        }
        count = next;
    }
    count
}

fn write_rows(slot: u64, decided: &[Decided], rows: &mut [PfairDecision])
    requires { length decided.now ≤ length rows.old }
    ensures { rows.new ≡ written_over (map (decision_row slot) decided.now) rows.old }
{
    for (row, one) in decided.iter().enumerate() {
        rows[row] = decision_row(slot, one);
    }
}

fn decision_row(slot: u64, one: &Decided) -> PfairDecision
    ensures { result ≡ decision_row slot one.now }
{
    let (outcome, freed_at) = match one.decision {
        Decision::Admitted => (0, 0),
        Decision::Departing { freed_at } => (1, freed_at),
        Decision::Delayed => (2, 0),
        Decision::Refused(refusal) => (refusal.number() as u64, 0),
    };
    PfairDecision {
        slot,
        name: name_row(&one.announcement.name()),
        processor: one.proc as u64,
        number: one.number as u64,
        outcome,
        freed_at,
    }
}
