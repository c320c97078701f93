//! Who is there after the planned slots, in rows.
ghost use Rattle.std.specs.Prelude.{◌≡◌, ◌≤◌, ◌+◌, length, map, set, slice_get};
ghost use Rattle.pfair_c.specs.Answers.{Reads};
ghost use Rattle.pfair_c.specs.Rows.{written_over};
ghost use Rattle.pfair_c.specs.RowsGiven.{AreMembersGiven, member_row, time_of};

use crate::answer::SPENT;
use crate::entry::{PfairName, name_row};
use crate::open::{give_rows, lay_rows};
use pfair_admission::Members;
use pfair_handle::Handle;
use pfair_ready::HeapReady;
use pfair_table::Dispatcher;
use std::alloc::Global;

/// A task that was admitted and isn't freed.
#[repr(C)]
#[derive(Clone, Copy)]
pub struct PfairMember {
    /// The task.
    pub name: PfairName,
    /// The quanta of each of its periods.
    pub cost: u64,
    /// The slots of a period.
    pub period: u64,
    /// 1 if its subtasks may run early, else 0.
    pub early: u64,
    /// The slot in which it joined.
    pub joined: u64,
    /// Its next subtask, counted from 1.
    pub next: u64,
    /// The offset of that subtask's window: the joining slot, and the late releases up to it.
    pub theta: u64,
    /// 1 if it is departing, else 0.
    pub is_departing: u64,
    /// The slot from which its weight and its name are free, if it is departing, else 0.
    pub freed_at: u64,
    /// Its lag after the planned slots, as a numerator over the period.
    pub lag: i64,
}

/// Writes the members after the planned slots, in the order of admission: the tasks that were
/// admitted and aren't freed at the boundary of the last of these slots, each with the subtask that
/// is next after that slot's table, and with its lag then.
///
/// Answers 0 with the number of rows and the rows; 102 if the handle has no dispatcher; 31 if the
/// dispatcher is spent; 103 with the number of rows wanted, if there are fewer. Nothing else is
/// written. O(rows + l) for l late releases accepted of these tasks.
#[unsafe(no_mangle)]
pub extern "C" fn pfair_members(
    alloc: Global,
    handle: &mut Handle,
    count: &mut u64,
    rows: &mut [PfairMember],
) -> u32
    ensures { Reads handle.old.owner.kept handle.new.owner.kept result (count.old, rows.old) (count.new, rows.new) AreMembersGiven }
{
    give_rows(alloc, handle, count, rows, |dispatcher, count, rows| {
        let Some(members) = dispatcher.members() else {
            return SPENT;
        };
        let time = time_of(dispatcher);
        lay_rows(members.len() as u64, count, rows, |rows| {
            write_members(members, time, rows)
        })
    })
}

// The slot that is planned next, counted over all runs as members' slots are.
fn time_of(dispatcher: &Dispatcher<HeapReady>) -> u64
    ensures { result ≡ time_of dispatcher.now }
{
    let began = dispatcher.state().map_or(0, |state| state.slot());
    began + dispatcher.next_slot()
}

fn write_members(members: &Members, time: u64, rows: &mut [PfairMember])
    requires { length members.now.members ≤ length rows.old }
    ensures { rows.new ≡ written_over (map (member_row time) members.now.members) rows.old }
{
    for place in 0..members.len() {
        if let Some((_, member)) = members.at(place) {
            let weight = member.weight();
            rows[place] = PfairMember {
                name: name_row(member.name()),
                cost: weight.cost(),
                period: weight.period(),
                early: if member.early() { 1 } else { 0 },
                joined: member.joined(),
                next: member.next(),
                theta: member.theta(member.next()),
                is_departing: if member.is_departing() { 1 } else { 0 },
                freed_at: member.freed_at().unwrap_or(0),
                lag: member.lag(time).clamp(i64::MIN as i128, i64::MAX as i128) as i64,
            };
        }
    }
}
