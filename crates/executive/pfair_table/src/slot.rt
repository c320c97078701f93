//! What is planned of a slot, and its steps: the boundary, the ready structure, and the quanta.
ghost use Rattle.std.specs.Prelude.{◌≡◌, ◌≤◌, ◌<◌, Some, IfOk, OnOk};
ghost use Rattle.std.specs.List.{AllByRecursion};
ghost use Rattle.pfair_weight.specs.Name.{NamesApart};
ghost use Rattle.pfair_table.specs.Planning.{rows_at, IsQueue, IsNotifiedOf};
ghost use Rattle.pfair_table.specs.Table.{all_ran};
ghost use Rattle.pfair_weight.specs.declared.window.TheConstants.{MAX_INDEX};

use pfair_admission::{Decision, Members};
use pfair_entry::{Announcement, Said};
use pfair_ready::{Ready, Seated, Seats};
use pfair_weight::TaskName;
use std::alloc::{AllocError, Global};
use std::mem;

/// A quantum of a slot: which task has it, and for which of its subtasks.
#[derive(Clone, Copy, Debug, PartialEq, Eq)]
pub struct Pick {
    pub name: TaskName,
    /// The index of its subtask, counted from 1.
    pub index: u64,
}

/// An announcement, the entry that makes it, and what was decided on it.
#[derive(Clone, Copy, Debug, PartialEq, Eq)]
pub struct Decided {
    /// The processor in whose log the entry stands, counted from 0.
    pub proc: u8,
    /// The entry's number in that log, counted from 1.
    pub number: u32,
    pub announcement: Announcement,
    pub decision: Decision,
}

/// The plan of a slot.
#[derive(Debug, Drop)]
pub struct SlotPlan {
    /// The table: the quanta of the slot in the PD2 order.
    pub table: Vec<Pick>,
    /// The decisions at the slot's boundary, in the order of processor and number.
    pub decided: Vec<Decided>,
}

/// Updates the ready structure for a task that an announcement names.
pub(crate) fn notify_of<R: Ready>(
    ready: &mut R,
    members: &Members,
    name: &TaskName,
) -> Result<(), AllocError>
    ensures notified { OnOk result (IsNotifiedOf name.now members.now.members (R.held ready.old) (R.held ready.new)) }
    ensures time { R.now ready.new ≡ R.now ready.old }
{
    ready.remove(name);
    let Some(member) = members.get(name) else {
        return Ok(());
    };
    if member.is_departing() {
        return Ok(());
    }
    let (begins, key) = member.next_subtask();
    ready.insert_seated(Seats::default(), begins, key)?;
    Ok(())
}

/// Returns a ready structure with the next subtask of each member that isn't departing.
pub(crate) fn ready_of<R: Ready>(alloc: Global, members: &Members) -> Result<R, AllocError>
    ensures queue { IfOk result (λ ready. IsQueue members.now.members (R.held ready)) }
    ensures time { IfOk result (λ ready. R.now ready ≡ 0) }
{
    let mut ready = R::new(alloc);
    for index in 0..members.len() {
        if let Some((name, _)) = members.at(index) {
            notify_of(&mut ready, members, name)?;
        }
    }
    Ok(ready)
}

/// The quanta of a slot: the first eligible subtasks. The table reuses the memory of `room`, and
/// their keys that of `keys`.
pub(crate) fn give_quanta<R: Ready>(
    ready: &mut R,
    members: &mut Members,
    processors: u8,
    slot: u64,
    keys: &mut Vec<Seated>,
    room: Vec<Pick>,
) -> Result<Vec<Pick>, AllocError>
    requires time { R.now ready.old ≤ slot }
    requires named { NamesApart (λ m. m.name) members.old.members }
    requires queue { IsQueue members.old.members (R.held ready.old) }
    requires few { AllByRecursion (λ m. m.next < MAX_INDEX) members.old.members }
    ensures table { IfOk result (λ table. table.items ≡ rows_at processors slot members.old.members) }
    ensures members { IfOk result (λ table. members.new ≡ record members.old { members = all_ran table.items members.old.members }) }
    ensures queue { OnOk result (IsQueue members.new.members (R.held ready.new)) }
    ensures time { OnOk result (R.now ready.new ≡ slot) }
{
    let alloc = *keys.allocator();
    let keys_room = mem::replace(keys, Vec::new(alloc));
    *keys = ready.take_seated(slot, processors as usize, keys_room)?;
    let mut table = room;
    table.clear();
    table.reserve(keys.len())?;
    for seated in &*keys {
        let name = seated.key.name;
        let Some(quantum) = members.ran_on(seated.seats.member, &name) else {
            continue;
        };
        table.push(Pick {
            name,
            index: quantum.index,
        })?;
        let mut seats = seated.seats;
        seats.member = quantum.seat;
        ready.insert_seated(seats, quantum.next_from, quantum.next_key)?;
    }
    Ok(table)
}
