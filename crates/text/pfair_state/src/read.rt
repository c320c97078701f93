//! A state from its text.
ghost use Rattle.std.specs.Prelude.{◌≡◌, ◌+◌, ◌≤◌, None, drop, length, IfErr, IfOk, OnOk};
ghost use Rattle.pfair_admission.specs.declared.member_state.RestoreFault.TheVariants.{Memory as OutOfMemory};
ghost use Rattle.pfair_table.specs.Places.{AreLeftAt};
ghost use Rattle.pfair_table.specs.Table.{Carried};
ghost use Rattle.pfair_state.specs.Reading.{IfDelaysFrom, IfMembersBehindFirst, IfQuantaFrom, IsReadAs, IsWritable, said_of};
ghost use Rattle.pfair_state.specs.Rows.{state_text};
ghost use Rattle.pfair_state.specs.declared.fault.ReadFault.TheVariants.{Memory};

use crate::fault::{ReadFault, Why, no_row, refused};
use crate::rows::{Row, read_rows, row_at};
use crate::write::add_state;
use pfair_admission::{Delay, MemberState, Members, RestoreFault};
use pfair_table::{Settings, State};
use pfair_text::{finish, new_text};
use pfair_weight::TaskName;
use std::alloc::{AllocError, Global};

/// Returns the state that a text is of.
///
/// Only the texts that [`add_state`] writes are read, and each of them is read as the state that was
/// written. No check tells whether a run has left it: compare its bytes with those of another machine.
/// O(bytes).
///
/// # Errors
/// [`ReadFault::NoRow`] at the first line that isn't a row which a state has there;
/// [`ReadFault::Refused`] at the first row that says what no state has; [`ReadFault::Memory`] if an
/// allocation fails.
pub fn read_state(alloc: Global, text: &[u8]) -> Result<State, ReadFault>
    ensures text { IfOk result (λ state. text.now ≡ state_text state) }
    ensures writable { IfOk result (λ state. IsWritable state) }
    ensures back { (c : Carried) → IsWritable c → text.now ≡ state_text c → IsReadAs result (λ state. state ≡ c) }
{
    let rows = read_rows(alloc, text)?;
    let state = state_of(alloc, &rows)?;
    let mut writer = new_text(alloc);
    add_state(&mut writer, &state)?;
    let own = finish(writer)?;
    if own.as_slice() != text {
        return Err(no_row(first_other_line(&own, text)));
    }
    Ok(state)
}

// In which line two texts differ first, counted from 0.
fn first_other_line(own: &[u8], text: &[u8]) -> usize {
    own.iter()
        .zip(text)
        .take_while(|(own, read)| own == read)
        .filter(|(own, _)| **own == b'\n')
        .count()
}

// The state that rows are of: the first row, each member with its late releases, the quanta, and the end.
fn state_of(alloc: Global, rows: &[Row]) -> Result<State, ReadFault>
    ensures { (c : Carried) → IsWritable c → rows.now ≡ said_of c → IsReadAs result (λ state. state ≡ c) }
{
    let Some(Row::First(first)) = row_at(rows, 0) else {
        return Err(no_row(0));
    };
    if first.form != 1 {
        return Err(refused(0, Why::OtherForm));
    }
    let is_in_range = (1..=Settings::MAX_PROCESSORS).contains(&first.processors)
        && (1..=Settings::MAX_FRAME).contains(&first.frame)
        && first.slot <= Members::LAST_SLOT;
    if !is_in_range {
        return Err(refused(0, Why::OutOfRange));
    }
    let mut members = Members::new(alloc, first.processors, first.frame);
    let quanta = read_members(alloc, &mut members, first.slot, rows)?;
    let mut state = State::new(alloc, first.slot, members);
    let end = read_quanta(&mut state, rows, quanta)?;
    match row_at(rows, end) {
        Some(Row::End(count)) if count == rows.len() as u64 && rows.len() == end + 1 => Ok(state),
        Some(Row::End(_)) => Err(refused(end, Why::Incomplete)),
        _ => Err(no_row(end)),
    }
}

// Restores the members of the rows behind the first, each with the late releases of the rows behind its
// own, and returns where the next rows begin.
fn read_members(
    alloc: Global,
    members: &mut Members,
    slot: u64,
    rows: &[Row],
) -> Result<usize, ReadFault>
    requires some { 1 ≤ length rows.now }
    requires left { AreLeftAt slot members.old.machine members.old.members }
    requires before { members.old.last_slot ≡ None }
    ensures left { OnOk result (AreLeftAt slot members.new.machine members.new.members) }
    ensures machine { OnOk result (members.new.machine ≡ members.old.machine) }
    ensures inside { IfOk result (λ at. at ≤ length rows.now) }
    ensures back { IfMembersBehindFirst rows.now slot members.old (λ all behind.
        IsReadAs result (λ at. (drop at rows.now ≡ behind) × (members.new ≡ record members.old { members = all }))) }
{
    let mut at = 1;
    while let Some(Row::Member(member)) = row_at(rows, at) {
        let delays = delays_behind(alloc, rows, at + 1, &member.name)?;
        let behind = at + 1 + delays.len();
        let state = MemberState {
            name: member.name,
            weight: member.weight,
            early: member.early,
            joined: member.joined,
            next: member.next,
            freed_at: member.freed_at,
            delays,
        };
        if let Err(why) = members.restore(slot, state) {
            return Err(not_restored(at, why));
        }
        at = behind;
    }
    Ok(at)
}

// The late releases of a task in the rows from a place on.
fn delays_behind(
    alloc: Global,
    rows: &[Row],
    from: usize,
    task: &TaskName,
) -> Result<Vec<Delay>, AllocError>
    requires { from ≤ length rows.now }
    ensures inside { IfOk result (λ delays. from + length delays.items ≤ length rows.now) }
    ensures back { IfDelaysFrom rows.now from task.now (λ delays. IfOk result (λ read. read.items ≡ delays)) }
{
    let mut delays = Vec::new(alloc);
    while let Some(Row::Late(late)) = row_at(rows, from + delays.len()) {
        if late.name != *task {
            break;
        }
        delays.push(Delay {
            index: late.index,
            by: late.by,
        })?;
    }
    Ok(delays)
}

fn not_restored(at: usize, why: RestoreFault) -> ReadFault
    ensures { why ≡ OutOfMemory → result ≡ Memory }
{
    match why {
        RestoreFault::Memory => ReadFault::Memory,
        _ => refused(at, Why::Member(why)),
    }
}

// Adds the quanta of the rows from a place on, and returns where the next rows begin.
fn read_quanta(state: &mut State, rows: &[Row], from: usize) -> Result<usize, ReadFault>
    requires { from ≤ length rows.now }
    ensures back { IfQuantaFrom rows.now from state.old (λ table places behind.
        IsReadAs result (λ end. (drop end rows.now ≡ behind) × (state.new ≡ record state.old { table = table; places = places }))) }
{
    let mut at = from;
    while let Some(Row::Ran(pick, place)) = row_at(rows, at) {
        if !state.add_row(pick, place)? {
            return Err(refused(at, Why::Quantum));
        }
        at += 1;
    }
    Ok(at)
}
