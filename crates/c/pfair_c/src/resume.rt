//! The state with which a run begins, as text: read, and given back.
ghost use Rattle.std.specs.Prelude.{◌≡◌, IfOk, OnOk};
ghost use Rattle.pfair_c.specs.State.{IsResumeAnswer, state_fault_row, began, AreBytesGiven};
ghost use Rattle.pfair_state.specs.Reading.{IsWritable};
ghost use Rattle.pfair_state.specs.Rows.{state_text};
ghost use Rattle.pfair_c.specs.Answers.{Reads};

use crate::answer::{FILE_TOO_LONG, MEMORY, OPEN_ALREADY, OUT_OF_RANGE, PAST_LAST_SLOT};
use crate::open::{give_rows, lay_rows, put_new};
use pfair_admission::RestoreFault;
use pfair_file::LONGEST_FILE;
use pfair_handle::Handle;
use pfair_ready::HeapReady;
use pfair_state::{ReadFault, Why, add_state, read_state};
use pfair_table::{Dispatcher, NextRunFault, Script, Settings, State};
use pfair_text::{finish, new_text};
use std::alloc::{AllocError, Global};

/// The place of a fault in a state's text.
#[repr(C)]
#[derive(Clone, Copy)]
pub struct PfairStateFault {
    /// After 68 and 69 the line, counted from 1.
    pub line: u64,
    /// After 69 why the row is refused: 1 to 5, in the order of [`Why`] without refusals of an
    /// arrival, or the number of such a refusal; else 0.
    pub cause: u64,
}

/// Opens a dispatcher for a run of 1 to 1,000,000 slots that begins with the state of a text, with logs
/// of 1 to 4,096 entries. It has no entries and has planned nothing.
///
/// Answers 0; 101 if the handle has a dispatcher; 100 if a number is out of its range; 66 if there are
/// more than [`LONGEST_FILE`] bytes; 68 or 69 for the text's first fault, whose place is written; 33
/// if the run would end after the last slot of all runs; 90 if an allocation fails. The handle is as
/// before except after 0. Costs what [`read_state`] and [`Dispatcher::resume`] cost.
#[unsafe(no_mangle)]
pub extern "C" fn pfair_resume(
    alloc: Global,
    handle: &mut Handle,
    slots: u64,
    capacity: u32,
    fault: &mut PfairStateFault,
    bytes: &[u8],
) -> u32
    ensures { IsResumeAnswer bytes.now slots capacity handle.old.owner.kept handle.new.owner.kept result fault.old fault.new }
{
    if handle.is_open() {
        return OPEN_ALREADY;
    }
    if slots < 1 || slots > Settings::MAX_SLOTS {
        return OUT_OF_RANGE;
    }
    if capacity < 1 || capacity as usize > Script::LONGEST_LOG {
        return OUT_OF_RANGE;
    }
    if bytes.len() > LONGEST_FILE {
        return FILE_TOO_LONG;
    }
    let state = match read_state(alloc, bytes) {
        Ok(state) => state,
        Err(ReadFault::Memory) => return MEMORY,
        Err(refused) => {
            *fault = state_fault_row(refused);
            return refused.number() as u32;
        }
    };
    match Dispatcher::resume(alloc, state, slots, capacity) {
        Ok(dispatcher) => put_new(alloc, handle, Ok(dispatcher)),
        Err(NextRunFault::PastLastSlot) => PAST_LAST_SLOT,
        Err(_) => MEMORY,
    }
}

fn state_fault_row(fault: ReadFault) -> PfairStateFault
    ensures { result ≡ state_fault_row fault }
{
    match fault {
        ReadFault::NoRow { line } => PfairStateFault { line, cause: 0 },
        ReadFault::Refused { line, why } => PfairStateFault {
            line,
            cause: match why {
                Why::OtherForm => 1,
                Why::OutOfRange => 2,
                Why::Member(RestoreFault::NotAdmitted(refusal)) => refusal.number() as u64,
                Why::Member(_) => 3,
                Why::Quantum => 4,
                Why::Incomplete => 5,
            },
        },
        ReadFault::Memory => PfairStateFault { line: 0, cause: 0 },
    }
}

/// Writes the state in which the dispatcher's run began, as text: what a run begins with, in rows of
/// less than 256 bytes. Equal states have equal bytes.
///
/// Answers 0 with the number of bytes and the bytes; 102 if the handle has no dispatcher; 90 if an
/// allocation fails; 103 with the number of bytes wanted, if there are fewer. Nothing else is written.
/// O(bytes).
#[unsafe(no_mangle)]
pub extern "C" fn pfair_state(
    alloc: Global,
    handle: &mut Handle,
    length: &mut u64,
    bytes: &mut [u8],
) -> u32
    ensures { Reads handle.old.owner.kept handle.new.owner.kept result (length.old, bytes.old) (length.new, bytes.new) AreBytesGiven }
{
    give_rows(alloc, handle, length, bytes, |dispatcher, length, bytes| {
        let Ok(text) = began_text(alloc, dispatcher) else {
            return MEMORY;
        };
        lay_rows(text.len() as u64, length, bytes, |bytes| {
            bytes[..text.len()].copy_from_slice(&text)
        })
    })
}

fn began_text(alloc: Global, dispatcher: &Dispatcher<HeapReady>) -> Result<Vec<u8>, AllocError>
    ensures text { IfOk result (λ text. text.items ≡ state_text (began dispatcher.now)) }
    ensures readable { OnOk result (IsWritable (began dispatcher.now)) }
{
    let mut writer = new_text(alloc);
    let first = State::first(alloc, dispatcher.settings());
    add_state(&mut writer, dispatcher.state().unwrap_or(&first))?;
    finish(writer)
}
