//! What a dispatcher holds, and what it plans for.
ghost use Rattle.std.specs.Prelude.{◌≡◌, ◌≤◌, ◌++◌, None, true, length, map};
ghost use Rattle.pfair_replica.specs.Replica.{replica_of, Below};
ghost use Rattle.pfair_handle.specs.Kept.{is_kept};
ghost use Rattle.pfair_handle.specs.Behind.{Between};
ghost use Rattle.pfair_c.specs.Answers.{Reads, IsGiven};
ghost use Rattle.pfair_c.specs.RowsGiven.{IsHeldGiven, IsMarkGiven, IsMissingGiven, AreFaultsGiven, key_answer, settings_row};
ghost use Rattle.pfair_c.specs.Rows.{key_row, written_over};

use crate::answer::{DONE, MEMORY, NO_ROOM, NO_SUCH_NUMBER, NO_SUCH_PROCESSOR, NOT_OPEN};
use crate::entry::{PfairEntry, entry_row};
use crate::open::with_open;
use pfair_handle::Handle;
use pfair_lattice::Flat;
use pfair_replica::{EntryKey, Faults, Replica};
use std::alloc::Global;

/// Under which processor and number an entry is held.
#[repr(C)]
#[derive(Clone, Copy)]
pub struct PfairKey {
    /// The processor, counted from 0.
    pub processor: u64,
    /// The number in its log, counted from 1.
    pub number: u64,
}

/// What a dispatcher plans for, and how large its logs can be.
#[repr(C)]
#[derive(Clone, Copy)]
pub struct PfairSettings {
    /// The processors.
    pub processors: u64,
    /// The frame, in slots.
    pub frame: u64,
    /// The slots of the run.
    pub slots: u64,
    /// How many entries a log can have.
    pub capacity: u64,
}

/// Writes the settings with which the dispatcher was opened.
///
/// Answers 0; or 102 if the handle has no dispatcher, and then nothing is written. O(1).
#[unsafe(no_mangle)]
pub extern "C" fn pfair_settings(
    alloc: Global,
    handle: &mut Handle,
    settings: &mut PfairSettings,
) -> u32
    ensures { Reads handle.old.owner.kept handle.new.owner.kept result settings.old settings.new (IsGiven settings_row) }
{
    with_open(alloc, handle, settings, |dispatcher, row| {
        let settings = dispatcher.settings();
        *row = PfairSettings {
            processors: settings.processors() as u64,
            frame: settings.frame(),
            slots: settings.slots(),
            capacity: dispatcher.replica().capacity() as u64,
        };
        DONE
    })
}

/// Writes the contents at number `number` (from 1) of the log of `processor` (from 0): 0 nothing, 1
/// an entry, which is written too, or 2 if the number is torn. Costs a look-up.
///
/// Answers 0; 102 if the handle has no dispatcher; 13 or 14 if there is no such processor or number:
/// then nothing is written.
#[unsafe(no_mangle)]
pub extern "C" fn pfair_held(
    alloc: Global,
    handle: &mut Handle,
    processor: u8,
    number: u32,
    kind: &mut u64,
    entry: &mut PfairEntry,
) -> u32
    ensures { Reads handle.old.owner.kept handle.new.owner.kept result (kind.old, entry.old) (kind.new, entry.new) (IsHeldGiven processor number) }
{
    let mut given = (*kind, *entry);
    let answer = with_open(alloc, handle, &mut given, |dispatcher, given| {
        let answer = key_answer(dispatcher.replica(), processor, number);
        if answer == DONE {
            match dispatcher.replica().get(processor, number) {
                None => given.0 = 0,
                Some(Flat::One(held)) => *given = (1, entry_row(&held)),
                Some(Flat::Torn) => given.0 = 2,
            }
        }
        answer
    });
    *kind = given.0;
    *entry = given.1;
    answer
}

/// Writes the mark of a processor, the floor of the last entry of its sound beginning, and how many
/// entries that has. O(1).
///
/// Answers 0; 102 if the handle has no dispatcher; 13 if there is no such processor: then nothing is
/// written.
#[unsafe(no_mangle)]
pub extern "C" fn pfair_mark(
    alloc: Global,
    handle: &mut Handle,
    processor: u8,
    slot: &mut u64,
    count: &mut u64,
) -> u32
    ensures { Reads handle.old.owner.kept handle.new.owner.kept result (slot.old, count.old) (slot.new, count.new) (IsMarkGiven processor) }
{
    let mut given = (*slot, *count);
    let answer = with_open(alloc, handle, &mut given, |dispatcher, given| {
        let replica = dispatcher.replica();
        if processor >= replica.processors() {
            return NO_SUCH_PROCESSOR;
        }
        *given = (
            replica.mark(processor),
            replica.sound_count(processor) as u64,
        );
        DONE
    });
    *slot = given.0;
    *count = given.1;
    answer
}

/// Writes the least number of a processor's log at which nothing is held, or 0 if there is none.
/// Costs a look-up for each number up to that one.
///
/// Answers 0; 102 if the handle has no dispatcher; 13 if there is no such processor: then nothing is
/// written.
#[unsafe(no_mangle)]
pub extern "C" fn pfair_missing(
    alloc: Global,
    handle: &mut Handle,
    processor: u8,
    number: &mut u64,
) -> u32
    ensures { Reads handle.old.owner.kept handle.new.owner.kept result number.old number.new (IsMissingGiven processor) }
{
    with_open(alloc, handle, number, |dispatcher, number| {
        let replica = dispatcher.replica();
        if processor >= replica.processors() {
            return NO_SUCH_PROCESSOR;
        }
        *number = replica.missing(processor).unwrap_or(0) as u64;
        DONE
    })
}

/// Writes what is wrong with the logs that are held: the keys that are torn, and after these the
/// entries that end a sound beginning because their floor is lower. Costs a look-up for each number
/// of each log.
///
/// Answers 0 with the two counts and the keys; 102 if the handle has no dispatcher; 103 with the
/// counts, if there are fewer rows than keys; 90 if an allocation fails. Nothing else is written.
#[unsafe(no_mangle)]
pub extern "C" fn pfair_faults(
    alloc: Global,
    handle: &mut Handle,
    torn: &mut u64,
    fallen: &mut u64,
    rows: &mut [PfairKey],
) -> u32
    ensures { Reads handle.old.owner.kept handle.new.owner.kept result (torn.old, fallen.old, rows.old) (torn.new, fallen.new, rows.new) AreFaultsGiven }
{
    if !handle.is_open() {
        return NOT_OPEN;
    }
    let served = handle.take(alloc);
    let found = served.dispatcher.replica().faults();
    handle.put(served);
    let Ok(faults) = found else {
        return MEMORY;
    };
    *torn = faults.torn.len() as u64;
    *fallen = faults.fallen.len() as u64;
    if faults.torn.len() + faults.fallen.len() > rows.len() {
        return NO_ROOM;
    }
    write_faults(&faults, rows);
    DONE
}

/// Writes 1 if the other dispatcher holds all that this one holds, each key with the same entry or
/// torn, and else 0. Costs a look-up there for each entry that is held here.
///
/// Answers 0; or 102 if a handle has no dispatcher, and then nothing is written.
#[unsafe(no_mangle)]
pub extern "C" fn pfair_below(
    alloc: Global,
    handle: &mut Handle,
    other: &mut Handle,
    is_below: &mut u64,
) -> u32
    ensures closed { handle.old.owner.kept ≡ None → result ≡ NOT_OPEN }
    ensures other_closed { other.old.owner.kept ≡ None → result ≡ NOT_OPEN }
    ensures open { is_kept handle.old.owner.kept ≡ true → is_kept other.old.owner.kept ≡ true → (result ≡ DONE) × (is_below.new ≤ 1) }
    ensures below { result ≡ DONE → is_below.new ≡ 1 →
        Between handle.old.owner.kept other.old.owner.kept (λ d o. Below (replica_of d.replica) (replica_of o.replica)) }
    ensures not_below { result ≡ DONE → is_below.new ≡ 0 →
        Between handle.old.owner.kept other.old.owner.kept (λ d o. Below (replica_of d.replica) (replica_of o.replica) → ⊥) }
    ensures unread { (result ≡ DONE → ⊥) → (result ≡ NOT_OPEN) × (is_below.new ≡ is_below.old) }
    ensures unchanged { (handle.new.owner.kept ≡ handle.old.owner.kept) × (other.new.owner.kept ≡ other.old.owner.kept) }
{
    if !handle.is_open() || !other.is_open() {
        return NOT_OPEN;
    }
    *is_below = if handle.le(alloc, other) { 1 } else { 0 };
    DONE
}

pub(crate) fn key_answer(replica: &Replica, processor: u8, number: u32) -> u32
    ensures { result ≡ key_answer replica.now processor number }
{
    if processor >= replica.processors() {
        return NO_SUCH_PROCESSOR;
    }
    if number == 0 || number > replica.capacity() {
        return NO_SUCH_NUMBER;
    }
    DONE
}

fn write_faults(faults: &Faults, rows: &mut [PfairKey])
    requires { length (faults.now.torn.items ++ faults.now.fallen.items) ≤ length rows.old }
    ensures { rows.new ≡ written_over (map key_row (faults.now.torn.items ++ faults.now.fallen.items)) rows.old }
{
    write_keys(&faults.torn, rows);
    write_keys(&faults.fallen, &mut rows[faults.torn.len()..]);
}

fn write_keys(keys: &[EntryKey], rows: &mut [PfairKey])
    requires { length keys.now ≤ length rows.old }
    ensures { rows.new ≡ written_over (map key_row keys.now) rows.old }
{
    for (place, key) in keys.iter().enumerate() {
        rows[place] = PfairKey {
            processor: key.0 as u64,
            number: key.1 as u64,
        };
    }
}
