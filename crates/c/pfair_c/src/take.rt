//! Entries, one or several of a log at once.
ghost use Rattle.std.specs.Prelude.{◌≡◌, ◌≤◌, ◌<◌, ◌+◌, true, IfOk, IfErr, OnOk, OnErr};
ghost use Rattle.pfair_replica.specs.Replica.{held, replica_of, has_key, taken as offered_to};
ghost use Rattle.pfair_c.specs.Answers.{Changes};
ghost use Rattle.pfair_c.specs.Entries.{logged_of, IsMeant};
ghost use Rattle.pfair_c.specs.Taking.{met, one_more, IsRefusal, IsTakeAnswer, IsTakeLogAnswer};

use crate::answer::{DONE, NOT_OPEN};
use crate::entry::{PfairEntry, read_entry};
use crate::held::key_answer;
use crate::open::with_open;
use pfair_handle::Handle;
use pfair_ready::{HeapReady, Ready};
use pfair_replica::Taken;
use pfair_table::{Dispatcher, Script};
use std::alloc::Global;

/// How many entries were taken, and what they met.
#[repr(C)]
#[derive(Clone, Copy, Default)]
pub struct PfairTakenLog {
    /// How many were taken.
    pub taken: u64,
    /// How many of them met nothing under their number.
    pub fresh: u64,
    /// Under how many an equal entry was.
    pub known: u64,
    /// How many numbers are torn now.
    pub torn: u64,
}

/// Takes entry `number` (from 1) of the log of `processor` (from 0).
///
/// Answers 0, with `taken` 0 if nothing was held there, 1 if an equal entry was, and 2 if anything
/// else was: then that number is torn. 102 if the handle has no dispatcher; 100 if a number is out of
/// its range, 1 to 10 for what is wrong with the entry; 13 or 14 if there is no such processor or
/// number; 90 if an allocation fails. Nothing changes except after 0. Costs what [`Dispatcher::take`]
/// costs.
#[unsafe(no_mangle)]
pub extern "C" fn pfair_take(
    alloc: Global,
    handle: &mut Handle,
    processor: u8,
    number: u32,
    entry: &PfairEntry,
    taken: &mut u64,
) -> u32
    ensures { Changes handle.old.owner.kept handle.new.owner.kept result taken.old taken.new (IsTakeAnswer processor number entry.now) }
{
    with_open(alloc, handle, taken, |dispatcher, taken| {
        take_as(dispatcher, processor, number, entry, taken)
    })
}

fn take_as(
    dispatcher: &mut Dispatcher<HeapReady>,
    processor: u8,
    number: u32,
    entry: &PfairEntry,
    taken: &mut u64,
) -> u32
    ensures answer { IsTakeAnswer processor number entry.now dispatcher.old dispatcher.new result taken.old taken.new }
    ensures open { result ≡ NOT_OPEN → ⊥ }
{
    match take_one(dispatcher, processor, number, entry) {
        Ok(how) => {
            *taken = how as u64;
            DONE
        }
        Err(answer) => answer,
    }
}

/// Takes entries of the log of `processor` (from 0) under the numbers from `first` on, each as
/// [`pfair_take`], and stops at the first that is refused.
///
/// Answers 0; 102 if the handle has no dispatcher; 13 or 14 if there is no such processor, or no
/// number `first` in its log, even without entries; or that with which
/// [`pfair_take`] refuses an entry: those before it stay taken. Except after 102 it
/// writes how many were taken, and how many of them met nothing, an equal entry, and anything else.
/// Costs what these calls cost.
#[unsafe(no_mangle)]
pub extern "C" fn pfair_take_log(
    alloc: Global,
    handle: &mut Handle,
    processor: u8,
    first: u32,
    counted: &mut PfairTakenLog,
    entries: &[PfairEntry],
) -> u32
    ensures { Changes handle.old.owner.kept handle.new.owner.kept result counted.old counted.new (IsTakeLogAnswer processor first entries.now) }
{
    with_open(alloc, handle, counted, |dispatcher, counted| {
        take_log(dispatcher, processor, first, entries, counted)
    })
}

fn take_log(
    dispatcher: &mut Dispatcher<HeapReady>,
    processor: u8,
    first: u32,
    entries: &[PfairEntry],
    counted: &mut PfairTakenLog,
) -> u32
    ensures answer { IsTakeLogAnswer processor first entries.now dispatcher.old dispatcher.new result counted.old counted.new }
    ensures open { result ≡ NOT_OPEN → ⊥ }
{
    *counted = PfairTakenLog::default();
    let answer = key_answer(dispatcher.replica(), processor, first);
    if answer != DONE {
        return answer;
    }
    let mut number = first;
    for entry in entries {
        match take_one(dispatcher, processor, number, entry) {
            Ok(how) => {
                counted.taken += 1;
                match how {
                    Taken::New => counted.fresh += 1,
                    Taken::Known => counted.known += 1,
                    Taken::Torn => counted.torn += 1,
                }
            }
            Err(refusal) => return refusal,
        }
        number += 1;
    }
    DONE
}

fn take_one<R: Ready>(
    dispatcher: &mut Dispatcher<R>,
    processor: u8,
    number: u32,
    entry: &PfairEntry,
) -> Result<Taken, u32>
    ensures answer { IfOk result (λ how. how ≡ met (held dispatcher.old.replica processor number) (logged_of entry.now)) }
    ensures meant { OnOk result (IsMeant entry.now × (has_key (replica_of dispatcher.old.replica) processor number ≡ true)) }
    ensures few { OnOk result (number ≤ Script.LONGEST_LOG) }
    ensures offered { OnOk result (replica_of dispatcher.new.replica ≡ offered_to (replica_of dispatcher.old.replica) processor number (logged_of entry.now)) }
    ensures rest { OnOk result (dispatcher.new ≡ record dispatcher.old { replica = dispatcher.new.replica }) }
    ensures refused { IfErr result (IsRefusal dispatcher.old.replica processor number entry.now) }
    ensures numbered { IfErr result (λ answer. (answer ≡ DONE → ⊥) × (answer ≡ NOT_OPEN → ⊥)) }
    ensures unchanged { OnErr result (dispatcher.new ≡ dispatcher.old) }
{
    // the contract of the capacity bounds every number of a log
    prove!(dispatcher.replica().capacity() > 0);
    let entry = read_entry(entry)?;
    dispatcher
        .take(processor, number, entry)
        .map_err(|fault| fault.number() as u32)
}
