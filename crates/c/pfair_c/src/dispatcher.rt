//! Dispatchers behind handles: opened, begun anew, joined and closed.
ghost use Rattle.std.specs.Prelude.{◌≡◌, ◌⊎◌, ◌&&◌, None, true, false};
ghost use Rattle.pfair_replica.specs.Replica.{SameShape};
ghost use Rattle.pfair_handle.specs.Kept.{is_kept};
ghost use Rattle.pfair_handle.specs.Behind.{Between};
ghost use Rattle.pfair_c.specs.declared.answer.TheConstants.{MEMORY};
ghost use Rattle.pfair_c.specs.Answers.{Changes, nothing, IsOpenAnswer, IsJoinedTo, IsPartlyJoinedTo, IsNextRunAnswer};

use crate::answer::{DONE, NOT_OPEN, OPEN_ALREADY, OUT_OF_RANGE};
use crate::open::put_new;
use pfair_handle::Handle;
use pfair_ready::HeapReady;
use pfair_table::{Dispatcher, Script, Settings};
use std::alloc::Global;

/// Opens a dispatcher: 1 to 64 processors, a frame of 1 to 1,000,000,000 slots, 1 to 1,000,000 slots
/// to plan, and logs of 1 to 4,096 entries. O(processors).
///
/// Answers 0; 101 if the handle has a dispatcher; 100 if a number is out of its range; 90 if an
/// allocation fails. The handle is as before except after 0.
#[unsafe(no_mangle)]
pub extern "C" fn pfair_open(
    alloc: Global,
    handle: &mut Handle,
    processors: u8,
    frame: u64,
    slots: u64,
    capacity: u32,
) -> u32
    ensures { IsOpenAnswer record { processors = processors; frame = frame; slots = slots } capacity handle.old.owner.kept handle.new.owner.kept result }
{
    if handle.is_open() {
        return OPEN_ALREADY;
    }
    if capacity < 1 || capacity as usize > Script::LONGEST_LOG {
        return OUT_OF_RANGE;
    }
    let Some(settings) = Settings::new(processors, frame, slots) else {
        return OUT_OF_RANGE;
    };
    put_new(alloc, handle, Dispatcher::new(alloc, settings, capacity))
}

/// Begins the next run, of 1 to 1,000,000 slots, as [`Dispatcher::next_run`], and at its cost: its
/// dispatcher takes the place of the present one, which is freed.
///
/// Answers 0; 102 if the handle has no dispatcher; 100 if the number of slots is out of its range; 30
/// to 34 for why no run can begin; 90 if an allocation fails. Nothing changes except after 0.
#[unsafe(no_mangle)]
pub extern "C" fn pfair_next_run(alloc: Global, handle: &mut Handle, slots: u64) -> u32
    ensures { Changes handle.old.owner.kept handle.new.owner.kept result nothing nothing (λ d e answer _ _. IsNextRunAnswer slots d e answer) }
{
    if !handle.is_open() {
        return NOT_OPEN;
    }
    let mut served = handle.take(alloc);
    let answer = go_on(&mut served.dispatcher, slots);
    handle.put(served);
    answer
}

fn go_on(dispatcher: &mut Dispatcher<HeapReady>, slots: u64) -> u32
    ensures { IsNextRunAnswer slots dispatcher.old dispatcher.new result }
{
    if slots < 1 || slots > Settings::MAX_SLOTS {
        return OUT_OF_RANGE;
    }
    match dispatcher.next_run(slots) {
        Ok(next) => {
            *dispatcher = next;
            DONE
        }
        Err(fault) => fault.number() as u32,
    }
}

/// Frees the dispatcher, and leaves the handle with none. O(e + n + s + q) for e entries, n members,
/// and s planned slots with q quanta and decisions.
///
/// Answers 0; or 102 if the handle has none.
#[unsafe(no_mangle)]
pub extern "C" fn pfair_close(alloc: Global, handle: &mut Handle) -> u32
    ensures closed { handle.old.owner.kept ≡ None → result ≡ NOT_OPEN }
    ensures open { is_kept handle.old.owner.kept ≡ true → result ≡ DONE }
    ensures none { handle.new.owner.kept ≡ None }
{
    if !handle.is_open() {
        return NOT_OPEN;
    }
    drop(handle.take(alloc));
    DONE
}

/// Takes all that another dispatcher holds, which stays as it is.
///
/// Answers 0; 102 if a handle has no dispatcher; 15 if the other has another number of processors or
/// another capacity, and nothing changes; 90 if an allocation fails: then a part of the other is
/// taken, and to absorb it again gives what one call would have given. Costs what
/// [`Dispatcher::absorb`] costs.
#[unsafe(no_mangle)]
pub extern "C" fn pfair_absorb(alloc: Global, handle: &mut Handle, other: &mut Handle) -> u32
    ensures closed { (is_kept handle.old.owner.kept && is_kept other.old.owner.kept) ≡ false → result ≡ NOT_OPEN }
    ensures open { (is_kept handle.old.owner.kept && is_kept other.old.owner.kept) ≡ true →
        (result ≡ DONE) ⊎ ((result ≡ 15) ⊎ (result ≡ MEMORY)) }
    ensures joined { result ≡ DONE → IsJoinedTo handle.old.owner.kept other.old.owner.kept handle.new.owner.kept }
    ensures other_shape { result ≡ 15 → Between handle.old.owner.kept other.old.owner.kept (λ d o. SameShape d.replica o.replica → ⊥) }
    ensures partly { result ≡ MEMORY → IsPartlyJoinedTo handle.old.owner.kept other.old.owner.kept handle.new.owner.kept }
    ensures rest { is_kept handle.old.owner.kept ≡ true → Between handle.old.owner.kept handle.new.owner.kept (λ d e. e ≡ record d { replica = e.replica }) }
    ensures unchanged { (result ≡ 15) ⊎ (result ≡ NOT_OPEN) → handle.new.owner.kept ≡ handle.old.owner.kept }
    ensures other { other.new.owner.kept ≡ other.old.owner.kept }
{
    if !handle.is_open() || !other.is_open() {
        return NOT_OPEN;
    }
    match handle.absorb(alloc, other) {
        Ok(()) => DONE,
        Err(fault) => fault.number() as u32,
    }
}
