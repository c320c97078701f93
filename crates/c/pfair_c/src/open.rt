//! The dispatcher behind a handle, for as long as one call takes, and rows over those of the caller.
//!
//! Each call that writes rows answers 0 with the number of rows and the rows; 102 if the handle has no
//! dispatcher; 104 if a slot that is asked for isn't planned, or is forgotten; 103 with the number of
//! rows wanted, if there are fewer. Nothing else is written.
ghost use Rattle.std.specs.Prelude.{◌≡◌, Some, None, true, Ok, ◌≤◌, ◌<◌, length, nat_le, if◌then◌else◌};
ghost use Rattle.std.specs.Fn.{FnOnceReturnsAtMut, FnOnceTakesAtMut};
ghost use Rattle.pfair_handle.specs.Kept.{is_kept};
ghost use Rattle.pfair_handle.specs.Behind.{Of, Between};
ghost use Rattle.pfair_c.specs.Answers.{GivesRows, Writes};
ghost use Rattle.pfair_c.specs.RowsGiven.{are_readable};

use crate::answer::{DONE, MEMORY, NO_ROOM, NOT_OPEN};
use pfair_handle::{Handle, Served};
use pfair_ready::HeapReady;
use pfair_table::{Dispatcher, Settings};
use std::alloc::{AllocError, Global};

/// Calls a function with the dispatcher and an output, and returns what it answers; or 102 if there
/// is no dispatcher, and then nothing is written.
pub(crate) fn with_open<A, F: FnOnce(&mut Dispatcher<HeapReady>, &mut A) -> u32>(
    alloc: Global,
    handle: &mut Handle,
    output: &mut A,
    called: F,
) -> u32
    requires { F.IsAlwaysCallable called }
    ensures closed { handle.old.owner.kept ≡ None → (result ≡ NOT_OPEN) × (handle.new.owner.kept ≡ None) × (output.new ≡ output.old) }
    ensures open { is_kept handle.old.owner.kept ≡ true →
        Between handle.old.owner.kept handle.new.owner.kept (λ d e. Writes F.FnOnce called d e result output.old output.new) }
{
    if !handle.is_open() {
        return NOT_OPEN;
    }
    let mut served = handle.take(alloc);
    let answer = called(&mut served.dispatcher, output);
    handle.put(served);
    answer
}

/// Writes rows about the dispatcher and their count, and returns what the function answers; or 102
/// if there is no dispatcher, and then nothing is written.
pub(crate) fn give_rows<B, F: FnOnce(&Dispatcher<HeapReady>, &mut u64, &mut [B]) -> u32>(
    alloc: Global,
    handle: &mut Handle,
    count: &mut u64,
    rows: &mut [B],
    given: F,
) -> u32
    requires { F.IsAlwaysCallable given }
    ensures closed { handle.old.owner.kept ≡ None → (result ≡ NOT_OPEN) × (count.new ≡ count.old) × (rows.new ≡ rows.old) }
    ensures given { is_kept handle.old.owner.kept ≡ true →
        Of handle.old.owner.kept (λ d. GivesRows F.FnOnce given d count.old rows.old result count.new rows.new) }
    ensures unchanged { handle.new.owner.kept ≡ handle.old.owner.kept }
{
    if !handle.is_open() {
        return NOT_OPEN;
    }
    let served = handle.take(alloc);
    let answer = given(&served.dispatcher, count, rows);
    handle.put(served);
    answer
}

/// Puts a dispatcher that was made behind a handle that has none. Returns 0; or 90 if an allocation
/// failed or fails, and then the handle has none.
pub(crate) fn put_new(
    alloc: Global,
    handle: &mut Handle,
    made: Result<Dispatcher<HeapReady>, AllocError>,
) -> u32
    requires { handle.old.owner.kept ≡ None }
    ensures done { result ≡ DONE → (d : _) × (made ≡ Ok d) × (handle.new.owner.kept ≡ Some record { dispatcher = d }) }
    ensures only { (result ≡ DONE → ⊥) → (result ≡ MEMORY) × (handle.new.owner.kept ≡ None) }
{
    let Ok(dispatcher) = made else {
        return MEMORY;
    };
    let Ok(served) = Box::new(alloc, Served { dispatcher }) else {
        return MEMORY;
    };
    handle.put(served);
    DONE
}

pub(crate) fn are_readable(dispatcher: &Dispatcher<HeapReady>, from: u64, to: u64) -> bool
    ensures tables { result ≡ are_readable dispatcher.now.forgotten (length dispatcher.now.tables) from to }
    ensures decided { result ≡ are_readable dispatcher.now.forgotten (length dispatcher.now.decided) from to }
    ensures within { result ≡ true → (to ≤ length dispatcher.now.tables) × (to ≤ Settings.MAX_SLOTS) }
    ensures unforgotten { result ≡ true → from < to → dispatcher.now.forgotten ≤ from }
{
    to <= dispatcher.next_slot() && (to <= from || dispatcher.forgotten() <= from)
}

/// Writes `wanted` to `count`, and the rows if there is room for all. Returns 0; or 103 if there are
/// fewer rows, and then none is written.
pub(crate) fn lay_rows<B, W: FnOnce(&mut [B])>(
    wanted: u64,
    count: &mut u64,
    rows: &mut [B],
    write: W,
) -> u32
    requires { wanted ≤ length rows.old → FnOnceTakesAtMut W.FnOnce write rows.old }
    ensures answer { result ≡ (if nat_le wanted (length rows.old) then DONE else NO_ROOM) }
    ensures count { count.new ≡ wanted }
    ensures written { wanted ≤ length rows.old → FnOnceReturnsAtMut W.FnOnce write rows.old tt rows.new }
    ensures unwritten { length rows.old < wanted → rows.new ≡ rows.old }
{
    *count = wanted;
    if wanted > rows.len() as u64 {
        return NO_ROOM;
    }
    write(rows);
    DONE
}
