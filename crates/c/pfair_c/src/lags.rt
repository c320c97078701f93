//! The lags in several slots, in rows.
ghost use Rattle.std.specs.Prelude.{◌≡◌, ◌≤◌, ◌+◌, ◌++◌, length, min, IfOk, OnOk};
ghost use Rattle.pfair_c.specs.Answers.{Reads};
ghost use Rattle.pfair_c.specs.RowsGiven.{AreLagsGiven, book_rows, lags_of};

use crate::answer::{DONE, MEMORY, NOT_PLANNED};
use crate::entry::{PfairName, name_row};
use crate::open::{give_rows, lay_rows};
use pfair_handle::Handle;
use pfair_lag::LagBook;
use pfair_output::{book_slots, first_book};
use pfair_ready::{HeapReady, Ready};
use pfair_table::Dispatcher;
use std::alloc::{AllocError, Global};

/// The lag of a task at a time.
#[repr(C)]
#[derive(Clone, Copy)]
pub struct PfairLag {
    /// The time: the end of slot `time` - 1.
    pub time: u64,
    /// The task.
    pub name: PfairName,
    /// The lag, as a numerator over the period.
    pub numerator: i64,
    /// The task's period.
    pub period: u64,
}

/// Writes the lags in the planned slots `from` to `to` - 1: after each slot t a row for each task
/// that is admitted and not departing after the boundary of t, in the order of admission, with its
/// lag at the time t + 1.
///
/// Answers 0 with the number of rows and the rows (none if `from` isn't below `to`); 102 if the
/// handle has no dispatcher; 104 if slot `to` - 1 isn't planned, or any slot is forgotten; 90 if an
/// allocation fails; 103 with the number of rows wanted, if there are fewer. Nothing else is written.
/// O(rows), and the cost of recording the slots 0 to `to` - 1 in a book of lags.
#[unsafe(no_mangle)]
pub extern "C" fn pfair_lags(
    alloc: Global,
    handle: &mut Handle,
    from: u64,
    to: u64,
    count: &mut u64,
    rows: &mut [PfairLag],
) -> u32
    ensures { Reads handle.old.owner.kept handle.new.owner.kept result (count.old, rows.old) (count.new, rows.new) (AreLagsGiven from to) }
{
    give_rows(alloc, handle, count, rows, |dispatcher, count, rows| {
        copy_lags(alloc, dispatcher, from, to, count, rows)
    })
}

fn copy_lags(
    alloc: Global,
    dispatcher: &Dispatcher<HeapReady>,
    from: u64,
    to: u64,
    count: &mut u64,
    rows: &mut [PfairLag],
) -> u32
    ensures { AreLagsGiven from to dispatcher.now result (count.old, rows.old) (count.new, rows.new) }
{
    if to > dispatcher.next_slot() {
        return NOT_PLANNED;
    }
    if from >= to {
        *count = 0;
        return DONE;
    }
    if dispatcher.forgotten() > 0 {
        return NOT_PLANNED;
    }
    let Ok((wanted, lags)) = collect_lags(alloc, dispatcher, from, to, rows.len()) else {
        return MEMORY;
    };
    lay_rows(wanted, count, rows, |rows| {
        rows[..lags.len()].copy_from_slice(&lags)
    })
}

// Returns how many lags these slots have, but no more than fit into 64 bits; and these lags, if they are at most `room`.
fn collect_lags<R: Ready>(
    alloc: Global,
    dispatcher: &Dispatcher<R>,
    from: u64,
    to: u64,
    room: usize,
) -> Result<(u64, Vec<PfairLag>), AllocError>
    requires unforgotten { dispatcher.now.forgotten ≡ 0 }
    requires planned { to ≤ length dispatcher.now.tables }
    requires forward { from ≤ to }
    ensures count { IfOk result (λ found. found.0 ≡ min (length (lags_of dispatcher.now from to)) 18446744073709551615) }
    ensures lags { IfOk result (λ found. length (lags_of dispatcher.now from to) ≤ room → found.1.items ≡ lags_of dispatcher.now from to) }
{
    // as many slots have decisions as have tables
    prove!(to <= dispatcher.next_slot());
    let mut book = first_book(alloc, dispatcher)?;
    book_slots(&mut book, dispatcher, from)?;
    let mut lags = Vec::new(alloc);
    let mut count: u64 = 0;
    for slot in from..to {
        book_slots(&mut book, dispatcher, slot + 1)?;
        count = count.saturating_add(book.len() as u64);
        push_lags(&book, room, &mut lags)?;
    }
    Ok((count, lags))
}

fn push_lags(book: &LagBook, room: usize, lags: &mut Vec<PfairLag>) -> Result<(), AllocError>
    ensures { OnOk result (length lags.old.items + length book.now.entered ≤ room → lags.new.items ≡ lags.old.items ++ book_rows book.now) }
{
    if lags.len().saturating_add(book.len()) > room {
        return Ok(());
    }
    for place in 0..book.len() {
        if let Some((name, (numerator, period))) = book.row_at(place) {
            lags.push(PfairLag {
                time: book.time(),
                name: name_row(name),
                numerator,
                period,
            })?;
        }
    }
    Ok(())
}
