//! Lags as rows: time, task, numerator, period; and the book of lags with which a run begins.
#![tactic(auto, using(crate::proofs::SlotFacts::plain_fields))]

ghost use Rattle.std.specs.Prelude.{◌≡◌, ◌≤◌, ◌<◌, ◌-◌, ◌++◌, OnOk, List, Some, drop, slice_get, take, IfOk};
ghost use Rattle.pfair_text.specs.Rows.{IsOpen, line, lines_text, text_so_far};
ghost use Rattle.pfair_table.specs.declared.slot.Decided.{Decided};
ghost use Rattle.pfair_table.specs.Table.{Table};
ghost use Rattle.pfair_output.specs.Lags.{lags_header, slot_booked, all_slots_booked, book_rows, rows_booked, entered_again, first_book};
ghost use Rattle.std.specs.List.{AllByRecursion};
ghost use Rattle.pfair_admission.specs.Carried.{CanBeCarried};
ghost use Rattle.pfair_admission.specs.Member.{Member};
ghost use Rattle.pfair_admission.specs.declared.members.TheConstants.Members.{LAST_SLOT};

use csv::Writer;
use itoa::Buffer;
use pfair_admission::{Decision, Members};
use pfair_entry::Announcement;
use pfair_lag::{LagBook, MAX_HORIZON};
use pfair_ready::Ready;
use pfair_table::{Decided, Dispatcher, Pick};
use pfair_text::add_row;
use std::alloc::{AllocError, Global};

/// Adds the header of lags as rows.
///
/// # Errors
/// Returns [`AllocError`] if an allocation fails.
pub fn add_lags_header(writer: &mut Writer<Vec<u8>>) -> Result<(), AllocError>
    requires { IsOpen writer.old }
    ensures open { OnOk result (IsOpen writer.new) }
    ensures text { OnOk result (text_so_far writer.new ≡ text_so_far writer.old ++ line lags_header) }
{
    add_row(writer, &[b"time", b"task", b"numerator", b"period"])
}

/// Records in a book the slots that a dispatcher has planned, from the book's time on, none of which is
/// forgotten, and adds the rows after each. O(rows), a pass over the book for each departure, and the
/// cost of [`LagBook::record`] for each slot.
///
/// # Errors
/// Returns [`AllocError`] if an allocation fails; a part of this is then recorded.
pub fn add_lags_from<R: Ready>(
    writer: &mut Writer<Vec<u8>>,
    book: &mut LagBook,
    dispatcher: &Dispatcher<R>,
) -> Result<(), AllocError>
    requires open { IsOpen writer.old }
    requires unforgotten { dispatcher.now.forgotten ≤ book.old.time }
    ensures open { OnOk result (IsOpen writer.new) }
    ensures book { OnOk result (book.new ≡ all_slots_booked book.old (drop book.old.time dispatcher.now.decided) (drop book.old.time dispatcher.now.tables)) }
    ensures text { OnOk result (text_so_far writer.new ≡ text_so_far writer.old
        ++ lines_text (rows_booked book.old
        (drop book.old.time dispatcher.now.decided) (drop book.old.time dispatcher.now.tables))) }
{
    for slot in book.time()..dispatcher.next_slot() {
        book_planned(book, dispatcher, slot)?;
        add_lags(writer, book)?;
    }
    Ok(())
}

/// Records in a book the slots that a dispatcher has planned, from the book's time up to a slot, as
/// far as they are planned, none of which is forgotten. The cost is a look-up for each decision, a pass
/// over the book for each departure, and that of [`LagBook::record`] for each slot.
///
/// # Errors
/// Returns [`AllocError`] if an allocation fails; a part of this is then recorded.
pub fn book_slots<R: Ready>(
    book: &mut LagBook,
    dispatcher: &Dispatcher<R>,
    to: u64,
) -> Result<(), AllocError>
    requires to { book.old.time ≤ to }
    requires unforgotten { dispatcher.now.forgotten ≤ book.old.time }
    ensures { OnOk result (book.new ≡ all_slots_booked book.old
        (take (to - book.old.time) (drop book.old.time dispatcher.now.decided))
        (take (to - book.old.time) (drop book.old.time dispatcher.now.tables))) }
{
    for slot in book.time()..dispatcher.next_slot().min(to) {
        book_planned(book, dispatcher, slot)?;
    }
    Ok(())
}

fn book_planned<R: Ready>(
    book: &mut LagBook,
    dispatcher: &Dispatcher<R>,
    slot: u64,
) -> Result<(), AllocError>
    requires room { book.old.time < MAX_HORIZON }
    requires unforgotten { dispatcher.now.forgotten ≤ slot }
    ensures { OnOk result ((decided : List Decided) (table : Table)
        → slice_get dispatcher.now.decided slot ≡ Some decided → slice_get dispatcher.now.tables slot ≡ Some table
        → book.new ≡ slot_booked decided table book.old) }
{
    match (dispatcher.decisions(slot), dispatcher.table(slot)) {
        (Some(decided), Some(table)) => book_slot(book, decided, table),
        _ => Ok(()),
    }
}

/// Records a slot in the book: who is admitted and who departs at its boundary, and then its table.
pub(crate) fn book_slot(
    book: &mut LagBook,
    decided: &[Decided],
    table: &[Pick],
) -> Result<(), AllocError>
    requires { book.old.time < MAX_HORIZON }
    ensures { OnOk result (book.new ≡ slot_booked decided.now table.now book.old) }
{
    for one in decided {
        match one.announcement {
            Announcement::Arrive { name, weight, .. } => {
                if let Decision::Admitted = one.decision {
                    book.enter(name, weight)?;
                }
            }
            Announcement::Depart { name } => {
                if let Decision::Departing { .. } = one.decision {
                    book.leave(&name);
                }
            }
            Announcement::Late { .. } => {}
        }
    }
    book.record(table);
    Ok(())
}

pub(crate) fn add_lags(writer: &mut Writer<Vec<u8>>, book: &LagBook) -> Result<(), AllocError>
    requires { IsOpen writer.old }
    ensures open { OnOk result (IsOpen writer.new) }
    ensures text { OnOk result (text_so_far writer.new ≡ text_so_far writer.old ++ lines_text (book_rows book.now)) }
{
    for place in 0..book.len() {
        let Some((name, (numerator, period))) = book.row_at(place) else {
            unreachable!()
        };
        add_row(
            writer,
            &[
                Buffer::new().format(book.time()).as_bytes(),
                name.as_bytes(),
                Buffer::new().format(numerator).as_bytes(),
                Buffer::new().format(period).as_bytes(),
            ],
        )?;
    }
    Ok(())
}

/// Returns the book before a run's first slot: it has the lags of the members that were carried into
/// it. O(n) for n members.
///
/// # Errors
/// Returns [`AllocError`] if an allocation fails.
pub fn first_book<R: Ready>(
    alloc: Global,
    dispatcher: &Dispatcher<R>,
) -> Result<LagBook, AllocError>
    ensures { IfOk result (λ book. book ≡ first_book dispatcher.now.origin) }
{
    let mut book = LagBook::new(alloc);
    let Some(state) = dispatcher.state() else {
        return Ok(book);
    };
    let (members, slot) = (state.members(), state.slot());
    for place in 0..members.len() {
        enter_at(&mut book, members, place, slot)?;
    }
    Ok(book)
}

// Enters the member at a place of those that were carried into a run that begins at the slot, unless it
// is departing.
fn enter_at(
    book: &mut LagBook,
    members: &Members,
    place: usize,
    slot: u64,
) -> Result<(), AllocError>
    requires able { AllByRecursion CanBeCarried members.now.members }
    requires slot { slot ≤ LAST_SLOT }
    ensures { OnOk result ((member : Member) → slice_get members.now.members place ≡ Some member
        → book.new ≡ entered_again slot member book.old) }
{
    let Some((_, member)) = members.at(place) else {
        return Ok(());
    };
    if !member.is_departing() {
        let slots = slot.saturating_sub(member.joined());
        book.enter_after(*member.name(), member.weight(), slots, member.next() - 1)?;
    }
    Ok(())
}
