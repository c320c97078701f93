//! What is written of a run, and the rows of it that are new.
ghost use Rattle.std.specs.Prelude.{◌≡◌, ◌++◌, ◌≢◌, [], IfErr, IfOk, OnErr, OnOk};
ghost use Rattle.std.specs.Io.KnownBytes.{Appends};
ghost use Rattle.pfair_text.specs.Rows.{TakesPrefix, IsOpen, text_so_far};
ghost use Rattle.pfair_feed.specs.Follow.{IsBookIfAny, IsWholeBook, KeepsUnwritten, rows_text};
ghost use Rattle.pfair_file.specs.declared.program_fault.ProgramFault.TheVariants.{WriteFailed};

use csv::Writer;
use pfair_file::ProgramFault;
use pfair_lag::LagBook;
use pfair_output::{
    add_decisions_from, add_lags_from, add_placed_tables_from, add_tables_from, book_slots,
    first_book,
};
use pfair_ready::Ready;
use pfair_table::{Dispatcher, Settings};
use pfair_text::send;
use std::alloc::{AllocError, Global};
use std::io::Write;

/// What is written of a run.
#[derive(Clone, Copy, Debug, PartialEq, Eq)]
pub enum Output {
    /// The tables: a row for each quantum.
    Tables,
    /// The tables: a row for each quantum, with its place.
    PlacedTables,
    /// The decisions: a row for each announcement.
    Decisions,
    /// The lags: a row for each task that stays, after each slot.
    Lags,
}

/// Adds the rows of the slots that are planned, from a slot on. A book of lags, if there is one, has the
/// slots up to some slot before that one; the book that is returned, if any, has all planned slots.
pub(crate) fn add_rows<R: Ready>(
    alloc: Global,
    text: &mut Writer<Vec<u8>>,
    output: Output,
    dispatcher: &Dispatcher<R>,
    from: u64,
    book: Option<LagBook>,
) -> Result<Option<LagBook>, AllocError>
    requires open { IsOpen text.old }
    requires book { IsBookIfAny dispatcher.now.origin from dispatcher.now.tables dispatcher.now.decided book }
    requires unforgotten { KeepsUnwritten output dispatcher.now.forgotten from }
    ensures open { OnOk result (IsOpen text.new) }
    ensures book { IfOk result (IsWholeBook dispatcher.now from) }
    ensures text { OnOk result (text_so_far text.new ≡ text_so_far text.old
        ++ rows_text dispatcher.now output from) }
{
    // as many slots have decisions as have tables
    prove!(dispatcher.next_slot() <= Settings::MAX_SLOTS);
    match output {
        Output::Tables => add_tables_from(text, dispatcher, from)?,
        Output::PlacedTables => add_placed_tables_from(text, dispatcher, from)?,
        Output::Decisions => add_decisions_from(text, dispatcher, from)?,
        Output::Lags => {
            let mut known = match book {
                Some(book) => book,
                None => first_book(alloc, dispatcher)?,
            };
            book_slots(&mut known, dispatcher, from)?;
            add_lags_from(text, &mut known, dispatcher)?;
            return Ok(Some(known));
        }
    }
    Ok(None)
}

pub(crate) fn send_now<W: Write>(writer: &mut W, text: &[u8]) -> Result<(), ProgramFault>
    ensures written { OnOk result (Appends (W.contents writer.old) (W.contents writer.new) text.now) }
    ensures cut { IfErr result (λ _. TakesPrefix (W.contents writer.old) (W.contents writer.new) text.now) }
    ensures cause { IfErr result (λ e. e ≡ WriteFailed) }
    ensures due { OnErr result (text.now ≢ []) }
{
    if text.is_empty() {
        return Ok(());
    }
    send(writer, text)?;
    writer.flush().map_err(|_| ProgramFault::WriteFailed)
}
