//! The laws of rows that are written slot after slot, and of whole inputs. Each function does
//! nothing, or calls other laws: its contract is the law.
#![tactic(auto, using(crate::proofs::RoundTrip::most_laws))]

ghost use Rattle.pfair_feed.specs.Laws.{EntriesAreTheirRows, EntriesGiveTheirSchedule, FedEntriesGiveTheirText, LinesAreOne, OrderIsNothing, RunsWriteAlike, WholeText, RowsGoOn, WholeRows};

use pfair_entry_row::laws::each_entry_has_its_row;
use pfair_table::laws::events_leave_the_least;

/// The rows of some planned slots and of the slots after them are the rows of the former, followed by
/// those of the latter.
pub fn rows_go_on()
    ensures { RowsGoOn }
{}

/// The header and the rows of a first run's whole plan, from the first slot on, are the text that
/// `pfair` writes of the run.
pub fn whole_rows()
    ensures { WholeRows }
{}

/// The rows of the same entries, in whatever order and however often they come, leave the same
/// replica, and so the same plan, the same decisions and the same text.
pub fn order_is_nothing()
    ensures { OrderIsNothing }
{
    events_leave_the_least();
}

/// The header, and what [`follow`](crate::follow) has written for a follower that was new, are the
/// text of the plan of the replica that it then has.
pub fn text_is_whole()
    ensures { WholeText }
{}

/// Bytes are cut into lines, and the beginning of one, in one way only.
pub fn lines_are_one()
    ensures { LinesAreOne }
{}

/// The text of a script's entries, as [`entries_of`](crate::entries_of) makes it, is a line for each
/// of them, its row, and nothing behind the last. Empty logs with room for the entries have, after
/// these lines, each entry under its number, and nothing else.
pub fn entries_are_their_rows()
    ensures { EntriesAreTheirRows }
{
    events_leave_the_least();
    each_entry_has_its_row();
}

/// Lines that have the rows of a script's entries leave the script's replica, in whatever order they
/// come and however often each, and so its tables, its decisions and its texts. Lines that bring
/// nothing may be among them: questions, lines that are no row, and rows of other keys.
pub fn entries_give_their_schedule()
    ensures { EntriesGiveTheirSchedule }
{
    events_leave_the_least();
    each_entry_has_its_row();
}

/// A follower that was new, and was fed bytes of such lines after its header was written, has written
/// the text that `pfair` writes of the script, and nothing else.
pub fn fed_entries_give_their_text()
    ensures { FedEntriesGiveTheirText }
{
    entries_give_their_schedule();
}

/// If two new followers of equal settings, outputs and first slots were fed entries that agree,
/// whatever was lost, repeated or out of order, the text that one has written begins with that of the
/// other.
pub fn runs_write_alike()
    ensures { RunsWriteAlike }
{}
