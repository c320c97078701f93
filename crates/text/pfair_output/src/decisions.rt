//! Decisions as rows: slot, processor, number, task, outcome, value.
#![tactic(auto, using(crate::proofs::SlotFacts::plain_fields))]

ghost use Rattle.std.specs.Prelude.{◌≡◌, ◌≤◌, ◌++◌, drop, map, OnOk, IsTrue};
ghost use Rattle.pfair_text.specs.Rows.{IsOpen, is_plain, line, lines_text, text_so_far};
ghost use Rattle.pfair_output.specs.Replay.{slots_from, decided_rows, decision_row, decisions_header, outcome_of, value_of};

use csv::Writer;
use itoa::Buffer;
use pfair_admission::Decision;
use pfair_ready::Ready;
use pfair_table::{Decided, Dispatcher};
use pfair_text::add_row;
use std::alloc::AllocError;

/// Adds the header of decisions as rows.
///
/// # Errors
/// Returns [`AllocError`] if an allocation fails.
pub fn add_decisions_header(writer: &mut Writer<Vec<u8>>) -> Result<(), AllocError>
    requires { IsOpen writer.old }
    ensures open { OnOk result (IsOpen writer.new) }
    ensures text { OnOk result (text_so_far writer.new ≡ text_so_far writer.old ++ line decisions_header) }
{
    add_row(
        writer,
        &[
            b"slot",
            b"processor",
            b"number",
            b"task",
            b"outcome",
            b"value",
        ],
    )
}

/// Adds a row for each announcement that was decided at the boundaries of a dispatcher's planned slots,
/// from a slot on that isn't forgotten. O(rows).
///
/// # Errors
/// Returns [`AllocError`] if an allocation fails.
pub fn add_decisions_from<R: Ready>(
    writer: &mut Writer<Vec<u8>>,
    dispatcher: &Dispatcher<R>,
    from: u64,
) -> Result<(), AllocError>
    requires open { IsOpen writer.old }
    requires unforgotten { dispatcher.now.forgotten ≤ from }
    ensures open { OnOk result (IsOpen writer.new) }
    ensures text { OnOk result (text_so_far writer.new ≡ text_so_far writer.old
        ++ lines_text (slots_from decided_rows from (drop from dispatcher.now.decided))) }
{
    for slot in from..dispatcher.next_slot() {
        let Some(decided) = dispatcher.decisions(slot) else {
            unreachable!()
        };
        add_decisions(writer, slot, decided)?;
    }
    Ok(())
}

/// Adds a row for each announcement that was decided at the boundary of a slot.
pub(crate) fn add_decisions(
    writer: &mut Writer<Vec<u8>>,
    slot: u64,
    decided: &[Decided],
) -> Result<(), AllocError>
    requires { IsOpen writer.old }
    ensures open { OnOk result (IsOpen writer.new) }
    ensures text { OnOk result (text_so_far writer.new ≡ text_so_far writer.old ++ lines_text (map (decision_row slot) decided.now)) }
{
    for one in decided {
        add_row(
            writer,
            &[
                Buffer::new().format(slot).as_bytes(),
                Buffer::new().format(one.proc).as_bytes(),
                Buffer::new().format(one.number).as_bytes(),
                one.announcement.name().as_bytes(),
                outcome(one.decision).as_bytes(),
                value(one.decision, &mut Buffer::new()).as_bytes(),
            ],
        )?;
    }
    Ok(())
}

fn outcome(decision: Decision) -> &'static str
    ensures word { result.now ≡ outcome_of decision }
    ensures plain { IsTrue (is_plain result.now) }
{
    match decision {
        Decision::Admitted => "admitted",
        Decision::Departing { .. } => "departing",
        Decision::Delayed => "delayed",
        Decision::Refused(_) => "refused",
    }
}

// The freeing slot, the number of the refusal, or a dash.
fn value(decision: Decision, buffer: &mut Buffer) -> &str
    ensures value { result.now ≡ value_of decision }
    ensures plain { IsTrue (is_plain result.now) }
{
    match decision {
        Decision::Admitted | Decision::Delayed => "-",
        Decision::Departing { freed_at } => buffer.format(freed_at),
        Decision::Refused(why) => buffer.format(why.number()),
    }
}
