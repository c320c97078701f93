//! Answers, tables and decisions as texts.

use pfair_admission::Decision;
use pfair_ready::Ready;
use pfair_replica::Taken;
use pfair_table::{Dispatcher, Event, PlanFault, Step};
use pfair_weight::TaskName;
use std::alloc::AllocError;

/// Puts a number behind the text.
pub(crate) fn push_number(text: &mut String, number: u64) -> Result<(), AllocError> {
    write!(text, "{number}")
}

/// Puts a word and a number behind the text.
pub(crate) fn push_with(text: &mut String, word: &str, number: u64) -> Result<(), AllocError> {
    text.push_str(word)?;
    push_number(text, number)
}

// Puts the name behind the text.
fn push_name(text: &mut String, name: &TaskName) -> Result<(), AllocError> {
    for byte in name.as_bytes() {
        text.push(char::from(*byte))?;
    }
    Ok(())
}

/// Puts the table of each slot that is planned behind the text, in brackets, as `[b1 a1][][c2]`.
pub(crate) fn push_tables<R: Ready>(
    text: &mut String,
    dispatcher: &Dispatcher<R>,
) -> Result<(), AllocError> {
    for slot in 0..dispatcher.next_slot() {
        text.push('[')?;
        for (row, pick) in dispatcher.table(slot).unwrap_or(&[]).iter().enumerate() {
            if row > 0 {
                text.push(' ')?;
            }
            push_name(text, &pick.name)?;
            push_number(text, pick.index)?;
        }
        text.push(']')?;
    }
    Ok(())
}

/// Puts the places of each slot that is planned behind the text, in brackets, as `[0 1][][1]`.
pub(crate) fn push_places<R: Ready>(
    text: &mut String,
    dispatcher: &Dispatcher<R>,
) -> Result<(), AllocError> {
    for slot in 0..dispatcher.next_slot() {
        text.push('[')?;
        for (row, place) in dispatcher.places(slot).unwrap_or(&[]).iter().enumerate() {
            if row > 0 {
                text.push(' ')?;
            }
            push_number(text, *place as u64)?;
        }
        text.push(']')?;
    }
    Ok(())
}

// Puts what was decided behind the text, as `admitted`, `departing 3`, `delayed` or `refused 22`.
fn push_decision(text: &mut String, decision: Decision) -> Result<(), AllocError> {
    match decision {
        Decision::Admitted => text.push_str("admitted")?,
        Decision::Departing { freed_at } => push_with(text, "departing ", freed_at)?,
        Decision::Delayed => text.push_str("delayed")?,
        Decision::Refused(refusal) => push_with(text, "refused ", refusal.number() as u64)?,
    }
    Ok(())
}

/// Puts the decisions at each slot that is planned behind the text, in brackets, each with
/// processor, number and name, as `[0.1 a admitted, 1.1 b refused 22][]`.
pub(crate) fn push_decisions<R: Ready>(
    text: &mut String,
    dispatcher: &Dispatcher<R>,
) -> Result<(), AllocError> {
    for slot in 0..dispatcher.next_slot() {
        text.push('[')?;
        for (place, decided) in dispatcher.decisions(slot).unwrap_or(&[]).iter().enumerate() {
            if place > 0 {
                text.push_str(", ")?;
            }
            push_number(text, decided.proc as u64)?;
            push_with(text, ".", decided.number as u64)?;
            text.push(' ')?;
            push_name(text, &decided.announcement.name())?;
            text.push(' ')?;
            push_decision(text, decided.decision)?;
        }
        text.push(']')?;
    }
    Ok(())
}

/// An event comes to a dispatcher, and its answer goes behind the text.
pub(crate) fn push_answer<R: Ready>(
    text: &mut String,
    dispatcher: &mut Dispatcher<R>,
    event: &Event,
) -> Result<(), AllocError> {
    match event {
        Event::Take {
            proc,
            number,
            entry,
        } => match dispatcher.take(*proc, *number, *entry) {
            Ok(Taken::New) => text.push_str("new")?,
            Ok(Taken::Known) => text.push_str("known")?,
            Ok(Taken::Torn) => text.push_str("torn")?,
            Err(fault) => push_with(text, "fault ", fault.number() as u64)?,
        },
        Event::Absorb(other) => match dispatcher.absorb(other) {
            Ok(()) => text.push_str("merged")?,
            Err(fault) => push_with(text, "fault ", fault.number() as u64)?,
        },
        Event::Plan => push_planned(text, dispatcher.plan_next())?,
    }
    Ok(())
}

// Puts what a plan answers behind the text.
fn push_planned(text: &mut String, answer: Result<Step, PlanFault>) -> Result<(), AllocError> {
    match answer {
        Ok(Step::Planned(slot)) => push_with(text, "slot ", slot)?,
        Ok(Step::Waiting { frontier }) => push_with(text, "waiting ", frontier)?,
        Ok(Step::Done) => text.push_str("done")?,
        Err(PlanFault::Torn { proc, number }) => {
            push_with(text, "fault 30 at ", proc as u64)?;
            push_with(text, ".", number as u64)?;
        }
        Err(fault) => push_with(text, "fault ", fault.number() as u64)?,
    }
    Ok(())
}
