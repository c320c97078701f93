//! Runs of events, by hand and by `run_events`.
ghost use Rattle.std.specs.Prelude.{◌≡◌};

use crate::notation::{number, push, word, words_of};
use crate::shown::{push_answer, push_decisions, push_places, push_tables};
use pfair_ready::{HeapReady, PlainReady, Ready};
use pfair_replica::Replica;
use pfair_table::{Dispatcher, Event, Settings, run_events};
use std::alloc::Global;
use std::process::Abort;

// The room that each dispatcher has for entries of one log.
const CAPACITY: u32 = 256;

/// A run, and what is wanted of it.
#[derive(Clone, Copy)]
pub(crate) struct Example<'a> {
    /// The number of processors, the frame and the number of slots.
    pub machine: &'a str,
    pub events: &'a str,
    /// The answers, with commas between them.
    pub answers: &'a str,
    /// The table of each slot that is planned.
    pub tables: &'a str,
    /// The decisions at each slot that is planned.
    pub decisions: &'a str,
    /// The places of each slot that is planned, or nothing if they aren't looked at.
    pub places: &'a str,
}

fn settings_of(rt: &impl Abort, alloc: Global, machine: &str) -> Settings {
    let words = words_of(rt, alloc, machine);
    let processors = u8::try_from(number(rt, &words, 0)).expect(rt, "processors");
    Settings::new(processors, number(rt, &words, 1), number(rt, &words, 2)).expect(rt, "settings")
}

/// The dispatcher that the events of a text leave, between which stands this character.
pub(crate) fn left<R: Ready>(
    rt: &impl Abort,
    alloc: Global,
    machine: &str,
    text: &str,
    between: char,
) -> Dispatcher<R>
    ensures { result.forgotten ≡ 0 }
{
    let mut events = Vec::new(alloc);
    for part in text.split(between) {
        push(rt, &mut events, &words_of(rt, alloc, part));
    }
    left_by(rt, alloc, settings_of(rt, alloc, machine), &events)
}

fn left_by<R: Ready>(
    rt: &impl Abort,
    alloc: Global,
    settings: Settings,
    events: &[Event],
) -> Dispatcher<R>
    ensures { result.forgotten ≡ 0 }
{
    // settings have 1 to 64 processors
    prove!(settings.processors() <= Settings::MAX_PROCESSORS);
    run_events(alloc, settings, CAPACITY, events).expect(rt, "memory")
}

/// What a dispatcher holds that took the events of a text.
pub(crate) fn held(
    rt: &impl Abort,
    alloc: Global,
    machine: &str,
    text: &str,
    between: char,
) -> Replica {
    left::<PlainReady>(rt, alloc, machine, text, between).into_replica()
}

// The events of a run.
fn events_of(rt: &impl Abort, alloc: Global, run: Example<'_>) -> Vec<Event> {
    let mut events = Vec::new(alloc);
    for part in run.events.split(';') {
        match part.trim().strip_prefix("absorb ") {
            Some(others) => {
                let (machine, others) = others.split_once(':').unwrap_or((run.machine, others));
                let held = held(rt, alloc, machine, others, ',');
                events.push(Event::Absorb(held)).expect(rt, "memory");
            }
            None => push(rt, &mut events, &words_of(rt, alloc, part)),
        }
    }
    events
}

// Asserts what a dispatcher has planned and decided.
fn assert_left<R: Ready>(rt: &impl Abort, alloc: Global, left: &Dispatcher<R>, run: Example<'_>) {
    let mut text = String::new(alloc);
    assert!(rt; push_tables(&mut text, left).is_ok());
    assert_eq!(rt; text.as_str(), run.tables);
    text.clear();
    assert!(rt; push_decisions(&mut text, left).is_ok());
    assert_eq!(rt; text.as_str(), run.decisions);
    text.clear();
    assert!(rt; push_places(&mut text, left).is_ok());
    assert!(rt; run.places.is_empty() || text.as_str() == run.places);
}

// Asserts what is answered to events that come one by one.
fn assert_answers<R: Ready>(
    rt: &impl Abort,
    alloc: Global,
    dispatcher: &mut Dispatcher<R>,
    events: &[Event],
    answers: &str,
) {
    let mut text = String::new(alloc);
    for (place, event) in events.iter().enumerate() {
        text.push_str(if place > 0 { ", " } else { "" })
            .expect(rt, "memory");
        assert!(rt; push_answer(&mut text, dispatcher, event).is_ok());
    }
    assert_eq!(rt; text.as_str(), answers);
}

// Asserts what events answer and leave that come one by one, and what `run_events` leaves.
fn assert_over<R: Ready>(
    rt: &impl Abort,
    alloc: Global,
    settings: Settings,
    events: &[Event],
    run: Example<'_>,
) {
    // settings have 1 to 64 processors
    prove!(settings.processors() <= Settings::MAX_PROCESSORS);
    let new = Dispatcher::<R>::new(alloc, settings, CAPACITY);
    let mut stepped = new.expect(rt, "memory");
    assert_answers(rt, alloc, &mut stepped, events, run.answers);
    assert_left(rt, alloc, &stepped, run);
    let at_once: Dispatcher<R> = left_by(rt, alloc, settings, events);
    assert_left(rt, alloc, &at_once, run);
}

/// Asserts what is wanted of a run, over plain lists and over heaps.
pub(crate) fn assert_run(rt: &impl Abort, alloc: Global, run: Example<'_>) {
    let settings = settings_of(rt, alloc, run.machine);
    let events = events_of(rt, alloc, run);
    assert_over::<PlainReady>(rt, alloc, settings, &events, run);
    assert_over::<HeapReady>(rt, alloc, settings, &events, run);
}

/// Asserts what is wanted of the runs of a text, each with its title and its parts in lines of their
/// own, between which empty lines stand.
pub(crate) fn assert_runs(rt: &impl Abort, alloc: Global, text: &str) {
    for part in text.split("\n\n") {
        let lines: Vec<&str> = part.trim().lines().collect(alloc).expect(rt, "memory");
        let run = Example {
            machine: word(&lines, 1),
            events: word(&lines, 2),
            answers: word(&lines, 3),
            tables: word(&lines, 4),
            decisions: word(&lines, 5),
            places: word(&lines, 6),
        };
        assert_run(rt, alloc, run);
    }
}
