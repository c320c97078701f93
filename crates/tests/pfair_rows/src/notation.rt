//! Events as texts, one after another with a `;` between them.
//!
//! `0 3 2 2 depart a` is the entry of processor 0 with number 3 and floor 2, in which the departure
//! of a is stamped 2. The others are `0 1 0 0 arrive a 1 2`, a weight of 1/2, `0 1 0 0 early a 1
//! 2`, where it may run ahead of its windows, and `1 3 3 4 late b 4 2`, subtask 4 by 2 slots; `1 4
//! 5` says nothing. `plan 3` asks for three slots. `absorb`, before events with a `,` between them,
//! is the coming of what another dispatcher holds to which these came; if its machine is another, that
//! stands before them with a `:`.

use pfair_entry::{Announcement, Entry};
use pfair_table::Event;
use pfair_weight::{TaskName, Weight};
use std::alloc::Global;
use std::process::Abort;

/// The words of a text.
pub(crate) fn words_of<'a>(rt: &impl Abort, alloc: Global, text: &'a str) -> Vec<&'a str> {
    text.split_whitespace().collect(alloc).expect(rt, "memory")
}

/// The word at a place, or none.
pub(crate) fn word<'a>(words: &[&'a str], place: usize) -> &'a str {
    words.get(place).copied().unwrap_or("")
}

/// The number at a place.
pub(crate) fn number(rt: &impl Abort, words: &[&str], place: usize) -> u64 {
    word(words, place)
        .parse::<u64>()
        .ok()
        .expect(rt, "a number")
}

fn announcement(rt: &impl Abort, words: &[&str]) -> Announcement {
    let kind = word(words, 4);
    let name = TaskName::from_bytes(word(words, 5).as_bytes()).expect(rt, "a name");
    if kind == "depart" {
        return Announcement::Depart { name };
    }
    let (first, second) = (number(rt, words, 6), number(rt, words, 7));
    if kind == "late" {
        return Announcement::Late {
            name,
            index: first,
            by: second,
        };
    }
    assert!(rt; kind == "arrive" || kind == "early");
    let weight = Weight::new(first, second).expect(rt, "a weight");
    Announcement::Arrive {
        name,
        weight,
        early: kind == "early",
    }
}

fn taking(rt: &impl Abort, words: &[&str]) -> Event {
    let said = if words.len() > 3 {
        Some((number(rt, words, 3), announcement(rt, words)))
    } else {
        None
    };
    Event::Take {
        proc: u8::try_from(number(rt, words, 0)).expect(rt, "a processor"),
        number: u32::try_from(number(rt, words, 1)).expect(rt, "a number"),
        entry: Entry::new(number(rt, words, 2), said).expect(rt, "an entry"),
    }
}

/// Puts what some words say behind the events.
pub(crate) fn push(rt: &impl Abort, events: &mut Vec<Event>, words: &[&str]) {
    if word(words, 0) == "plan" {
        for _ in 0..number(rt, words, 1) {
            events.push(Event::Plan).expect(rt, "memory");
        }
    } else {
        events.push(taking(rt, words)).expect(rt, "memory");
    }
}
