//! The ten entries of two processors, and what is planned of them.

use crate::Made;
use pfair_entry::{Announcement, Entry};
use pfair_ready::Ready;
use pfair_table::{Dispatcher, Pick, Run};
use pfair_weight::{TaskName, Weight};
use std::alloc::AllocError;

/// The picks of each of the six slots: the letter of the task, and the index of its subtask.
pub(crate) const TABLES: [&[(u8, u64)]; 6] = [
    &[(b'b', 1), (b'a', 1)],
    &[(b'b', 2), (b'c', 1)],
    &[],
    &[(b'b', 3), (b'd', 1)],
    &[(b'c', 2)],
    &[(b'd', 2)],
];

// The places of each of the six slots.
const PLACES: [&[u8]; 6] = [&[0, 1], &[0, 1], &[], &[0, 1], &[0], &[0]];

/// The name of one letter.
pub(crate) fn name(letter: u8) -> Option<TaskName> {
    TaskName::from_bytes(&[letter]).ok()
}

fn arrive(floor: u64, at: u64, letter: u8, cost: u64, period: u64) -> Option<Entry> {
    let announcement = Announcement::Arrive {
        name: name(letter)?,
        weight: Weight::new(cost, period).ok()?,
        early: false,
    };
    Entry::new(floor, Some((at, announcement))).ok()
}

/// An entry that announces nothing.
pub(crate) fn quiet(floor: u64) -> Made<Entry> {
    Entry::new(floor, None).ok().ok_or(AllocError)
}

/// The ten entries: each with its processor and its number.
pub(crate) fn ten() -> Made<[(u8, u32, Entry); 10]> {
    ten_entries().ok_or(AllocError)
}

fn ten_entries() -> Option<[(u8, u32, Entry); 10]> {
    let depart = Announcement::Depart { name: name(b'a')? };
    let late = Announcement::Late {
        name: name(b'b')?,
        index: 4,
        by: 2,
    };
    Some([
        (0, 1, arrive(0, 0, b'a', 1, 2)?),
        (0, 2, arrive(0, 0, b'b', 2, 3)?),
        (0, 3, Entry::new(2, Some((2, depart))).ok()?),
        (0, 4, Entry::new(4, None).ok()?),
        (0, 5, Entry::new(6, None).ok()?),
        (1, 1, arrive(0, 0, b'c', 1, 3)?),
        (1, 2, arrive(1, 3, b'd', 1, 2)?),
        (1, 3, Entry::new(3, Some((4, late))).ok()?),
        (1, 4, Entry::new(5, None).ok()?),
        (1, 5, Entry::new(6, None).ok()?),
    ])
}

/// Whether just the first so many slots are planned, as they should be, and each row has its place.
pub(crate) fn is_planned<R: Ready>(dispatcher: &Dispatcher<R>, slots: u64) -> bool {
    for slot in 0..slots {
        let (Some(table), Some(places)) = (dispatcher.table(slot), dispatcher.places(slot)) else {
            return false;
        };
        if !is_slot(slot as usize, table, places) {
            return false;
        }
    }
    dispatcher.next_slot() == slots
}

/// Whether a run has the tables and the places of all six slots.
pub(crate) fn is_whole(run: &Run) -> bool {
    for slot in 0..TABLES.len() {
        let (Some(table), Some(places)) = (run.tables.get(slot), run.places.get(slot)) else {
            return false;
        };
        if !is_slot(slot, table, places) {
            return false;
        }
    }
    run.tables.len() == TABLES.len() && run.places.len() == PLACES.len()
}

// Whether a slot has this table and these places.
fn is_slot(slot: usize, table: &[Pick], places: &[u8]) -> bool {
    let (Some(known), Some(known_places)) = (TABLES.get(slot), PLACES.get(slot)) else {
        return false;
    };
    are_picks(table, known) && places == *known_places
}

// Whether a table has these picks: each by the letter of its task and the index of its subtask.
fn are_picks(table: &[Pick], known: &[(u8, u64)]) -> bool {
    for row in 0..table.len() {
        let (Some(pick), Some((letter, index))) = (table.get(row), known.get(row)) else {
            return false;
        };
        if pick.name.as_bytes() != [*letter].as_slice() || pick.index != *index {
            return false;
        }
    }
    table.len() == known.len()
}
