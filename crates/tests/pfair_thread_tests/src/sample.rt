//! The ten entries of two processors, with what is planned of them, and other scripts.

use pfair_board::Run;
use pfair_entry::{Announcement, Entry};
use pfair_table::{Script, Settings};
use pfair_weight::{TaskName, Weight};
use std::alloc::Global;
use std::process::Abort;

// The picks of each of the sample's six slots: the letter of the task, and the index of its
// subtask.
const TABLES: [&[(u8, u64)]; 6] = [
    &[(b'b', 1), (b'a', 1)],
    &[(b'b', 2), (b'c', 1)],
    &[],
    &[(b'b', 3), (b'd', 1)],
    &[(b'c', 2)],
    &[(b'd', 2)],
];

// The places of these picks.
const PLACES: [&[u8]; 6] = [&[0, 1], &[0, 1], &[], &[0, 1], &[0], &[0]];

fn has_places(run: &Run) -> bool {
    for (places, known) in run.places.iter().zip(PLACES.iter()) {
        if places.as_slice() != *known {
            return false;
        }
    }
    run.places.len() == 6
}

/// Whether the tables are the sample's, and the places.
pub(crate) fn is_sample(run: &Run) -> bool {
    for (table, known) in run.tables.iter().zip(TABLES.iter()) {
        if table.len() != known.len() {
            return false;
        }
        for (pick, (letter, index)) in table.iter().zip(known.iter()) {
            if pick.name.as_bytes() != [*letter].as_slice() || pick.index != *index {
                return false;
            }
        }
    }
    run.tables.len() == 6 && has_places(run)
}

fn name(rt: &impl Abort, letters: &[u8]) -> TaskName {
    TaskName::from_bytes(letters).expect(rt, "a name")
}

/// An entry that says this.
pub(crate) fn entry(rt: &impl Abort, floor: u64, said: Option<(u64, Announcement)>) -> Entry {
    Entry::new(floor, said).expect(rt, "an entry")
}

// An entry by which a task arrives.
fn arrival(rt: &impl Abort, floor: u64, at: u64, letters: &[u8], share: (u64, u64)) -> Entry {
    let arrives = Announcement::Arrive {
        name: name(rt, letters),
        weight: Weight::new(share.0, share.1).expect(rt, "a weight"),
        early: false,
    };
    entry(rt, floor, Some((at, arrives)))
}

/// The log of the sample's first processor.
pub(crate) fn first_log(rt: &impl Abort) -> [Entry; 5] {
    let depart = Announcement::Depart {
        name: name(rt, b"a"),
    };
    [
        arrival(rt, 0, 0, b"a", (1, 2)),
        arrival(rt, 0, 0, b"b", (2, 3)),
        entry(rt, 2, Some((2, depart))),
        entry(rt, 4, None),
        entry(rt, 6, None),
    ]
}

/// The log of the sample's second processor.
pub(crate) fn second_log(rt: &impl Abort) -> [Entry; 5] {
    let late = Announcement::Late {
        name: name(rt, b"b"),
        index: 4,
        by: 2,
    };
    [
        arrival(rt, 0, 0, b"c", (1, 3)),
        arrival(rt, 1, 3, b"d", (1, 2)),
        entry(rt, 3, Some((4, late))),
        entry(rt, 5, None),
        entry(rt, 6, None),
    ]
}

/// A log of five entries that announces nothing, and settles six slots.
pub(crate) fn silent_log(rt: &impl Abort) -> [Entry; 5] {
    [
        entry(rt, 0, None),
        entry(rt, 1, None),
        entry(rt, 2, None),
        entry(rt, 3, None),
        entry(rt, 6, None),
    ]
}

fn script(rt: &impl Abort, settings: Option<Settings>, logs: Vec<Vec<Entry>>) -> Script {
    let settings = settings.expect(rt, "settings");
    Script::new(settings, logs).ok().expect(rt, "a script")
}

fn push(rt: &impl Abort, alloc: Global, logs: &mut Vec<Vec<Entry>>, entries: &[Entry]) {
    let mut log = Vec::new(alloc);
    log.extend_from_slice(entries).expect(rt, "memory");
    logs.push(log).expect(rt, "memory");
}

/// The sample's script.
pub(crate) fn sample(rt: &impl Abort, alloc: Global) -> Script {
    let mut logs = Vec::new(alloc);
    push(rt, alloc, &mut logs, &first_log(rt));
    push(rt, alloc, &mut logs, &second_log(rt));
    script(rt, Settings::new(2, 6, 6), logs)
}

/// A script of one log, whose second floor falls.
pub(crate) fn falling(rt: &impl Abort, alloc: Global) -> Script {
    let mut logs = Vec::new(alloc);
    push(
        rt,
        alloc,
        &mut logs,
        &[entry(rt, 5, None), entry(rt, 4, None)],
    );
    script(rt, Settings::new(1, 1, 8), logs)
}

/// A script of 64 processors that announce nothing.
pub(crate) fn silent(rt: &impl Abort, alloc: Global) -> Script {
    let mut logs = Vec::new(alloc);
    for _ in 0..64u8 {
        push(rt, alloc, &mut logs, &[entry(rt, 2, None)]);
    }
    script(rt, Settings::new(64, 1, 2), logs)
}

/// A script of 8 processors, 56 tasks and 200 slots.
pub(crate) fn busy(rt: &impl Abort, alloc: Global) -> Script {
    let mut logs = Vec::new(alloc);
    for processor in 0..8u8 {
        let mut log = [entry(rt, 200, None); 8];
        for task in 0..7u8 {
            let at = task as u64 * 20;
            let letters = [b'a' + processor, b'a' + task];
            let share = (1 + task as u64 % 2, 12);
            log[task as usize] = arrival(rt, at, at, letters.as_slice(), share);
        }
        push(rt, alloc, &mut logs, &log);
    }
    script(rt, Settings::new(8, 12, 200), logs)
}
