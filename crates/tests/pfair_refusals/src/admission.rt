//! Boundaries of admission.
ghost use Rattle.std.specs.Prelude.{IfOk};
ghost use Rattle.std.specs.List.{AllByRecursion};
ghost use Rattle.std.specs.Option.{ForSome};
ghost use Rattle.pfair_entry.specs.Entry.{IsWithinLimits};

use crate::entries::name;
use crate::{Look, Made, Named};
use Kind::{Arrives, Departs, IsLate};
use pfair_admission::{Decision, Members, Refusal};
use pfair_entry::{Announcement, Entry, Said};
use pfair_weight::Weight;
use std::alloc::{AllocError, Global};

// What is said of a task.
#[derive(Clone, Copy)]
enum Kind {
    // The cost and the period of its weight.
    Arrives(u64, u64),
    Departs,
    // Subtask 2 comes so many slots late.
    IsLate(u64),
}

// The letter of a task, what is said of it, and the decision.
type Told = (u8, Kind, Decision);

// A slot, what is announced at it, and the task that is then given a quantum with the subtask that runs,
// if it may have one.
type Step = (u64, &'static [Told], (u8, Option<u64>));

// Decisions, by short names.
const YES: Decision = Decision::Admitted;

const NO_ROOM: Decision = Decision::Refused(Refusal::NoRoom);

const LEAVING: Decision = Decision::Refused(Refusal::AlreadyDeparting);

const NOBODY: Decision = Decision::Refused(Refusal::NoSuchTask);

const TAKEN: Decision = Decision::Refused(Refusal::NameTaken);

const FREE_AT_3: Decision = Decision::Departing { freed_at: 3 };

// A task that has run holds its weight until its claim ends, and another one finds no room before.
const LEAVER: [Step; 4] = [
    (0, &[(b'a', Arrives(1, 2), YES)], (b'a', Some(1))),
    (1, &[(b'a', Departs, FREE_AT_3)], (b'a', None)),
    (2, &[(b'b', Arrives(1, 1), NO_ROOM)], (b'b', None)),
    (3, &[(b'b', Arrives(1, 1), YES)], (b'b', Some(1))),
];

// A task that never ran leaves its room and its name in the slot in which it departs.
const AT_ONCE: [Step; 1] = [(
    0,
    &[
        (b'a', Arrives(1, 1), YES),
        (b'a', Departs, Decision::Departing { freed_at: 0 }),
        (b'a', Arrives(1, 1), YES),
    ],
    (b'a', Some(1)),
)];

// All that is refused of a task that departs, and of one that isn't there.
const NAMED_AGAIN: [Step; 4] = [
    (0, &[(b'a', Arrives(2, 5), YES)], (b'a', Some(1))),
    (
        1,
        &[
            (b'a', Departs, Decision::Departing { freed_at: 4 }),
            (b'a', Departs, LEAVING),
            (b'x', Departs, NOBODY),
            (b'a', IsLate(1), LEAVING),
            (b'a', Arrives(1, 5), TAKEN),
        ],
        (b'a', None),
    ),
    (3, &[(b'b', Arrives(1, 1), NO_ROOM)], (b'b', None)),
    (4, &[(b'b', Arrives(1, 1), YES)], (b'b', Some(1))),
];

pub(crate) fn looks(alloc: Global) -> [Named; 3] {
    [
        ("boundaries of a leaver", boundaries(alloc, 2, &LEAVER)),
        (
            "boundary of a task that leaves at once",
            boundaries(alloc, 1, &AT_ONCE),
        ),
        (
            "boundaries of a leaver that is named again",
            boundaries(alloc, 5, &NAMED_AGAIN),
        ),
    ]
}

// The boundaries of some slots on a machine of one processor, up to one at which an allocation fails.
fn boundaries(alloc: Global, frame: u64, steps: &[Step]) -> Look {
    if !(1..=1_000_000_000).contains(&frame) {
        return Ok(false);
    }
    walk(alloc, &mut Members::new(alloc, 1, frame), steps)
}

fn walk(alloc: Global, members: &mut Members, steps: &[Step]) -> Look {
    for (slot, heard, (letter, index)) in steps {
        let announced = announced(alloc, heard)?;
        match hears(members, *slot, &announced, heard) {
            Heard::All if runs(members, *letter) == *index => {}
            Heard::ABeginning => return Ok(true),
            _ => return Ok(false),
        }
    }
    Ok(true)
}

// What is announced, which is within its limits.
fn announcement_of(letter: u8, kind: Kind) -> Option<Announcement>
    ensures { ForSome result (λ announcement. IsWithinLimits announcement) }
{
    let name = name(letter)?;
    let announcement = match kind {
        Arrives(cost, period) => Announcement::Arrive {
            name,
            weight: Weight::new(cost, period).ok()?,
            early: false,
        },
        Departs => Announcement::Depart { name },
        IsLate(by) => Announcement::Late { name, index: 2, by },
    };
    let entry = Entry::new(0, Some((0, announcement))).ok()?;
    let (_, announcement) = entry.said()?;
    Some(announcement)
}

fn announced(alloc: Global, heard: &[Told]) -> Made<Vec<Said>>
    ensures { IfOk result (λ all. AllByRecursion (λ a. IsWithinLimits a.announcement) all.items) }
{
    let mut all = Vec::new(alloc);
    for (letter, kind, _) in heard {
        let Some(announcement) = announcement_of(*letter, *kind) else {
            return Err(AllocError);
        };
        all.push(Said {
            proc: 0,
            number: 1,
            announcement,
        })?;
    }
    Ok(all)
}

// How far a boundary came.
#[derive(Clone, Copy)]
enum Heard {
    All,
    // Until an allocation failed.
    ABeginning,
    // Not as it should.
    Otherwise,
}

// The boundary of a slot, which counts all that was announced, also if an allocation fails.
fn hears(members: &mut Members, slot: u64, announced: &[Said], heard: &[Told]) -> Heard
    requires { AllByRecursion (λ a. IsWithinLimits a.announcement) announced.now }
{
    let before = members.heard();
    let count = announced.len() as u64;
    let last = members.last_slot().unwrap_or(0);
    if slot > 1_000_000 || count > 1000 || before + count > 262_144 || last > slot {
        return Heard::Otherwise;
    }
    let answer = members.boundary(slot, announced);
    if members.heard() != before + count || members.last_slot() != Some(slot) {
        return Heard::Otherwise;
    }
    match answer {
        Ok(decisions) if are_decided(&decisions, heard) => Heard::All,
        Ok(_) => Heard::Otherwise,
        Err(_) => Heard::ABeginning,
    }
}

fn are_decided(decisions: &[Decision], heard: &[Told]) -> bool {
    for place in 0..decisions.len() {
        match (decisions.get(place), heard.get(place)) {
            (Some(decision), Some((_, _, known))) if decision == known => {}
            _ => return false,
        }
    }
    decisions.len() == heard.len()
}

// The subtask that a task runs with a quantum, if it has more and may have one.
fn runs(members: &mut Members, letter: u8) -> Option<u64> {
    let name = name(letter)?;
    let has_more = match members.get(&name) {
        Some(member) => member.next() <= 1_000_000,
        None => true,
    };
    if has_more { members.ran(&name) } else { None }
}
