//! The rows of a replica, and what is kept beside them so that it is looked up: how far each sound
//! beginning goes, what all of them come to, and the first torn key.
ghost use Rattle.std.specs.Prelude.{◌≡◌, ◌↔◌, ℕ, None, Some, IsTrue, IfOk, ◌≤◌, ◌<◌, ◌+◌, ◌^◌, length, replicate, set};
ghost use Rattle.pfair_lattice.specs.Held.{HeldBelow};
ghost use Rattle.pfair_lattice.specs.declared.join_map.Flat.TheVariants.{One};
ghost use Rattle.pfair_entry.specs.Entry.{Logged, IsEntry};
ghost use Rattle.pfair_replica.specs.Replica.{held_in};
ghost use Rattle.pfair_replica.specs.Counters.{beginning_in, least_mark, total_count, IsPart, IsLeftAt, IsFirstTornIn, IsEarlier, IsTornAt, AreCounters, WereBefore, WereApart};

use pfair_entry::Entry;
use pfair_lattice::{Flat, Join, JoinMap};
use std::alloc::{AllocError, Global};

/// Names one entry of one log: the processor whose log it is, counted from 0, and the entry's number
/// in that log, counted from 1.
pub type EntryKey = (u8, u32);

/// What is wrong with the logs that a replica holds. Both lists are in order of processors, and of
/// numbers for each processor.
#[derive(Debug, Drop)]
pub struct Faults {
    /// The keys at which two contents met.
    pub torn: Vec<EntryKey>,
    /// For each processor the entry right after its sound beginning, if that is one entry with a
    /// lower floor.
    pub fallen: Vec<EntryKey>,
}

/// The contents of each processor's log.
pub(crate) type Rows = JoinMap<u8, JoinMap<u32, Flat<Entry>>>;

/// The contents at a key.
pub(crate) fn held_at(rows: &Rows, processor: u8, number: u32) -> Option<Flat<Entry>>
    ensures value { result ≡ held_in rows.now processor number }
    ensures entry { (e : Logged) → result ≡ Some (One e) → IsEntry e }
{
    rows.get(&processor)?.get(&number).copied()
}

/// Whether all that one row holds is held in the other row of its processor, or torn there.
pub(crate) fn row_le(rows: &Rows, other: &Rows, processor: u8) -> bool
    ensures { IsTrue result ↔ ((n : ℕ) → HeldBelow (held_in rows.now processor n) (held_in other.now processor n)) }
{
    match rows.get(&processor) {
        Some(row) => match other.get(&processor) {
            Some(held) => {
                // the keys of both rows are in order
                prove!((row.len() > 0) | row.get(&1).is_none());
                prove!((held.len() > 0) | held.get(&1).is_none());
                row.le(held)
            }
            None => row.len() == 0,
        },
        None => true,
    }
}

/// How far the sound beginning of a row goes.
#[derive(Clone, Copy, Debug, PartialEq, Eq)]
pub(crate) struct Beginning {
    /// How many entries it has.
    pub count: u32,
    /// Its last floor, or 0 if it is empty.
    pub mark: u64,
}

/// How far the sound beginning of each row goes, and which key is the first torn one.
#[derive(Drop)]
pub(crate) struct Counters {
    /// By processors.
    pub beginnings: Vec<Beginning>,
    /// `None` if nothing is torn.
    pub torn: Option<EntryKey>,
    /// The least mark.
    pub frontier: u64,
    /// How many entries all sound beginnings have.
    pub sound_total: u64,
    ghost few: { length beginnings.items < 2 ^ 8 },
    ghost least: { frontier ≡ least_mark beginnings.items },
    ghost total: { sound_total ≡ total_count beginnings.items },
}

impl Counters {
    /// Creates the counters of so many empty rows.
    pub fn new(alloc: Global, processors: u8) -> Result<Counters, AllocError>
        ensures beginnings { IfOk result (λ counters. counters.beginnings.items ≡ replicate processors (record { count = 0; mark = 0 })) }
        ensures torn { IfOk result (λ counters. counters.torn ≡ None) }
    {
        Ok(Counters {
            beginnings: vec![in alloc; Beginning { count: 0, mark: 0 }; processors as usize]?,
            torn: None,
            frontier: 0,
            sound_total: 0,
        })
    }

    /// Follows the rows after something came at one key: carries the sound beginning on over all
    /// that is held behind it, or takes it back to before the key if that is torn in it.
    pub fn follow_entry(&mut self, rows: &Rows, capacity: u32, processor: u8, number: u32)
        requires row { processor < length self.old.beginnings.items }
        requires before { WereBefore capacity processor number (held_in rows.now) self.old.beginnings.items self.old.torn }
        ensures counters { AreCounters capacity (held_in rows.now) self.new.beginnings.items self.new.torn }
        ensures so_many { length self.new.beginnings.items ≡ length self.old.beginnings.items }
    {
        let row = processor as usize;
        let part = part_left(rows, processor, number, self.beginnings[row]);
        self.put(row, carried_on(rows, capacity, processor, part));
        if is_torn(rows, processor, number) {
            self.torn = earlier(self.torn, Some((processor, number)));
        }
    }

    /// Follows the rows after the other rows were joined in, or a part of them.
    pub fn follow_join(&mut self, rows: &Rows, other: &Rows, processors: u8, capacity: u32)
        requires rows { length self.old.beginnings.items ≡ processors }
        requires before { WereApart capacity (held_in other.now) (held_in rows.now) self.old.beginnings.items self.old.torn }
        ensures counters { AreCounters capacity (held_in rows.now) self.new.beginnings.items self.new.torn }
        ensures so_many { length self.new.beginnings.items ≡ length self.old.beginnings.items }
    {
        for processor in 0..processors {
            // if the other holds nothing, the row is as it was
            if other.get(&processor).map_or(0, |row| row.len()) == 0 {
                continue;
            }
            let whole = carried_on(rows, capacity, processor, Beginning { count: 0, mark: 0 });
            self.put(processor as usize, whole);
            self.torn = earlier(self.torn, first_torn_in(rows, capacity, processor));
        }
    }

    // Puts another beginning in the place of a row's. O(M) for M processors.
    fn put(&mut self, row: usize, beginning: Beginning)
        requires { row < length self.old.beginnings.items }
        ensures beginnings { self.new.beginnings.items ≡ set self.old.beginnings.items row beginning }
        ensures torn { self.new.torn ≡ self.old.torn }
    {
        self.beginnings[row] = beginning;
        (self.frontier, self.sound_total) = all_of(&self.beginnings);
    }
}

// The least mark of these beginnings, or 0 if there is none, and how many entries they have.
fn all_of(beginnings: &[Beginning]) -> (u64, u64)
    requires { length beginnings.now < 2 ^ 8 }
    ensures { result ≡ (least_mark beginnings.now, total_count beginnings.now) }
{
    let mut least = beginnings.first().map_or(0, |first| first.mark);
    let mut total = 0;
    for beginning in beginnings {
        least = least.min(beginning.mark);
        total += beginning.count as u64;
    }
    (least, total)
}

// The whole sound beginning of a row, from a part of it on.
#[tactic(auto, using(crate::proofs::Following::part_more))]
fn carried_on(rows: &Rows, capacity: u32, processor: u8, part: Beginning) -> Beginning
    requires part { IsPart (held_in rows.now processor) part }
    requires room { part.count ≤ capacity }
    ensures { result ≡ beginning_in capacity (held_in rows.now processor) }
{
    let mut whole = part;
    'entries: while whole.count < capacity {
        match held_at(rows, processor, whole.count + 1) {
            Some(Flat::One(entry)) if whole.mark <= entry.floor() => {
                whole = Beginning {
                    count: whole.count + 1,
                    mark: entry.floor(),
                };
            }
            _ => break,
        }
    }
    whole
}

// The part of a sound beginning that is left after something came at one key: all of it, or what
// comes before the key if that is torn in it.
#[tactic(auto, using(crate::proofs::Following::part_to_entry, crate::proofs::Following::part_to_none))]
fn part_left(rows: &Rows, processor: u8, number: u32, before: Beginning) -> Beginning
    requires { IsLeftAt (held_in rows.now processor) number before }
    ensures part { IsPart (held_in rows.now processor) result }
    ensures shorter { result.count ≤ before.count }
{
    if number > before.count || !is_torn(rows, processor, number) {
        return before;
    }
    let count = number - 1;
    let mark = match held_at(rows, processor, count) {
        Some(Flat::One(entry)) => entry.floor(),
        _ => 0,
    };
    Beginning { count, mark }
}

// Whether a key is torn.
fn is_torn(rows: &Rows, processor: u8, number: u32) -> bool
    ensures { IsTrue result ↔ IsTornAt (held_in rows.now) processor number }
{
    matches!(held_at(rows, processor, number), Some(Flat::Torn))
}

// The first torn key of a processor.
fn first_torn_in(rows: &Rows, capacity: u32, processor: u8) -> Option<EntryKey>
    requires { (n : ℕ) → IsTornAt (held_in rows.now) processor n → (1 ≤ n) × (n ≤ capacity) }
    ensures { IsFirstTornIn (held_in rows.now) processor result }
{
    for before in 0..capacity {
        if is_torn(rows, processor, before + 1) {
            return Some((processor, before + 1));
        }
    }
    None
}

// The one of two keys that comes first: by processors, and then by numbers.
fn earlier(first: Option<EntryKey>, other: Option<EntryKey>) -> Option<EntryKey>
    ensures { IsEarlier first other result }
{
    match (first, other) {
        (Some(key), Some(next)) if next < key => other,
        (None, _) => other,
        _ => first,
    }
}
