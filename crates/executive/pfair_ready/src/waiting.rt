//! What waits under each name.
ghost use Rattle.std.specs.Prelude.{◌≡◌, IfOk, IfSome, IfNone, OnErr, None, Some, false, is_some, not, if◌then◌else◌};
ghost use Rattle.std.specs.FinMap as finmap;
ghost use Rattle.indexmap.specs.IndexMap.{get as at_name, IsUnique};
ghost use Rattle.pfair_ready.specs.Queue.{NameValue, Queue, name_eq, queue_code};
ghost use Rattle.pfair_ready.specs.Waiting.{IsEntryOf, IsKeyIn, is_due, key_under, queue_in};
ghost use Rattle.pfair_weight.specs.Name.{IsNumber, name_of};

use crate::heap::Turn;
use crate::{Seated, Seats};
use indexmap::IndexMap;
use pfair_order::Key;
use pfair_weight::TaskName;
use std::alloc::{AllocError, Global};
use std::marker::Model;

// A release and a key that wait, without the name under which they do.
#[derive(Clone, Copy, Debug)]
struct HeldKey {
    release: u64,
    d: u64,
    b: u64,
    group: u64,
}

impl HeldKey {
    fn key(&self, name: TaskName) -> Key
        ensures { result ≡ key_under name self.now }
    {
        Key {
            d: self.d,
            b: self.b,
            group: self.group,
            name,
        }
    }

    // Whether a turn of the same name is the key's, and the key released by the slot.
    fn is_due(&self, slot: u64, turn: &Turn) -> bool
        ensures { (name : NameValue) → result ≡ is_due turn.now slot (Some (self.now.release, key_under name self.now)) }
    {
        let group = if self.b == 1 { self.group } else { 0 };
        self.release <= slot && self.d == turn.d.0 && self.b == turn.b && group == turn.group
    }
}

// What waits under a name, and where the task stands in the caller's list.
#[derive(Clone, Copy, Debug)]
struct Entry {
    held: Option<HeldKey>,
    member: usize,
}

type Entries = IndexMap<TaskName, Entry>;

/// The release and the key that wait under each name.
///
/// A name keeps its entry when its key is taken, since the next key of its task mostly follows. Such
/// entries are dropped when a new name comes and more than half of the names are new since the last
/// time. So at most twice as many names have an entry as waited at once.
///
/// Calls take hints. They change no answer: a wrong one costs a look-up.
#[derive(Drop)]
pub(crate) struct Waiting {
    entries: Entries,
    // how many names came since then
    added: usize,
}

impl Model for Waiting {
    ghost Value = { Queue };

    ghost coded = { queue_code };

    ghost view = { λ w. queue_in w.entries.entries };
}

impl Waiting {
    pub(crate) fn new(alloc: Global) -> Waiting
        ensures { result ≡ finmap.empty }
    {
        Waiting {
            entries: IndexMap::new(alloc),
            added: 0,
        }
    }

    pub(crate) fn get(&self, name: &TaskName) -> Option<(u64, Key)>
        ensures { result ≡ finmap.get self.now name.now }
    {
        // no name stands twice
        prove!(self.entries.len() < usize::MAX);
        let held = self.entries.get(name)?.held?;
        Some((held.release, held.key(*name)))
    }

    /// Puts a release and a key under the key's name and returns where the name stands, or `None` if
    /// something waits there already.
    pub(crate) fn put(
        &mut self,
        seats: Seats,
        release: u64,
        key: &Key,
    ) -> Result<Option<usize>, AllocError>
        ensures answer { IfOk result (λ place. finmap.contains_key self.old key.now.name ≡ not (is_some place)) }
        ensures content { IfOk result (λ place. self.new ≡ (if is_some place then finmap.insert self.old key.now.name (release, key.now) else self.old)) }
        ensures same { OnErr result (self.new ≡ self.old) }
        ensures vacant { OnErr result (finmap.contains_key self.old key.now.name ≡ false) }
    {
        let held = Some(HeldKey {
            release,
            d: key.d,
            b: key.b,
            group: key.group,
        });
        let entry = Entry {
            held,
            member: seats.member,
        };
        if let Some(index) = find(&self.entries, seats.ready, &key.name) {
            let there = &mut self.entries[index];
            if there.held.is_some() {
                return Ok(None);
            }
            *there = entry;
            return Ok(Some(index));
        }
        self.drop_vacant();
        // no name stands twice
        prove!(self.entries.len() < usize::MAX);
        let index = self.entries.len();
        self.entries.insert(key.name, entry)?;
        self.added = self.added.saturating_add(1);
        Ok(Some(index))
    }

    /// Removes the key under a turn's name if the turn is that key's, and the key released by the slot.
    pub(crate) fn take(&mut self, slot: u64, turn: &Turn) -> Option<Seated>
        requires { IsNumber turn.now.name.0 }
        ensures answer { is_some result ≡ is_due turn.now slot (finmap.get self.old (name_of turn.now.name.0)) }
        ensures key { IfSome result (λ seated. IsKeyIn self.old (name_of turn.now.name.0) seated.key) }
        ensures content { self.new ≡ (if is_some result then finmap.remove self.old (name_of turn.now.name.0) else self.old) }
    {
        // no name stands twice
        prove!(self.entries.len() < usize::MAX);
        let (ready, name) = match self.entries.get_index(turn.hint) {
            Some((there, _)) if there.number() == turn.name.0 => (turn.hint, *there),
            _ => {
                let name = TaskName::of_number(turn.name.0);
                (self.entries.get_index_of(&name)?, name)
            }
        };
        let entry = &mut self.entries[ready];
        let held = entry.held?;
        if !held.is_due(slot, turn) {
            return None;
        }
        entry.held = None;
        let member = entry.member;
        Some(Seated {
            key: held.key(name),
            seats: Seats { ready, member },
        })
    }

    /// Removes what waits under a name, and returns whether there was something.
    pub(crate) fn remove(&mut self, name: &TaskName) -> bool
        ensures answer { result ≡ finmap.contains_key self.old name.now }
        ensures content { self.new ≡ finmap.remove self.old name.now }
    {
        // no name stands twice
        prove!(self.entries.len() < usize::MAX);
        match self.entries.swap_remove(name) {
            Some(entry) => entry.held.is_some(),
            None => false,
        }
    }

    /// Reserves memory for that many names at once.
    pub(crate) fn reserve(&mut self, names: usize) -> Result<(), AllocError>
        ensures { self.new ≡ self.old }
    {
        let room = names.saturating_mul(2);
        self.entries
            .reserve(room.saturating_sub(self.entries.len()))
    }

    // Drops the entries without a key if more than half of the names are new since the last time.
    fn drop_vacant(&mut self)
        ensures { self.new ≡ self.old }
    {
        if self.added > self.entries.len() / 2 {
            self.entries.retain(
                |_name: &TaskName, entry: &mut Entry| -> bool
                    ensures { (result ≡ is_some entry.old.held) × (entry.new ≡ entry.old) }
                { entry.held.is_some() },
            );
            self.added = 0;
        }
    }
}

// Where a name stands: it is looked up only if the hint is wrong.
fn find(entries: &Entries, hint: usize, name: &TaskName) -> Option<usize>
    ensures some { IfSome result (IsEntryOf entries.now.entries name.now) }
    ensures none { IfNone result (at_name name_eq entries.now name.now ≡ None) }
    ensures unique { IsUnique name_eq entries.now }
{
    // no name stands twice
    prove!(entries.len() < usize::MAX);
    match entries.get_index(hint) {
        Some((there, _)) if there == name => Some(hint),
        _ => entries.get_index_of(name),
    }
}
