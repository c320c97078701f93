//! Ready structures hold the next subtask of each task until it is chosen to run.
//!
//! In each slot a Pfair scheduler runs the first M of the released subtasks in the PD2 order, M being
//! the number of processors (Anderson and Srinivasan). A ready structure holds at most one subtask of
//! a task, under the task's name: its key in that order, and the slot from which it may run. That is
//! the release of its window, or an earlier slot (early release).
#![tactic(auto)]

ghost use Rattle.std.specs.Prelude.{◌≡◌, ◌≤◌, ℕ, IsTrue, IfOk, OnErr, false, map, not, if◌then◌else◌};
ghost use Rattle.std.specs.FinMap as finmap;
ghost use Rattle.pfair_order.specs.Order.{pd2_cmp, first_by_rank, EachOnce};
ghost use Rattle.pfair_ready.specs.Queue.{Queue, released, without};

mod calendar;
mod heap;
mod plain;
mod waiting;

pub use heap::HeapReady;
use pfair_order::Key;
use pfair_weight::TaskName;
pub use plain::PlainReady;
use std::alloc::{AllocError, Global};

/// Hints where a task stands: in the ready structure, and in the caller's list of members. No answer
/// rests on them.
#[derive(Clone, Copy, Debug, Default)]
pub struct Seats {
    pub ready: usize,
    pub member: usize,
}

/// A selected key, with the seats of its task.
#[derive(Clone, Copy, Debug)]
pub struct Seated {
    pub key: Key,
    pub seats: Seats,
}

/// A slot, and for each of some names a release and a key. [`HeapReady`] and [`PlainReady`] say what
/// calls cost.
///
/// The slot is that of the last selection, also if an allocation failed in it, and never falls.
pub trait Ready: Drop {
    /// The slot of the last selection, and 0 before the first.
    ghost now: { Self → ℕ };

    /// The release and the key under each name.
    ghost held: { Self → Queue };

    /// Creates a structure that holds nothing, at slot 0. It allocates nothing; later calls allocate
    /// from `alloc`.
    fn new(alloc: Global) -> Self
        ensures start { now result ≡ 0 }
        ensures empty { held result ≡ finmap.empty };

    /// Returns the slot of the last selection, and 0 before the first.
    fn now(&self) -> u64
        ensures { result ≡ now self.now };

    /// Returns the release and the key under a name.
    fn held(&self, name: &TaskName) -> Option<(u64, Key)>
        ensures { result ≡ finmap.get (held self.now) name.now };

    /// Holds a key under its name from the slot `release` on, whichever slot that is. Returns `false`,
    /// with nothing changed or allocated, if something is held under the name.
    ///
    /// # Errors
    /// `AllocError` if an allocation fails; nothing has changed.
    fn insert(&mut self, release: u64, key: Key) -> Result<bool, AllocError>
        ensures time { now self.new ≡ now self.old }
        ensures answer { IfOk result (λ new.
            new ≡ not (finmap.contains_key (held self.old) key.name)) }
        ensures there { IsTrue (finmap.contains_key (held self.old) key.name) → result ≡ Ok false }
        ensures content { IfOk result (λ new. held self.new ≡
            (if new then finmap.insert (held self.old) key.name (release, key) else held self.old)) }
        ensures err { OnErr result (held self.new ≡ held self.old) };

    /// Removes the key under a name and returns whether there was one.
    fn remove(&mut self, name: &TaskName) -> bool
        ensures time { now self.new ≡ now self.old }
        ensures answer { result ≡ finmap.contains_key (held self.old) name.now }
        ensures content { held self.new ≡ finmap.remove (held self.old) name.now };

    /// Removes and returns the first m in the PD2 order of the keys that are released by `slot`, or all
    /// of them if they are fewer.
    ///
    /// # Errors
    /// `AllocError` if an allocation fails; nothing but `now` has changed.
    fn take_first(&mut self, slot: u64, m: usize) -> Result<Vec<Key>, AllocError>
        requires { now self.old ≤ slot }
        ensures time { now self.new ≡ slot }
        ensures first { IfOk result (λ first.
            first.items ≡ first_by_rank pd2_cmp m (released slot (held self.old))) }
        ensures removed { IfOk result (λ first.
            held self.new ≡ without first.items (held self.old)) }
        ensures err { OnErr result (held self.new ≡ held self.old) };

    /// Does what [`Ready::insert`] does, and notes where the task stands in the caller's list. The name
    /// is looked up unless `seats.ready` is what the last selection of this task gave.
    ///
    /// # Errors
    /// As of [`Ready::insert`].
    fn insert_seated(&mut self, _seats: Seats, release: u64, key: Key) -> Result<bool, AllocError>
        ensures time { now self.new ≡ now self.old }
        ensures answer { IfOk result (λ new.
            new ≡ not (finmap.contains_key (held self.old) key.name)) }
        ensures there { IsTrue (finmap.contains_key (held self.old) key.name) → result ≡ Ok false }
        ensures content { IfOk result (λ new. held self.new ≡
            (if new then finmap.insert (held self.old) key.name (release, key) else held self.old)) }
        ensures err { OnErr result (held self.new ≡ held self.old) }
    {
        self.insert(release, key)
    }

    /// Does what [`Ready::take_first`] does, and returns each key with its seats. The list is
    /// cleared first, and grows only if its capacity is too small.
    ///
    /// # Errors
    /// `AllocError` if an allocation fails. Nothing but `now` has changed if no two released keys are the
    /// same. The list is gone.
    fn take_seated(
        &mut self,
        slot: u64,
        m: usize,
        room: Vec<Seated>,
    ) -> Result<Vec<Seated>, AllocError>
        requires { now self.old ≤ slot }
        ensures time { now self.new ≡ slot }
        ensures first { IfOk result (λ first.
            map (λ s. s.key) first.items ≡ first_by_rank pd2_cmp m (released slot (held self.old))) }
        ensures removed { IfOk result (λ first.
            held self.new ≡ without (map (λ s. s.key) first.items) (held self.old)) }
        ensures err { EachOnce pd2_cmp (released slot (held self.old)) →
            OnErr result (held self.new ≡ held self.old) }
    {
        // the slot moves before anything can fail, and there is room before a key is taken
        self.take_first(slot, 0)?;
        let mut first = room;
        first.clear();
        first.reserve(m)?;
        let keys = self.take_first(slot, m)?;
        for key in &keys {
            let seats = Seats::default();
            first.push(Seated { key: *key, seats })?;
        }
        Ok(first)
    }

    /// Allocates room for that many keys: as far as the structure can, no call then allocates as long
    /// as no more keys wait at once.
    ///
    /// # Errors
    /// `AllocError` if an allocation fails.
    fn reserve(&mut self, _keys: usize) -> Result<(), AllocError>
        ensures time { now self.new ≡ now self.old }
        ensures content { held self.new ≡ held self.old }
    {
        Ok(())
    }
}
