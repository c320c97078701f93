//! One dispatcher's copy of the logs of all processors.
//!
//! A replica is a finite map from keys, a processor and a number, to one entry, or to the mark that
//! two different entries met there (torn). It only grows, and replicas merge by joins, as replicated
//! data types do (Shapiro, Preguiça, Baquero and Zawirski, 2011). How far each processor has committed
//! itself is read off its sound beginning: the longest run of its entries 1, 2, 3 and so on, none of
//! them torn, whose floors never fall.
ghost use Rattle.std.specs.Prelude.{◌≡◌, ◌≢◌, ◌≤◌, ◌↔◌, ◌⊎◌, ◌++◌, ℕ, [], length, slice_get, is_some, IsSome, IsTrue, IfOk, IfErr, OnOk, OnErr, Ok, Err, Some};
ghost use Rattle.pfair_lattice.specs.declared.join_map.Flat.TheVariants.{One};
ghost use Rattle.pfair_entry.specs.Entry.{Logged, IsEntry};
ghost use Rattle.pfair_replica.specs.Replica.{IsReplica, join, with_entry, empty_replica, Below, sound_beginning, mark, frontier, sound_total, missing, IsLeastMissing, said_by, said_behind, said, has_torn, torn_in, torn_keys, fallen_in, fallen_keys, taken, absorbed, held, replica_of, IsReplicaRows, IsShape, SameShape};
ghost use Rattle.pfair_replica.specs.Counters.{IsPartOf, said_at};
ghost use Rattle.pfair_replica.specs.Faults.{IsKeyOf, IsTakenAs, IsTakeFaultOf, IsMergeFaultOf, IsPartlyMerged};

use crate::agenda::Agenda;
use crate::answer::{MergeFault, TakeFault, Taken};
use crate::rows::{Counters, EntryKey, Faults, Rows, held_at, row_le};
use pfair_entry::{Entry, Said};
use pfair_lattice::{Flat, Join, JoinMap};
use std::alloc::{AllocError, Global};
use std::marker::Model;

/// One dispatcher's copy of the logs of all processors: 1 to 64 processors, counted from 0, and 1 to
/// 4,096 entries in each log, counted from 1.
///
/// Costs are in look-ups of a key, each O(log e) for e entries held.
#[derive(Drop)]
pub struct Replica {
    processors: u8,
    capacity: u32,
    rows: Rows,
    /// How far the sound beginnings in the rows go, and what is torn in them first.
    counters: Counters,
    alloc: Global,
}

impl Model for Replica {
    ghost use Rattle.pfair_replica.specs.Replica.{ReplicaRows};
    ghost use Rattle.pfair_replica.specs.Counters.{IsKept};

    ghost Value = { ReplicaRows };

    ghost view = { λ x. record { processors = x.processors; capacity = x.capacity; rows = x.rows } };

    ghost invariant = { λ x. IsKept (record { processors = x.processors; capacity = x.capacity; rows = x.rows }) x.counters.beginnings.items x.counters.torn };
}

impl Replica {
    /// Creates a replica without entries, for the logs of `processors` processors with room for
    /// `capacity` entries each. O(M) for M processors.
    ///
    /// # Errors
    /// Returns [`AllocError`] if an allocation fails.
    pub fn new(alloc: Global, processors: u8, capacity: u32) -> Result<Replica, AllocError>
        requires { IsShape processors capacity }
        ensures { IfOk result (λ x. replica_of x ≡ empty_replica processors capacity) }
    {
        let mut rows = Rows::new(alloc);
        for processor in 0..processors {
            rows.put(processor, &JoinMap::new(alloc))?;
        }
        Ok(Replica {
            processors,
            capacity,
            rows,
            counters: Counters::new(alloc, processors)?,
            alloc,
        })
    }

    /// Returns the number of processors.
    pub fn processors(&self) -> u8
        ensures value { result ≡ self.now.processors }
        ensures rows { IsReplicaRows self.now }
    {
        self.processors
    }

    /// Returns how many entries a log can have; no number is greater.
    pub fn capacity(&self) -> u32
        ensures value { result ≡ self.now.capacity }
        ensures rows { IsReplicaRows self.now }
    {
        self.capacity
    }

    /// Returns the content of a key: one entry, `Torn`, or `None`, also for a key past the replica's
    /// shape. One look-up.
    pub fn get(&self, proc: u8, number: u32) -> Option<Flat<Entry>>
        ensures value { result ≡ held self.now proc number }
        ensures entry { (e : Logged) → result ≡ Some (One e) → IsEntry e }
    {
        held_at(&self.rows, proc, number)
    }

    /// Adds one entry and returns what it met at its key. The replica is then the join with it.
    ///
    /// A few look-ups, one more for each entry by which the processor's sound beginning grows, and O(M)
    /// for M processors.
    ///
    /// # Errors
    /// The first of these that applies, and then nothing has changed: `NoSuchProcessor`,
    /// `NumberOutOfRange`, and `Memory`, which happens only if nothing was held at the key.
    pub fn take(&mut self, proc: u8, number: u32, entry: Entry) -> Result<Taken, TakeFault>
        ensures taken { OnOk result (replica_of self.new ≡ with_entry (replica_of self.old) proc number entry) }
        ensures answer { IfOk result (IsTakenAs (held self.old proc number) entry) }
        ensures key { OnOk result (IsKeyOf self.old proc number) }
        ensures fault { IfErr result (IsTakeFaultOf self.old proc number) }
        ensures unchanged { OnErr result (self.new ≡ self.old) }
        ensures offered { (result ≡ Err TakeFault.Memory → ⊥) → replica_of self.new ≡ taken (replica_of self.old) proc number entry }
        ensures grows { Below (replica_of self.old) (replica_of self.new) }
        ensures shape { SameShape self.old self.new }
    {
        if proc >= self.processors {
            return Err(TakeFault::NoSuchProcessor);
        }
        if number == 0 || number > self.capacity {
            return Err(TakeFault::NumberOutOfRange);
        }
        // an entry is stamped at or after its floor
        prove!(entry.floor() <= Entry::LAST_SLOT);
        let taken = match self.get(proc, number) {
            None => Taken::New,
            Some(held) if held == Flat::One(entry) => Taken::Known,
            Some(_) => Taken::Torn,
        };
        let Some(row) = self.rows.get_mut(&proc) else {
            unreachable!();
        };
        row.put(number, &Flat::One(entry))?;
        self.counters
            .follow_entry(&self.rows, self.capacity, proc, number);
        Ok(taken)
    }

    /// Merges another replica in: each key then has what either had, the common entry, or `Torn`.
    ///
    /// Two look-ups for each entry of the other. For each log in which the other has an entry, a
    /// look-up for each entry of the sound beginning, and for each number up to the first torn one, or
    /// up to the capacity if none is torn; and O(M) for M processors.
    ///
    /// # Errors
    /// `OtherShape` if the other has another number of processors or another capacity; nothing has
    /// then changed. `Memory` if an allocation fails, which happens only if the other has a key that
    /// this replica hasn't: a part of the other is then merged in, and merging it again gives what one
    /// merge would have given.
    pub fn merge(&mut self, other: &Replica) -> Result<(), MergeFault>
        ensures merged { OnOk result (replica_of self.new ≡ join (replica_of self.old) (replica_of other.now)) }
        ensures same_shape { OnOk result (SameShape self.old other.now) }
        ensures fault { IfErr result (IsMergeFaultOf self.old other.now) }
        ensures unchanged { result ≡ Err MergeFault.OtherShape → self.new ≡ self.old }
        ensures partly { OnErr result (IsPartlyMerged (replica_of self.old) (replica_of other.now) (replica_of self.new)) }
        ensures offered { (result ≡ Err MergeFault.Memory → ⊥) → replica_of self.new ≡ absorbed (replica_of self.old) (replica_of other.now) }
        ensures grows { Below (replica_of self.old) (replica_of self.new) }
        ensures shape { SameShape self.old self.new }
    {
        if self.processors != other.processors || self.capacity != other.capacity {
            return Err(MergeFault::OtherShape);
        }
        let joined = self.rows.join(&other.rows);
        // a failed allocation leaves a part of the other joined in
        self.counters
            .follow_join(&self.rows, &other.rows, self.processors, self.capacity);
        joined?;
        Ok(())
    }

    /// Returns a copy. Two look-ups for each entry.
    ///
    /// # Errors
    /// Returns [`AllocError`] if an allocation fails.
    pub fn copy(&self) -> Result<Replica, AllocError>
        ensures { IfOk result (λ copy. copy ≡ self.now) }
    {
        Ok(Replica {
            processors: self.processors,
            capacity: self.capacity,
            rows: self.rows.copy()?,
            counters: Counters {
                beginnings: self.counters.beginnings.clone()?,
                torn: self.counters.torn,
                frontier: self.counters.frontier,
                sound_total: self.counters.sound_total,
            },
            alloc: self.alloc,
        })
    }

    /// Returns the slot up to which a processor has committed itself: the last floor of its sound
    /// beginning, or 0 if that is empty. O(1).
    pub fn mark(&self, proc: u8) -> u64
        ensures { result ≡ mark (replica_of self.now) proc }
    {
        self.sound_beginning(proc).1
    }

    /// Returns the number of entries of a processor's sound beginning, which are its entries 1, 2, 3
    /// and so on. O(1).
    pub fn sound_count(&self, proc: u8) -> u32
        ensures value { result ≡ length (sound_beginning (replica_of self.now) proc) }
        ensures within { result ≤ self.now.capacity }
    {
        self.sound_beginning(proc).0
    }

    /// Returns the number of entries of all sound beginnings. O(1).
    pub fn sound_total(&self) -> u64
        ensures { result ≡ sound_total (replica_of self.now) }
    {
        self.counters.sound_total
    }

    /// Returns the least mark of all processors: below this slot every announcement is known. O(1).
    pub fn frontier(&self) -> u64
        ensures value { result ≡ frontier (replica_of self.now) }
        ensures replica { IsReplica (replica_of self.now) }
    {
        self.counters.frontier
    }

    /// Returns whether each key of this replica is in the other, with the same content or torn. A
    /// look-up for each entry, up to the first that the other lacks.
    pub fn le(&self, other: &Replica) -> bool
        ensures { IsTrue result ↔ Below (replica_of self.now) (replica_of other.now) }
    {
        for processor in 0..self.processors {
            if !row_le(&self.rows, &other.rows, processor) {
                return false;
            }
        }
        true
    }

    /// Returns the least number of a processor's log that isn't held, or `None` if all are; torn ones
    /// are held. A look-up for each number up to that one.
    pub fn missing(&self, proc: u8) -> Option<u32>
        ensures value { result ≡ missing (replica_of self.now) proc }
        ensures least { IsLeastMissing (replica_of self.now) proc result }
    {
        for before in 0..self.capacity {
            if self.get(proc, before + 1).is_none() {
                return Some(before + 1);
            }
        }
        None
    }

    /// Returns the least torn key, by processors and then by numbers, or `None` if nothing is torn.
    /// O(1).
    pub fn first_torn(&self) -> Option<EntryKey>
        ensures key { result ≡ slice_get (torn_keys (replica_of self.now)) 0 }
        ensures some { is_some result ≡ has_torn (replica_of self.now) }
        ensures replica { IsReplica (replica_of self.now) }
    {
        self.counters.torn
    }

    /// Adds to an agenda the announcements of a processor's sound beginning after its first `from`
    /// entries, in order of numbers. A look-up for each of those entries, and the cost of
    /// [`Agenda::push`] for each announcement.
    ///
    /// # Errors
    /// Returns [`AllocError`] if an allocation fails, which happens only if there is such an
    /// announcement. Some of the first ones are then added.
    pub fn note_said(&self, proc: u8, from: u32, agenda: &mut Agenda) -> Result<(), AllocError>
        ensures noted { OnOk result ((t : ℕ) → said_at agenda.new t ≡ said_at agenda.old t ++ said_behind (replica_of self.now) t proc from) }
        ensures wanted { OnErr result ((t : ℕ) × (said_behind (replica_of self.now) t proc from ≢ [])) }
        ensures part { OnErr result ((t : ℕ) → IsPartOf (said_at agenda.old t) (said_at agenda.new t) (said_behind (replica_of self.now) t proc from)) }
    {
        for place in from..self.sound_count(proc) {
            let number = place + 1;
            let Some(Flat::One(entry)) = self.get(proc, number) else {
                unreachable!();
            };
            if let Some((stamp, announcement)) = entry.said() {
                let said = Said {
                    proc,
                    number,
                    announcement,
                };
                agenda.push(stamp, said)?;
            }
        }
        Ok(())
    }

    /// Returns what is wrong with the logs: every torn key, and every entry that ends a sound
    /// beginning because its floor fell. A look-up for each number of each log.
    ///
    /// # Errors
    /// Returns [`AllocError`] if an allocation fails, which happens only if something is wrong.
    pub fn faults(&self) -> Result<Faults, AllocError>
        ensures torn { IfOk result (λ faults. faults.torn.items ≡ torn_keys (replica_of self.now)) }
        ensures fallen { IfOk result (λ faults. faults.fallen.items ≡ fallen_keys (replica_of self.now)) }
        ensures wanted { OnErr result ((torn_keys (replica_of self.now) ≢ []) ⊎ (fallen_keys (replica_of self.now) ≢ [])) }
    {
        let mut torn = Vec::new(self.alloc);
        let mut fallen = Vec::new(self.alloc);
        for processor in 0..self.processors {
            for before in 0..self.capacity {
                let number = before + 1;
                if let Some(Flat::Torn) = self.get(processor, number) {
                    torn.push((processor, number))?;
                }
            }
            let (count, mark) = self.sound_beginning(processor);
            let number = count + 1;
            match self.get(processor, number) {
                Some(Flat::One(entry)) if entry.floor() < mark => fallen.push((processor, number))?,
                _ => {}
            }
        }
        Ok(Faults { torn, fallen })
    }

    // How many entries the sound beginning of a processor has, and its last floor.
    fn sound_beginning(&self, processor: u8) -> (u32, u64)
        ensures count { result.0 ≡ length (sound_beginning (replica_of self.now) processor) }
        ensures within { result.0 ≤ self.now.capacity }
        ensures shape { IsShape self.now.processors self.now.capacity }
        ensures mark { result.1 ≡ mark (replica_of self.now) processor }
    {
        match self.counters.beginnings.get(processor as usize) {
            Some(beginning) => (beginning.count, beginning.mark),
            None => (0, 0),
        }
    }
}
