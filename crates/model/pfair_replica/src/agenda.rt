//! What is said, kept by slot.
ghost use Rattle.std.specs.Prelude.{◌≡◌, ◌≢◌, ◌<◌, ◌++◌, ℕ, [], OnOk, OnErr};
ghost use Rattle.pfair_replica.specs.BySlot.{listed_at, one_at};

use pfair_entry::Said;
use std::alloc::{AllocError, Global};
use std::collections::BTreeMap;

/// The announcements of each slot, as [`crate::Replica::note_said`] adds them.
///
/// A slot is looked up in O(log n) steps for n slots that have announcements, and in O(1) if no
/// later slot has any. The agenda does not change when the replica takes in more.
#[derive(Drop)]
pub struct Agenda {
    pub(crate) lists: BTreeMap<u64, Vec<Said>>,
    // the last slot that has announcements, or 0
    pub(crate) last: u64,
    alloc: Global,
    ghost silent: { (t : ℕ) → last < t → listed_at lists t ≡ [] },
    ghost reached: { 0 < last → listed_at lists last ≢ [] },
}

impl Agenda {
    /// Creates an agenda without announcements. Allocates nothing.
    pub fn new(alloc: Global) -> Agenda
        ensures { (t : ℕ) → listed_at result.lists t ≡ [] }
    {
        Agenda {
            lists: BTreeMap::new(alloc),
            last: 0,
            alloc,
        }
    }

    /// Returns the announcements of a slot, in the order in which they were added. One look-up of the
    /// slot, and O(1) if no later slot has announcements.
    pub fn at(&self, slot: u64) -> &[Said]
        ensures { result.now ≡ listed_at self.now.lists slot }
    {
        if slot > self.last {
            return &[];
        }
        match self.lists.get(&slot) {
            Some(list) => list,
            None => &[],
        }
    }

    /// Returns the last slot that has announcements, or 0 if there is none. O(1).
    pub fn last(&self) -> u64
        ensures silent { (t : ℕ) → result < t → listed_at self.now.lists t ≡ [] }
        ensures reached { 0 < result → listed_at self.now.lists result ≢ [] }
    {
        self.last
    }

    /// Adds an announcement behind those of a slot. One or two look-ups of the slot, and O(1)
    /// amortized.
    ///
    /// # Errors
    /// Returns [`AllocError`] if an allocation fails; nothing has then changed.
    pub fn push(&mut self, slot: u64, said: Said) -> Result<(), AllocError>
        ensures ok { OnOk result ((t : ℕ) → listed_at self.new.lists t ≡ listed_at self.old.lists t ++ one_at slot said t) }
        ensures err { OnErr result ((t : ℕ) → listed_at self.new.lists t ≡ listed_at self.old.lists t) }
    {
        // not by `push`, for which rattle's borrow checker builds no proof here
        match self.lists.get_mut(&slot) {
            Some(list) => list.extend_from_slice(&[said])?,
            None => {
                let mut list = Vec::with_capacity(self.alloc, 1)?;
                list.extend_from_slice(&[said])?;
                self.lists.insert(slot, list)?;
            }
        }
        self.last = self.last.max(slot);
        Ok(())
    }
}
