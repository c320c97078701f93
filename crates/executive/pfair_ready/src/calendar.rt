//! When the keys that wait are released.
ghost use Rattle.std.specs.Prelude.{◌≡◌, ◌≤◌, ◌<◌, ◌%◌, ◌+◌, IfSome, OnOk, OnSome, length};
ghost use Rattle.pfair_ready.specs.declared.calendar.Date.{Date};
ghost use Rattle.pfair_ready.specs.Waiting.{IsNoted, Keeps, Moves, later_cmp, under};
ghost use Rattle.std.specs.BinaryHeap.{heap_items, IsHeap};

use crate::heap::{Turn, add_turn};
use pfair_order::Key;
use std::alloc::{AllocError, Global};
use std::cmp::Reverse;
use std::collections::BinaryHeap;

// How many slots are near.
const NEAR: u64 = 64;

// The most dates in the list of a near slot, which never grows.
const NEAR_MOST: usize = 320;

/// Dates: those of the next 64 slots in a list for each slot, and the others in a heap.
#[derive(Drop)]
pub(crate) struct Calendar {
    // the slot after which the near ones come
    pub turned: u64,
    // that of a slot at its remainder by 64; no lists before the first date
    pub near: Vec<Vec<Date>>,
    // the earliest on top
    pub far: BinaryHeap<Reverse<Date>>,
}

impl Calendar {
    /// No dates, from slot 0 on. Allocates nothing.
    pub(crate) fn new(alloc: Global) -> Calendar
        ensures turned { result.turned ≡ 0 }
        ensures none { (d : Date) → IsNoted result d → ⊥ }
        ensures order { IsHeap later_cmp (heap_items result.far) }
    {
        Calendar {
            turned: 0,
            near: Vec::new(alloc),
            far: BinaryHeap::new(alloc),
        }
    }

    pub(crate) fn note(&mut self, alloc: Global, date: Date) -> Result<(), AllocError>
        ensures keeps { Keeps self.old self.new }
        ensures there { OnOk result (IsNoted self.new date) }
    {
        self.make_near(alloc)?;
        match self.bucket_of(date.release) {
            Some(bucket) => self.near[bucket].push(date)?,
            None => self.far.push(Reverse(date))?,
        }
        Ok(())
    }

    // Makes the lists of near slots if there are none.
    fn make_near(&mut self, alloc: Global) -> Result<(), AllocError>
        ensures keeps { Keeps self.old self.new }
        ensures far { self.new.far ≡ self.old.far }
    {
        if self.near.is_empty() {
            let mut near = Vec::with_capacity(alloc, NEAR as usize)?;
            for _ in 0..NEAR {
                near.push(Vec::with_capacity(alloc, NEAR_MOST)?)?;
            }
            self.near = near;
        }
        Ok(())
    }

    // The list of a slot if that is near and the list not full.
    fn bucket_of(&self, slot: u64) -> Option<usize>
        ensures near { IfSome result (λ bucket.
            (bucket ≡ slot % 64) × (bucket < length self.now.near.items) × (self.now.turned < slot) × (slot ≤ self.now.turned + 64)) }
        ensures room { OnSome result (length (under self.now.near.items slot) < 320) }
    {
        let bucket = (slot % NEAR) as usize;
        let is_near = self.turned < slot && slot - self.turned <= NEAR;
        (is_near && self.near.get(bucket)?.len() < NEAR_MOST).then_some(bucket)
    }

    /// Reserves memory for that many dates, of any slots.
    pub(crate) fn reserve(&mut self, alloc: Global, dates: usize) -> Result<(), AllocError>
        ensures { Keeps self.old self.new }
    {
        self.make_near(alloc)?;
        self.far.reserve(dates.saturating_sub(self.far.len()))
    }

    /// Moves the keys whose release has come by the slot to the heap. If an allocation fails some have
    /// moved, and none is lost.
    pub(crate) fn release(
        &mut self,
        released: &mut BinaryHeap<Turn>,
        slot: u64,
    ) -> Result<(), AllocError>
        requires turned { self.old.turned ≤ slot }
        requires order { IsHeap later_cmp (heap_items self.old.far) }
        ensures moves { Moves slot (IsNoted self.old) (IsNoted self.new) (heap_items released.old) (heap_items released.new) }
        ensures turned { self.new.turned ≤ slot }
        ensures order { IsHeap later_cmp (heap_items self.new.far) }
        ensures done { OnOk result ((d : Date) → IsNoted self.new d → slot < d.release) }
    {
        let from = self.turned;
        for ahead in 0..(slot - from).min(NEAR) {
            let bucket = ((from + 1 + ahead) % NEAR) as usize;
            if bucket < self.near.len() {
                for date in self.near[bucket].iter() {
                    add_turn(released, &date.key, date.hint)?;
                }
                self.near[bucket].clear();
            }
        }
        self.turned = slot;
        while let Some(Reverse(date)) = self.far.peek()
            && date.release <= slot
        {
            add_turn(released, &date.key, date.hint)?;
            let _ = self.far.pop();
        }
        Ok(())
    }
}

/// A key is released at a slot. The hint says where its name stands.
#[derive(Clone, Copy, Debug, PartialEq, Eq, PartialOrd, Ord)]
pub(crate) struct Date {
    pub release: u64,
    pub hint: usize,
    pub key: Key,
}
