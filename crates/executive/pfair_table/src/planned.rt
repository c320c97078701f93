//! What is planned so far.
ghost use Rattle.std.specs.Prelude.{◌≡◌, ◌<◌, ◌≤◌, ◌-◌, [], IfOk, OnOk, OnErr, None, drop, length, map, max, min, slice_get};
ghost use Rattle.std.specs.Option.{option_map};
ghost use Rattle.std.specs.List.{AllByRecursion};
ghost use Rattle.pfair_table.specs.Places.{places_in, table_before, places_before, IsFit};
ghost use Rattle.pfair_table.specs.Planned.{last_or, as_tables, as_places, with_next, IsNext};

use crate::places::places_beside;
use crate::settings::Settings;
use crate::slot::{Decided, Pick, SlotPlan};
use crate::state::Origin;
use pfair_replica::Replica;
use std::alloc::{AllocError, Global};
use std::collections::VecDeque;
use std::marker::Model;
use std::snapshot::Snapshot;

/// What a run planned: the tables of its slots and their places, from slot 0 on, or from the first
/// that isn't forgotten.
#[derive(Debug, Drop)]
pub struct Run {
    /// The table of each slot: its quanta in the PD2 order.
    pub tables: Vec<Vec<Pick>>,
    /// The places of each slot: for each row of its table the processor that runs it.
    pub places: Vec<Vec<u8>>,
}

impl Run {
    /// Puts a run together from the tables of its slots, of at most 64 rows with a task of its own
    /// each, and works out their places. O(rows).
    ///
    /// # Errors
    /// Returns [`AllocError`] if an allocation fails.
    pub fn of_tables(alloc: Global, tables: Vec<Vec<Pick>>) -> Result<Run, AllocError>
        requires { AllByRecursion (IsFit Settings.MAX_PROCESSORS) (as_tables tables) }
        ensures tables { IfOk result (λ run. run.tables ≡ tables) }
        ensures places { IfOk result (λ run. as_places run.places ≡ places_in None (as_tables tables)) }
    {
        let mut places = Vec::with_capacity(alloc, tables.len())?;
        let mut kept = Vec::new(alloc);
        for slot in 0..tables.len() {
            let before = last_of(&tables[..slot]);
            let there = last_of(&places);
            let next = places_beside(before, there, &tables[slot], &mut kept, Vec::new(alloc))?;
            places.push(next)?;
        }
        Ok(Run { tables, places })
    }
}

fn last_of<T>(lists: &[Vec<T>]) -> &[T]
    ensures { result.now ≡ last_or [] (map (λ list. list.items) lists.now) }
{
    match lists.last() {
        Some(list) => list,
        None => &[],
    }
}

#[derive(Drop)]
pub(crate) struct PlannedSlot {
    pub plan: SlotPlan,
    pub places: Vec<u8>,
}

/// The table of each slot that is planned, from slot 0 on, with its places, and the decisions at
/// its boundary. Those of the slots below one may be forgotten.
#[derive(Drop)]
pub(crate) struct Planned {
    origin: Origin,
    // for clauses alone: the settings, and the replica from which the last slot was planned
    settings: Snapshot<Settings>,
    of: Snapshot<Replica>,
    // the slots from `first` on: those that aren't forgotten, and in any case the last one
    first: usize,
    slots: VecDeque<PlannedSlot>,
    forgotten: usize,
    // emptied slots for reuse, and the allocator for more
    rooms: Vec<PlannedSlot>,
    alloc: Global,
}

impl Model for Planned {
    ghost use Rattle.std.specs.Prelude.{◌+◌, length};
    ghost use Rattle.pfair_table.specs.Planned.{PlannedSlots, AreKept, tables_to, decided_to};

    ghost Value = { PlannedSlots };

    ghost view = { λ p. record {
      settings = p.settings.value;
      origin = p.origin;
      tables = tables_to p.origin p.settings.value p.of.value (p.first + length p.slots.items);
      decided = decided_to p.origin p.settings.value p.of.value (p.first + length p.slots.items);
      forgotten = p.forgotten;
    } };

    ghost invariant = { λ p. AreKept p.origin p.settings.value p.of.value p.first p.forgotten p.slots.items };
}

impl Planned {
    /// Nothing is planned of a run that begins there.
    pub(crate) fn new(
        alloc: Global,
        settings: Settings,
        origin: Origin,
        replica: &Replica,
    ) -> Planned
        ensures { result ≡ record { settings = settings; origin = origin; tables = []; decided = []; forgotten = 0 } }
    {
        Planned {
            origin,
            settings: Snapshot::of(&settings),
            of: Snapshot::of(replica),
            first: 0,
            slots: VecDeque::new(alloc),
            forgotten: 0,
            rooms: Vec::new(alloc),
            alloc,
        }
    }

    pub(crate) fn origin(&self) -> &Origin
        ensures { result.now ≡ self.now.origin }
    {
        &self.origin
    }

    pub(crate) fn len(&self) -> usize
        ensures tables { result ≡ length self.now.tables }
        ensures decided { result ≡ length self.now.decided }
    {
        self.first + self.slots.len()
    }

    pub(crate) fn forgotten(&self) -> usize
        ensures value { result ≡ self.now.forgotten }
        ensures planned { self.now.forgotten ≤ length self.now.tables }
    {
        self.forgotten
    }

    pub(crate) fn forget(&mut self, below: usize)
        ensures { self.new ≡ record self.old { forgotten = max self.old.forgotten (min below (length self.old.tables)) } }
    {
        self.forgotten = self.forgotten.max(below.min(self.first + self.slots.len()));
        let count = (self.forgotten - self.first).min(self.slots.len().saturating_sub(1));
        give_back(&mut self.slots, &mut self.rooms, count);
        self.first += count;
    }

    pub(crate) fn at(&self, slot: usize) -> Option<&PlannedSlot>
        ensures table { self.now.forgotten ≤ slot → option_map (λ p. p.now.plan.table.items) result ≡ slice_get self.now.tables slot }
        ensures places { self.now.forgotten ≤ slot → option_map (λ p. p.now.places.items) result ≡ slice_get (places_in self.now.origin self.now.tables) slot }
        ensures decided { self.now.forgotten ≤ slot → option_map (λ p. p.now.plan.decided.items) result ≡ slice_get self.now.decided slot }
        ensures forgotten { slot < self.now.forgotten → result ≡ None }
    {
        if slot < self.forgotten {
            return None;
        }
        self.slots.get(slot - self.first)
    }

    pub(crate) fn last(&self) -> (&[Pick], &[u8])
        ensures table { result.0.now ≡ last_or (table_before self.now.origin) self.now.tables }
        ensures places { result.1.now ≡ last_or (places_before self.now.origin) (places_in self.now.origin self.now.tables) }
    {
        match self.slots.back() {
            Some(planned) => (&planned.plan.table, &planned.places),
            None => match &self.origin {
                Some(state) => (&state.table, &state.places),
                None => (&[], &[]),
            },
        }
    }

    pub(crate) fn reserve(&mut self, slots: usize, rows: usize) -> Result<(), AllocError>
        ensures { self.new ≡ self.old }
    {
        self.slots.reserve(slots)?;
        add_rooms(self.alloc, &mut self.rooms, slots, rows)
    }

    /// Returns empty lists for the next slot: those of a forgotten slot, or reserved ones.
    pub(crate) fn take_room(&mut self) -> PlannedSlot
        ensures { self.new ≡ self.old }
    {
        match self.rooms.pop() {
            Some(room) => room,
            None => PlannedSlot {
                plan: SlotPlan {
                    table: Vec::new(self.alloc),
                    decided: Vec::new(self.alloc),
                },
                places: Vec::new(self.alloc),
            },
        }
    }

    pub(crate) fn push(&mut self, replica: &Replica, next: PlannedSlot) -> Result<(), AllocError>
        requires few { length self.old.tables < Settings.MAX_SLOTS }
        requires next { IsNext self.old replica.now next }
        ensures ok { OnOk result (self.new ≡ with_next self.old replica.now) }
        ensures err { OnErr result (self.new ≡ self.old) }
    {
        self.rooms.reserve(1)?;
        self.slots.push_back(next)?;
        self.of = Snapshot::of(replica);
        Ok(())
    }
}

// Removes that many slots from the front. Their lists are kept for reuse as far as there is room.
fn give_back(slots: &mut VecDeque<PlannedSlot>, rooms: &mut Vec<PlannedSlot>, count: usize)
    ensures { slots.new.items ≡ drop count slots.old.items }
{
    for _ in 0..count {
        if let Some(room) = slots.pop_front() {
            if rooms.len() < rooms.capacity() {
                rooms.push_reserved(room);
            }
        }
    }
}

// Makes so many of the rooms, with so many rows each.
fn add_rooms(
    alloc: Global,
    rooms: &mut Vec<PlannedSlot>,
    slots: usize,
    rows: usize,
) -> Result<(), AllocError> {
    for _ in rooms.len()..slots {
        let plan = SlotPlan {
            table: Vec::with_capacity(alloc, rows)?,
            decided: Vec::new(alloc),
        };
        let places = Vec::with_capacity(alloc, rows)?;
        rooms.push(PlannedSlot { plan, places })?;
    }
    Ok(())
}
