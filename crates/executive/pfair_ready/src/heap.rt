//! A ready structure of one heap and one calendar. The heap has turns, the first in the PD2 order first.
ghost use Rattle.std.specs.Prelude.{◌≡◌, ◌≤◌, IfOk, OnErr, OnOk, map};
ghost use Rattle.std.specs.BinaryHeap.{heap_items};
ghost use Rattle.pfair_order.specs.declared.Key.{Key};
ghost use Rattle.pfair_order.specs.Order.{pd2_cmp, first_by_rank};
ghost use Rattle.pfair_ready.specs.declared.Seated.{Seated};
ghost use Rattle.pfair_ready.specs.Queue.{Content, content_code, released, without};
ghost use Rattle.pfair_ready.specs.Waiting.{HasTurn, IsCovered, KeepsTurns};

use crate::calendar::{Calendar, Date};
use crate::waiting::Waiting;
use crate::{Ready, Seated, Seats};
use pfair_order::Key;
use pfair_weight::TaskName;
use std::alloc::{AllocError, Global};
use std::cmp::Reverse;
use std::collections::BinaryHeap;
use std::marker::Model;

/// A ready structure of one heap of released keys, and a calendar of the releases to come.
///
/// A key that is removed leaves its date or its turn behind, which is dropped when it surfaces. For n
/// keys that wait or were left behind:
///
/// - `new`, `now`: O(1). `held`, `remove`: a look-up of the name, O(1) on average.
/// - `insert`, `insert_seated`: O(1) on average if the release is within 64 slots and fewer than 320
///   keys are released at that slot, else O(log n). The name is looked up, unless the seats say where
///   it stands.
/// - `take_first`, `take_seated`: O(log n) for each key that it gives, for each whose release has come
///   since the last selection, and for each that was left behind and surfaces; and up to 64 steps.
///
/// Growth is amortized. After `reserve(k)`, which takes 1,150 KB and some 380 bytes for each key, no call
/// allocates as long as no more than k keys wait and no more than k were left behind.
#[derive(Drop)]
pub struct HeapReady {
    alloc: Global,
    now: u64,
    waiting: Waiting,
    calendar: Calendar,
    released: BinaryHeap<Turn>,
}

impl Model for HeapReady {
    ghost Value = { Content };

    ghost coded = { content_code };

    ghost view = { λ a. record { now = a.now; held = a.waiting } };

    ghost invariant = { λ a. IsCovered a.now a.waiting a.calendar (heap_items a.released) };
}

impl HeapReady {
    // Takes the first m keys out, and returns in the given list what is made of each.
    fn select<T: Drop, F: Fn(Seated) -> T>(
        &mut self,
        slot: u64,
        m: usize,
        mut first: Vec<T>,
        give: F,
    ) -> Result<Vec<T>, AllocError>
        ghost key: { T → Key }
        requires slot { self.old.now ≤ slot }
        requires calls { F.IsAlwaysCallable give }
        requires gives { (s : Seated) (x : T) → F.post give s x → key x ≡ s.key }
        ensures time { self.new.now ≡ slot }
        ensures first { IfOk result (λ first. map key first.items ≡ first_by_rank pd2_cmp m (released slot self.old.held)) }
        ensures removed { IfOk result (λ first. self.new.held ≡ without (map key first.items) self.old.held) }
        ensures err { OnErr result (self.new.held ≡ self.old.held) }
    {
        self.now = slot;
        self.calendar.release(&mut self.released, slot)?;
        first.clear();
        first.reserve(m.min(self.released.len()))?;
        'turns: while first.len() < m {
            let Some(turn) = self.released.pop() else {
                break;
            };
            if let Some(seated) = self.waiting.take(slot, &turn) {
                first.push(give(seated))?;
            }
        }
        Ok(first)
    }
}

impl Ready for HeapReady {
    ghost now = { λ a. a.now };

    ghost held = { λ a. a.held };

    fn new(alloc: Global) -> Self {
        HeapReady {
            alloc,
            now: 0,
            waiting: Waiting::new(alloc),
            calendar: Calendar::new(alloc),
            released: BinaryHeap::new(alloc),
        }
    }

    fn now(&self) -> u64 {
        self.now
    }

    fn held(&self, name: &TaskName) -> Option<(u64, Key)> {
        self.waiting.get(name)
    }

    fn insert(&mut self, release: u64, key: Key) -> Result<bool, AllocError> {
        self.insert_seated(Seats::default(), release, key)
    }

    fn insert_seated(&mut self, seats: Seats, release: u64, key: Key) -> Result<bool, AllocError> {
        let Some(place) = self.waiting.put(seats, release, &key)? else {
            return Ok(false);
        };
        let noted = if release <= self.now {
            add_turn(&mut self.released, &key, place)
        } else {
            let date = Date {
                release,
                hint: place,
                key,
            };
            self.calendar.note(self.alloc, date)
        };
        if noted.is_err() {
            self.waiting.remove(&key.name);
            return Err(AllocError);
        }
        Ok(true)
    }

    fn remove(&mut self, name: &TaskName) -> bool {
        self.waiting.remove(name)
    }

    fn take_first(&mut self, slot: u64, m: usize) -> Result<Vec<Key>, AllocError> {
        self.select(slot, m, Vec::new(self.alloc), |seated| seated.key)
    }

    fn take_seated(
        &mut self,
        slot: u64,
        m: usize,
        room: Vec<Seated>,
    ) -> Result<Vec<Seated>, AllocError> {
        self.select(slot, m, room, |seated| seated)
    }

    fn reserve(&mut self, keys: usize) -> Result<(), AllocError> {
        let room = keys.saturating_mul(2);
        self.waiting.reserve(keys)?;
        self.released
            .reserve(room.saturating_sub(self.released.len()))?;
        self.calendar.reserve(self.alloc, room)
    }
}

/// What the order looks at in a released key, with a hint where its name stands. The first in the PD2
/// order is the greatest.
#[derive(Debug, Drop)]
#[derive_where(PartialEq, Eq, PartialOrd, Ord)]
pub(crate) struct Turn {
    pub d: Reverse<u64>,
    pub b: u64,
    // the group deadline if the order looks at it, else 0
    pub group: u64,
    // before the name, so that nothing is padded
    #[derive_where(skip(EqHashOrd))]
    pub hint: usize,
    // the number that orders names
    pub name: Reverse<u128>,
}

/// Adds the turn of a key to a heap of turns.
pub(crate) fn add_turn(
    turns: &mut BinaryHeap<Turn>,
    key: &Key,
    hint: usize,
) -> Result<(), AllocError>
    ensures keeps { KeepsTurns (heap_items turns.old) (heap_items turns.new) }
    ensures there { OnOk result (HasTurn (heap_items turns.new) key.now) }
{
    let group = if key.b == 1 { key.group } else { 0 };
    turns.push(Turn {
        d: Reverse(key.d),
        b: key.b,
        group,
        hint,
        name: Reverse(key.name.number()),
    })?;
    Ok(())
}
