//! A ready structure that is one list, to compare faster ones with.
ghost use Rattle.std.specs.Prelude.{◌≡◌, IfOk, map, filter, nat_le};
ghost use Rattle.std.specs.List.{list_any};
ghost use Rattle.itertools.specs.Extremes.{IsKLeast, by_cmp};
ghost use Rattle.pfair_order.specs.Order.{pd2_cmp};
ghost use Rattle.pfair_ready.specs.Queue.{Content, content_code, name_eq};
ghost use Rattle.pfair_ready.specs.Waiting.{first_named, queue_of};
ghost use Rattle.pfair_weight.specs.Name.{NamesApart};

use crate::Ready;
use itertools::Itertools;
use pfair_order::Key;
use pfair_weight::TaskName;
use std::alloc::{AllocError, Global};
use std::marker::Model;

// A key that waits for its release or its turn.
#[derive(Clone, Copy, Debug)]
struct PlainEntry {
    release: u64,
    key: Key,
}

/// A ready structure that is one list.
///
/// For n keys held, `new` and `now` are O(1), `held`, `insert` and `remove` O(n), and a selection of m
/// keys O(n m). A selection allocates, whatever was reserved.
#[derive(Drop)]
pub struct PlainReady {
    alloc: Global,
    now: u64,
    waiting: Vec<PlainEntry>,
}

impl Model for PlainReady {
    ghost Value = { Content };

    ghost coded = { content_code };

    ghost view = { λ a. record { now = a.now; held = queue_of a.waiting.items } };

    ghost invariant = { λ a. NamesApart (λ w. w.key.name) a.waiting.items };
}

impl Ready for PlainReady {
    ghost now = { λ a. a.now };

    ghost held = { λ a. a.held };

    fn new(alloc: Global) -> Self {
        PlainReady {
            alloc,
            now: 0,
            waiting: Vec::new(alloc),
        }
    }

    fn now(&self) -> u64 {
        self.now
    }

    fn held(&self, name: &TaskName) -> Option<(u64, Key)> {
        find_name(&self.waiting, *name)
    }

    fn insert(&mut self, release: u64, key: Key) -> Result<bool, AllocError> {
        if find_name(&self.waiting, key.name).is_some() {
            return Ok(false);
        }
        self.waiting.push(PlainEntry { release, key })?;
        Ok(true)
    }

    fn remove(&mut self, name: &TaskName) -> bool {
        let there = find_name(&self.waiting, *name).is_some();
        self.waiting.retain(|w| w.key.name != *name);
        there
    }

    fn take_first(&mut self, slot: u64, m: usize) -> Result<Vec<Key>, AllocError> {
        self.now = slot;
        let released = released_keys(self.alloc, &self.waiting, slot)?;
        let first = least_keys(self.alloc, &released, m)?;
        self.waiting.retain(|w| !has_name(&first, w.key.name));
        Ok(first)
    }
}

fn find_name(waiting: &[PlainEntry], name: TaskName) -> Option<(u64, Key)>
    ensures { result ≡ first_named name waiting.now }
{
    waiting
        .iter()
        .find(|w| w.key.name == name)
        .map(|w| (w.release, w.key))
}

fn released_keys(alloc: Global, waiting: &[PlainEntry], slot: u64) -> Result<Vec<Key>, AllocError>
    ensures { IfOk result (λ keys. keys.items ≡
        map (λ w. w.key) (filter (λ w. nat_le w.release slot) waiting.now)) }
{
    waiting
        .iter()
        .filter(|w| w.release <= slot)
        .map(|w| w.key)
        .collect(alloc)
}

fn least_keys(alloc: Global, keys: &[Key], m: usize) -> Result<Vec<Key>, AllocError>
    ensures { IfOk result (λ least. IsKLeast (by_cmp pd2_cmp) m keys.now least.items) }
{
    let least = keys.iter().copied().k_smallest(alloc, m)?;
    least.collect(alloc)
}

fn has_name(keys: &[Key], name: TaskName) -> bool
    ensures { result ≡ list_any (λ k. name_eq name k.name) keys.now }
{
    keys.iter().any(|k| name == k.name)
}
