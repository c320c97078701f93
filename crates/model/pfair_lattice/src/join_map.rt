//! Maps whose values are joined key by key, and the contents of a key: one value, or the mark that two
//! different ones met.
ghost use Rattle.std.specs.Prelude.{◌≡◌, IsOk, IfOk, OnOk, ◌∷◌, [], length, ⊤, Some, IsSome, OnErr, false};
ghost use Rattle.std.specs.Option.{option_copied, option_copied_mut};
ghost use Rattle.std.specs.Borrow.{sem};
ghost use Rattle.pfair_lattice.specs.Lent.{LendsValue};
ghost use Rattle.std.specs.Ordering.{eq_by_cmp};
ghost use Rattle.pfair_lattice.specs.Entries.{IsOrdered, get, MapBelow, MapJoins, MapPartly, MapOutgrows};
ghost use Rattle.pfair_lattice.specs.Order.{OptionBelow, OptionOutgrows};
ghost use Rattle.pfair_lattice.specs.Laws.{map_order, map_least, map_resumes, exact_cmp};

use crate::join::{Exact, Join};
use std::alloc::{AllocError, Global};
use std::collections::BTreeMap;
use std::marker::Model;

/// A content, or `Torn` if two different contents met.
///
/// Contents that are equal join to themselves, contents that differ to `Torn`, and whatever joins
/// with `Torn` is `Torn`. Neither a join nor a copy allocates.
#[derive(Clone, Copy, Debug, PartialEq, Eq)]
pub enum Flat<T: Exact> {
    /// One content.
    One(T),
    /// Two contents that differ.
    Torn,
}

impl<T: Exact> Join for Flat<T> {
    ghost use Rattle.pfair_lattice.specs.Held.{FlatBelow, FlatJoins, flat_order, flat_least};

    ghost below = { FlatBelow };

    ghost joins = { FlatJoins };

    ghost partly = { λ _ _ _. ⊥ };

    ghost takes_memory = { ⊥ };

    ghost outgrows = { λ _ _. ⊥ };

    ghost order = { flat_order };

    ghost least = { flat_least };

    ghost resumes = { λ _ _ _ h. absurd h };

    fn join(&mut self, other: &Flat<T>) -> Result<(), AllocError>
        ensures never { IsOk result }
        ensures joined { FlatJoins self.old other.now self.new }
    {
        if *self != *other {
            *self = Flat::Torn;
        }
        Ok(())
    }

    fn le(&self, other: &Flat<T>) -> bool {
        match other {
            Flat::Torn => true,
            Flat::One(_) => *self == *other,
        }
    }

    fn copy(&self) -> Result<Flat<T>, AllocError>
        ensures { result ≡ Ok self.now }
    {
        Ok(*self)
    }
}

/// A map from keys to values that can be joined, and so a value that can be joined: it nests to any
/// depth.
///
/// A key is in the map or isn't, whatever its value: a key with an empty inner map is a key. One
/// map is below another if each of its keys is a key of the other, with a value below the one
/// there. A join has the keys of both sides: if one side has the key, its value, and if both
/// have it, the join of their values.
#[derive(Drop)]
pub struct JoinMap<K: Exact + Ord, V: Join> {
    map: BTreeMap<K, V>,
    alloc: Global,
}

impl<K: Exact + Ord, V: Join> Model for JoinMap<K, V> {
    ghost use Rattle.std.specs.Prelude.{List};

    ghost Value = { List (K × V) };

    ghost view = { λ m. m.map.entries };
}

impl<K: Exact + Ord, V: Join> JoinMap<K, V> {
    /// Creates a map without keys. It allocates nothing, and asks `alloc` for what it grows by later.
    pub fn new(alloc: Global) -> JoinMap<K, V>
        ensures { result ≡ [] }
    {
        JoinMap {
            map: BTreeMap::new(alloc),
            alloc,
        }
    }

    /// Returns how many keys there are. Those of inner maps don't count. O(1).
    pub fn len(&self) -> usize
        ensures count { result ≡ length self.now }
        ensures ordered { IsOrdered K.cmp self.now }
    {
        self.map.len()
    }

    /// Returns the value at `key`, or `None` if the map lacks the key. O(log n) for n keys.
    pub fn get(&self, key: &K) -> Option<&V>
        ensures { option_copied result ≡ get K.cmp self.now key.now }
    {
        self.map.get(key)
    }

    /// Returns the value at `key`, to be changed in place, or `None` if the map lacks the key.
    ///
    /// When the borrow ends the map has at `key` the value that was left there last, and all else as
    /// before. O(log n) for n keys.
    pub fn get_mut(&mut self, key: &K) -> Option<&mut V>
        ensures* writes_back { sem 𝓛 (LendsValue K.row V.row K.Ord V.Join self.entry key.now result) }
        ensures value { option_copied_mut result ≡ get K.cmp self.old key.now }
        ensures ordered { IsOrdered K.cmp self.old }
    {
        self.map.get_mut(key)
    }

    /// Joins `value` in at `key`: a copy of it if the map lacks the key, else the join of the value
    /// there with it.
    ///
    /// O(log n) for n keys, and the cost of the copy or of the join.
    ///
    /// # Errors
    /// Returns [`AllocError`] if an allocation fails: never if the map has the key and its
    /// values allocate nothing, and never if the value there is above `value` already, or has a
    /// place for all of it. Then a missing key is still missing, at an existing key a part of
    /// `value` may be joined in, and every other key has the value that it had. The same call again
    /// gives the same join.
    pub fn put(&mut self, key: K, value: &V) -> Result<(), AllocError>
        ensures joined { OnOk result (MapJoins K.cmp V.joins self.old ((key, value.now) ∷ []) self.new) }
        ensures partly { OnErr result (MapPartly K.cmp V.joins V.partly self.old ((key, value.now) ∷ []) self.new) }
        ensures lacking { OnErr result (¬ (OptionBelow V.below (Some value.now) (get K.cmp self.old key))) }
        ensures growth { OnErr result (OptionOutgrows V.outgrows (get K.cmp self.old key) (Some value.now)) }
        ensures memory { OnErr result (IsSome (get K.cmp self.old key) → V.takes_memory) }
        ensures absent { OnErr result (get K.cmp self.old key ≡ None → self.new ≡ self.old) }
        ensures others { (q : K) → eq_by_cmp K.cmp key q ≡ false → get K.cmp self.new q ≡ get K.cmp self.old q }
        ensures ordered { IsOrdered K.cmp self.new }
    {
        match self.map.get_mut(&key) {
            Some(held) => held.join(value),
            None => {
                self.map.insert(key, value.copy()?)?;
                Ok(())
            }
        }
    }
}

impl<K: Exact + Ord, V: Join> Join for JoinMap<K, V> {
    ghost below = { MapBelow K.cmp V.below };

    ghost joins = { MapJoins K.cmp V.joins };

    ghost partly = { MapPartly K.cmp V.joins V.partly };

    ghost takes_memory = { ⊤ };

    ghost outgrows = { MapOutgrows K.cmp V.outgrows };

    ghost order = { map_order K.total (exact_cmp K.eq K.cmp K.exact K.matches_eq) V.order };

    ghost least = { map_least (record { order = V.order; least = V.least }) };

    ghost resumes = { map_resumes (record { order = V.order; least = V.least }) V.resumes };

    fn join(&mut self, other: &JoinMap<K, V>) -> Result<(), AllocError> {
        // the keys of this map are in order
        prove!(self.len() == self.map.len());
        for (key, value) in &other.map {
            self.put(*key, value)?;
        }
        Ok(())
    }

    fn le(&self, other: &JoinMap<K, V>) -> bool {
        // the keys of the other map are in order
        prove!(other.len() == other.map.len());
        for (key, value) in &self.map {
            match other.map.get(key) {
                Some(held) => {
                    if !value.le(held) {
                        return false;
                    }
                }
                None => return false,
            }
        }
        true
    }

    fn copy(&self) -> Result<JoinMap<K, V>, AllocError>
        ensures equal { IfOk result (λ copy. copy ≡ self.now) }
        ensures nothing { self.now ≡ [] → IsOk result }
    {
        let mut copy = JoinMap::new(self.alloc);
        copy.join(self)?;
        Ok(copy)
    }
}
