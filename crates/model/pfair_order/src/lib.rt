//! The PD2 order of subtasks, and the keys that it compares.
//!
//! PD2 is the priority order of proportionate-fair (Pfair) scheduling on several processors
//! (Anderson and Srinivasan, after Baruah, Cohen, Plaxton and Varvel 1996): the earlier deadline
//! goes first, at equal deadlines the subtask whose window overlaps that of its successor (b-bit
//! 1), and of two such the one whose group deadline is later. Under PD2 the remaining ties may be
//! broken at will. Here the task names break them, so that the order is total.
#![tactic(auto)]

ghost use Rattle.std.specs.Prelude.{◌≡◌, ◌≤◌, ◌↔◌};
ghost use Rattle.std.proofs.Common.{rules};
ghost use Rattle.std.specs.Cmp.{partial_order_from_own_ties};
ghost use Rattle.std.specs.Cmp.Rules.{comparing};
ghost use Rattle.std.specs.Ordering.{as_partial_cmp};
ghost use Rattle.std.specs.declared.cmp.Ordering.TheVariants.{Less, Equal};
ghost use Rattle.pfair_weight.specs.Window.{IsWeight, deadline_of, b_bit_of, group_deadline_of};
ghost use Rattle.pfair_order.specs.Order.{pd2_cmp, tie_group_of, GoesBefore};

pub mod laws;

use pfair_weight::{MAX_INDEX, MAX_OFFSET, TaskName, Weight, b_bit, deadline, group_deadline};
use std::cmp::Ordering;

/// What the PD2 order looks at in a subtask. The lesser key goes first.
///
/// Two keys are equal if all four fields are. The comparison is a strict total order on all
/// values of the fields, also on those that no subtask has.
#[derive(Clone, Copy, PartialEq, Eq, Debug)]
pub struct Key {
    /// The deadline: the slot before which the window of the subtask closes. The smaller one goes
    /// first.
    pub d: u64,
    /// The b-bit: 1 if the window reaches into that of the next subtask, else 0. At equal
    /// deadlines the greater one goes first.
    pub b: u64,
    /// The group deadline: the slot at which a cascade ends, a run of windows in which a quantum in
    /// the last slot of one forces that of the next into its last slot too. It is 0 for a weight
    /// below 1/2, and the deadline for a weight of 1. At equal deadlines and b-bits of 1 the
    /// greater one goes first.
    pub group: u64,
    /// The task's name. At what ties otherwise the smaller one in bytes goes first, a proper prefix
    /// before what it begins.
    pub name: TaskName,
}

impl Key {
    /// Returns the key of subtask `index` of a task with this weight and name, whose windows are
    /// shifted by `theta` slots.
    ///
    /// Subtasks are counted from 1, and `index` is at most [`MAX_INDEX`]; `theta` is at most
    /// [`MAX_OFFSET`]. The deadline, the b-bit and the group deadline are those of the window
    /// formulas.
    pub fn of(weight: Weight, index: u64, theta: u64, name: TaskName) -> Key
        requires first { 1 ≤ index }
        requires last { index ≤ MAX_INDEX }
        requires offset { theta ≤ MAX_OFFSET }
        ensures key { result ≡ record {
          d = deadline_of weight index theta;
          b = b_bit_of weight index;
          group = group_deadline_of weight index theta;
          name = name;
        } }
        ensures weight { IsWeight weight.cost weight.period }
    {
        Key {
            d: deadline(weight, index, theta),
            b: b_bit(weight, index),
            group: group_deadline(weight, index, theta),
            name,
        }
    }

    // The group deadline if the order looks at it, else 0.
    fn tie_group(&self) -> u64
        ensures { result ≡ tie_group_of self.now }
    {
        if self.b == 1 { self.group } else { 0 }
    }
}

impl Ord for Key {
    ghost cmp = { pd2_cmp };

    ghost total = { Prim.search (comparing, rules) depth 9 };

    ghost matches_partial_cmp = { Prim.search (comparing, rules) depth 9 };

    ghost matches_eq = { Prim.search (comparing, rules) depth 9 };

    /// `Less` exactly if this key goes before the other in the PD2 order, and `Equal` exactly
    /// for equal keys.
    fn cmp(&self, other: &Key) -> Ordering
        ensures value { result ≡ pd2_cmp self.now other.now }
        ensures before { (result ≡ Less) ↔ GoesBefore self.now other.now }
        ensures equal { (result ≡ Equal) ↔ (self.now ≡ other.now) }
    {
        if self.d != other.d {
            return self.d.cmp(&other.d);
        }
        if self.b != other.b {
            return other.b.cmp(&self.b);
        }
        let groups = other.tie_group().cmp(&self.tie_group());
        if groups != Ordering::Equal {
            return groups;
        }
        let names = self.name.cmp(&other.name);
        if names != Ordering::Equal {
            return names;
        }
        self.group.cmp(&other.group)
    }
}

impl PartialOrd for Key {
    ghost partial_cmp = { as_partial_cmp pd2_cmp };

    ghost laws = { partial_order_from_own_ties
        (Prim.search (comparing, rules) depth 9) (Prim.search (comparing, rules) depth 9) };

    fn partial_cmp(&self, other: &Key) -> Option<Ordering> {
        Some(self.cmp(other))
    }
}
