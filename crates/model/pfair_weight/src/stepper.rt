//! The windows of a weight's subtasks one after the other, by sums in place of quotients.
ghost use Rattle.std.specs.Prelude.{◌≡◌, ◌+◌, ◌≤◌, ◌<◌, ◌^◌, ◌*◌, ◌/◌, ◌%◌};
ghost use Rattle.pfair_weight.specs.Window.{IsPosition, release_of, deadline_of, b_bit_of, group_deadline_of, cascade_end, Ratio, IsSmall};
ghost use Rattle.std.specs.Int.{div_ceil};

use crate::weight::Weight;
use crate::window::{MAX_CLOSE, MAX_INDEX, MAX_OFFSET};
use std::marker::Model;

/// Points at one subtask of a weight, at an offset, and goes from it to the next.
///
/// Its readers return what the calls of [`crate::window`] return for this subtask and offset. Each
/// call is O(1), and only [`Stepper::new`] and [`Stepper::at`] divide.
#[derive(Debug, Drop)]
pub struct Stepper {
    weight: Weight,
    index: u64,
    theta: u64,
    // The floor of (index - 1) * period / cost.
    opened: u64,
    // index * period / cost.
    served: Fraction,
    // period / cost.
    served_step: Fraction,
    // Of a heavy weight below 1.
    cascade: Option<Cascade>,
}

impl Model for Stepper {
    ghost use Rattle.pfair_weight.specs.Window.{Position};

    ghost Value = { Position };

    ghost use Rattle.pfair_weight.specs.Stepped.{position_of, IsStepped};

    ghost view = { position_of };

    ghost invariant = { IsStepped };
}

impl Stepper {
    /// Creates a stepper at subtask 1, at the offset `theta` in slots.
    pub fn new(weight: Weight, theta: u64) -> Self
        requires { theta ≤ MAX_OFFSET }
        ensures { result ≡ record { weight = weight; index = 1; theta = theta } }
    {
        Stepper::at(weight, 1, theta)
    }

    /// Creates a stepper at subtask `index`, at the offset `theta` in slots.
    pub fn at(weight: Weight, index: u64, theta: u64) -> Self
        requires first { 1 ≤ index }
        requires last { index ≤ MAX_INDEX }
        requires offset { theta ≤ MAX_OFFSET }
        ensures { result ≡ record { weight = weight; index = index; theta = theta } }
    {
        let (cost, period) = (weight.cost(), weight.period());
        let served = Fraction::new(index * period, cost);
        let cascade = if weight.is_heavy() && cost < period {
            Some(Cascade::new(weight, served.ceiling()))
        } else {
            None
        };
        Stepper {
            weight,
            index,
            theta,
            opened: (index - 1) * period / cost,
            served,
            served_step: Fraction::new(period, cost),
            cascade,
        }
    }

    /// Goes to the next subtask, at the same offset.
    pub fn advance(&mut self)
        requires { self.old.index < MAX_INDEX }
        ensures { self.new ≡ record self.old { index = self.old.index + 1 } }
    {
        let opened = self.served.floor();
        let close = self.served.ceiling();
        self.served.add(&self.served_step);
        let slots = self.served.ceiling() - close;
        if let Some(cascade) = &mut self.cascade {
            cascade.advance(slots);
        }
        self.opened = opened;
        self.index += 1;
    }

    /// Delays this subtask and all later ones by `by` slots: their offset grows by `by`.
    pub fn delay(&mut self, by: u64)
        requires { self.old.theta + by ≤ MAX_OFFSET }
        ensures { self.new ≡ record self.old { theta = self.old.theta + by } }
    {
        self.theta += by;
    }

    /// Returns the index of its subtask, from 1 to [`MAX_INDEX`].
    pub fn index(&self) -> u64
        ensures value { result ≡ self.now.index }
        ensures position { IsPosition self.now }
    {
        self.index
    }

    /// Returns its offset in slots, from 0 to [`MAX_OFFSET`].
    pub fn theta(&self) -> u64
        ensures value { result ≡ self.now.theta }
        ensures position { IsPosition self.now }
    {
        self.theta
    }

    /// Returns the slot in which the subtask's window opens, as [`crate::release`].
    pub fn release(&self) -> u64
        ensures value { result ≡ release_of self.now.weight self.now.index self.now.theta }
        ensures within { result < 2 ^ 51 }
        ensures position { IsPosition self.now }
    {
        self.opened + self.theta
    }

    /// Returns the slot before which the subtask's window closes, as [`crate::deadline`].
    pub fn deadline(&self) -> u64
        ensures value { result ≡ deadline_of self.now.weight self.now.index self.now.theta }
        ensures within { result < 2 ^ 51 }
        ensures position { IsPosition self.now }
    {
        self.served.ceiling() + self.theta
    }

    /// Returns 1 if the subtask's window reaches into that of the next, else 0, as [`crate::b_bit`].
    pub fn b_bit(&self) -> u64
        ensures value { result ≡ b_bit_of self.now.weight self.now.index }
        ensures within { result ≤ 1 }
        ensures position { IsPosition self.now }
    {
        self.served.ceiling() - self.served.floor()
    }

    /// Returns the subtask's group deadline, as [`crate::group_deadline`].
    pub fn group_deadline(&self) -> u64
        ensures value { result ≡ group_deadline_of self.now.weight self.now.index self.now.theta }
        ensures within { result < 2 ^ 51 }
        ensures position { IsPosition self.now }
    {
        match &self.cascade {
            Some(cascade) => cascade.end() + self.theta,
            None if self.weight.is_heavy() => self.deadline(),
            None => 0,
        }
    }
}

/// A fraction, kept as its whole part and what is left over, so that a sum takes no division.
#[derive(Debug, Drop)]
pub(crate) struct Fraction {
    whole: u64,
    rest: u64,
    denominator: u64,
}

impl Model for Fraction {
    ghost Value = { Ratio };

    ghost view = { λ f. record { numerator = f.whole * f.denominator + f.rest; denominator = f.denominator } };

    ghost invariant = { λ f. f.rest < f.denominator };
}

impl Fraction {
    pub fn new(numerator: u64, denominator: u64) -> Self
        requires { 0 < denominator }
        ensures { result ≡ record { numerator = numerator; denominator = denominator } }
    {
        Fraction {
            whole: numerator / denominator,
            rest: numerator % denominator,
            denominator,
        }
    }

    /// The product `factor * numerator` may need more than 64 bits.
    pub fn of_product(factor: u64, numerator: u64, denominator: u64) -> Self
        requires some_denominator { 0 < denominator }
        requires small { IsSmall record { numerator = factor * numerator; denominator = denominator } }
        ensures { result ≡ record { numerator = factor * numerator; denominator = denominator } }
    {
        let product = factor as u128 * numerator as u128;
        Fraction {
            whole: (product / denominator as u128) as u64,
            rest: (product % denominator as u128) as u64,
            denominator,
        }
    }

    pub fn floor(&self) -> u64
        ensures { result ≡ self.now.numerator / self.now.denominator }
    {
        self.whole
    }

    pub fn ceiling(&self) -> u64
        requires { IsSmall self.now }
        ensures { result ≡ div_ceil self.now.numerator self.now.denominator }
    {
        if self.rest == 0 {
            self.whole
        } else {
            self.whole + 1
        }
    }

    pub fn add(&mut self, other: &Fraction)
        requires same_denominator { self.old.denominator ≡ other.now.denominator }
        requires small_denominator { self.old.denominator < 2 ^ 63 }
        requires small { IsSmall record self.old { numerator = self.old.numerator + other.now.numerator } }
        ensures { self.new ≡ record self.old { numerator = self.old.numerator + other.now.numerator } }
    {
        self.whole += other.whole;
        self.rest += other.rest;
        if self.rest >= self.denominator {
            self.rest -= self.denominator;
            self.whole += 1;
        }
    }

    pub fn add_times(&mut self, other: &Fraction, times: u64)
        requires same_denominator { self.old.denominator ≡ other.now.denominator }
        requires small_denominator { self.old.denominator < 2 ^ 63 }
        requires small { IsSmall record self.old { numerator = self.old.numerator + times * other.now.numerator } }
        ensures { self.new ≡ record self.old { numerator = self.old.numerator + times * other.now.numerator } }
    {
        for _time in 0..times {
            self.add(other);
        }
    }
}

/// Where the cascade of a heavy weight below 1 ends, for a window that closes later and later.
#[derive(Debug, Drop)]
pub(crate) struct Cascade {
    weight: Weight,
    close: u64,
    idle: Fraction,
    idle_step: Fraction,
    end: Fraction,
    end_step: Fraction,
}

impl Model for Cascade {
    ghost use Rattle.pfair_weight.specs.Window.{Close};

    ghost Value = { Close };

    ghost use Rattle.pfair_weight.specs.Cascaded.{close_of, IsCascaded};

    ghost view = { close_of };

    ghost invariant = { IsCascaded };
}

impl Cascade {
    /// Creates the cascade of a window that closes at `close`, in slots, at offset 0.
    pub fn new(weight: Weight, close: u64) -> Self
        requires below_one { weight.cost < weight.period }
        requires range { close ≤ MAX_CLOSE }
        ensures { result ≡ record { weight = weight; close = close } }
    {
        let period = weight.period();
        let room = period - weight.cost();
        let idle = Fraction::of_product(close, room, period);
        let end = Fraction::of_product(idle.ceiling(), period, room);
        Cascade {
            weight,
            close,
            idle,
            idle_step: Fraction::new(room, period),
            end,
            end_step: Fraction::new(period, room),
        }
    }

    /// Goes on to the window that closes so many slots later.
    pub fn advance(&mut self, slots: u64)
        requires { self.old.close + slots ≤ MAX_CLOSE }
        ensures { self.new ≡ record self.old { close = self.old.close + slots } }
    {
        let before = self.idle.ceiling();
        self.idle.add_times(&self.idle_step, slots);
        self.end
            .add_times(&self.end_step, self.idle.ceiling() - before);
        self.close += slots;
    }

    /// Returns the slot where the cascade ends, at offset 0.
    pub fn end(&self) -> u64
        ensures value { result ≡ cascade_end self.now.weight self.now.close }
        ensures within { result ≤ self.now.close + self.now.weight.period }
        ensures range { self.now.weight.period ≤ Weight.MAX_PERIOD }
    {
        self.end.ceiling()
    }
}
