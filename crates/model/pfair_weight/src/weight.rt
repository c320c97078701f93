//! Weights: the share of a processor that a task is given.
ghost use Rattle.std.specs.Prelude.{◌≡◌, ◌≤◌, ◌<◌, ◌*◌, ◌/◌, ◌%◌, ◌↔◌, IsTrue, IfOk, IfErr, IfSome};
ghost use Rattle.std.specs.Option.{SomeIff};
ghost use Rattle.pfair_weight.specs.Window.{Share, IsWeight, IsHeavy, units_of, IsFaultOf, weight_fault_number};

use std::marker::Model;
use thiserror::Error;

/// Why a cost and a period make no weight.
#[derive(Clone, Copy, PartialEq, Eq, Debug, Error)]
pub enum WeightFault {
    /// The cost is 0.
    #[error("zero cost")]
    ZeroCost,
    /// The cost is greater than the period: more than the whole of a processor.
    #[error("cost over period")]
    CostOverPeriod,
    /// The period has more than [`Weight::MAX_PERIOD`] slots.
    #[error("period too long")]
    PeriodTooLong,
}

impl WeightFault {
    /// Returns the number under which the fault is reported: 4, 5 and 6, in the order of the
    /// variants.
    pub fn number(&self) -> u8
        ensures { result ≡ weight_fault_number self.now }
    {
        match self {
            WeightFault::ZeroCost => 4,
            WeightFault::CostOverPeriod => 5,
            WeightFault::PeriodTooLong => 6,
        }
    }
}

/// A task's share of a processor: a cost of at least 1 quantum in each period of slots, which is
/// at least the cost and at most [`Weight::MAX_PERIOD`].
///
/// Weights are compared by cost and period: 1/2 and 2/4 are two weights.
#[derive(Clone, Copy, PartialEq, Eq, Debug)]
pub struct Weight {
    cost: u64,
    period: u64,
}

impl Model for Weight {
    ghost Value = { Share };

    ghost view = { λ w. record { cost = w.cost; period = w.period } };

    ghost invariant = { λ w. IsWeight w.cost w.period };

    ghost inverse = { λ s. record { cost = s.cost; period = s.period } };
}

impl Weight {
    /// The longest period, in slots.
    pub const MAX_PERIOD: u64 = 1_000_000_000;

    /// Creates the weight of `cost` quanta in each period of `period` slots.
    ///
    /// # Errors
    /// The first that applies: [`WeightFault::ZeroCost`], [`WeightFault::CostOverPeriod`],
    /// [`WeightFault::PeriodTooLong`].
    pub fn new(cost: u64, period: u64) -> Result<Self, WeightFault>
        ensures ok { IfOk result (λ w. (w ≡ record { cost = cost; period = period }) × IsWeight cost period) }
        ensures err { IfErr result (IsFaultOf cost period) }
    {
        if cost == 0 {
            Err(WeightFault::ZeroCost)
        } else if cost > period {
            Err(WeightFault::CostOverPeriod)
        } else if period > Weight::MAX_PERIOD {
            Err(WeightFault::PeriodTooLong)
        } else {
            Ok(Weight { cost, period })
        }
    }

    /// Returns the quanta of each period, from 1 to the period.
    pub fn cost(self) -> u64
        ensures value { result ≡ self.cost }
        ensures weight { IsWeight self.cost self.period }
    {
        self.cost
    }

    /// Returns the slots of each period, from 1 to [`Weight::MAX_PERIOD`].
    pub fn period(self) -> u64
        ensures value { result ≡ self.period }
        ensures weight { IsWeight self.cost self.period }
    {
        self.period
    }

    /// Returns whether the weight is heavy: at least half of a processor. Else it is light.
    pub fn is_heavy(self) -> bool
        ensures heavy { IsTrue result ↔ IsHeavy self }
        ensures weight { IsWeight self.cost self.period }
    {
        2 * self.cost >= self.period
    }

    /// Returns the weight in units of one quantum for each frame of `frame` slots, that is the
    /// quanta of one frame. `None` exactly if the period doesn't divide the frame.
    pub fn units(self, frame: u64) -> Option<u64>
        ensures exact { SomeIff result (frame % self.period ≡ 0) (units_of self frame) }
        ensures within { IfSome result (λ units. units ≤ frame) }
        ensures weight { IsWeight self.cost self.period }
    {
        if frame % self.period == 0 {
            Some(self.cost * (frame / self.period))
        } else {
            None
        }
    }
}
