//! Whether the slots in which a task ran are right: its first subtask that is out of its window, or
//! late.
ghost use Rattle.std.specs.Prelude.{◌≡◌, ◌≤◌, IfOk, IfErr};
ghost use Rattle.pfair_lag.specs.Lag.{InWindows, MeetsDeadlines, IsFirstMiss, IsFirstLate, pick_fault_number};
ghost use Rattle.pfair_c.specs.Answers.{IsMissAnswer, asked_answer, fault_place, miss_row};

use crate::answer::{DONE, OUT_OF_RANGE};
use pfair_lag::{MAX_HORIZON, Miss, PickFault, first_late, first_miss};
use pfair_weight::Weight;

/// A subtask that is out of its window, or none.
#[repr(C)]
#[derive(Clone, Copy)]
pub struct PfairMiss {
    /// 0: there is none; 1: it ran before its release; 2: it ran at its deadline or later; 3: its
    /// deadline is at most the horizon, and it did not run.
    pub kind: u64,
    /// The subtask, counted from 1; 0 if there is none.
    pub index: u64,
    /// The slot in which it ran; 0 if it did not.
    pub slot: u64,
}

/// Writes the first subtask of the weight cost/period that is out of its window, or that there is
/// none, as [`first_miss`]: `picks` are the slots in which the task ran. O(picks); allocates nothing.
///
/// Answers 0 with the miss; 4 to 6 for what is wrong with the weight; 100 if the horizon is past
/// [`MAX_HORIZON`]; or 40 or 41 with the first place, from 0, at which the picks don't rise or reach
/// the horizon. Nothing else is written.
#[unsafe(no_mangle)]
pub extern "C" fn pfair_first_miss(
    cost: u64,
    period: u64,
    horizon: u64,
    miss: &mut PfairMiss,
    place: &mut u64,
    picks: &[u64],
) -> u32
    ensures { IsMissAnswer InWindows IsFirstMiss cost period horizon picks.now result miss.old miss.new place.old place.new }
{
    match asked_weight(cost, period, horizon) {
        Ok(weight) => write_miss(first_miss(weight, picks, horizon), miss, place),
        Err(answer) => answer,
    }
}

/// Writes the first subtask of the weight cost/period that is late, or that there is none, as
/// [`first_late`]: `picks` are the slots in which the task ran. O(picks); allocates nothing.
///
/// Its answers are those of [`pfair_first_miss`].
#[unsafe(no_mangle)]
pub extern "C" fn pfair_first_late(
    cost: u64,
    period: u64,
    horizon: u64,
    miss: &mut PfairMiss,
    place: &mut u64,
    picks: &[u64],
) -> u32
    ensures { IsMissAnswer MeetsDeadlines IsFirstLate cost period horizon picks.now result miss.old miss.new place.old place.new }
{
    match asked_weight(cost, period, horizon) {
        Ok(weight) => write_miss(first_late(weight, picks, horizon), miss, place),
        Err(answer) => answer,
    }
}

fn asked_weight(cost: u64, period: u64, horizon: u64) -> Result<Weight, u32>
    ensures asked { IfOk result (λ weight.
        (weight ≡ record { cost = cost; period = period }) × (horizon ≤ MAX_HORIZON) × (asked_answer cost period horizon ≡ 0)) }
    ensures refused { IfErr result (λ answer.
        (answer ≡ asked_answer cost period horizon) × (answer ≡ 0 → ⊥) × (answer ≡ 40 → ⊥) × (answer ≡ 41 → ⊥)) }
{
    let weight = Weight::new(cost, period).map_err(|fault| fault.number() as u32)?;
    if horizon > MAX_HORIZON {
        return Err(OUT_OF_RANGE);
    }
    Ok(weight)
}

fn write_miss(found: Result<Option<Miss>, PickFault>, miss: &mut PfairMiss, place: &mut u64) -> u32
    ensures ok { IfOk found (λ one. (result ≡ 0) × (miss.new ≡ miss_row one) × (place.new ≡ place.old)) }
    ensures err { IfErr found (λ fault. (result ≡ pick_fault_number fault) × (place.new ≡ fault_place fault) × (miss.new ≡ miss.old)) }
{
    match found {
        Ok(one) => {
            let (kind, index, slot) = match one {
                None => (0, 0, 0),
                Some(Miss::Early { index, slot }) => (1, index, slot),
                Some(Miss::Tardy { index, slot }) => (2, index, slot),
                Some(Miss::Unserved { index }) => (3, index, 0),
            };
            *miss = PfairMiss { kind, index, slot };
            DONE
        }
        Err(fault) => {
            let (PickFault::PicksNotRising { at } | PickFault::PickPastHorizon { at }) = fault;
            *place = at as u64;
            fault.number() as u32
        }
    }
}
