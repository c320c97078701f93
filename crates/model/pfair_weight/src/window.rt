//! The windows of a weight's subtasks, by their formulas.
//!
//! Each call takes subtasks from 1 to [`MAX_INDEX`] and offsets from 0 to [`MAX_OFFSET`], and
//! always succeeds.
ghost use Rattle.std.specs.Prelude.{◌≡◌, ◌+◌, ◌*◌, ◌^◌, ◌≤◌, ◌<◌};
ghost use Rattle.pfair_weight.specs.Window.{IsWeight, release_of, deadline_of, b_bit_of, group_deadline_of, starts_job_of};

use crate::stepper::Cascade;
use crate::weight::Weight;

/// The last subtask whose window can be asked for.
pub const MAX_INDEX: u64 = 2_000_001;

/// The greatest offset, in slots.
pub const MAX_OFFSET: u64 = 1_099_511_627_776;

// The last slot before which a window closes at offset 0.
pub(crate) const MAX_CLOSE: u64 = MAX_INDEX * Weight::MAX_PERIOD;

/// Returns the slot in which the window of subtask `index` opens: `theta` and the whole slots of
/// (index - 1) * period / cost, rounded down (Baruah, Cohen, Plaxton and Varvel, 1996).
pub fn release(weight: Weight, index: u64, theta: u64) -> u64
    requires first { 1 ≤ index }
    requires last { index ≤ MAX_INDEX }
    requires offset { theta ≤ MAX_OFFSET }
    ensures value { result ≡ release_of weight index theta }
    ensures within { result < 2 ^ 51 }
    ensures weight { IsWeight weight.cost weight.period }
{
    theta + (index - 1) * weight.period() / weight.cost()
}

/// Returns the slot before which the window of subtask `index` closes: `theta` and the slots of
/// index * period / cost, rounded up (Baruah, Cohen, Plaxton and Varvel, 1996). The last slot of
/// the window is the one before it.
pub fn deadline(weight: Weight, index: u64, theta: u64) -> u64
    requires first { 1 ≤ index }
    requires last { index ≤ MAX_INDEX }
    requires offset { theta ≤ MAX_OFFSET }
    ensures value { result ≡ deadline_of weight index theta }
    ensures within { result < 2 ^ 51 }
    ensures weight { IsWeight weight.cost weight.period }
{
    theta + (index * weight.period()).div_ceil(weight.cost())
}

/// Returns the b-bit of subtask `index`: 1 if its window reaches into that of the next subtask,
/// by one slot, else 0 (Anderson and Srinivasan). It is the same at each offset. O(1).
pub fn b_bit(weight: Weight, index: u64) -> u64
    requires first { 1 ≤ index }
    requires last { index ≤ MAX_INDEX }
    ensures value { result ≡ b_bit_of weight index }
    ensures within { result ≤ 1 }
    ensures weight { IsWeight weight.cost weight.period }
{
    let served = index * weight.period();
    served.div_ceil(weight.cost()) - served / weight.cost()
}

/// Returns the group deadline of subtask `index`: 0 for a light weight, and the deadline for a
/// weight of 1.
///
/// For a heavy weight below 1 it is the slot where the cascade of windows of two slots ends that
/// the subtask is in (Anderson and Srinivasan): the first slot t at or after its deadline such
/// that some subtask's window closes at t with b-bit 0, or closes at t + 1 and has three slots.
/// All subtasks count as if they came at the offset `theta`. The formula, O(1), is this project's own,
/// and gives this slot by the law `group_deadlines_are_least` of `pfair_optimal`.
pub fn group_deadline(weight: Weight, index: u64, theta: u64) -> u64
    requires first { 1 ≤ index }
    requires last { index ≤ MAX_INDEX }
    requires offset { theta ≤ MAX_OFFSET }
    ensures value { result ≡ group_deadline_of weight index theta }
    ensures within { result < 2 ^ 51 }
    ensures weight { IsWeight weight.cost weight.period }
{
    if !weight.is_heavy() {
        return 0;
    }
    if weight.cost() == weight.period() {
        return deadline(weight, index, theta);
    }
    let close = (index * weight.period()).div_ceil(weight.cost());
    theta + Cascade::new(weight, close).end()
}

/// Returns whether subtask `index` is the first of a job. Job k of a weight is its subtasks
/// (k - 1) * cost + 1 to k * cost, the quanta of its k-th period.
pub fn starts_job(weight: Weight, index: u64) -> bool
    requires { 1 ≤ index }
    ensures value { result ≡ starts_job_of weight index }
    ensures weight { IsWeight weight.cost weight.period }
{
    (index - 1) % weight.cost() == 0
}
