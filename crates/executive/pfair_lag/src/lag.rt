//! Tests of a schedule by the lag: how far the task is behind its share at each time.
ghost use Rattle.std.specs.Prelude.{◌≡◌, ◌+◌, ◌≤◌, ◌↔◌, IsTrue, IfOk, IfErr, OnOk};
ghost use Rattle.pfair_lag.specs.Lag.{ArePicks, Rises, InWindows, MeetsDeadlines, quanta_before, LagWithin, LagBelowOne, IsFaultOf};

use crate::MAX_HORIZON;
use crate::fault::{PickFault, check_picks};
use pfair_weight::Weight;

/// Returns whether the lag stays strictly between -1 and 1 at each time from 0 to the horizon. This
/// is so exactly if each subtask runs in its window (Baruah, Cohen, Plaxton and Varvel 1996).
///
/// `picks` are the slots in which the task ran, the i-th of them that of subtask i. The horizon is
/// at most [`MAX_HORIZON`]. O(horizon); it allocates nothing.
///
/// # Errors
/// [`PickFault`], at the first place at fault.
pub fn lag_within(weight: Weight, picks: &[u64], horizon: u64) -> Result<bool, PickFault>
    requires { horizon ≤ MAX_HORIZON }
    ensures valid { OnOk result (ArePicks picks.now horizon) }
    ensures lag { IfOk result (λ inside. IsTrue inside ↔ LagWithin weight picks.now horizon) }
    ensures windows { IfOk result (λ inside. IsTrue inside ↔ InWindows weight picks.now horizon) }
    ensures err { IfErr result (IsFaultOf picks.now horizon) }
{
    check_picks(picks, horizon)?;
    let (cost, period) = (weight.cost(), weight.period());
    let mut given = 0;
    for time in 0..horizon + 1 {
        let due = cost * time;
        let done = period * given as u64;
        if due + period <= done || done + period <= due {
            return Ok(false);
        }
        given = given_after(picks, given, time);
    }
    Ok(true)
}

/// Returns whether the lag stays below 1 at each time from 0 to the horizon. This is so exactly
/// if each subtask runs before its deadline (ERfair, Anderson and Srinivasan).
///
/// `picks` are the slots in which the task ran, the i-th of them that of subtask i. The horizon is
/// at most [`MAX_HORIZON`]. O(horizon); it allocates nothing.
///
/// # Errors
/// [`PickFault`], at the first place at fault.
pub fn lag_below(weight: Weight, picks: &[u64], horizon: u64) -> Result<bool, PickFault>
    requires { horizon ≤ MAX_HORIZON }
    ensures valid { OnOk result (ArePicks picks.now horizon) }
    ensures lag { IfOk result (λ below. IsTrue below ↔ LagBelowOne weight picks.now horizon) }
    ensures deadlines { IfOk result (λ below. IsTrue below ↔ MeetsDeadlines weight picks.now horizon) }
    ensures err { IfErr result (IsFaultOf picks.now horizon) }
{
    check_picks(picks, horizon)?;
    let (cost, period) = (weight.cost(), weight.period());
    let mut given = 0;
    for time in 0..horizon + 1 {
        if period * given as u64 + period <= cost * time {
            return Ok(false);
        }
        given = given_after(picks, given, time);
    }
    Ok(true)
}

// How many picks lie before the next time, from how many lie before this one.
fn given_after(picks: &[u64], given: usize, time: u64) -> usize
    requires rising { Rises picks.now }
    requires counted { given ≡ quanta_before picks.now time }
    ensures { result ≡ quanta_before picks.now (time + 1) }
{
    if given < picks.len() && picks[given] == time {
        given + 1
    } else {
        given
    }
}
