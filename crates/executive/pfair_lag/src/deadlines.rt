//! Tests of a schedule by the deadlines of subtasks alone, for tasks that may run ahead of their
//! windows.
ghost use Rattle.std.specs.Prelude.{◌≤◌, ◌↔◌, IsTrue, IfOk, IfErr, OnOk, MatchOption};
ghost use Rattle.pfair_weight.specs.Window.{IsWeight};
ghost use Rattle.pfair_lag.specs.Lag.{ArePicks, MeetsDeadlines, LagBelowOne, IsFirstLate, IsFaultOf};

use crate::MAX_HORIZON;
use crate::fault::{PickFault, check_picks};
use crate::windows::Miss;
use pfair_weight::{Weight, deadline};

/// Returns the first subtask that is late: ran at its deadline or later, or did not run though its
/// deadline is at most the horizon. `None` exactly if none is late. It is never [`Miss::Early`].
///
/// `picks` are the slots in which the task ran, the i-th of them that of subtask i. The horizon is
/// at most [`MAX_HORIZON`]. It allocates nothing.
///
/// # Errors
/// [`PickFault`], at the first place at fault.
pub fn first_late(weight: Weight, picks: &[u64], horizon: u64) -> Result<Option<Miss>, PickFault>
    requires { horizon ≤ MAX_HORIZON }
    ensures valid { OnOk result (ArePicks picks.now horizon) }
    ensures weight { IsWeight weight.cost weight.period }
    ensures found { IfOk result (λ found.
        MatchOption found (MeetsDeadlines weight picks.now horizon) (IsFirstLate weight picks.now horizon)) }
    ensures err { IfErr result (IsFaultOf picks.now horizon) }
{
    check_picks(picks, horizon)?;
    for (place, slot) in picks.iter().enumerate() {
        let index = place as u64 + 1;
        if *slot >= deadline(weight, index, 0) {
            return Ok(Some(Miss::Tardy { index, slot: *slot }));
        }
    }
    let index = picks.len() as u64 + 1;
    if deadline(weight, index, 0) <= horizon {
        return Ok(Some(Miss::Unserved { index }));
    }
    Ok(None)
}

/// Returns whether each subtask that ran did so before its deadline, and each whose deadline is at
/// most the horizon ran. This is so exactly if the lag stays below 1 up to the horizon (ERfair,
/// Anderson and Srinivasan).
///
/// `picks` are the slots in which the task ran, the i-th of them that of subtask i. The horizon is
/// at most [`MAX_HORIZON`]. O(deadlines); it allocates nothing.
///
/// # Errors
/// [`PickFault`], at the first place at fault.
pub fn meets_deadlines(weight: Weight, picks: &[u64], horizon: u64) -> Result<bool, PickFault>
    requires { horizon ≤ MAX_HORIZON }
    ensures valid { OnOk result (ArePicks picks.now horizon) }
    ensures deadlines { IfOk result (λ met. IsTrue met ↔ MeetsDeadlines weight picks.now horizon) }
    ensures lag { IfOk result (λ met. IsTrue met ↔ LagBelowOne weight picks.now horizon) }
    ensures err { IfErr result (IsFaultOf picks.now horizon) }
{
    Ok(first_late(weight, picks, horizon)?.is_none())
}
