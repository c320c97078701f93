//! Tests of a schedule by the windows of subtasks: which subtask ran in which slot.
ghost use Rattle.std.specs.Prelude.{◌≤◌, ◌↔◌, IsTrue, IfOk, IfErr, OnOk, MatchOption};
ghost use Rattle.pfair_weight.specs.Window.{IsWeight};
ghost use Rattle.pfair_lag.specs.Lag.{ArePicks, InWindows, LagWithin, IsFirstMiss, IsFaultOf};

use crate::MAX_HORIZON;
use crate::fault::{PickFault, check_picks};
use pfair_weight::{Weight, deadline, release};

/// A subtask that is out of its window, and the slot in which it ran. Subtasks are counted from 1,
/// and their windows have offset 0.
#[derive(Clone, Copy, PartialEq, Eq, Debug)]
pub enum Miss {
    /// It ran before its release.
    Early { index: u64, slot: u64 },
    /// It ran at its deadline or later.
    Tardy { index: u64, slot: u64 },
    /// Its deadline is at most the horizon, and it did not run.
    Unserved { index: u64 },
}

/// Returns the first subtask that is out of its window: ran early or late, or did not run though its
/// deadline is at most the horizon. `None` exactly if all are in their windows.
///
/// `picks` are the slots in which the task ran, the i-th of them that of subtask i. The horizon is
/// at most [`MAX_HORIZON`]. It allocates nothing.
///
/// # Errors
/// [`PickFault`], at the first place at fault.
pub fn first_miss(weight: Weight, picks: &[u64], horizon: u64) -> Result<Option<Miss>, PickFault>
    requires { horizon ≤ MAX_HORIZON }
    ensures valid { OnOk result (ArePicks picks.now horizon) }
    ensures weight { IsWeight weight.cost weight.period }
    ensures found { IfOk result (λ found.
        MatchOption found (InWindows weight picks.now horizon) (IsFirstMiss weight picks.now horizon)) }
    ensures err { IfErr result (IsFaultOf picks.now horizon) }
{
    check_picks(picks, horizon)?;
    for (place, slot) in picks.iter().enumerate() {
        let index = place as u64 + 1;
        if *slot < release(weight, index, 0) {
            return Ok(Some(Miss::Early { index, slot: *slot }));
        }
        if *slot >= deadline(weight, index, 0) {
            return Ok(Some(Miss::Tardy { index, slot: *slot }));
        }
    }
    let index = picks.len() as u64 + 1;
    if deadline(weight, index, 0) <= horizon {
        return Ok(Some(Miss::Unserved { index }));
    }
    Ok(None)
}

/// Returns whether each subtask that ran did so in its window, and each whose deadline is at most the
/// horizon ran. This is so exactly if the lag stays strictly between -1 and 1 up to the horizon
/// (Baruah, Cohen, Plaxton and Varvel 1996).
///
/// `picks` are the slots in which the task ran, the i-th of them that of subtask i. The horizon is
/// at most [`MAX_HORIZON`]. O(windows); it allocates nothing.
///
/// # Errors
/// [`PickFault`], at the first place at fault.
pub fn in_windows(weight: Weight, picks: &[u64], horizon: u64) -> Result<bool, PickFault>
    requires { horizon ≤ MAX_HORIZON }
    ensures valid { OnOk result (ArePicks picks.now horizon) }
    ensures windows { IfOk result (λ inside. IsTrue inside ↔ InWindows weight picks.now horizon) }
    ensures lag { IfOk result (λ inside. IsTrue inside ↔ LagWithin weight picks.now horizon) }
    ensures err { IfErr result (IsFaultOf picks.now horizon) }
{
    Ok(first_miss(weight, picks, horizon)?.is_none())
}
