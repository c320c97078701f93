//! Whether slots may be those in which a task ran.
ghost use Rattle.std.specs.Prelude.{◌≡◌, ◌≤◌, IfErr, OnOk, length};
ghost use Rattle.pfair_lag.specs.Lag.{ArePicks, Rises, IsFaultOf, pick_fault_number};

use thiserror::Error;

/// Why slots are not those in which a task ran up to a horizon: the first place, counted from 0,
/// that is at fault.
#[derive(Clone, Copy, PartialEq, Eq, Debug, Error)]
pub enum PickFault {
    /// A slot is not after the one before it.
    #[error("picks not rising at {at}")]
    PicksNotRising { at: usize },
    /// A slot is not before the horizon.
    #[error("pick past horizon at {at}")]
    PickPastHorizon { at: usize },
}

impl PickFault {
    /// Returns the number under which the fault is reported: 40 and 41, in the order of the variants.
    pub fn number(&self) -> u8
        ensures { result ≡ pick_fault_number self.now }
    {
        match self {
            PickFault::PicksNotRising { .. } => 40,
            PickFault::PickPastHorizon { .. } => 41,
        }
    }
}

/// Tests that the slots rise, and that all lie before the horizon.
pub(crate) fn check_picks(picks: &[u64], horizon: u64) -> Result<(), PickFault>
    ensures ok { OnOk result (ArePicks picks.now horizon) }
    ensures rising { OnOk result (Rises picks.now) }
    ensures few { OnOk result (length picks.now ≤ horizon) }
    ensures err { IfErr result (IsFaultOf picks.now horizon) }
{
    for (place, slot) in picks.iter().enumerate() {
        if place > 0 && *slot <= picks[place - 1] {
            return Err(PickFault::PicksNotRising { at: place });
        }
        if *slot >= horizon {
            return Err(PickFault::PickPastHorizon { at: place });
        }
    }
    Ok(())
}
