//! What a plan and a run answer.
ghost use Rattle.std.specs.Prelude.{◌≡◌};
ghost use Rattle.pfair_table.specs.Refinement.{plan_fault_number, next_run_fault_number, run_fault_number};

use pfair_weight::TaskName;
use std::alloc::AllocError;
use thiserror::Error;

/// What a call of `plan_next` did.
#[derive(Clone, Copy, Debug, PartialEq, Eq)]
pub enum Step {
    /// It planned this slot.
    Planned(u64),
    /// Nothing: the next slot is at or past the frontier, below which the logs are settled.
    Waiting { frontier: u64 },
    /// Nothing: all slots of the run are planned.
    Done,
}

/// Why a slot was not planned, or nothing reopened.
#[derive(Clone, Copy, Debug, PartialEq, Eq, Error)]
pub enum PlanFault {
    /// An entry has two contents: the least such key is number `number` (from 1) in the log of
    /// processor `proc` (from 0). Planned slots stay, and no further slot is planned.
    #[error("entry {number} of processor {proc} torn")]
    Torn { proc: u8, number: u32 },
    /// An allocation failed in an earlier plan: the dispatcher has to be reopened.
    #[error("spent")]
    Spent,
    /// An allocation failed.
    #[error("out of memory")]
    Memory,
}

impl PlanFault {
    /// Returns the number under which the fault is reported: 30, 31 and 90, in the order of the
    /// variants.
    pub fn number(&self) -> u8
        ensures { result ≡ plan_fault_number self.now }
    {
        match self {
            PlanFault::Torn { .. } => 30,
            PlanFault::Spent => 31,
            PlanFault::Memory => 90,
        }
    }
}

impl From<AllocError> for PlanFault {
    ghost use Rattle.std.specs.Prelude.{◌≡◌};
    ghost use Rattle.pfair_table.specs.declared.answer.PlanFault.TheVariants.{Memory};

    ghost from_gives = { λ _ f. f ≡ Memory };

    fn from(_error: AllocError) -> PlanFault {
        PlanFault::Memory
    }
}

/// Why no next run begins.
#[derive(Clone, Copy, Debug, PartialEq, Eq, Error)]
pub enum NextRunFault {
    /// As [`PlanFault::Torn`].
    #[error("entry {number} of processor {proc} torn")]
    Torn { proc: u8, number: u32 },
    /// An allocation failed in an earlier plan: the dispatcher has to be reopened.
    #[error("spent")]
    Spent,
    /// Not all slots of the run are planned.
    #[error("run not finished")]
    Unfinished,
    /// The next run would end after slot [`Members::LAST_SLOT`](pfair_admission::Members::LAST_SLOT),
    /// counted from the first run's first slot.
    #[error("run past the last slot")]
    PastLastSlot,
    /// This member can't be carried into a next run, and each one admitted before it can.
    #[error("cannot carry a member")]
    CannotCarry { name: TaskName },
    /// An allocation failed.
    #[error("out of memory")]
    Memory,
}

impl NextRunFault {
    /// Returns the number under which the fault is reported: 30 to 34 and 90, in the order of the
    /// variants.
    pub fn number(&self) -> u8
        ensures { result ≡ next_run_fault_number self.now }
    {
        match self {
            NextRunFault::Torn { .. } => 30,
            NextRunFault::Spent => 31,
            NextRunFault::Unfinished => 32,
            NextRunFault::PastLastSlot => 33,
            NextRunFault::CannotCarry { .. } => 34,
            NextRunFault::Memory => 90,
        }
    }
}

impl From<AllocError> for NextRunFault {
    ghost use Rattle.std.specs.Prelude.{◌≡◌};
    ghost use Rattle.pfair_table.specs.declared.answer.NextRunFault.TheVariants.{Memory};

    ghost from_gives = { λ _ e. e ≡ Memory };

    fn from(_error: AllocError) -> NextRunFault {
        NextRunFault::Memory
    }
}

impl From<PlanFault> for NextRunFault {
    ghost use Rattle.std.specs.Prelude.{◌≡◌};
    ghost use Rattle.pfair_table.specs.Refinement.{next_run_fault_of};

    ghost from_gives = { λ fault f. f ≡ next_run_fault_of fault };

    fn from(fault: PlanFault) -> NextRunFault {
        match fault {
            PlanFault::Torn { proc, number } => NextRunFault::Torn { proc, number },
            PlanFault::Spent => NextRunFault::Spent,
            PlanFault::Memory => NextRunFault::Memory,
        }
    }
}

/// Why a run gave no tables.
#[derive(Clone, Copy, Debug, PartialEq, Eq, Error)]
pub enum RunFault {
    /// An allocation failed, or a thread couldn't be started.
    #[error("out of memory")]
    Memory,
    /// The gate gave up.
    #[error("gate gave up")]
    GateGaveUp,
    /// The board holds something other than the script's logs.
    #[error("gone astray")]
    Astray,
    /// The logs don't cover all slots: they settle only those below this one, their frontier.
    #[error("stalled at slot {slot}")]
    Stalled { slot: u64 },
}

impl RunFault {
    /// Returns the number under which the fault is reported: 90, 53, 54 and 52, in the order of the
    /// variants.
    pub fn number(&self) -> u8
        ensures { result ≡ run_fault_number self.now }
    {
        match self {
            RunFault::Memory => 90,
            RunFault::GateGaveUp => 53,
            RunFault::Astray => 54,
            RunFault::Stalled { .. } => 52,
        }
    }
}

impl From<AllocError> for RunFault {
    ghost use Rattle.pfair_table.specs.declared.answer.RunFault.TheVariants.{Memory};

    ghost from_gives = { λ _ r. r ≡ Memory };

    fn from(_error: AllocError) -> RunFault {
        RunFault::Memory
    }
}
