//! Plans, and how far they have come.
ghost use Rattle.std.specs.Prelude.{◌≡◌, ◌≤◌, ◌⊎◌, length, IfOk, IfErr, OnOk};
ghost use Rattle.pfair_replica.specs.Replica.{replica_of, frontier};
ghost use Rattle.pfair_table.specs.Refinement.{plan_fault_number};
ghost use Rattle.pfair_c.specs.Answers.{Reads, Changes, IsGiven, nothing, IsPlannedOn, IsStopOf, IsStoppedBy, IsPlanAnswer, IsPlanToAnswer, IsReopened, forgetting, step_row, fault_row};

use crate::answer::{DONE, MEMORY, NOT_OPEN, OUT_OF_RANGE};
use crate::open::with_open;
use pfair_handle::Handle;
use pfair_ready::Ready;
use pfair_table::{Dispatcher, PlanFault, Step};
use std::alloc::Global;

/// The answer of a plan.
#[repr(C)]
#[derive(Clone, Copy)]
pub struct PfairStep {
    /// 0: the slot was planned; 1: waiting, and the slot is the frontier; 2: all slots are planned.
    pub kind: u64,
    /// That slot.
    pub slot: u64,
    /// After 30, the processor of the torn entry.
    pub processor: u64,
    /// After 30, its number.
    pub number: u64,
}

/// Plans the next slot, if the contents settle it.
///
/// Answers 0 with the step; 102 if the handle has no dispatcher; 30 with the least torn entry, or 31
/// if the dispatcher is spent, and nothing changes; 90 if an allocation fails: the slot isn't planned,
/// and the dispatcher is spent. Costs what [`Dispatcher::plan_next`](pfair_table::Dispatcher::plan_next)
/// costs.
#[unsafe(no_mangle)]
pub extern "C" fn pfair_plan_next(alloc: Global, handle: &mut Handle, step: &mut PfairStep) -> u32
    ensures { Changes handle.old.owner.kept handle.new.owner.kept result step.old step.new IsPlanAnswer }
{
    with_open(alloc, handle, step, |dispatcher, step| {
        write_step(dispatcher.plan_next(), step)
    })
}

/// Plans until `until` slots are planned (1 or more), the next one isn't settled, or none is left.
///
/// Answers 0 with the step: slot `until` - 1 is planned, by this call or before it; the plan waits,
/// and the frontier; or all slots are planned. 102 if the handle has no dispatcher; 100 if `until` is
/// 0. 30, 31 or 90 as [`pfair_plan_next`], if fewer than `until` slots are planned; what was planned
/// before that stands. Costs what the plans cost.
#[unsafe(no_mangle)]
pub extern "C" fn pfair_plan_to(
    alloc: Global,
    handle: &mut Handle,
    until: u64,
    step: &mut PfairStep,
) -> u32
    ensures { Changes handle.old.owner.kept handle.new.owner.kept result step.old step.new (IsPlanToAnswer until) }
{
    with_open(alloc, handle, step, |dispatcher, step| {
        if until < 1 {
            return OUT_OF_RANGE;
        }
        write_step(plan_to(dispatcher, until), step)
    })
}

fn plan_to<R: Ready>(dispatcher: &mut Dispatcher<R>, until: u64) -> Result<Step, PlanFault>
    requires { 1 ≤ until }
    ensures planned { OnOk result (IsPlannedOn until dispatcher.old dispatcher.new) }
    ensures step { IfOk result (IsStopOf until dispatcher.new) }
    ensures fault { IfErr result (λ fault. IsStoppedBy until fault dispatcher.old dispatcher.new) }
{
    'slots: while dispatcher.next_slot() < until {
        match dispatcher.plan_next()? {
            Step::Planned(_) => {}
            last => return Ok(last),
        }
    }
    Ok(Step::Planned(until - 1))
}

fn write_step(answer: Result<Step, PlanFault>, step: &mut PfairStep) -> u32
    ensures ok { IfOk answer (λ taken. (result ≡ DONE) × (step.new ≡ step_row taken)) }
    ensures err { IfErr answer (λ fault. (result ≡ plan_fault_number fault) × (step.new ≡ fault_row fault step.old)) }
{
    match answer {
        Ok(taken) => {
            let (kind, slot) = match taken {
                Step::Planned(slot) => (0, slot),
                Step::Waiting { frontier } => (1, frontier),
                Step::Done => (2, 0),
            };
            *step = PfairStep {
                kind,
                slot,
                processor: 0,
                number: 0,
            };
            DONE
        }
        Err(fault) => {
            if let PlanFault::Torn { proc, number } = fault {
                step.processor = proc as u64;
                step.number = number as u64;
            }
            fault.number() as u32
        }
    }
}

/// Allocates for the next `slots` slots and for `tasks` members at once, as
/// [`Dispatcher::reserve`](pfair_table::Dispatcher::reserve), and at its cost.
///
/// Answers 0; 102 if the handle has no dispatcher; 90 if an allocation fails. Entries
/// and tables are as before in each case.
#[unsafe(no_mangle)]
pub extern "C" fn pfair_reserve(alloc: Global, handle: &mut Handle, slots: u64, tasks: u64) -> u32
    ensures { Changes handle.old.owner.kept handle.new.owner.kept result nothing nothing
        (λ d e answer _ _. ((answer ≡ DONE) ⊎ (answer ≡ MEMORY)) × (e ≡ d)) }
{
    if !handle.is_open() {
        return NOT_OPEN;
    }
    let mut served = handle.take(alloc);
    let reserved = served.dispatcher.reserve(slots, tasks as usize);
    handle.put(served);
    match reserved {
        Ok(()) => DONE,
        Err(_) => MEMORY,
    }
}

/// Forgets the tables, places and decisions of the planned slots below `slots`: their memory is
/// freed, or used for slots to come, and they can't be read again. Plans go on as before. O(slots
/// freed); allocates nothing.
///
/// Answers 0; or 102 if the handle has no dispatcher.
#[unsafe(no_mangle)]
pub extern "C" fn pfair_forget(alloc: Global, handle: &mut Handle, slots: u64) -> u32
    ensures { Changes handle.old.owner.kept handle.new.owner.kept result nothing nothing
        (λ d e answer _ _. (answer ≡ DONE) × (e ≡ forgetting slots d)) }
{
    if !handle.is_open() {
        return NOT_OPEN;
    }
    let mut served = handle.take(alloc);
    served.dispatcher.forget(slots);
    handle.put(served);
    DONE
}

/// Rebuilds everything except the entries and the tables, after which plans go on. Forgotten
/// slots are planned once more, and stay forgotten. Costs what the plans of all slots so far cost.
///
/// Answers 0; 102 if the handle has no dispatcher; 30 if something held is torn, and nothing changes;
/// 90 if an allocation fails: the dispatcher is then spent, and else as before.
#[unsafe(no_mangle)]
pub extern "C" fn pfair_reopen(alloc: Global, handle: &mut Handle) -> u32
    ensures { Changes handle.old.owner.kept handle.new.owner.kept result nothing nothing (λ d e answer _ _. IsReopened d e answer) }
{
    if !handle.is_open() {
        return NOT_OPEN;
    }
    let mut served = handle.take(alloc);
    let reopened = served.dispatcher.reopen();
    handle.put(served);
    match reopened {
        Ok(()) => DONE,
        Err(fault) => fault.number() as u32,
    }
}

/// Writes the frontier: below this slot every announcement is known. O(processors).
///
/// Answers 0; or 102 if the handle has no dispatcher, and then nothing is written.
#[unsafe(no_mangle)]
pub extern "C" fn pfair_frontier(alloc: Global, handle: &mut Handle, slot: &mut u64) -> u32
    ensures { Reads handle.old.owner.kept handle.new.owner.kept result slot.old slot.new (IsGiven (λ d. frontier (replica_of d.replica))) }
{
    with_open(alloc, handle, slot, |dispatcher, slot| {
        *slot = dispatcher.replica().frontier();
        DONE
    })
}

/// Writes the slot that is planned next, which is how many are planned. O(1).
///
/// Answers 0; or 102 if the handle has no dispatcher, and then nothing is written.
#[unsafe(no_mangle)]
pub extern "C" fn pfair_next_slot(alloc: Global, handle: &mut Handle, slot: &mut u64) -> u32
    ensures { Reads handle.old.owner.kept handle.new.owner.kept result slot.old slot.new (IsGiven (λ d. length d.tables)) }
{
    with_open(alloc, handle, slot, |dispatcher, slot| {
        *slot = dispatcher.next_slot();
        DONE
    })
}
