//! The decisions and the lags of a script's run. One slot at a time is held in memory.
ghost use Rattle.std.specs.Prelude.{◌≡◌, ◌≤◌, ◌<◌, ◌+◌, ◌∷◌, [], IfOk, IfErr, None, OnOk, length};
ghost use Rattle.std.specs.List.{flat_map};
ghost use Rattle.pfair_replica.specs.Replica.{replica_of, frontier, numbers_below, said};
ghost use Rattle.pfair_table.specs.Script.{replica_of_logs, IsBySlot, IsScriptFaultOf};
ghost use Rattle.pfair_table.specs.Table.{decisions, table};
ghost use Rattle.pfair_text.specs.Rows.{lines_text};
ghost use Rattle.pfair_output.specs.Replay.{decisions_text, decided_below, decided_of};
ghost use Rattle.pfair_output.specs.Lags.{lag_rows, lags_header, lags_text};

use crate::decisions::{add_decisions, add_decisions_header};
use crate::lags::{add_lags, add_lags_header, book_slot};
use pfair_lag::LagBook;
use pfair_ready::Ready;
use pfair_replica::Replica;
use pfair_table::{Pick, RunFault, Script, Settings, SlotPlan, SlotPlanner};
use pfair_text::{finish, new_text};
use std::alloc::{AllocError, Global};

/// Returns the decisions at the boundaries of all slots of a script's run as rows: a header, and a row
/// for each announcement, slots in order, and in each slot in the order of the decisions.
///
/// One slot at a time is held, beside the text and the entries. The cost is that of
/// [`SlotPlanner::of_script`] and of its plans, and O(rows).
///
/// # Errors
/// As [`SlotPlanner::of_script`].
pub fn decisions_of_script<R: Ready>(alloc: Global, script: &Script) -> Result<Vec<u8>, RunFault>
    ensures text { IfOk result (λ text. text.items ≡ decisions_text (decided_of script.now)) }
    ensures settled { OnOk result (script.now.settings.slots ≤ frontier (replica_of_logs script.now.logs)) }
    ensures fault { IfErr result (IsScriptFaultOf script.now) }
{
    let (replica, mut planner) = SlotPlanner::<R>::of_script(alloc, script)?;
    Ok(all_decisions(alloc, &replica, &mut planner)?)
}

/// Returns the lags in all slots of a script's run as rows: a header, and for each slot t a row for
/// each member that isn't departing after the boundary of t, in the order of admission: the time t + 1,
/// the task, and its lag at that time as a numerator over its period, counted from its joining slot.
///
/// One slot at a time is held, beside the text, the entries and a tally of each member. The cost is
/// that of [`SlotPlanner::of_script`] and of its plans, of [`LagBook::record`] for each slot, a pass
/// over the tallies for each departure, and O(rows).
///
/// # Errors
/// As [`SlotPlanner::of_script`].
pub fn lags_of_script<R: Ready>(alloc: Global, script: &Script) -> Result<Vec<u8>, RunFault>
    ensures text { IfOk result (λ text. text.items ≡ lags_text script.now.settings (replica_of_logs script.now.logs)) }
    ensures settled { OnOk result (script.now.settings.slots ≤ frontier (replica_of_logs script.now.logs)) }
    ensures fault { IfErr result (IsScriptFaultOf script.now) }
{
    let (replica, mut planner) = SlotPlanner::<R>::of_script(alloc, script)?;
    Ok(all_lags(alloc, &replica, &mut planner)?)
}

fn all_decisions<R: Ready>(
    alloc: Global,
    replica: &Replica,
    planner: &mut SlotPlanner<R>,
) -> Result<Vec<u8>, AllocError>
    requires able { IsBySlot replica.now planner.old }
    requires first { planner.old.origin ≡ None }
    requires start { planner.old.tables ≡ [] }
    ensures { IfOk result (λ text. text.items ≡ decisions_text (decided_below planner.old.settings (replica_of replica.now) planner.old.settings.slots)) }
{
    let mut writer = new_text(alloc);
    add_decisions_header(&mut writer)?;
    let mut room = Vec::new(alloc);
    'slots: for slot in 0..planner.settings().slots() {
        let plan = plan_one(replica, planner, room)?;
        add_decisions(&mut writer, slot, &plan.decided)?;
        room = plan.table;
    }
    finish(writer)
}

fn all_lags<R: Ready>(
    alloc: Global,
    replica: &Replica,
    planner: &mut SlotPlanner<R>,
) -> Result<Vec<u8>, AllocError>
    requires able { IsBySlot replica.now planner.old }
    requires first { planner.old.origin ≡ None }
    requires start { planner.old.tables ≡ [] }
    ensures { IfOk result (λ text. text.items ≡ lines_text (lags_header ∷ flat_map
        (lag_rows planner.old.settings (replica_of replica.now)) (numbers_below planner.old.settings.slots))) }
{
    let mut writer = new_text(alloc);
    add_lags_header(&mut writer)?;
    let mut book = LagBook::new(alloc);
    let mut room = Vec::new(alloc);
    'slots: for slot in 0..planner.settings().slots() {
        let plan = plan_one(replica, planner, room)?;
        // a run has at most 1,000,000 slots
        prove!(slot < Settings::MAX_SLOTS);
        book_slot(&mut book, &plan.decided, &plan.table)?;
        add_lags(&mut writer, &book)?;
        room = plan.table;
    }
    finish(writer)
}

fn plan_one<R: Ready>(
    replica: &Replica,
    planner: &mut SlotPlanner<R>,
    room: Vec<Pick>,
) -> Result<SlotPlan, AllocError>
    requires able { IsBySlot replica.now planner.old }
    requires first { planner.old.origin ≡ None }
    requires left { length planner.old.tables < planner.old.settings.slots }
    ensures table { IfOk result (λ plan. plan.table.items ≡ table None planner.old.settings (said (replica_of replica.now)) (length planner.old.tables)) }
    ensures decided { IfOk result (λ plan.
        plan.decided.items ≡ decisions None planner.old.settings (said (replica_of replica.now)) (length planner.old.tables)) }
    ensures planned { OnOk result (length planner.new.tables ≡ length planner.old.tables + 1) }
    ensures able { OnOk result (IsBySlot replica.now planner.new) }
    ensures run { OnOk result ((planner.new.origin ≡ None) × (planner.new.settings ≡ planner.old.settings)) }
{
    match planner.plan_next(replica, room) {
        Ok(Some(plan)) => Ok(plan),
        Ok(None) => unreachable!(),
        Err(_) => Err(AllocError),
    }
}
