//! What each worker does, where it comes before each slot, and what takes its tables.
ghost use Rattle.std.specs.Prelude.{◌≡◌, Bool, true, false, ℕ, ◌++◌, ◌∷◌, [], List, OnOk, length, ◌≤◌, ◌+◌, IfOk, IfErr, None};
ghost use Rattle.pfair_table.specs.Table.{Table, plan};
ghost use Rattle.pfair_table.specs.Places.{IsFit};
ghost use Rattle.pfair_replica.specs.Replica.{replica_of};
ghost use Rattle.pfair_desk.specs.Desks.{IsDeskOf, GrownDesk};
ghost use Rattle.pfair_board.specs.RunFaults.{IsRunOf};
ghost use Rattle.pfair_board.specs.Works.{HasPublished, IsWorkerFault, IsPlanningFault, IsAtWork, HasLearned, HasPlanned};
ghost use Rattle.pfair_table.specs.declared.answer.RunFault.TheVariants.{Memory};

use crate::threads::{Hint, Hints};
use pfair_desk::{Board, Desk, PublishFault};
use pfair_entry::Entry;
use pfair_ready::Ready;
use pfair_table::{Pick, Run, RunFault, Settings, SlotPlanner};
use std::alloc::{AllocError, Global};
use std::mem;
use std::sync::Wait;

/// Where the workers of a run come before each slot: a gate may hold a worker back until others
/// have come, and may give up.
pub trait Gate {
    /// Whether a gate of this type may give up.
    ghost may_give_up: { Bool };

    /// Lets a worker pass, which comes from its own thread just before it plans a slot, once for
    /// each. It is the processor whose log it has, counted from 0. Returns `false` if the gate gave
    /// up; the worker's run ends then.
    fn come<P: Wait>(&self, rt: &P, worker: u8, slot: u64) -> bool
        ensures { result ≡ false → may_give_up ≡ true };
}

/// Lets every worker pass at once, and never gives up.
#[derive(Clone, Copy, Debug)]
pub struct OpenGate;

impl Gate for OpenGate {
    ghost may_give_up = { false };

    fn come<P: Wait>(&self, _rt: &P, _worker: u8, _slot: u64) -> bool {
        true
    }
}

/// Takes the tables of a worker's slots, one after another, as they are planned: it may keep them,
/// or what is made of them, or nothing.
pub trait Sink: Drop {
    /// What the sink of a row's worker has after these tables.
    ghost has: { Self → ℕ → List Table → Type 0 };

    /// Takes the table of the next slot, of at most 64 rows with a task of its own each. Returns the
    /// list, as room for the next table, if it isn't kept.
    ///
    /// # Errors
    /// `AllocError` if an allocation fails. The worker's run ends then.
    fn take(&mut self, slot: u64, table: Vec<Pick>) -> Result<Option<Vec<Pick>>, AllocError>
        requires fit { IsFit Settings.MAX_PROCESSORS table.items }
        requires before { (row : ℕ) × (tables : List Table) × (length tables ≡ slot) × has self.old row tables }
        ensures { OnOk result ((row : ℕ) (tables : List Table) → length tables ≡ slot
            → has self.old row tables → has self.new row (tables ++ table.items ∷ [])) };
}

/// Keeps each table.
impl Sink for Vec<Vec<Pick>> {
    ghost use Rattle.pfair_board.specs.Works.{has_kept};

    ghost has = { has_kept };

    fn take(&mut self, _slot: u64, table: Vec<Pick>) -> Result<Option<Vec<Pick>>, AllocError> {
        self.push(table)?;
        Ok(None)
    }
}

/// The first worker has a sink. The others may have none.
impl<K: Sink> Sink for Option<K> {
    ghost use Rattle.pfair_board.specs.Works.{has_first};

    ghost has = { has_first K.has };

    fn take(&mut self, slot: u64, table: Vec<Pick>) -> Result<Option<Vec<Pick>>, AllocError> {
        match self {
            Some(sink) => sink.take(slot, table),
            None => Ok(Some(table)),
        }
    }
}

/// Works out every slot of one processor's run, given its own log alone.
///
/// Publishes the log from the desk's next number on and sends a hint of each entry to the other
/// workers, looks where a hint points, plans what its desk settles, and refreshes and plans the rest
/// once no hint can come any more. The result does not depend on hints. Of the answers of two desks
/// of one board, under equal settings, the shorter begins the longer.
///
/// Beside what [`SlotPlanner::plan_next`](pfair_table::SlotPlanner::plan_next) costs for each slot,
/// and the places of its table, it costs a publish of each entry of the log, and a hint of it to
/// each other worker; for each hint that comes a look; a look-up for each processor when no further
/// hint waits; and a refresh at the end. No table is copied.
///
/// # Errors
/// `Memory` if an allocation fails. `GateGaveUp` only if the gate's type may give up. `Astray` only
/// if the desk's row has another entry at a number of the log.
pub fn run_worker<R: Ready, G: Gate>(
    rt: &impl Wait,
    alloc: Global,
    settings: Settings,
    desk: &mut Desk,
    board: &Board,
    log: &[Entry],
    hints: Hints,
    gate: &G,
) -> Result<Run, RunFault>
    requires own { IsDeskOf desk.old board.now }
    requires room { desk.old.next_number + length log.now ≤ board.now.capacity + 1 }
    requires processors { settings.processors ≡ board.now.processors }
    ensures grown { GrownDesk desk.old desk.new }
    ensures log { OnOk result (HasPublished desk.old desk.new log.now) }
    ensures run { IfOk result (IsRunOf settings (replica_of desk.new.replica)) }
    ensures fault { IfErr result (IsWorkerFault G.may_give_up desk.new desk.old.next_number log.now) }
    ensures own { IsDeskOf desk.new board.now }
{
    let sink = Vec::new(alloc);
    let tables = run_into::<R, G, Vec<Vec<Pick>>>(
        rt, alloc, settings, desk, board, log, hints, gate, sink,
    )?;
    Ok(Run::of_tables(alloc, tables)?)
}

/// Does the same for any sink, which has no table yet, and returns it.
pub(crate) fn run_into<R: Ready, G: Gate, K: Sink>(
    rt: &impl Wait,
    alloc: Global,
    settings: Settings,
    desk: &mut Desk,
    board: &Board,
    log: &[Entry],
    mut hints: Hints,
    gate: &G,
    sink: K,
) -> Result<K, RunFault>
    requires own { IsDeskOf desk.old board.now }
    requires room { desk.old.next_number + length log.now ≤ board.now.capacity + 1 }
    requires begins { (settings.processors ≡ board.now.processors) × K.has sink desk.old.processor [] }
    ensures grown { GrownDesk desk.old desk.new }
    ensures log { OnOk result (HasPublished desk.old desk.new log.now) }
    ensures plan { IfOk result (λ sink. K.has sink desk.old.processor (plan None settings (replica_of desk.new.replica))) }
    ensures fault { IfErr result (IsWorkerFault G.may_give_up desk.new desk.old.next_number log.now) }
    ensures own { IsDeskOf desk.new board.now }
{
    let planner = SlotPlanner::<R>::new(alloc, settings, desk.replica())?;
    let proc = desk.proc();
    for entry in log {
        match desk.publish(board, *entry) {
            Ok(number) => hints.send(rt, Hint { proc, number })?,
            Err(PublishFault::Memory) => return Err(RunFault::Memory),
            Err(PublishFault::Taken { .. }) => return Err(RunFault::Astray),
            Err(PublishFault::RowFull) => unreachable!(),
        }
    }
    // once all workers have published their logs, no hint can come any more
    hints.senders.clear();
    let mut worker = Worker {
        planner,
        sink,
        room: Vec::new(alloc),
        alloc,
    };
    worker.plan_all(rt, desk, board, &hints, gate)?;
    Ok(worker.sink)
}

// What plans a worker's slots, and what takes their tables.
#[derive(Drop)]
struct Worker<R: Ready, K: Sink> {
    planner: SlotPlanner<R>,
    sink: K,
    // for the next table
    room: Vec<Pick>,
    alloc: Global,
}

impl<R: Ready, K: Sink> Worker<R, K> {
    // Plans what the desk holds, what hints point to while they come, and what a refresh finds then.
    fn plan_all<G: Gate>(
        &mut self,
        rt: &impl Wait,
        desk: &mut Desk,
        board: &Board,
        hints: &Hints,
        gate: &G,
    ) -> Result<(), RunFault>
        requires own { IsDeskOf desk.old board.now }
        requires at_work { IsAtWork K.has self.old.planner self.old.sink desk.old }
        ensures learned { HasLearned desk.old desk.new }
        ensures own { IsDeskOf desk.new board.now }
        ensures plan { OnOk result (K.has self.new.sink desk.old.processor (plan None self.old.planner.settings (replica_of desk.new.replica))) }
        ensures fault { IfErr result (IsPlanningFault G.may_give_up) }
    {
        self.catch_up(rt, desk, gate)?;
        for hint in hints.receiver.iter(rt) {
            // what isn't learned now is learned at the refresh
            let _ = desk.look(board, hint.proc, hint.number);
            if hints.receiver.is_empty() {
                self.catch_up(rt, desk, gate)?;
            }
        }
        desk.refresh(board)?;
        self.catch_up(rt, desk, gate)?;
        Ok(())
    }

    // Plans every slot that the desk settles. The worker comes to the gate before each.
    fn catch_up<G: Gate>(&mut self, rt: &impl Wait, desk: &Desk, gate: &G) -> Result<(), RunFault>
        requires { IsAtWork K.has self.old.planner self.old.sink desk.now }
        ensures settings { self.new.planner.settings ≡ self.old.planner.settings }
        ensures at_work { OnOk result (IsAtWork K.has self.new.planner self.new.sink desk.now) }
        ensures plan { OnOk result (HasPlanned self.new.planner desk.now) }
        ensures fault { IfErr result (IsPlanningFault G.may_give_up) }
    {
        let replica = desk.replica();
        let slots = self.planner.settings().slots();
        let settled = replica.frontier().min(slots);
        for planned in 0..slots + 1 {
            let slot = self.planner.next_slot();
            if slot < settled && !gate.come(rt, desk.proc(), slot) {
                return Err(RunFault::GateGaveUp);
            }
            let room = mem::replace(&mut self.room, Vec::new(self.alloc));
            match self.planner.plan_next(replica, room) {
                Ok(Some(next)) => {
                    if let Some(room) = self.sink.take(slot, next.table)? {
                        self.room = room;
                    }
                }
                Ok(None) => return Ok(()),
                // an allocation failed, since a desk holds nothing torn
                Err(_) => return Err(RunFault::Memory),
            }
        }
        // each turn has planned a slot, and a run has no more than these
        prove!(self.planner.next_slot() <= self.planner.settings().slots());
        unreachable!()
    }
}
