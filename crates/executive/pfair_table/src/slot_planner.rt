//! What plans slot after slot of a replica that is held elsewhere.
ghost use Rattle.std.specs.Prelude.{◌≡◌, ◌≤◌, ◌<◌, ◌+◌, [], false, IfOk, IfErr, OnOk, None, length};
ghost use Rattle.pfair_replica.specs.Replica.{Below, has_torn, SameShape, replica_of};
ghost use Rattle.pfair_table.specs.Script.{replica_of_logs, IsBySlot, IsScriptFaultOf};
ghost use Rattle.pfair_table.specs.Planning.{AreReadFrom};
ghost use Rattle.pfair_table.specs.Refinement.{after_fault, IsPlanFault, IsWholePlan, IsNextPlan, after_plan, seeing};

use crate::answer::{PlanFault, RunFault, Step};
use crate::planner::Planner;
use crate::script::Script;
use crate::settings::Settings;
use crate::single::take_script;
use crate::slot::{Pick, SlotPlan};
use pfair_ready::Ready;
use pfair_replica::Replica;
use std::alloc::{AllocError, Global};
use std::marker::Model;
use std::snapshot::Snapshot;

/// Plans slot after slot of a replica that the caller keeps, and keeps no planned slot: it acts as
/// a [`Dispatcher`](crate::Dispatcher) with these entries that forgets each slot at once.
///
/// Its memory is that of the tasks and of the announcements at slots that are not planned yet; it
/// doesn't grow with the slots.
#[derive(Drop)]
pub struct SlotPlanner<R: Ready> {
    planner: Planner<R>,
    planned: u64,
    // the replica handed in last, and the one from which the last slot was planned
    seen: Snapshot<Replica>,
    of: Snapshot<Replica>,
}

impl<R: Ready> Model for SlotPlanner<R> {
    ghost use Rattle.std.specs.Prelude.{◌≡◌, None, false};
    ghost use Rattle.pfair_replica.specs.Replica.{replica_of};
    ghost use Rattle.pfair_table.specs.Planning.{AreReadFrom};
    ghost use Rattle.pfair_table.specs.Refinement.{Dispatch, IsKept};
    ghost use Rattle.pfair_table.specs.Planned.{tables_to, decided_to};

    ghost Value = { Dispatch };

    ghost view = { λ a. record {
      settings = a.planner.settings;
      origin = None;
      replica = a.seen.value;
      tables = tables_to None a.planner.settings a.of.value a.planned;
      decided = decided_to None a.planner.settings a.of.value a.planned;
      forgotten = a.planned;
      spent = a.planner.spent;
    } };

    ghost invariant = { λ a. IsKept None a.planner.settings (replica_of a.seen.value)
        (tables_to None a.planner.settings a.of.value a.planned) (decided_to None a.planner.settings a.of.value a.planned) a.planner.spent
        a.planner.members (R.now a.planner.ready) (R.held a.planner.ready)
        × (a.planner.spent ≡ false → AreReadFrom (replica_of a.seen.value) a.planner.readings) };
}

impl<R: Ready> SlotPlanner<R> {
    /// Creates a planner before its first slot, for a replica of as many processors as the settings
    /// have. O(M) for M processors.
    ///
    /// # Errors
    /// Returns [`AllocError`] if an allocation fails.
    pub fn new(
        alloc: Global,
        settings: Settings,
        replica: &Replica,
    ) -> Result<SlotPlanner<R>, AllocError>
        requires { replica.now.processors ≡ settings.processors }
        ensures start { IfOk result (λ p. p ≡ record {
          settings = settings;
          origin = None;
          replica = replica.now;
          tables = [];
          decided = [];
          forgotten = 0;
          spent = false;
        }) }
    {
        // the logs of a replica have at most 4,096 entries
        prove!(replica.processors() >= 1);
        let planner = Planner::new(alloc, settings, &None)?;
        Ok(SlotPlanner {
            planner,
            planned: 0,
            seen: Snapshot::of(replica),
            of: Snapshot::of(replica),
        })
    }

    /// Returns a replica of every entry of a script's logs, which settles all slots of the run, and a
    /// planner before its first slot. O(e log e) for e entries.
    ///
    /// # Errors
    /// [`RunFault::Stalled`] if the frontier of the logs, which is that slot, is below the number of
    /// slots. [`RunFault::Memory`] if an allocation fails.
    pub fn of_script(alloc: Global, script: &Script) -> Result<(Replica, SlotPlanner<R>), RunFault>
        ensures settings { IfOk result (λ r. r.1.settings ≡ script.now.settings) }
        ensures held { IfOk result (λ r. replica_of r.0 ≡ replica_of_logs script.now.logs) }
        ensures start { IfOk result (λ r. r.1.tables ≡ []) }
        ensures first { IfOk result (λ r. r.1.origin ≡ None) }
        ensures able { IfOk result (λ r. IsBySlot r.0 r.1) }
        ensures fault { IfErr result (IsScriptFaultOf script.now) }
    {
        let settings = script.settings();
        let replica = take_script::<R>(alloc, script)?.into_replica();
        // a replica holds entries of its own logs
        prove!(replica.processors() >= 1);
        let frontier = replica.frontier();
        if frontier < settings.slots() {
            return Err(RunFault::Stalled { slot: frontier });
        }
        let planner = SlotPlanner::new(alloc, settings, &replica)?;
        Ok((replica, planner))
    }

    /// Returns the processors, frame and slots that it plans for.
    pub fn settings(&self) -> Settings
        ensures { result ≡ self.now.settings }
    {
        self.planner.settings
    }

    /// Returns the slot that is planned next, which is the number of planned slots: at most the slots
    /// of the run.
    pub fn next_slot(&self) -> u64
        ensures value { result ≡ length self.now.tables }
        ensures within { result ≤ self.now.settings.slots }
        ensures few { result ≤ Settings.MAX_SLOTS }
    {
        // a run has at most 1,000,000 slots
        prove!(self.planner.settings.slots() <= Settings::MAX_SLOTS);
        self.planned
    }

    /// Plans the next slot if the replica settles it, and returns its table and its decisions. `None`
    /// if the slot isn't below the frontier or all slots of the run are planned, and only then; the
    /// planned slots are then the whole plan of the replica. The table reuses `room`, whose content is
    /// dropped.
    ///
    /// The replica is the one of the call before, or one that holds more. The cost is that of
    /// [`Dispatcher::plan_next`](crate::Dispatcher::plan_next), without places.
    ///
    /// # Errors
    /// The first that applies: [`PlanFault::Torn`] if an entry held is torn; [`PlanFault::Spent`] if
    /// an allocation failed in an earlier plan; [`PlanFault::Memory`] if an allocation fails: the slot
    /// isn't planned, and every later plan is refused.
    pub fn plan_next(
        &mut self,
        replica: &Replica,
        room: Vec<Pick>,
    ) -> Result<Option<SlotPlan>, PlanFault>
        requires shape { SameShape self.old.replica replica.now }
        requires above { Below (replica_of self.old.replica) (replica_of replica.now) }
        ensures next { IfOk result (λ next. self.new ≡ after_plan (seeing self.old replica.now) next) }
        ensures slot { IfOk result (IsNextPlan (seeing self.old replica.now)) }
        ensures whole { OnOk result ((has_torn (replica_of replica.now) ≡ false) × (self.old.spent ≡ false)) }
        ensures settled { IfOk result (λ next. next ≡ None → IsWholePlan self.new) }
        ensures fault { IfErr result (IsPlanFault (seeing self.old replica.now)) }
        ensures after { IfErr result (λ fault. self.new ≡ after_fault (seeing self.old replica.now) fault) }
    {
        self.see(replica);
        let Step::Planned(slot) = self.planner.next_step(replica, self.planned)? else {
            return Ok(None);
        };
        let next = self.planner.plan(&None, replica, slot, room)?;
        self.of = Snapshot::of(replica);
        self.planned += 1;
        Ok(Some(next))
    }

    fn see(&mut self, replica: &Replica)
        requires shape { SameShape self.old.replica replica.now }
        requires above { Below (replica_of self.old.replica) (replica_of replica.now) }
        ensures { self.new ≡ seeing self.old replica.now }
    {
        self.seen = Snapshot::of(replica);
    }
}
