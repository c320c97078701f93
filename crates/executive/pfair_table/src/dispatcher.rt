//! The dispatcher.
ghost use Rattle.std.specs.Prelude.{◌≡◌, ◌≤◌, ◌<◌, true, false, IfOk, IfErr, IfSome, IfNone, OnOk, OnErr, Err, None, length, max, min, slice_get};
ghost use Rattle.std.specs.Option.{option_map};
ghost use Rattle.pfair_replica.specs.Replica.{has_torn, taken, absorbed, IsShape, SameShape, held, replica_of};
ghost use Rattle.pfair_replica.specs.Faults.{IsKeyOf, IsTakenAs, IsTakeFaultOf, IsMergeFaultOf, IsPartlyMerged};
ghost use Rattle.pfair_table.specs.declared.run.Event.TheVariants.{Plan as PlanEvent};
ghost use Rattle.pfair_table.specs.Events.{begin_at, happens};
ghost use Rattle.std.specs.List.{AllByRecursion};
ghost use Rattle.pfair_table.specs.Places.{IsOrigin, places_in, IsFit};
ghost use Rattle.pfair_table.specs.Refinement.{HavePlacedAlike, AreMembersOf, course_of, members_after, IsStepOf, IsPlanFault, after_fault, IsReopenFault, IsLast, IsWholePlan, HavePlannedAlike};
ghost use Rattle.pfair_table.specs.Planning.{AreReadFrom};
ghost use Rattle.pfair_table.specs.NextRun.{LeaveAlike};

use crate::answer::{PlanFault, Step};
use crate::places::places_beside;
use crate::planned::{Planned, PlannedSlot};
use crate::planner::Planner;
use crate::script::Script;
use crate::settings::Settings;
use crate::slot::{Decided, Pick};
use pfair_admission::Members;
use pfair_entry::Entry;
use pfair_ready::Ready;
use pfair_replica::{MergeFault, Replica, TakeFault, Taken};
use std::alloc::{AllocError, Global};
use std::marker::Model;

/// Plans slot after slot for one processor, from the log entries that have reached it.
///
/// A planned slot never changes, whatever arrives later. The same entries give the same tables, in
/// whatever order they arrive, with whatever losses and repeats.
#[derive(Drop)]
pub struct Dispatcher<R: Ready> {
    pub(crate) replica: Replica,
    pub(crate) planner: Planner<R>,
    pub(crate) planned: Planned,
}

impl<R: Ready> Model for Dispatcher<R> {
    ghost use Rattle.std.specs.Prelude.{◌≡◌, false};
    ghost use Rattle.pfair_replica.specs.Replica.{replica_of};
    ghost use Rattle.pfair_table.specs.Planning.{AreReadFrom};
    ghost use Rattle.pfair_table.specs.Refinement.{Dispatch, IsKept};

    ghost Value = { Dispatch };

    ghost view = { λ a. record {
      settings = a.planner.settings;
      origin = a.planned.origin;
      replica = a.replica;
      tables = a.planned.tables;
      decided = a.planned.decided;
      forgotten = a.planned.forgotten;
      spent = a.planner.spent;
    } };

    ghost invariant = { λ a. IsKept a.planned.origin a.planner.settings (replica_of a.replica) a.planned.tables a.planned.decided a.planner.spent
        a.planner.members (R.now a.planner.ready) (R.held a.planner.ready)
        × (a.planner.spent ≡ false → AreReadFrom (replica_of a.replica) a.planner.readings)
        × (a.planned.settings ≡ a.planner.settings) };
}

impl<R: Ready> Dispatcher<R> {
    /// Creates a dispatcher that holds no entries and has planned nothing, with room for logs of
    /// `capacity` entries, 1 to 4,096. O(M) for M processors.
    ///
    /// # Errors
    /// Returns [`AllocError`] if an allocation fails.
    pub fn new(alloc: Global, settings: Settings, capacity: u32) -> Result<Self, AllocError>
        requires { IsShape settings.processors capacity }
        ensures settings { IfOk result (λ d. d.settings ≡ settings) }
        ensures course { IfOk result (λ d. course_of d ≡ begin_at None settings capacity) }
        ensures unforgotten { IfOk result (λ d. d.forgotten ≡ 0) }
        ensures spent { IfOk result (λ d. d.spent ≡ false) }
    {
        Dispatcher::begin(alloc, settings, capacity, None)
    }

    /// Takes entry `number` (from 1) of the log of processor `proc` (from 0), as [`Replica::take`].
    /// Nothing is planned. The cost is that of [`Replica::take`].
    ///
    /// # Errors
    /// Those of [`Replica::take`]; nothing has then changed.
    pub fn take(&mut self, proc: u8, number: u32, entry: Entry) -> Result<Taken, TakeFault>
        ensures answer { IfOk result (IsTakenAs (held self.old.replica proc number) entry) }
        ensures key { OnOk result (IsKeyOf self.old.replica proc number) }
        ensures fault { IfErr result (IsTakeFaultOf self.old.replica proc number) }
        ensures unchanged { OnErr result (self.new ≡ self.old) }
        ensures offered { (result ≡ Err TakeFault.Memory → ⊥) → replica_of self.new.replica ≡ taken (replica_of self.old.replica) proc number entry }
        ensures rest { self.new ≡ record self.old { replica = self.new.replica } }
    {
        self.replica.take(proc, number, entry)
    }

    /// Takes all entries of another replica, as [`Replica::merge`], and at its cost.
    ///
    /// # Errors
    /// Those of [`Replica::merge`]. After `OtherShape` nothing has changed; after `Memory` some of the
    /// other's entries have been added.
    pub fn absorb(&mut self, other: &Replica) -> Result<(), MergeFault>
        ensures same_shape { OnOk result (SameShape self.old.replica other.now) }
        ensures fault { IfErr result (IsMergeFaultOf self.old.replica other.now) }
        ensures unchanged { result ≡ Err MergeFault.OtherShape → self.new ≡ self.old }
        ensures partly { OnErr result (IsPartlyMerged (replica_of self.old.replica) (replica_of other.now) (replica_of self.new.replica)) }
        ensures offered { (result ≡ Err MergeFault.Memory → ⊥) → replica_of self.new.replica ≡ absorbed (replica_of self.old.replica) (replica_of other.now) }
        ensures rest { self.new ≡ record self.old { replica = self.new.replica } }
    {
        self.replica.merge(other)
    }

    /// Returns the processors, frame and slots that the dispatcher plans for.
    pub fn settings(&self) -> Settings
        ensures { result ≡ self.now.settings }
    {
        self.planner.settings
    }

    /// Returns the entries that the dispatcher holds.
    pub fn replica(&self) -> &Replica
        ensures value { result.now ≡ self.now.replica }
    {
        &self.replica
    }

    /// The headline, for two concrete dispatchers after any calls. If their settings are equal,
    /// their runs began alike and their replicas agree, each slot that both have planned has the
    /// same table, which is that of either replica, the same decisions and the same places, and
    /// both leave the same to a next run. Does nothing.
    pub fn plans_alike<Q: Ready>(&self, other: &Dispatcher<Q>)
        ensures planned { HavePlannedAlike self.now other.now }
        ensures placed { HavePlacedAlike self.now other.now }
        ensures left { LeaveAlike self.now other.now }
    {
        prove!(self.replica.processors() >= 1);
        prove!(other.replica.processors() >= 1);
    }

    /// Returns the slot that is planned next, which is the number of planned slots, forgotten ones
    /// among them: at most the slots of the run.
    pub fn next_slot(&self) -> u64
        ensures value { result ≡ length self.now.tables }
        ensures decided { result ≡ length self.now.decided }
        ensures few { result ≤ Settings.MAX_SLOTS }
    {
        // a run has at most 1,000,000 slots
        prove!(self.planner.settings.slots() <= Settings::MAX_SLOTS);
        self.planned.len() as u64
    }

    /// Returns the slot below which all is forgotten, 0 at first, and at most
    /// [`next_slot`](Dispatcher::next_slot). O(1).
    pub fn forgotten(&self) -> u64
        ensures value { result ≡ self.now.forgotten }
        ensures planned { self.now.forgotten ≤ length self.now.tables }
    {
        self.planned.forgotten() as u64
    }

    /// Forgets the tables, places and decisions of all slots below `slots`, or of all planned slots if
    /// these are fewer. Later plans, members and entries do not change. What was forgotten stays
    /// forgotten, also after [`reopen`](Dispatcher::reopen), which plans these slots again.
    ///
    /// Their memory is freed or used for slots to come, but for that of the last planned slot; the list
    /// of slots keeps 72 bytes for each of the most that it had at once. O(slots that are freed); it
    /// allocates nothing.
    pub fn forget(&mut self, slots: u64)
        ensures { self.new ≡ record self.old { forgotten = max self.old.forgotten (min slots (length self.old.tables)) } }
    {
        self.planned.forget(slots as usize);
    }

    /// Returns the table of a slot: its quanta in the PD2 order. `None` if the slot isn't planned or
    /// is forgotten, and only then. O(1).
    pub fn table(&self, slot: u64) -> Option<&[Pick]>
        ensures value { self.now.forgotten ≤ slot → option_map (λ rows. rows.now) result ≡ slice_get self.now.tables slot }
        ensures forgotten { slot < self.now.forgotten → result ≡ None }
    {
        Some(&self.planned.at(slot as usize)?.plan.table)
    }

    /// Returns the places of a slot: for each row of its table the processor that runs it. A task
    /// that also ran in the slot before keeps its processor; the others, in row order, each take the
    /// least processor that is free. `None` if the slot isn't planned or is forgotten, and only then.
    /// O(1): they were worked out when the slot was planned.
    ///
    /// The law [`places_are_kept`](crate::laws::places_are_kept) holds of them.
    pub fn places(&self, slot: u64) -> Option<&[u8]>
        ensures value { self.now.forgotten ≤ slot → option_map (λ places. places.now) result ≡ slice_get (places_in self.now.origin self.now.tables) slot }
        ensures forgotten { slot < self.now.forgotten → result ≡ None }
        ensures fit { AllByRecursion (IsFit self.now.settings.processors) self.now.tables }
        ensures origin { IsOrigin self.now.origin self.now.settings }
    {
        Some(&self.planned.at(slot as usize)?.places)
    }

    /// Returns the admission decisions at the boundary of a slot, in the order of processor and
    /// number. `None` if the slot isn't planned or is forgotten, and only then. O(1).
    pub fn decisions(&self, slot: u64) -> Option<&[Decided]>
        ensures value { self.now.forgotten ≤ slot → option_map (λ rows. rows.now) result ≡ slice_get self.now.decided slot }
        ensures forgotten { slot < self.now.forgotten → result ≡ None }
    {
        Some(&self.planned.at(slot as usize)?.plan.decided)
    }

    /// Returns the members after the last planned slot: in the order of admission the tasks that were
    /// admitted and aren't freed at that slot's boundary, each with its next subtask. `None` if the
    /// dispatcher is spent, and only then. O(1).
    pub fn members(&self) -> Option<&Members>
        ensures none { IfNone result (self.now.spent ≡ true) }
        ensures some { IfSome result (λ members. self.now.spent ≡ false) }
        ensures members { IfSome result (λ members. AreMembersOf self.now members.now.members) }
        ensures whole { IfSome result (λ members. has_torn (replica_of self.now.replica) ≡ false
            → members.now.members
            ≡ members_after self.now.origin self.now.settings (replica_of self.now.replica) (length self.now.tables)) }
    {
        if self.planner.spent {
            return None;
        }
        prove!(self.replica.processors() >= 1);
        Some(&self.planner.members)
    }

    /// Returns the entries that the dispatcher holds, without a copy.
    pub fn into_replica(self) -> Replica
        ensures { result ≡ self.replica }
    {
        self.replica
    }

    /// Plans the next slot if the entries settle it.
    ///
    /// Returns [`Step::Done`] if all slots of the run are planned, else [`Step::Waiting`] if the next
    /// slot is not below the frontier. After either the tables are the whole plan of the entries.
    ///
    /// O((M + r) log n + a + l) for M processors, n members, r releases that come at the slot (also of
    /// tasks that left), a announcements at it and l late releases accepted of the tasks that these
    /// name; O(n) more if a member is freed; beside that each entry is looked at once over all plans.
    /// The cost doesn't grow with the entries held. Without [`reserve`](Dispatcher::reserve) the list of
    /// slots doubles now and then, which moves 72 bytes for each slot that isn't forgotten.
    ///
    /// # Errors
    /// The first that applies: [`PlanFault::Torn`] if an entry held is torn and [`PlanFault::Spent`]
    /// if the dispatcher is spent, and nothing has then changed; [`PlanFault::Memory`] if an
    /// allocation fails: entries and planned slots stay, the slot isn't planned, and the dispatcher
    /// is spent.
    pub fn plan_next(&mut self) -> Result<Step, PlanFault>
        ensures course { OnOk result (course_of self.new ≡ happens self.old.settings (course_of self.old) PlanEvent) }
        ensures rest { OnOk result (self.new ≡ record self.old { tables = self.new.tables; decided = self.new.decided }) }
        ensures step { IfOk result (IsStepOf self.old) }
        ensures whole { OnOk result ((has_torn (replica_of self.old.replica) ≡ false) × (self.old.spent ≡ false)) }
        ensures settled { IfOk result (λ step. IsLast step → IsWholePlan self.new) }
        ensures fault { IfErr result (IsPlanFault self.old) }
        ensures after { IfErr result (λ fault. self.new ≡ after_fault self.old fault) }
    {
        let planned = self.planned.len() as u64;
        let step = self.planner.next_step(&self.replica, planned)?;
        let Step::Planned(slot) = step else {
            return Ok(step);
        };
        let PlannedSlot { plan: room, places } = self.planned.take_room();
        let origin = self.planned.origin();
        let plan = self.planner.plan(origin, &self.replica, slot, room.table)?;
        self.planner.spent = true;
        let (before, there) = self.planned.last();
        let places = places_beside(before, there, &plan.table, &mut self.planner.kept, places)?;
        self.planned
            .push(&self.replica, PlannedSlot { plan, places })?;
        self.planner.spent = false;
        Ok(step)
    }

    /// Makes room for the next `slots` slots, or for all that are left if these are fewer, and for
    /// `tasks` members at once, or for as many as the logs have entries if these are fewer.
    ///
    /// Over [`HeapReady`](pfair_ready::HeapReady) the plan of such a slot allocates nothing if no entry
    /// came since the slot before and nothing is announced at it, as long as no more tasks are members;
    /// and else for what was announced alone: entries by their slots, decisions and delays.
    /// [`PlainReady`](pfair_ready::PlainReady) allocates in each slot. Time and memory are O(M `slots` +
    /// `tasks`) for M processors: 25 M bytes and some 120 more for each slot, 1,300 to 2,000 for each
    /// task, and once 1,150 KB for the calendar of releases.
    ///
    /// # Errors
    /// Returns [`AllocError`] if an allocation fails. All is as before, and the room that was made is
    /// used later.
    pub fn reserve(&mut self, slots: u64, tasks: usize) -> Result<(), AllocError>
        ensures { self.new ≡ self.old }
    {
        let settings = self.planner.settings;
        let left = settings.slots().saturating_sub(self.planned.len() as u64);
        let wanted = slots.min(left);
        if wanted == 0 {
            return Ok(());
        }
        let rows = settings.processors() as usize;
        let tasks = tasks.min(rows * self.replica.capacity() as usize);
        self.planner.members.reserve(tasks)?;
        self.planner.ready.reserve(tasks)?;
        self.planner.keys.reserve(rows)?;
        self.planner.kept.reserve(rows)?;
        self.planned.reserve(wanted as usize, rows)
    }

    /// Rebuilds everything except the entries and the planned slots; plans then go on as if no
    /// allocation had failed. Forgotten slots are planned once more, and stay forgotten. The cost is
    /// that of planning all slots so far.
    ///
    /// # Errors
    /// [`PlanFault::Torn`] if an entry held is torn; nothing has then changed.
    /// [`PlanFault::Memory`] if an allocation fails; the dispatcher is then spent, and else as before.
    pub fn reopen(&mut self) -> Result<(), PlanFault>
        ensures ok { OnOk result ((self.new ≡ record self.old { spent = false }) × (has_torn (replica_of self.old.replica) ≡ false)) }
        ensures fault { IfErr result (IsReopenFault self.old) }
        ensures after { IfErr result (λ fault. self.new ≡ after_fault self.old fault) }
    {
        if let Some((proc, number)) = self.replica.first_torn() {
            return Err(PlanFault::Torn { proc, number });
        }
        let slots = self.planned.len() as u64;
        self.planner
            .plan_again(self.planned.origin(), &self.replica, slots)?;
        Ok(())
    }
}
