//! A run after a run, which begins with the members that the last one left.
ghost use Rattle.std.specs.Prelude.{◌≡◌, ◌≤◌, ◌+◌, false, Some, IfOk, IfErr, OnOk};
ghost use Rattle.std.specs.Option.{option_map};
ghost use Rattle.pfair_replica.specs.Replica.{IsShape};
ghost use Rattle.pfair_admission.specs.declared.members.TheConstants.Members.{LAST_SLOT};
ghost use Rattle.pfair_table.specs.Events.{begin_at};
ghost use Rattle.pfair_table.specs.Places.{IsOrigin, settings_from};
ghost use Rattle.pfair_table.specs.NextRun.{CanBeFollowed, AreCarriedOf, IsFinished, IsNextRunFault, IsResumeFault, end_of, left_by, members_left, start_after};
ghost use Rattle.pfair_table.specs.Refinement.{course_of};

use crate::answer::{NextRunFault, Step};
use crate::dispatcher::Dispatcher;
use crate::planned::Planned;
use crate::planner::Planner;
use crate::settings::Settings;
use crate::state::{Origin, State, slot_of};
use pfair_admission::Members;
use pfair_ready::Ready;
use pfair_replica::Replica;
use std::alloc::{AllocError, Global};

impl<R: Ready> Dispatcher<R> {
    /// Creates a dispatcher for the run after this one, of 1 to 1,000,000 slots, with the same
    /// processors, frame and room for log entries. It holds no entries and has planned nothing; this
    /// dispatcher stays as it is.
    ///
    /// The next run begins with the members of this one, in their order, and a task that runs on
    /// keeps its processor. Each member's jobs before that of its last quantum are dropped: its
    /// indexes are lower by their subtasks, and its windows stay where they are. Stamps, floors and
    /// slots of the next run count from its own slot 0, entries from 1. Announcements stamped after
    /// the last slot of this run are not taken over.
    ///
    /// O(n log n + d log d) for n members with d accepted delays that are still to come.
    ///
    /// # Errors
    /// The first that applies: [`NextRunFault::Torn`] if an entry held is torn;
    /// [`NextRunFault::Spent`] if the dispatcher is spent; [`NextRunFault::Unfinished`] if not all
    /// slots of this run are planned; [`NextRunFault::PastLastSlot`] if the next run would end after
    /// slot [`Members::LAST_SLOT`] of all runs; [`NextRunFault::CannotCarry`] if a member's cost is
    /// above 1,000,000 (its period is then longer than a run can be) or its delays leave no room for
    /// more; [`NextRunFault::Memory`] if an allocation fails.
    pub fn next_run(&self, slots: u64) -> Result<Dispatcher<R>, NextRunFault>
        requires some { 1 ≤ slots }
        requires few { slots ≤ Settings.MAX_SLOTS }
        ensures able { OnOk result (CanBeFollowed self.now slots) }
        ensures settings { IfOk result (λ next. next.settings ≡ record self.now.settings { slots = slots }) }
        ensures course { IfOk result (λ next. course_of next ≡ start_after self.now) }
        ensures unforgotten { IfOk result (λ next. next.forgotten ≡ 0) }
        ensures spent { IfOk result (λ next. next.spent ≡ false) }
        ensures fault { IfErr result (IsNextRunFault self.now slots) }
    {
        let planned = self.planned.len() as u64;
        let step = self.planner.next_step(&self.replica, planned)?;
        let Step::Done = step else {
            return Err(NextRunFault::Unfinished);
        };
        let slot = slot_of(self.planned.origin(), self.planner.settings.slots());
        if slot + slots > Members::LAST_SLOT {
            return Err(NextRunFault::PastLastSlot);
        }
        let left = &self.planner.members;
        if let Some(name) = left.first_left_behind() {
            return Err(NextRunFault::CannotCarry { name });
        }
        let alloc = self.planner.alloc;
        let members = left.carried()?;
        let (table, places) = self.planned.last();
        let state = State {
            slot,
            members,
            table: Vec::from_slice(alloc, table)?,
            places: Vec::from_slice(alloc, places)?,
        };
        Dispatcher::resume(alloc, state, slots, self.replica.capacity())
    }

    /// Returns the state in which this run began. `None` in a first run, and only then. O(1).
    pub fn state(&self) -> Option<&State>
        ensures { option_map (λ state. state.now) result ≡ self.now.origin }
    {
        self.planned.origin().as_ref()
    }

    /// Creates a dispatcher for a run of 1 to 1,000,000 slots that begins with a state, with room for
    /// logs of `capacity` entries. It holds no entries and has planned nothing.
    ///
    /// If a finished dispatcher's next run began in the state, this one is what
    /// [`Dispatcher::next_run`] gives. O(n log n + d log d) for n members with d accepted delays.
    ///
    /// # Errors
    /// [`NextRunFault::PastLastSlot`] if the run would end after slot [`Members::LAST_SLOT`] of all
    /// runs, and [`NextRunFault::Memory`] if an allocation fails.
    pub fn resume(
        alloc: Global,
        state: State,
        slots: u64,
        capacity: u32,
    ) -> Result<Dispatcher<R>, NextRunFault>
        requires shape { IsShape state.machine.processors capacity }
        requires some { 1 ≤ slots }
        requires few { slots ≤ Settings.MAX_SLOTS }
        ensures settings { IfOk result (λ d. d.settings ≡ settings_from state slots) }
        ensures course { IfOk result (λ d. course_of d ≡ begin_at (Some state) (settings_from state slots) capacity) }
        ensures unforgotten { IfOk result (λ d. d.forgotten ≡ 0) }
        ensures spent { IfOk result (λ d. d.spent ≡ false) }
        ensures fault { IfErr result (IsResumeFault state slots) }
    {
        if state.slot() + slots > Members::LAST_SLOT {
            return Err(NextRunFault::PastLastSlot);
        }
        let settings = Settings {
            processors: state.members.processors(),
            frame: state.members.frame(),
            slots,
        };
        Ok(Dispatcher::begin(alloc, settings, capacity, Some(state))?)
    }

    pub(crate) fn begin(
        alloc: Global,
        settings: Settings,
        capacity: u32,
        origin: Origin,
    ) -> Result<Self, AllocError>
        requires shape { IsShape settings.processors capacity }
        requires origin { IsOrigin origin settings }
        ensures settings { IfOk result (λ d. d.settings ≡ settings) }
        ensures course { IfOk result (λ d. course_of d ≡ begin_at origin settings capacity) }
        ensures unforgotten { IfOk result (λ d. d.forgotten ≡ 0) }
        ensures spent { IfOk result (λ d. d.spent ≡ false) }
    {
        let replica = Replica::new(alloc, settings.processors(), capacity)?;
        let planner = Planner::new(alloc, settings, &origin)?;
        Ok(Dispatcher {
            planned: Planned::new(alloc, settings, origin, &replica),
            replica,
            planner,
        })
    }
}
