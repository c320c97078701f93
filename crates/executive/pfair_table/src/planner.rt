//! The state between slots, beside the replica and the tables: the members, the ready structure,
//! and how far the replica was read.
ghost use Rattle.std.specs.Prelude.{◌≡◌, ◌+◌, false, is_err, IfOk, IfErr, OnOk};
ghost use Rattle.pfair_replica.specs.Replica.{replica_of, Replica as Held, IsReplica, has_torn, Untorn, said};
ghost use Rattle.pfair_table.specs.Places.{IsOrigin};
ghost use Rattle.pfair_table.specs.Planning.{AreReadFrom, AreWhole, CanBePlanned, IsPlanOfSlot};
ghost use Rattle.pfair_table.specs.Refinement.{IsInStep, IsNextStep, IsNoStep};

use crate::answer::{PlanFault, Step};
use crate::settings::Settings;
use crate::slot::{Decided, Pick, SlotPlan, give_quanta, notify_of, ready_of};
use crate::state::{Origin, first_members, slot_of};
use pfair_admission::Members;
use pfair_entry::Said;
use pfair_ready::{Ready, Seated};
use pfair_replica::{Agenda, Replica};
use std::alloc::{AllocError, Global};

/// What plans one slot of a replica after another.
#[derive(Drop)]
pub(crate) struct Planner<R: Ready> {
    pub alloc: Global,
    pub settings: Settings,
    // whether an allocation failed in a plan: then members and ready structure aren't valid
    pub spent: bool,
    readings: Readings,
    // after the slots that were planned last
    pub members: Members,
    pub ready: R,
    // the room for the keys of a slot, and for what the rows of its table keep
    pub keys: Vec<Seated>,
    pub kept: Vec<Option<u8>>,
}

impl<R: Ready> Planner<R> {
    /// Before the first slot of a run of these settings, for any replica.
    pub(crate) fn new(
        alloc: Global,
        settings: Settings,
        origin: &Origin,
    ) -> Result<Planner<R>, AllocError>
        requires { IsOrigin origin.now settings }
        ensures settings { IfOk result (λ p. p.settings ≡ settings) }
        ensures able { IfOk result (λ p. p.spent ≡ false) }
        ensures step { IfOk result (λ p. (x : Held) → IsInStep origin.now settings x 0 p.members (R.now p.ready) (R.held p.ready)) }
        ensures readings { IfOk result (λ p. (x : Held) → x.processors ≡ settings.processors → AreReadFrom x p.readings) }
    {
        let readings = Readings::new(alloc, settings.processors())?;
        let members = first_members(alloc, origin, settings)?;
        let ready = ready_of(alloc, &members)?;
        Ok(Planner {
            alloc,
            settings,
            spent: false,
            readings,
            members,
            ready,
            keys: Vec::new(alloc),
            kept: Vec::new(alloc),
        })
    }

    /// Returns whether slot n, the next one, can be planned from the replica, and if not, why.
    pub(crate) fn next_step(&self, replica: &Replica, slot: u64) -> Result<Step, PlanFault>
        ensures step { IfOk result (IsNextStep self.now.settings (replica_of replica.now) slot) }
        ensures able { OnOk result ((has_torn (replica_of replica.now) ≡ false) × (self.now.spent ≡ false)) }
        ensures fault { IfErr result (IsNoStep (replica_of replica.now) self.now.spent) }
        ensures replica { IsReplica (replica_of replica.now) }
    {
        if let Some((proc, number)) = replica.first_torn() {
            return Err(PlanFault::Torn { proc, number });
        }
        if self.spent {
            return Err(PlanFault::Spent);
        }
        if slot >= self.settings.slots() {
            return Ok(Step::Done);
        }
        let frontier = replica.frontier();
        if slot >= frontier {
            return Ok(Step::Waiting { frontier });
        }
        Ok(Step::Planned(slot))
    }

    /// Plans slot n of the replica, after the n slots before it. The table reuses the memory of
    /// `room`.
    pub(crate) fn plan(
        &mut self,
        origin: &Origin,
        replica: &Replica,
        slot: u64,
        room: Vec<Pick>,
    ) -> Result<SlotPlan, AllocError>
        requires able { CanBePlanned origin.now self.old.settings replica.now (slot + 1) }
        requires readings { AreReadFrom (replica_of replica.now) self.old.readings }
        requires step { IsInStep origin.now self.old.settings (replica_of replica.now) slot
            self.old.members (R.now self.old.ready) (R.held self.old.ready) }
        ensures plan { IfOk result (IsPlanOfSlot origin.now self.old.settings replica.now slot) }
        ensures step { OnOk result (IsInStep origin.now self.old.settings (replica_of replica.now) (slot + 1)
            self.new.members (R.now self.new.ready) (R.held self.new.ready)) }
        ensures readings { OnOk result (AreReadFrom (replica_of replica.now) self.new.readings) }
        ensures settings { self.new.settings ≡ self.old.settings }
        ensures spent { self.new.spent ≡ is_err result }
    {
        self.spent = true;
        let announced = self.readings.announced(replica, slot)?;
        let processors = self.settings.processors();
        let at = slot_of(origin, slot);
        let decided = if announced.is_empty() {
            self.members.pass(at);
            Vec::new(self.alloc)
        } else {
            let decisions = self.members.boundary(at, &announced)?;
            announced
                .iter()
                .zip(decisions.iter())
                .map(|(said, decision)| Decided {
                    proc: said.proc,
                    number: said.number,
                    announcement: said.announcement,
                    decision: *decision,
                })
                .collect(self.alloc)?
        };
        let (ready, members) = (&mut self.ready, &self.members);
        for said in &announced {
            notify_of(ready, members, &said.announcement.name())?;
        }
        let table = give_quanta(
            &mut self.ready,
            &mut self.members,
            processors,
            at,
            &mut self.keys,
            room,
        )?;
        self.spent = false;
        Ok(SlotPlan { table, decided })
    }

    /// Begins anew, and plans so many slots of the replica without keeping the tables.
    pub(crate) fn plan_again(
        &mut self,
        origin: &Origin,
        replica: &Replica,
        slots: u64,
    ) -> Result<(), AllocError>
        requires { CanBePlanned origin.now self.old.settings replica.now slots }
        ensures step { OnOk result (IsInStep origin.now self.old.settings (replica_of replica.now) slots
            self.new.members (R.now self.new.ready) (R.held self.new.ready)) }
        ensures readings { OnOk result (AreReadFrom (replica_of replica.now) self.new.readings) }
        ensures settings { self.new.settings ≡ self.old.settings }
        ensures spent { self.new.spent ≡ is_err result }
    {
        self.spent = true;
        self.readings = Readings::new(self.alloc, self.settings.processors())?;
        self.members = first_members(self.alloc, origin, self.settings)?;
        self.ready = ready_of(self.alloc, &self.members)?;
        let mut room = Vec::new(self.alloc);
        for slot in 0..slots {
            room = self.plan(origin, replica, slot, room)?.table;
        }
        self.spent = false;
        Ok(())
    }
}

/// What the first `count` entries of a processor's sound beginning say, by slot.
#[derive(Drop)]
pub(crate) struct Reading {
    pub count: u32,
    pub agenda: Agenda,
}

/// What the sound beginnings of all processors say, as far as they were read.
#[derive(Drop)]
pub(crate) struct Readings {
    by_processor: Vec<Reading>,
    // how many sound entries there were when all were read
    read: u64,
    // nothing is read for a later slot
    last: u64,
    alloc: Global,
}

impl Readings {
    pub(crate) fn new(alloc: Global, processors: u8) -> Result<Readings, AllocError>
        ensures { IfOk result (λ r. (x : Held) → x.processors ≡ processors → AreReadFrom x r) }
    {
        let mut by_processor = Vec::with_capacity(alloc, processors as usize)?;
        for _ in 0..processors {
            let agenda = Agenda::new(alloc);
            by_processor.push(Reading { count: 0, agenda })?;
        }
        Ok(Readings {
            by_processor,
            read: 0,
            last: 0,
            alloc,
        })
    }

    /// What a replica says at a slot. O(1) if the replica has no other sound entries than at the last
    /// call, and none for this slot or a later one.
    pub(crate) fn announced(
        &mut self,
        replica: &Replica,
        slot: u64,
    ) -> Result<Vec<Said>, AllocError>
        requires replica { IsReplica (replica_of replica.now) }
        requires untorn { Untorn (replica_of replica.now) }
        requires readings { AreReadFrom (replica_of replica.now) self.old }
        ensures readings { OnOk result (AreReadFrom (replica_of replica.now) self.new) }
        ensures announced { IfOk result (λ announced. announced.items ≡ said (replica_of replica.now) slot) }
    {
        if self.read != replica.sound_total() {
            for processor in 0..replica.processors() {
                let reading = &mut self.by_processor[processor as usize];
                replica.note_said(processor, reading.count, &mut reading.agenda)?;
                reading.count = replica.sound_count(processor);
                self.last = self.last.max(reading.agenda.last());
            }
            self.read = replica.sound_total();
        }
        let mut announced = Vec::new(self.alloc);
        if slot > self.last {
            return Ok(announced);
        }
        for reading in &self.by_processor {
            let said = reading.agenda.at(slot);
            if !said.is_empty() {
                announced.extend_from_slice(said)?;
            }
        }
        Ok(announced)
    }
}
