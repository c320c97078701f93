//! The members of a machine from slot to slot.
ghost use Rattle.std.specs.Prelude.{◌≡◌, ◌≤◌, ◌<◌, ◌+◌, [], ◌∷◌, ◌++◌, OnOk, OnErr, IfOk, IfErr, IfSome, IfNone, None, Some, is_some, length, map, slice_get, if◌then◌else◌};
ghost use Rattle.std.specs.List.{AllByRecursion};
ghost use Rattle.std.specs.Option.{ForSome, option_copied, option_map};
ghost use Rattle.pfair_entry.specs.Entry.{IsWithinLimits};
ghost use Rattle.pfair_admission.specs.Admission.{member_named, boundary, boundary_decisions, announcements, decision, running, ran, quantum_of, seatless, after_boundary, IsCutShort};
ghost use Rattle.pfair_admission.specs.Carried.{carried, CanBeCarried, IsFirstLeft, member_in, CanBeRestored, IsRestoreFault};

use crate::decision::{Decision, Refusal};
use crate::incarnation::Incarnation;
use crate::ledger::Ledger;
use crate::member_state::{MemberState, RestoreFault};
use pfair_entry::{Announcement, Said};
use pfair_order::Key;
use pfair_weight::{MAX_INDEX, TaskName, Weight};
use std::alloc::{AllocError, Global};
use std::marker::Model;

/// A quantum that a member has, and the subtask that comes after it.
#[derive(Clone, Copy, Debug, PartialEq, Eq)]
pub struct Quantum {
    /// The index of the subtask that has it, from 1.
    pub index: u64,
    /// Where the member stands now: the hint for its next quantum.
    pub seat: usize,
    /// The slot from which the next subtask may run.
    pub next_from: u64,
    /// The key of the next subtask.
    pub next_key: Key,
}

/// The members of a machine, in the order of their admission: the tasks that were admitted and not
/// freed yet.
#[derive(Drop)]
pub struct Members {
    ledger: Ledger,
    heard: u64,
    last_slot: Option<u64>,
}

impl Model for Members {
    ghost use Rattle.pfair_admission.specs.Admission.{Roster};

    ghost Value = { Roster };

    ghost use Rattle.pfair_admission.specs.Ledger.{roster_of, IsKept};

    ghost view = { roster_of };

    ghost invariant = { IsKept };
}

impl Members {
    /// The most processors of a machine.
    pub const MAX_PROCESSORS: u8 = pfair_entry::MAX_PROCESSORS;

    /// The longest frame, in slots: every period can divide it.
    pub const MAX_FRAME: u64 = Weight::MAX_PERIOD;

    /// The most announcements over all boundaries.
    pub const MAX_HEARD: u64 = 262_144;

    /// The last slot of a boundary: a run of accepted delays after it keeps all offsets at most
    /// [`MAX_OFFSET`](pfair_weight::MAX_OFFSET).
    pub const LAST_SLOT: u64 = 824_633_720_832;

    /// Creates a machine without members, with 1 to 64 processors and frames of 1 to 1,000,000,000
    /// slots. Allocates nothing.
    pub fn new(alloc: Global, processors: u8, frame: u64) -> Self
        requires some_processor { 1 ≤ processors }
        requires few_processors { processors ≤ Members.MAX_PROCESSORS }
        requires some_slot { 1 ≤ frame }
        requires short_frame { frame ≤ Members.MAX_FRAME }
        ensures { result ≡ record { machine = record { processors = processors; frame = frame }; members = []; heard = 0; last_slot = None } }
    {
        Members {
            ledger: Ledger::new(alloc, processors, frame),
            heard: 0,
            last_slot: None,
        }
    }

    /// Returns the name of the first member, in the order of admission, that can't be a member of a
    /// next run: its cost is above [`Entry::LAST_INDEX`](pfair_entry::Entry::LAST_INDEX), or with its
    /// indexes lowered by whole jobs its offset after all delays is above [`Members::LAST_SLOT`].
    /// O(n + d) for n members with d accepted delays.
    pub fn first_left_behind(&self) -> Option<TaskName>
        ensures some { IfSome result (λ name. IsFirstLeft self.now.members name) }
        ensures none { IfNone result (AllByRecursion CanBeCarried self.now.members) }
    {
        for place in 0..self.ledger.members.len() {
            let member = &self.ledger.members[place];
            if !member.can_be_carried() {
                return Some(*member.name());
            }
        }
        None
    }

    /// Creates the members of a next run: these, with their indexes lowered by whole jobs.
    ///
    /// Each member's jobs before that of its last quantum are dropped, and it counts as joined as
    /// many periods later. Its accepted delays up to its last quantum become one, of subtask 1.
    /// Slots stay as they are. O(n + d log d) for n members with d accepted delays.
    ///
    /// All of these members can be carried, as [`Members::first_left_behind`] tells.
    ///
    /// # Errors
    /// Returns [`AllocError`] if an allocation fails.
    pub fn carried(&self) -> Result<Members, AllocError>
        requires able { AllByRecursion CanBeCarried self.now.members }
        ensures { IfOk result (λ next. next ≡ record { machine = self.now.machine; members = map carried self.now.members; heard = 0; last_slot = None }) }
    {
        let tasks = self.ledger.members.len();
        let mut ledger = Ledger::new(self.ledger.alloc, self.ledger.processors, self.ledger.frame);
        ledger.members.reserve(tasks)?;
        ledger.names.reserve(tasks)?;
        for place in 0..tasks {
            ledger.add(self.ledger.members[place].carried(self.ledger.alloc)?)?;
        }
        Ok(Members {
            ledger,
            heard: 0,
            last_slot: None,
        })
    }

    /// Adds a member behind the others, as a run that ended before `slot` can have left it to the next.
    ///
    /// No check can tell whether there was such a run. Call this before the first boundary.
    /// O(d log d) for d delays, and O(n) at worst for n members, when a map grows.
    ///
    /// # Errors
    /// Returns [`RestoreFault`], with nothing changed, if the name or the weight isn't admitted, if no
    /// run leaves such a member, or if an allocation fails.
    pub fn restore(&mut self, slot: u64, state: MemberState) -> Result<(), RestoreFault>
        requires { self.old.last_slot ≡ None }
        ensures fit { OnOk result (CanBeRestored self.old.machine slot self.old.members (member_in state)) }
        ensures members { OnOk result (self.new ≡ record self.old { members = self.old.members ++ member_in state ∷ [] }) }
        ensures fault { IfErr result (IsRestoreFault self.old.machine slot self.old.members (member_in state)) }
        ensures err { OnErr result (self.new ≡ self.old) }
    {
        // each member has a number
        prove!(self.ledger.members.len() < 1 << 63);
        if self.ledger.find(&state.name).is_some() {
            return Err(RestoreFault::NotAdmitted(Refusal::NameTaken));
        }
        if let Decision::Refused(refusal) = self.ledger.arrival_by_weight(state.weight) {
            return Err(RestoreFault::NotAdmitted(refusal));
        }
        if !state.is_left_at(slot) {
            return Err(RestoreFault::NotLeft);
        }
        self.ledger.add(state)?;
        Ok(())
    }

    /// Drops the members that are freed by `slot`, decides the announcements one by one in their
    /// order, and returns the decisions.
    ///
    /// `slot` is at most [`Members::LAST_SLOT`] and not before that of an earlier call. At most
    /// 262,144 announcements are handed in over all calls.
    ///
    /// O(n) for n members if one is freed by `slot`. Then O(1) amortized for each arrival; for a
    /// member with d accepted delays O(d) for a departure and for a late release.
    ///
    /// # Errors
    /// Returns [`AllocError`] if an allocation fails, and only if something was announced. The
    /// members are then as after the first few of the announcements, and all of them count among
    /// those that were handed in.
    pub fn boundary(&mut self, slot: u64, announced: &[Said]) -> Result<Vec<Decision>, AllocError>
        requires slot { slot ≤ Members.LAST_SLOT }
        requires order { ForSome self.old.last_slot (λ last. last ≤ slot) }
        requires heard { self.old.heard + length announced.now ≤ Members.MAX_HEARD }
        requires limits { AllByRecursion (λ a. IsWithinLimits a.announcement) announced.now }
        ensures decisions { IfOk result (λ all. all.items ≡ boundary_decisions self.old.machine slot self.old.members (announcements announced.now)) }
        ensures members { OnOk result (self.new ≡ after_boundary slot announced.now self.old) }
        ensures err { OnErr result (IsCutShort slot announced.now self.old self.new) }
        ensures wanted { OnErr result (0 < length announced.now) }
    {
        self.pass(slot);
        let decisions = self.ledger.decide_all(slot, announced);
        self.ledger.sweep(slot);
        self.heard += announced.len() as u64;
        decisions
    }

    /// Drops the members that are freed by `slot`, as [`Members::boundary`] does if nothing is
    /// announced. Allocates nothing. O(n) for n members if one is freed by `slot`, and else O(1).
    pub fn pass(&mut self, slot: u64)
        requires slot { slot ≤ Members.LAST_SLOT }
        requires order { ForSome self.old.last_slot (λ last. last ≤ slot) }
        ensures { self.new ≡ record self.old { members = boundary self.old.machine slot self.old.members []; last_slot = Some slot } }
    {
        self.last_slot = Some(slot);
        self.ledger.sweep(slot);
    }

    /// Gives the next subtask of the named member a quantum and returns the subtask's index.
    /// Returns `None`, with nothing changed, if there is no such member, or it is departing.
    ///
    /// The member's next index is below [`MAX_INDEX`]. O(log d) for d accepted delays of later
    /// subtasks.
    pub fn ran(&mut self, name: &TaskName) -> Option<u64>
        requires { ForSome (member_named self.old.members name.now) (λ m. m.next < MAX_INDEX) }
        ensures index { result ≡ option_map (λ m. m.next) (running (member_named self.old.members name.now)) }
        ensures members { self.new ≡ (if is_some result then record self.old { members = ran name.now self.old.members } else self.old) }
    {
        let quantum = self.ran_on(0, name)?;
        Some(quantum.index)
    }

    /// Gives the next subtask of the named member a quantum, as [`Members::ran`], and returns its
    /// index with the slot from which the subtask after it may run and that one's key, as
    /// [`Incarnation::next_subtask`] then does.
    ///
    /// `seat` is where the member stood at its last quantum ([`Quantum::seat`]). Any other number
    /// costs a look-up of the name. Otherwise the cost is that of [`Members::ran`].
    pub fn ran_on(&mut self, seat: usize, name: &TaskName) -> Option<Quantum>
        requires { ForSome (member_named self.old.members name.now) (λ m. m.next < MAX_INDEX) }
        ensures quantum { option_map seatless result ≡ option_map quantum_of (running (member_named self.old.members name.now)) }
        ensures members { self.new ≡ (if is_some result then record self.old { members = ran name.now self.old.members } else self.old) }
    {
        let place = self.ledger.find_at(seat, name)?;
        self.ledger.members[place].run_on(place)
    }

    /// Allocates room for `tasks` members at once. No boundary grows the maps while there are no more.
    ///
    /// O(`tasks`). A freed member counts until its boundary ends. Without this call an arrival is
    /// O(1) amortized and O(n) at worst for n members, when it grows a map.
    ///
    /// # Errors
    /// Returns [`AllocError`] if an allocation fails.
    pub fn reserve(&mut self, tasks: usize) -> Result<(), AllocError>
        ensures { self.new ≡ self.old }
    {
        // A map whose members come and go is hashed anew in place while it is at most half full.
        let room = tasks
            .saturating_mul(2)
            .saturating_sub(self.ledger.members.len());
        self.ledger.members.reserve(room)?;
        self.ledger.names.reserve(room)
    }

    /// Returns the member of that name, departing or not. O(1).
    pub fn get(&self, name: &TaskName) -> Option<&Incarnation>
        ensures { option_copied result ≡ member_named self.now.members name.now }
    {
        let place = self.ledger.find(name)?;
        Some(&self.ledger.members[place])
    }

    /// Returns the number of processors.
    pub fn processors(&self) -> u8
        ensures value { result ≡ self.now.machine.processors }
        ensures few { result ≤ Members.MAX_PROCESSORS }
    {
        self.ledger.processors
    }

    /// Returns the slots of a frame.
    pub fn frame(&self) -> u64
        ensures value { result ≡ self.now.machine.frame }
        ensures short { result ≤ Members.MAX_FRAME }
    {
        self.ledger.frame
    }

    /// Returns the number of members.
    pub fn len(&self) -> usize
        ensures { result ≡ length self.now.members }
    {
        self.ledger.members.len()
    }

    /// Returns the member at an index in the order of admission, from 0, and its name. O(1).
    pub fn at(&self, place: usize) -> Option<(&TaskName, &Incarnation)>
        ensures name { option_map (λ m. m.0.now) result ≡ option_map (λ m. m.name) (slice_get self.now.members place) }
        ensures member { option_map (λ m. m.1.now) result ≡ slice_get self.now.members place }
    {
        let (_, member) = self.ledger.members.get_index(place)?;
        Some((member.name(), member))
    }

    /// Returns the number of announcements over all boundaries, also those at which an allocation
    /// failed.
    pub fn heard(&self) -> u64
        ensures value { result ≡ self.now.heard }
        ensures within { result ≤ Members.MAX_HEARD }
    {
        self.heard
    }

    /// Returns the slot of the last boundary, also if an allocation failed there.
    pub fn last_slot(&self) -> Option<u64>
        ensures { result ≡ self.now.last_slot }
    {
        self.last_slot
    }
}
