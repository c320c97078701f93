//! One incarnation of a task: from its joining slot to its freeing slot.
ghost use Rattle.std.specs.Prelude.{◌≡◌, ◌≤◌, ◌<◌, ◌+◌, ◌-◌, ◌*◌, ◌↔◌, IsTrue, Some, IfOk, OnOk, OnErr, nat_lt};
ghost use Rattle.pfair_admission.specs.Member.{IsMember, last_offset, theta, is_departing, lag_at, eligible_from, next_key, busy_until, freeing_slot};
ghost use Rattle.pfair_admission.specs.Admission.{with_delay, is_freed, departure, late_release, running, quantum_of, seatless, after_departure, after_late_release, after_quantum};
ghost use Rattle.pfair_admission.specs.Carried.{carried, jobs_done, CanBeCarried, member_in};
ghost use Rattle.std.specs.Option.{option_map};

use crate::decision::{Decision, Refusal};
use crate::delay::{Delay, carried_delays, delay_up_to, is_delayed_at, leaves_room};
use crate::member_state::MemberState;
use crate::members::{Members, Quantum};
use pfair_entry::Entry;
use pfair_order::Key;
use pfair_weight::{
    MAX_INDEX, MAX_OFFSET, Stepper, TaskName, Weight, b_bit, deadline, group_deadline, release,
    starts_job,
};
use std::alloc::{AllocError, Global};
use std::collections::BTreeMap;
use std::marker::Model;

/// One incarnation of a task, as a member: from its joining slot to its freeing slot.
///
/// Its subtasks are counted from 1. The next one is the first that has not run.
#[derive(Debug, Drop)]
pub struct Incarnation {
    name: TaskName,
    weight: Weight,
    early: bool,
    joined: u64,
    delays: Vec<Delay>,
    // Stands at the next subtask.
    stepper: Stepper,
    // Whether an accepted delay has exactly the index of the next subtask.
    is_put_off: bool,
    // The delays of the subtasks after the next one, those of one index added up.
    coming: BTreeMap<u64, u64>,
    freed_at: Option<u64>,
}

impl Model for Incarnation {
    ghost use Rattle.pfair_admission.specs.Member.{Member};

    ghost Value = { Member };

    ghost use Rattle.pfair_admission.specs.Incarnation.{member_of, IsIncarnation};

    ghost view = { member_of };

    ghost invariant = { IsIncarnation };
}

impl Incarnation {
    /// Returns the task's name.
    pub fn name(&self) -> &TaskName
        ensures value { result.now ≡ self.now.name }
        ensures member { IsMember self.now }
    {
        &self.name
    }

    /// Returns the task's weight.
    pub fn weight(&self) -> Weight
        ensures value { result ≡ self.now.weight }
        ensures member { IsMember self.now }
    {
        self.weight
    }

    /// Returns whether a subtask may run as soon as the one before it in the same job has run (early
    /// release, as in Anderson and Srinivasan's ERfair scheduling).
    pub fn early(&self) -> bool
        ensures value { result ≡ self.now.early }
        ensures member { IsMember self.now }
    {
        self.early
    }

    /// Returns the slot in which it joined.
    pub fn joined(&self) -> u64
        ensures value { result ≡ self.now.joined }
        ensures member { IsMember self.now }
    {
        self.joined
    }

    /// Returns the index of the next subtask, from 1 to [`MAX_INDEX`].
    pub fn next(&self) -> u64
        ensures value { result ≡ self.now.next }
        ensures member { IsMember self.now }
    {
        self.stepper.index()
    }

    /// Returns the slot from which its weight and its name are free, if it is departing.
    pub fn freed_at(&self) -> Option<u64>
        ensures value { result ≡ self.now.freed_at }
        ensures member { IsMember self.now }
    {
        self.freed_at
    }

    /// Returns its accepted delays, in the order of their announcements.
    pub fn delays(&self) -> &[Delay]
        ensures value { result.now ≡ self.now.delays }
        ensures member { IsMember self.now }
    {
        &self.delays
    }

    /// Returns whether it is departing, and so gets no quantum.
    pub fn is_departing(&self) -> bool
        ensures { result ≡ is_departing self.now }
    {
        self.freed_at.is_some()
    }

    /// Returns the offset of the windows of subtask `index`, in slots: the joining slot and the
    /// accepted delays of this subtask and of those before it (the intra-sporadic model of Anderson
    /// and Srinivasan). O(d) for d accepted delays.
    pub fn theta(&self, index: u64) -> u64
        ensures value { result ≡ theta self.now index }
        ensures within { result ≤ MAX_OFFSET }
        ensures member { IsMember self.now }
    {
        self.joined + delay_up_to(&self.delays, index)
    }

    /// Returns its lag at a time, as a numerator over its period p: `e * (time - joined) - p * (next - 1)`
    /// for a cost e. No slot counts before it joined. O(1).
    ///
    /// It is right at all times, and has at most 95 bits with its sign. A book of a run's lags has the
    /// same of each member that isn't departing, in the order of admission, in a first run and in those
    /// that go on from it (`books_show_lags` of `pfair_in_time`).
    pub fn lag(&self, time: u64) -> i128
        ensures { result ≡ lag_at time self.now }
    {
        let due = self.weight.cost() as i128 * time.saturating_sub(self.joined) as i128;
        let done = self.weight.period() as i128 * (self.next() - 1) as i128;
        due - done
    }

    /// Returns the slot from which subtask `index` may run, once the one before it has run: its
    /// release, or, for an early task, the joining slot if the subtask doesn't start a job and
    /// no accepted delay has exactly its index. O(d) for d accepted delays.
    pub fn eligible(&self, index: u64) -> u64
        requires first { 1 ≤ index }
        requires last { index ≤ MAX_INDEX }
        ensures { result ≡ eligible_from self.now index }
    {
        if !self.early || starts_job(self.weight, index) || is_delayed_at(&self.delays, index) {
            release(self.weight, index, self.theta(index))
        } else {
            self.joined
        }
    }

    /// Returns the slot from which the next subtask may run, and its key. O(1), however many delays
    /// were accepted.
    pub fn next_subtask(&self) -> (u64, Key)
        ensures { result ≡ (eligible_from self.now self.now.next, next_key self.now) }
    {
        let key = Key {
            d: self.stepper.deadline(),
            b: self.stepper.b_bit(),
            group: self.stepper.group_deadline(),
            name: self.name,
        };
        if self.early && !self.is_put_off && !starts_job(self.weight, self.stepper.index()) {
            return (self.joined, key);
        }
        (self.stepper.release(), key)
    }

    /// Decides on a departure at `slot`. Unless it is refused, its weight and its name are free
    /// from that slot on if it never ran, else from the later of that slot and the one in which the
    /// claim of its last subtask ends.
    pub(crate) fn depart(&mut self, slot: u64) -> Decision
        ensures decision { result ≡ departure slot (Some self.old) }
        ensures member { self.new ≡ after_departure result self.old }
    {
        if self.is_departing() {
            return Decision::Refused(Refusal::AlreadyDeparting);
        }
        let freed_at = self.freeing_slot(slot);
        self.freed_at = Some(freed_at);
        Decision::Departing { freed_at }
    }

    /// Decides on a late release at `slot`: unless it is refused, subtask `index` and all later
    /// ones come `by` slots later.
    pub(crate) fn delay(&mut self, slot: u64, index: u64, by: u64) -> Result<Decision, AllocError>
        requires first { 1 ≤ index }
        requires last { index ≤ MAX_INDEX }
        requires room { last_offset self.old + by ≤ MAX_OFFSET }
        ensures decision { IfOk result (λ d. d ≡ late_release slot (Some self.old) index) }
        ensures member { IfOk result (λ d. self.new ≡ after_late_release index by d self.old) }
        ensures err { OnErr result (self.new ≡ self.old) }
    {
        if self.is_departing() {
            return Ok(Decision::Refused(Refusal::AlreadyDeparting));
        }
        // Its offset is at least that of the next subtask: only if this doesn't settle it are the
        // delays summed.
        if index < self.next()
            || release(self.weight, index, self.stepper.theta()) < slot
                && release(self.weight, index, self.theta(index)) < slot
        {
            return Ok(Decision::Refused(Refusal::AlreadyReleased));
        }
        self.put_off(index, by)?;
        Ok(Decision::Delayed)
    }

    fn put_off(&mut self, index: u64, by: u64) -> Result<(), AllocError>
        requires { last_offset self.old + by ≤ MAX_OFFSET }
        ensures ok { OnOk result (self.new ≡ with_delay index by self.old) }
        ensures err { OnErr result (self.new ≡ self.old) }
    {
        self.delays.reserve(1)?;
        let next = self.stepper.index();
        if index > next {
            let so_far = self.coming.get(&index).copied().unwrap_or(0);
            self.coming.insert(index, so_far + by)?;
        } else {
            self.stepper.delay(by);
            self.is_put_off |= index == next;
        }
        self.delays.push(Delay { index, by })?;
        Ok(())
    }

    /// Counts a quantum at this seat and returns it, or `None` if it is departing.
    pub(crate) fn run_on(&mut self, seat: usize) -> Option<Quantum>
        requires { self.old.next < MAX_INDEX }
        ensures quantum { option_map seatless result ≡ option_map quantum_of (running (Some self.old)) }
        ensures member { self.new ≡ after_quantum self.old }
    {
        if self.is_departing() {
            return None;
        }
        let index = self.stepper.index();
        self.stepper.advance();
        let delay = self.coming.remove(&(index + 1));
        self.is_put_off = delay.is_some();
        self.stepper.delay(delay.unwrap_or(0));
        let (next_from, next_key) = self.next_subtask();
        Some(Quantum {
            index,
            seat,
            next_from,
            next_key,
        })
    }

    pub(crate) fn can_be_carried(&self) -> bool
        ensures { IsTrue result ↔ CanBeCarried self.now }
    {
        let joined = self.joined + self.jobs_done() * self.weight.period();
        self.weight.cost() <= Entry::LAST_INDEX && leaves_room(&self.delays, joined)
    }

    /// Its state in a next run, with its indexes lowered by whole jobs.
    pub(crate) fn carried(&self, alloc: Global) -> Result<MemberState, AllocError>
        requires { CanBeCarried self.now }
        ensures state { IfOk result (λ s. member_in s ≡ carried self.now) }
        ensures member { IfOk result (λ s. IsMember (member_in s)) }
    {
        let jobs = self.jobs_done();
        let subtasks = jobs * self.weight.cost();
        let delays = carried_delays(alloc, &self.delays, self.next(), subtasks)?;
        Ok(MemberState {
            name: self.name,
            weight: self.weight,
            early: self.early,
            joined: self.joined + jobs * self.weight.period(),
            next: self.next() - subtasks,
            freed_at: self.freed_at,
            delays,
        })
    }

    pub(crate) fn restored(alloc: Global, state: MemberState) -> Result<Incarnation, AllocError>
        requires { IsMember (member_in state) }
        ensures { IfOk result (λ m. m ≡ member_in state) }
    {
        let mut member = Incarnation {
            name: state.name,
            weight: state.weight,
            early: state.early,
            joined: state.joined,
            delays: Vec::new(alloc),
            stepper: Stepper::at(state.weight, state.next, state.joined),
            is_put_off: false,
            coming: BTreeMap::new(alloc),
            freed_at: state.freed_at,
        };
        for delay in &state.delays {
            member.put_off(delay.index, delay.by)?;
        }
        Ok(member)
    }

    // The whole jobs before that of the last subtask that ran.
    fn jobs_done(&self) -> u64
        ensures value { result ≡ jobs_done self.now }
        ensures subtasks { result * self.now.weight.cost ≤ self.now.next - 2 }
        ensures slots { result * self.now.weight.period ≤ MAX_INDEX * Weight.MAX_PERIOD }
        ensures member { IsMember self.now }
    {
        self.next().saturating_sub(2) / self.weight.cost()
    }

    // The slot from which its weight and its name are free if it departs at `slot`.
    fn freeing_slot(&self, slot: u64) -> u64
        ensures { result ≡ freeing_slot self.now slot }
    {
        if self.next() == 1 {
            return slot;
        }
        let last = self.next() - 1;
        let theta = self.theta(last);
        let busy_until = if self.weight.is_heavy() {
            group_deadline(self.weight, last, theta) + 1
        } else {
            deadline(self.weight, last, theta) + b_bit(self.weight, last)
        };
        slot.max(busy_until)
    }
}

pub(crate) fn has_come(freed_at: Option<u64>, slot: u64) -> bool
    ensures { result ≡ is_freed slot freed_at }
{
    freed_at.is_some_and(|freed_at| freed_at <= slot)
}
