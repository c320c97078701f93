//! What a run begins with: at slot 0 without members, or with what the run before has left.
ghost use Rattle.std.specs.Prelude.{◌≡◌, ◌≤◌, ◌==◌, [], IfOk, OnErr, if◌then◌else◌, ◌<◌, ◌^◌, None};
ghost use Rattle.pfair_table.specs.Places.{AreLeftAt, IsState, can_add_row, first_state, with_row, IsOrigin};
ghost use Rattle.pfair_table.specs.Table.{names_task, machine, slot_of, members_before};

use crate::settings::Settings;
use crate::slot::Pick;
use pfair_admission::Members;
use pfair_weight::TaskName;
use std::alloc::{AllocError, Global};
use std::marker::Model;

/// What a run begins with: the slot at which it does, counted from the first slot of the first run;
/// its members; and the table of the slot before it, with the places of that one's rows.
///
/// A finished run leaves a state to its next run, and [`Dispatcher::resume`](crate::Dispatcher::resume)
/// begins one with it. No check tells whether a run has left a state: that no deadline is missed holds
/// of one that a run left.
#[derive(Drop)]
pub struct State {
    pub(crate) slot: u64,
    pub(crate) members: Members,
    pub(crate) table: Vec<Pick>,
    pub(crate) places: Vec<u8>,
}

impl Model for State {
    ghost use Rattle.pfair_table.specs.Table.{Carried};
    ghost use Rattle.pfair_table.specs.Places.{IsState, taken_over};

    ghost Value = { Carried };

    ghost view = { λ a. taken_over a.slot a.members a.table.items a.places.items };

    ghost invariant = { λ a. IsState (taken_over a.slot a.members a.table.items a.places.items) };
}

impl State {
    /// Creates the state in which a first run begins: slot 0, without members. Allocates nothing.
    pub fn first(alloc: Global, settings: Settings) -> State
        ensures { result ≡ first_state settings }
    {
        let members = Members::new(alloc, settings.processors(), settings.frame());
        State::new(alloc, 0, members)
    }

    /// Creates the state of a run that begins at a slot with members that a run before it can leave, and
    /// behind a slot in which nothing ran. Allocates nothing.
    pub fn new(alloc: Global, slot: u64, members: Members) -> State
        requires processors { 1 ≤ members.machine.processors }
        requires frame { 1 ≤ members.machine.frame }
        requires members { AreLeftAt slot members.machine members.members }
        requires slot { slot ≤ Members.LAST_SLOT }
        ensures { result ≡ record { slot = slot; machine = members.machine; members = members.members; table = []; places = [] } }
    {
        // a machine has 64 processors at most, and a frame 1,000,000,000 slots
        prove!(members.processors() <= Members::MAX_PROCESSORS);
        prove!(members.frame() <= Members::MAX_FRAME);
        State {
            slot,
            members,
            table: Vec::new(alloc),
            places: Vec::new(alloc),
        }
    }

    /// Adds a row to the table of the slot before the run, and returns whether it could: it can't if
    /// each processor has a row, if the task has one, or if the place isn't a processor's or has one.
    /// O(M) for M processors.
    ///
    /// # Errors
    /// Returns [`AllocError`] if an allocation fails; nothing has then changed.
    pub fn add_row(&mut self, pick: Pick, place: u8) -> Result<bool, AllocError>
        ensures added { IfOk result (λ added. self.new ≡ (if added then with_row self.old pick place else self.old)) }
        ensures able { IfOk result (λ added. added ≡ can_add_row self.old pick place) }
        ensures same { OnErr result (self.new ≡ self.old) }
    {
        let processors = self.members.processors();
        if self.table.len() >= processors as usize || place >= processors {
            return Ok(false);
        }
        if names_task(&self.table, &pick.name) || self.places.contains(&place) {
            return Ok(false);
        }
        self.table.push(pick)?;
        if let Err(error) = self.places.push(place) {
            self.table.pop();
            return Err(error.into());
        }
        Ok(true)
    }

    /// Returns the slot at which the run begins, counted from the first slot of the first run.
    pub fn slot(&self) -> u64
        ensures value { result ≡ self.now.slot }
        ensures state { IsState self.now }
    {
        self.slot
    }

    /// Returns the members, in the order of their admission.
    pub fn members(&self) -> &Members
        ensures machine { result.now.machine ≡ self.now.machine }
        ensures value { result.now.members ≡ self.now.members }
        ensures state { IsState self.now }
    {
        &self.members
    }

    /// Returns the table of the slot before the run.
    pub fn table(&self) -> &[Pick]
        ensures value { result.now ≡ self.now.table }
        ensures state { IsState self.now }
    {
        &self.table
    }

    /// Returns the places of that table: for each row the processor that ran it.
    pub fn places(&self) -> &[u8]
        ensures value { result.now ≡ self.now.places }
        ensures state { IsState self.now }
    {
        &self.places
    }
}

fn names_task(table: &[Pick], name: &TaskName) -> bool
    ensures { result ≡ names_task name.now table.now }
{
    table.iter().any(|row| *name == row.name)
}

/// What a run takes over, if it isn't the first.
pub(crate) type Origin = Option<State>;

pub(crate) fn first_members(
    alloc: Global,
    origin: &Origin,
    settings: Settings,
) -> Result<Members, AllocError>
    requires { IsOrigin origin.now settings }
    ensures { IfOk result (λ members. members ≡ record { machine = machine settings; members = members_before origin.now; heard = 0; last_slot = None }) }
{
    let Some(state) = origin else {
        return Ok(Members::new(alloc, settings.processors(), settings.frame()));
    };
    // members that a run left can be carried, and stay as they are
    state.members.carried()
}

pub(crate) fn slot_of(origin: &Origin, slot: u64) -> u64
    requires { slot_of origin.now slot < 2 ^ 64 }
    ensures { result ≡ slot_of origin.now slot }
{
    match origin {
        Some(state) => state.slot + slot,
        None => slot,
    }
}
