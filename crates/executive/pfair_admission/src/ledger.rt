//! The members of a machine at the boundary of a slot, and the decisions on announcements.
ghost use Rattle.std.specs.Prelude.{◌≡◌, ℕ, ◌≤◌, ◌<◌, ◌+◌, ◌-◌, ◌*◌, ◌^◌, Bool, true, [], ◌∷◌, ◌++◌, filter, nat_eq, OnOk, OnErr, IfOk, IfErr, IfSome, IfNone, None, Some, length, map, take};
ghost use Rattle.std.specs.List.{AllByRecursion};
ghost use Rattle.pfair_weight.specs.Window.{units_of};
ghost use Rattle.pfair_entry.specs.Entry.{IsWithinLimits};
ghost use Rattle.pfair_entry.specs.declared.entry.Announcement.TheVariants.{Arrive, Depart, Late};
ghost use Rattle.pfair_admission.specs.Member.{IsMember, Member};
ghost use Rattle.pfair_admission.specs.Admission.{member_named, arrival, announcements, claimed, present, earlier_of, NoneFreed, NoneFreedBefore, EachHasRoom};
ghost use Rattle.pfair_admission.specs.Carried.{carried, CanBeCarried, member_in, CanBeRestored, IsRestoreFault};
ghost use Rattle.pfair_admission.specs.Ledger.{after, after_all, decisions_on, has_number, is_there, listed, membership, decision_on, whole, CanDecide, CanJoin, HasDecided, HasRegister, IsArrivalByWeight, IsDecided, IsFound, IsLedger, IsPlace, IsUnswept};

use crate::decision::{Decision, Refusal};
use crate::incarnation::{Incarnation, has_come};
use crate::member_state::{MemberState, RestoreFault};
use crate::members::Members;
use indexmap::IndexMap;
use pfair_entry::{Announcement, Said};
use pfair_weight::{MAX_OFFSET, TaskName, Weight};
use std::alloc::{AllocError, Global};

/// The members of a machine, by name and in the order of their admission.
///
/// During the boundary of a slot, who is freed by that slot no longer counts: the name and the
/// units are free at once. The map keeps such a member until the boundary ends, since removing one
/// from among the others is O(n), and a name can come and go thousands of times in a boundary.
#[derive(Drop)]
pub(crate) struct Ledger {
    pub alloc: Global,
    pub processors: u8,
    pub frame: u64,
    // By the number of their admission, so in its order.
    pub members: IndexMap<u64, Incarnation>,
    // The number of the latest member of each name.
    pub names: IndexMap<TaskName, u64>,
    // The number of the next admission.
    pub admitted: u64,
    // The units of those that count.
    pub claim: u64,
    // No member is freed before this slot.
    pub first_freeing: Option<u64>,
}

impl Ledger {
    /// Creates a ledger without members. Allocates nothing.
    pub(crate) fn new(alloc: Global, processors: u8, frame: u64) -> Self
        requires few_processors { processors ≤ Members.MAX_PROCESSORS }
        requires short_frame { frame ≤ Members.MAX_FRAME }
        ensures machine { (result.processors ≡ processors) × (result.frame ≡ frame) }
        ensures members { (listed result ≡ []) × (result.admitted ≡ 0) }
        ensures kept { IsLedger (λ _. true) result }
    {
        Ledger {
            alloc,
            processors,
            frame,
            members: IndexMap::new(alloc),
            names: IndexMap::new(alloc),
            admitted: 0,
            claim: 0,
            first_freeing: None,
        }
    }

    /// Returns where the latest member of that name is in the order of admission.
    pub(crate) fn find(&self, name: &TaskName) -> Option<usize>
        ensures { (counts : Member → Bool) → HasRegister counts self.now → IsFound counts name.now (listed self.now) result }
    {
        let (hint, _, number) = self.names.get_full(name)?;
        match self.members.get_index(hint) {
            // A name mostly has the index of its member.
            Some((there, _)) if there == number => Some(hint),
            _ => self.members.get_index_of(number),
        }
    }

    /// Returns where the member of that name is, if there is one. A wrong `seat` costs a look-up.
    pub(crate) fn find_at(&self, seat: usize, name: &TaskName) -> Option<usize>
        ensures { HasRegister (λ _. true) self.now → IsFound (λ _. true) name.now (listed self.now) result }
    {
        match self.members.get_index(seat) {
            Some((_, member)) if member.name() == name => Some(seat),
            _ => self.find(name),
        }
    }

    /// Drops the members that are freed by `slot`, in the order of the others. Allocates nothing.
    ///
    /// O(n) for n members if one of them may be freed by then, and else O(1).
    pub(crate) fn sweep(&mut self, slot: u64)
        requires { IsUnswept slot self.old }
        ensures same { membership slot self.new ≡ membership slot self.old }
        ensures gone { NoneFreed slot (listed self.new) }
        ensures kept { IsLedger (λ _. true) self.new }
        ensures admitted { self.new.admitted ≡ self.old.admitted }
    {
        if !has_come(self.first_freeing, slot) {
            return;
        }
        self.members.retain(
            |_number: &u64, member: &mut Incarnation| -> bool
                ensures { (result ≡ is_there slot member.old) × (member.new ≡ member.old) }
            { !has_come(member.freed_at(), slot) },
        );
        let members = &self.members;
        self.names.retain(
            |_name: &TaskName, number: &mut u64| -> bool
                ensures { (result ≡ has_number number.old members.entry.now.entries) × (number.new ≡ number.old) }
            { members.contains_key(&*number) },
        );
        let mut claim = 0;
        let mut first = None;
        for place in 0..self.members.len() {
            let member = &self.members[place];
            claim += claim_of(member.weight(), self.frame);
            first = earlier(first, member.freed_at());
        }
        self.claim = claim;
        self.first_freeing = first;
    }

    pub(crate) fn decide_all(
        &mut self,
        slot: u64,
        announced: &[Said],
    ) -> Result<Vec<Decision>, AllocError>
        requires slot { slot ≤ Members.LAST_SLOT }
        requires able { CanDecide slot (length announced.now) self.old }
        requires limits { AllByRecursion (λ a. IsWithinLimits a.announcement) announced.now }
        ensures decisions { IfOk result (λ all. all.items ≡ decisions_on slot (announcements announced.now) (membership slot self.old)) }
        ensures members { OnOk result (membership slot self.new ≡ after_all slot (announcements announced.now) (membership slot self.old)) }
        ensures err { OnErr result ((k : ℕ) × (membership slot self.new ≡ after_all slot (take k (announcements announced.now)) (membership slot self.old))) }
        ensures wanted { OnErr result (0 < length announced.now) }
        ensures ledger { HasDecided slot (length announced.now) self.old self.new }
    {
        let mut all = Vec::new(self.alloc);
        for said in announced {
            all.push(self.decide(slot, said.announcement)?)?;
        }
        Ok(all)
    }

    fn decide(&mut self, slot: u64, announcement: Announcement) -> Result<Decision, AllocError>
        requires slot { slot ≤ MAX_OFFSET }
        requires kept { IsLedger (is_there slot) self.old }
        requires numbers { self.old.admitted + 1 < 2 ^ 64 }
        requires room { EachHasRoom (present slot (listed self.old)) }
        requires limits { IsWithinLimits announcement }
        ensures decided { IsDecided slot announcement (membership slot self.old) (membership slot self.new) result }
        ensures kept { IsLedger (is_there slot) self.new }
        ensures admitted { self.new.admitted ≤ self.old.admitted + 1 }
    {
        match announcement {
            Announcement::Arrive {
                name,
                weight,
                early,
            } => {
                if self.place_of(slot, &name).is_some() {
                    return Ok(Decision::Refused(Refusal::NameTaken));
                }
                let decision = self.arrival_by_weight(weight);
                if let Decision::Admitted = decision {
                    self.add(MemberState {
                        name,
                        weight,
                        early,
                        joined: slot,
                        next: 1,
                        freed_at: None,
                        delays: Vec::new(self.alloc),
                    })?;
                }
                Ok(decision)
            }
            Announcement::Depart { name } => Ok(self.depart(slot, &name)),
            Announcement::Late { name, index, by } => self.delay(slot, &name, index, by),
        }
    }

    pub(crate) fn add(&mut self, state: MemberState) -> Result<(), AllocError>
        requires member { IsMember (member_in state) }
        requires room { (counts : Member → Bool) × CanJoin counts self.old (member_in state) }
        ensures members { OnOk result (whole self.new ≡ record (whole self.old) { members = listed self.old ++ member_in state ∷ [] }) }
        ensures err { OnErr result (whole self.new ≡ whole self.old) }
        ensures kept { (counts : Member → Bool) → CanJoin counts self.old (member_in state) → IsLedger counts self.new }
        ensures numbers { self.new.admitted + length (listed self.old) ≡ self.old.admitted + length (listed self.new) }
        ensures admitted { self.new.admitted ≤ self.old.admitted + 1 }
    {
        self.members.reserve(1)?;
        self.names.reserve(1)?;
        let (name, weight, freed_at) = (state.name, state.weight, state.freed_at);
        let member = Incarnation::restored(self.alloc, state)?;
        self.members.insert(self.admitted, member).unwrap();
        self.names.insert(name, self.admitted).unwrap();
        self.admitted += 1;
        self.claim += claim_of(weight, self.frame);
        self.first_freeing = earlier(self.first_freeing, freed_at);
        Ok(())
    }

    /// What is decided on an arrival whose name is free.
    pub(crate) fn arrival_by_weight(&self, weight: Weight) -> Decision
        requires few_processors { self.now.processors ≤ Members.MAX_PROCESSORS }
        requires short_frame { self.now.frame ≤ Members.MAX_FRAME }
        requires room { self.now.claim ≤ self.now.processors * self.now.frame }
        ensures { IsArrivalByWeight self.now weight result }
    {
        let Some(units) = weight.units(self.frame) else {
            return Decision::Refused(Refusal::PeriodOutsideFrame);
        };
        if self.claim + units > self.processors as u64 * self.frame {
            return Decision::Refused(Refusal::NoRoom);
        }
        Decision::Admitted
    }

    fn depart(&mut self, slot: u64, name: &TaskName) -> Decision
        requires { IsLedger (is_there slot) self.old }
        ensures decision { result ≡ decision_on slot (Depart name.now) (membership slot self.old) }
        ensures members { membership slot self.new ≡ after slot (Depart name.now) (membership slot self.old) }
        ensures kept { IsLedger (is_there slot) self.new }
        ensures admitted { self.new.admitted ≡ self.old.admitted }
    {
        let Some(place) = self.place_of(slot, name) else {
            return Decision::Refused(Refusal::NoSuchTask);
        };
        let member = &mut self.members[place];
        let decision = member.depart(slot);
        self.first_freeing = earlier(self.first_freeing, member.freed_at());
        if has_come(member.freed_at(), slot) {
            self.claim -= claim_of(member.weight(), self.frame);
        }
        decision
    }

    fn delay(
        &mut self,
        slot: u64,
        name: &TaskName,
        index: u64,
        by: u64,
    ) -> Result<Decision, AllocError>
        requires kept { IsLedger (is_there slot) self.old }
        requires room { EachHasRoom (present slot (listed self.old)) }
        requires limits { IsWithinLimits (Late name.now index by) }
        ensures decided { IsDecided slot (Late name.now index by) (membership slot self.old) (membership slot self.new) result }
        ensures kept { IsLedger (is_there slot) self.new }
        ensures admitted { self.new.admitted ≡ self.old.admitted }
    {
        let Some(place) = self.place_of(slot, name) else {
            return Ok(Decision::Refused(Refusal::NoSuchTask));
        };
        self.members[place].delay(slot, index, by)
    }

    // Returns where the member of that name is, unless it is freed by `slot`.
    fn place_of(&self, slot: u64, name: &TaskName) -> Option<usize>
        requires { HasRegister (is_there slot) self.now }
        ensures some { IfSome result (λ place. IsPlace (is_there slot) name.now (listed self.now) place) }
        ensures none { IfNone result (member_named (present slot (listed self.now)) name.now ≡ None) }
    {
        let place = self.find(name)?;
        if has_come(self.members[place].freed_at(), slot) {
            return None;
        }
        Some(place)
    }
}

// Returns the units of a weight whose period divides the frame.
fn claim_of(weight: Weight, frame: u64) -> u64
    ensures value { result ≡ units_of weight frame }
    ensures within { result ≤ frame }
{
    weight.cost() * (frame / weight.period())
}

fn earlier(left: Option<u64>, right: Option<u64>) -> Option<u64>
    ensures { result ≡ earlier_of left right }
{
    match (left, right) {
        (Some(a), Some(b)) => Some(a.min(b)),
        (None, other) | (other, None) => other,
    }
}
