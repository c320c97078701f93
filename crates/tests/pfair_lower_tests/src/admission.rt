//! As many announcements as there may be, in one boundary, and the texts of refusals and faults.
ghost use Rattle.std.specs.Prelude.{IfOk};
ghost use Rattle.std.specs.List.{AllByRecursion};
ghost use Rattle.pfair_entry.specs.Entry.{IsWithinLimits};

use pfair_admission::{Decision, Members, Refusal};
use pfair_entry::{Announcement, Said};
use pfair_weight::{TaskName, Weight};
use std::alloc::{AllocError, Global};
use std::process::Abort;

const MANY: u32 = 262_144;

// A name of its own for each place.
fn name(rt: &impl Abort, alloc: Global, place: u32) -> TaskName {
    let text = format!(in alloc; "t{place}").expect(rt, "memory");
    TaskName::from_bytes(text.as_bytes()).expect(rt, "a name")
}

// A task of the least weight there is.
fn arrives(rt: &impl Abort, name: TaskName) -> Said
    ensures { IsWithinLimits result.announcement }
{
    let announcement = Announcement::Arrive {
        name,
        weight: Weight::new(1, 1_000_000_000).expect(rt, "a weight"),
        early: false,
    };
    Said {
        proc: 0,
        number: 1,
        announcement,
    }
}

fn arrivals(rt: &impl Abort, alloc: Global) -> Result<Vec<Said>, AllocError>
    ensures { IfOk result (λ all. AllByRecursion (λ a. IsWithinLimits a.announcement) all.items) }
{
    let mut announced = Vec::new(alloc);
    for place in 0..MANY {
        announced.push(arrives(rt, name(rt, alloc, place)))?;
    }
    Ok(announced)
}

// All are admitted, stand in the order in which they were announced, and stay when a slot is passed.
fn hears(rt: &impl Abort, alloc: Global, members: &mut Members, announced: &[Said])
    requires { AllByRecursion (λ a. IsWithinLimits a.announcement) announced.now }
{
    assert!(rt; announced.len() <= 262_144 && members.heard() == 0);
    assert!(rt; members.last_slot().is_none());
    let decisions = members.boundary(0, announced).expect(rt, "memory");
    assert!(rt; decisions.len() == 262_144 && members.len() == 262_144);
    for decision in &decisions {
        assert!(rt; *decision == Decision::Admitted);
    }
    let (last, member) = members.at(262_143).expect(rt, "a member");
    assert!(rt; *last == name(rt, alloc, 262_143) && member.eligible(1) == 0);
    members.pass(1);
    assert!(rt;
        members.len() == 262_144,
        "a slot that is passed freed a member that stays"
    );
}

#[test]
fn as_many_as_there_may_be(rt: HostRuntime) {
    let announced = arrivals(&rt, rt.alloc()).expect(&rt, "memory");
    let mut members = Members::new(rt.alloc(), 1, 1_000_000_000);
    hears(&rt, rt.alloc(), &mut members, &announced);
}

// The other texts are compared with the specification's table.
#[test]
fn a_refusal_has_a_number_and_a_text(rt: HostRuntime) {
    let refusal = Refusal::NoRoom;
    let number = refusal.number();
    let shown = format!(in rt.alloc(); "{number} {refusal}").expect(&rt, "memory");
    assert!(&rt; shown.as_str() == "22 no room", "another text");
}
