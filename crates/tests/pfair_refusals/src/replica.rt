//! Takes, merges, copies and lists of faults of replicas.

use crate::entries::{quiet, ten};
use crate::{Look, Made, Named};
use pfair_entry::Entry;
use pfair_lattice::Flat;
use pfair_replica::{MergeFault, Replica, TakeFault, Taken};
use std::alloc::{AllocError, Global};

pub(crate) fn looks(alloc: Global) -> [Named; 4] {
    [
        ("take of a replica", look_at(alloc, Call::Take)),
        ("merge of two halves", look_at(alloc, Call::Merge)),
        ("copy of a replica", look_at(alloc, Call::Copy)),
        ("faults of a replica", look_at(alloc, Call::Faults)),
    ]
}

#[derive(Clone, Copy)]
enum Call {
    Take,
    Merge,
    Copy,
    Faults,
}

fn look_at(alloc: Global, call: Call) -> Look {
    let mut empty = holding(alloc, false, false)?;
    let whole = holding(alloc, true, true)?;
    match call {
        Call::Take => takes(&mut empty),
        Call::Merge => merges(alloc, &whole),
        Call::Copy => is_copied(&whole, &holding(alloc, true, true)?),
        Call::Faults => faults_of(&mut empty),
    }
}

// A replica that holds those of the ten entries whose numbers are odd, or even, or all of them.
fn holding(alloc: Global, odd: bool, even: bool) -> Made<Replica> {
    let mut replica = Replica::new(alloc, 2, 5)?;
    take_some(&mut replica, odd, even)?;
    Ok(replica)
}

fn take_some(replica: &mut Replica, odd: bool, even: bool) -> Made<()> {
    for (processor, number, entry) in ten()? {
        let is_wanted = if number % 2 == 1 { odd } else { even };
        if is_wanted && replica.take(processor, number, entry) == Err(TakeFault::Memory) {
            return Err(AllocError);
        }
    }
    Ok(())
}

// Whether each holds what the other does.
fn are_equal(left: &Replica, right: &Replica) -> bool {
    left.le(right) && right.le(left)
}

// An entry that is new. After a failed allocation nothing is held, and it is taken once more.
fn takes(replica: &mut Replica) -> Look {
    let entry = quiet(3)?;
    let mut answer = replica.take(1, 4, entry);
    if answer == Err(TakeFault::Memory) {
        if !is_empty(replica) {
            return Ok(false);
        }
        answer = replica.take(1, 4, entry);
    }
    match answer {
        Err(TakeFault::Memory) => Err(AllocError),
        _ => Ok(answer == Ok(Taken::New) && holds(replica, entry)),
    }
}

fn holds(replica: &mut Replica, entry: Entry) -> bool {
    replica.get(1, 4) == Some(Flat::One(entry)) && replica.take(1, 4, entry) == Ok(Taken::Known)
}

fn is_empty(replica: &Replica) -> bool {
    for processor in 0..2 {
        for number in 1..6 {
            if replica.get(processor, number).is_some() {
                return false;
            }
        }
    }
    true
}

// The merge of two halves of ten entries. After a failed allocation the contents lie between, and it
// is merged once more.
fn merges(alloc: Global, whole: &Replica) -> Look {
    let old = holding(alloc, true, false)?;
    let other = holding(alloc, false, true)?;
    merge_into(&mut holding(alloc, true, false)?, &old, &other, whole)
}

fn merge_into(now: &mut Replica, old: &Replica, other: &Replica, whole: &Replica) -> Look {
    if now.merge(other) == Err(MergeFault::Memory) {
        if !old.le(now) || !now.le(whole) {
            return Ok(false);
        }
        if now.merge(other) == Err(MergeFault::Memory) {
            return Err(AllocError);
        }
    }
    Ok(are_equal(now, whole) && now.merge(other).is_ok())
}

// A copy, which is equal to what was copied.
fn is_copied(replica: &Replica, whole: &Replica) -> Look {
    match replica.copy() {
        Ok(copy) => Ok(are_equal(&copy, whole)),
        Err(_) => Ok(are_equal(replica, whole)),
    }
}

// The faults of a replica with a torn key and a fallen floor.
fn faults_of(replica: &mut Replica) -> Look {
    let (low, high) = (quiet(4)?, quiet(5)?);
    for (processor, number, entry) in [(0, 1, high), (0, 2, low), (1, 3, low), (1, 3, high)] {
        if replica.take(processor, number, entry) == Err(TakeFault::Memory) {
            return Err(AllocError);
        }
    }
    let Ok(faults) = replica.faults() else {
        return Ok(replica.mark(0) == 5);
    };
    let is_torn = faults.torn.as_slice() == [(1, 3)].as_slice();
    Ok(is_torn && faults.fallen.as_slice() == [(0, 2)].as_slice())
}
