//! Replicas of as many logs and entries as there may be. Eight of the 64 logs are full, each with
//! 4,096 entries: all of them would take three minutes in a build that checks itself as it runs.

use pfair_entry::Entry;
use pfair_lattice::Flat;
use pfair_replica::{Replica, Taken};
use std::process::Abort;

const LOGS: u8 = 64;

const ENTRIES: u32 = 4096;

// All entries of every ninth log, from the first to the last, with rising floors.
fn fills(rt: &impl Abort, replica: &mut Replica) {
    for ninth in 0..8u8 {
        for before in 0..ENTRIES {
            let entry = floor(rt, before as u64);
            assert!(rt; replica.take(ninth * 9, before + 1, entry) == Ok(Taken::New));
        }
    }
}

fn floor(rt: &impl Abort, floor: u64) -> Entry {
    Entry::new(floor, None).expect(rt, "an entry")
}

// The contents of these logs, with the last entry of the last one torn.
fn assert_full(rt: &impl Abort, replica: &Replica) {
    for ninth in 0..7u8 {
        assert!(rt; replica.mark(ninth * 9) == 4095 && replica.missing(ninth * 9).is_none());
    }
    assert!(rt; replica.mark(63) == 4094 && replica.missing(63).is_none());
    assert!(rt; replica.mark(62) == 0 && replica.frontier() == 0);
    assert!(rt; replica.get(63, ENTRIES) == Some(Flat::Torn));
    assert!(rt; replica.get(0, 1) == Some(Flat::One(floor(rt, 0))));
    let faults = replica.faults().expect(rt, "memory");
    assert!(rt; faults.torn.as_slice() == [(63, ENTRIES)].as_slice() && faults.fallen.is_empty());
}

// An empty replica learns all of a full one, and one entry otherwise; the full one learns that.
fn merges(rt: &impl Abort, full: &mut Replica, other: &mut Replica) {
    fills(rt, full);
    assert!(rt; other.merge(full).is_ok() && full.le(other));
    assert!(rt; other.take(63, ENTRIES, floor(rt, 9000)) == Ok(Taken::Torn));
    assert!(rt; full.merge(other).is_ok());
}

#[test]
fn full_replicas_merge_and_are_copied(rt: HostRuntime) {
    let mut full = Replica::new(rt.alloc(), LOGS, ENTRIES).expect(&rt, "memory");
    let mut other = Replica::new(rt.alloc(), LOGS, ENTRIES).expect(&rt, "memory");
    merges(&rt, &mut full, &mut other);
    let copy = full.copy().expect(&rt, "memory");
    assert!(&rt; copy.le(&full) && full.le(&copy));
    assert_full(&rt, &full);
    assert_full(&rt, &copy);
}
