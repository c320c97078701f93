//! Worked rows of marks, faults and merges.

use pfair_entry::Entry;
use pfair_lattice::Flat;
use pfair_replica::{EntryKey, MergeFault, Replica, TakeFault, Taken};
use std::process::Abort;

// The numbers and floors of entries that come from one processor; then its mark, the first number
// that is missing, and the keys that are torn or fallen.
type Row = (
    &'static [(u32, u64)],
    u64,
    Option<u32>,
    &'static [EntryKey],
    &'static [EntryKey],
);

const ROWS: [Row; 8] = [
    (&[(1, 4), (3, 9)], 4, Some(2), &[], &[]),
    (&[(1, 4), (3, 9), (2, 6)], 9, Some(4), &[], &[]),
    (&[(1, 5), (2, 4)], 5, Some(3), &[], &[(0, 2)]),
    (
        &[(1, 3), (2, 5), (2, 6), (2, 5)],
        3,
        Some(3),
        &[(0, 2)],
        &[],
    ),
    (&[(1, 2), (2, 3), (3, 5)], 5, Some(4), &[], &[]),
    (
        &[(1, 2), (2, 3), (3, 5), (2, 4)],
        2,
        Some(4),
        &[(0, 2)],
        &[],
    ),
    (&[(1, 2), (3, 5), (4, 4)], 2, Some(2), &[], &[]),
    (&[(1, 2), (3, 5), (4, 4), (2, 3)], 5, None, &[], &[(0, 4)]),
];

fn floor(rt: &impl Abort, floor: u64) -> Entry {
    Entry::new(floor, None).expect(rt, "an entry")
}

fn assert_row(rt: &impl Abort, x: &mut Replica, row: Row) {
    let (entries, mark, missing, torn, fallen) = row;
    for (number, at) in entries {
        assert!(rt; x.take(0, *number, floor(rt, *at)).is_ok());
    }
    assert!(rt; x.mark(0) == mark && x.missing(0) == missing);
    let faults = x.faults().expect(rt, "memory");
    assert!(rt; faults.torn.as_slice() == torn && faults.fallen.as_slice() == fallen);
}

#[test]
fn marks_and_faults(rt: HostRuntime) {
    for row in ROWS {
        let mut x = Replica::new(rt.alloc(), 1, 4).expect(&rt, "memory");
        assert_row(&rt, &mut x, row);
    }
}

fn refuses(rt: &impl Abort, x: &mut Replica, y: &mut Replica, larger: &mut Replica) {
    let entry = floor(rt, 3);
    for (processor, number, fault) in [
        (1, 1, TakeFault::NoSuchProcessor),
        (1, 2, TakeFault::NoSuchProcessor),
        (0, 0, TakeFault::NumberOutOfRange),
        (0, 2, TakeFault::NumberOutOfRange),
    ] {
        assert!(rt; x.take(processor, number, entry) == Err(fault));
    }
    assert!(rt; y.take(0, 1, entry) == Ok(Taken::New));
    assert!(rt; larger.merge(y) == Err(MergeFault::OtherShape) && larger.get(0, 1).is_none());
}

#[test]
fn other_keys_and_shapes_are_refused(rt: HostRuntime) {
    let mut x = Replica::new(rt.alloc(), 1, 1).expect(&rt, "memory");
    let mut y = Replica::new(rt.alloc(), 1, 4).expect(&rt, "memory");
    let mut larger = Replica::new(rt.alloc(), 1, 5).expect(&rt, "memory");
    refuses(&rt, &mut x, &mut y, &mut larger);
}

// Entries, each by its processor, its number and its floor.
type Held = &'static [(u8, u32, u64)];

const ONE: Held = &[(0, 1, 1), (0, 2, 2)];

const OTHER: Held = &[(0, 2, 3), (1, 1, 1)];

fn takes(rt: &impl Abort, x: &mut Replica, entries: Held) {
    for (processor, number, at) in entries {
        assert!(rt; x.take(*processor, *number, floor(rt, *at)) == Ok(Taken::New));
    }
}

// Whether a replica holds what either one does, and a torn entry where they differ.
fn is_torn(rt: &impl Abort, x: &Replica) -> bool {
    let held = Some(Flat::One(floor(rt, 1)));
    x.get(0, 1) == held
        && x.get(0, 2) == Some(Flat::Torn)
        && x.get(1, 1) == held
        && x.get(1, 2).is_none()
}

// Merges the second into the first, and then once more.
fn assert_merged(rt: &impl Abort, x: &mut Replica, y: &Replica) {
    assert!(rt; !x.le(y) && !y.le(x));
    assert!(rt; x.merge(y).is_ok() && is_torn(rt, x) && y.le(x));
    assert!(rt; x.merge(y).is_ok() && is_torn(rt, x));
}

#[test]
fn two_contents_of_a_key_tear_it(rt: HostRuntime) {
    for (one, other) in [(ONE, OTHER), (OTHER, ONE)] {
        let mut x = Replica::new(rt.alloc(), 2, 2).expect(&rt, "memory");
        let mut y = Replica::new(rt.alloc(), 2, 2).expect(&rt, "memory");
        takes(&rt, &mut x, one);
        takes(&rt, &mut y, other);
        assert_merged(&rt, &mut x, &y);
    }
}
