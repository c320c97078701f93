//! Worked rows, for both ready structures.

use pfair_order::Key;
use pfair_ready::{HeapReady, PlainReady, Ready};
use pfair_weight::TaskName;
use std::alloc::Global;
use std::process::Abort;

// The deadline, the b-bit and the name of a key.
type Short = (u64, u64, u8);

// A call, and what it has to answer.
#[derive(Clone, Copy)]
enum Call {
    // The release; whether the name is new.
    Insert(u64, Short, bool),
    Remove(Short),
    // The release under the name of the key, if it is held.
    Held(Short, Option<u64>),
    // The slot, the most keys that are wanted, and those that come.
    First(u64, usize, &'static [Short]),
}

const HELD_UNTIL_RELEASE: [Call; 8] = [
    Call::Insert(3, (4, 0, b'a'), true),
    Call::Insert(0, (5, 0, b'b'), true),
    Call::First(2, 4, &[(5, 0, b'b')]),
    Call::Held((4, 0, b'a'), Some(3)),
    Call::Held((5, 0, b'b'), None),
    Call::First(3, 0, &[]),
    Call::Insert(9, (1, 1, b'a'), false),
    Call::Held((4, 0, b'a'), Some(3)),
];

const BY_RANK: [Call; 17] = [
    Call::Insert(0, (4, 0, b'a'), true),
    Call::Insert(0, (3, 1, b'c'), true),
    Call::Insert(2, (3, 1, b'b'), true),
    Call::First(0, 1, &[(3, 1, b'c')]),
    Call::First(1, 2, &[(4, 0, b'a')]),
    Call::First(2, 2, &[(3, 1, b'b')]),
    // what was removed never comes, and what is put in its place comes once
    Call::Insert(0, (9, 0, b'a'), true),
    Call::Remove((9, 0, b'a')),
    Call::Insert(0, (11, 1, b'a'), true),
    Call::First(2, 2, &[(11, 1, b'a')]),
    Call::Insert(2, (9, 0, b'a'), true),
    Call::First(2, 0, &[]),
    Call::Remove((9, 0, b'a')),
    Call::Insert(5, (9, 0, b'a'), true),
    Call::First(3, 1, &[]),
    Call::First(5, 2, &[(9, 0, b'a')]),
    Call::First(5, 2, &[]),
];

fn key(rt: &impl Abort, short: Short) -> Key {
    let (d, b, letter) = short;
    let name = TaskName::from_bytes(&[letter]).expect(rt, "a name");
    Key {
        d,
        b,
        group: 0,
        name,
    }
}

fn are_keys(rt: &impl Abort, keys: &[Key], expected: &[Short]) -> bool {
    for (found, short) in keys.iter().zip(expected.iter()) {
        if *found != key(rt, *short) {
            return false;
        }
    }
    keys.len() == expected.len()
}

fn takes_first<R: Ready>(
    rt: &impl Abort,
    ready: &mut R,
    slot: u64,
    m: usize,
    expected: &[Short],
) -> bool {
    assert!(rt; ready.now() <= slot);
    let first = ready.take_first(slot, m).expect(rt, "memory");
    are_keys(rt, &first, expected) && ready.now() == slot
}

fn is_answered<R: Ready>(rt: &impl Abort, ready: &mut R, call: Call) -> bool {
    match call {
        Call::Insert(release, short, is_new) => {
            let inserted = ready.insert(release, key(rt, short));
            inserted.expect(rt, "memory") == is_new
        }
        Call::Remove(short) => ready.remove(&key(rt, short).name),
        Call::Held(short, release) => {
            let key = key(rt, short);
            ready.held(&key.name) == release.map(|slot| (slot, key))
        }
        Call::First(slot, m, expected) => takes_first(rt, ready, slot, m, expected),
    }
}

fn assert_answers<R: Ready>(rt: &impl Abort, ready: &mut R, calls: &[Call]) {
    for (place, call) in calls.iter().enumerate() {
        assert!(rt; is_answered(rt, ready, *call), "call {place}");
    }
}

fn assert_rows<R: Ready>(rt: &impl Abort, alloc: Global) {
    assert_answers(rt, &mut R::new(alloc), HELD_UNTIL_RELEASE.as_slice());
    assert_answers(rt, &mut R::new(alloc), BY_RANK.as_slice());
}

#[test]
fn rows_of_lists_and_heaps(rt: HostRuntime) {
    assert_rows::<PlainReady>(&rt, rt.alloc());
    assert_rows::<HeapReady>(&rt, rt.alloc());
}
