//! Joins, puts and copies of maps that nest.

use crate::{Look, Made, Named};
use pfair_lattice::{Flat, Join, JoinMap};
use std::alloc::{AllocError, Global};

type Outer = JoinMap<u8, JoinMap<u8, JoinMap<u8, Flat<u8>>>>;

// What was found at a join, at a put of a key that is missing and of one that is there, and at a copy.
type Four = (Look, Look, Look, Look);

const NONE: Four = (
    Err(AllocError),
    Err(AllocError),
    Err(AllocError),
    Err(AllocError),
);

pub(crate) fn looks(alloc: Global) -> [Named; 4] {
    let looks = looks_at(old(alloc), grown(alloc), whole(alloc));
    let (join, missing, there, copy) = looks.unwrap_or(NONE);
    [
        ("join of maps three deep", join),
        ("put of a missing key", missing),
        ("put at a key that is there", there),
        ("copy of maps three deep", copy),
    ]
}

fn looks_at<V: Join>(
    old: Made<JoinMap<u8, V>>,
    other: Made<JoinMap<u8, V>>,
    whole: Made<JoinMap<u8, V>>,
) -> Made<Four> {
    let (old, other, whole) = (old?, other?, whole?);
    Ok((
        join(&old, &other, &whole),
        put(&old, 2, &other),
        put(&old, 1, &other),
        copy(&old, &other, &whole),
    ))
}

// The map that holds one value.
fn single<V: Join>(alloc: Global, key: u8, value: Made<V>) -> Made<JoinMap<u8, V>> {
    let value = value?;
    let mut map = JoinMap::new(alloc);
    map.put(key, &value)?;
    Ok(map)
}

fn joined<V: Join>(one: Made<V>, other: Made<V>) -> Made<V> {
    let (mut all, other) = (one?, other?);
    all.join(&other)?;
    Ok(all)
}

// The map that holds one content under three keys.
fn outer(alloc: Global, keys: (u8, u8, u8), content: u8) -> Made<Outer> {
    let inner = single(alloc, keys.2, Ok(Flat::One(content)));
    single(alloc, keys.0, single(alloc, keys.1, inner))
}

fn old(alloc: Global) -> Made<Outer> {
    outer(alloc, (1, 1, 1), 5)
}

// Contents under new keys at each of the three depths.
fn grown(alloc: Global) -> Made<Outer> {
    let two = joined(outer(alloc, (1, 1, 2), 6), outer(alloc, (1, 2, 1), 7));
    joined(two, outer(alloc, (2, 1, 1), 8))
}

// The join of both; another map if it lacks one of their contents, so that the looks fail.
fn whole(alloc: Global) -> Made<Outer> {
    let whole = joined(old(alloc), grown(alloc))?;
    if is_whole(&whole) {
        Ok(whole)
    } else {
        old(alloc)
    }
}

// Whether the four contents of the join are there, and the size is that of the join.
fn is_whole(map: &Outer) -> bool {
    for (keys, content) in [
        ((1, 1, 1), 5),
        ((1, 1, 2), 6),
        ((1, 2, 1), 7),
        ((2, 1, 1), 8),
    ] {
        if content_at(map, keys) != Some(Flat::One(content)) {
            return false;
        }
    }
    map.len() == 2
}

fn content_at(map: &Outer, keys: (u8, u8, u8)) -> Option<Flat<u8>> {
    let found = map.get(&keys.0)?.get(&keys.1)?.get(&keys.2)?;
    Some(*found)
}

// Whether the value lies between the two.
fn is_between<V: Join>(old: &V, now: &V, whole: &V) -> bool {
    old.le(now) && now.le(whole)
}

// A join. After a failed allocation the value lies between the old one and the join.
fn join<V: Join>(old: &V, other: &V, whole: &V) -> Look {
    join_into(&mut old.copy()?, old, other, whole)
}

fn join_into<V: Join>(now: &mut V, old: &V, other: &V, whole: &V) -> Look {
    if now.join(other).is_err() {
        if !is_between(old, now, whole) {
            return Ok(false);
        }
        now.join(other)?;
    }
    Ok(is_between(whole, now, whole))
}

// A put. After a failed allocation the map lies between the old one and the join, and a key that was
// missing still is.
fn put<V: Join>(old: &JoinMap<u8, V>, key: u8, other: &JoinMap<u8, V>) -> Look {
    let Some(value) = other.get(&key) else {
        return Ok(false);
    };
    let mut whole = old.copy()?;
    whole.put(key, value)?;
    put_into(&mut old.copy()?, old, key, value, &whole)
}

fn put_into<V: Join>(
    now: &mut JoinMap<u8, V>,
    old: &JoinMap<u8, V>,
    key: u8,
    value: &V,
    whole: &JoinMap<u8, V>,
) -> Look {
    if now.put(key, value).is_err() {
        let is_unchanged = now.get(&key).is_none() && is_between(old, now, old);
        if !is_between(old, now, whole) || !is_unchanged && old.get(&key).is_none() {
            return Ok(false);
        }
        now.put(key, value)?;
    }
    Ok(is_between(whole, now, whole))
}

// A copy, which is equal to what was copied.
fn copy<V: Join>(old: &V, other: &V, whole: &V) -> Look {
    match whole.copy() {
        Ok(copy) => Ok(is_between(whole, &copy, whole)),
        Err(_) => Ok(old.le(whole) && other.le(whole)),
    }
}
