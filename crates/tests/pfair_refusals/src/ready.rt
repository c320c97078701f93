//! Insertions and selections of a ready structure.
ghost use Rattle.std.specs.Prelude.{◌≡◌};

use crate::{Look, Named};
use pfair_order::Key;
use pfair_ready::Ready;
use pfair_weight::TaskName;
use std::alloc::{AllocError, Global};

pub(crate) fn looks<R: Ready>(alloc: Global) -> [Named; 2] {
    [
        ("insert", insert_into(&mut R::new(alloc))),
        ("take_first", take_first_of(&mut R::new(alloc))),
    ]
}

// A key with this deadline and name.
fn key(d: u64, name: &[u8]) -> Result<Key, AllocError> {
    match TaskName::from_bytes(name) {
        Ok(name) => Ok(Key {
            d,
            b: 0,
            group: 0,
            name,
        }),
        Err(_) => Err(AllocError),
    }
}

fn holds<R: Ready>(ready: &R, release: u64, key: Key) -> bool {
    ready.held(&key.name) == Some((release, key))
}

// A key that is new. After a failed allocation nothing has changed, and it is inserted once more.
fn insert_into<R: Ready>(ready: &mut R) -> Look {
    let (a, b) = (key(4, b"a")?, key(3, b"b")?);
    ready.insert(3, a)?;
    if ready.insert(0, b).is_err() {
        if ready.held(&b.name).is_some() || !holds(ready, 3, a) || ready.now() != 0 {
            return Ok(false);
        }
        ready.insert(0, b)?;
    }
    Ok(holds(ready, 0, b) && holds(ready, 3, a))
}

// A selection of one key of two that are released. After a failed allocation all is held still and the
// slot has moved; then it is made once more.
fn take_first_of<R: Ready>(ready: &mut R) -> Look
    requires { R.now ready.old ≡ 0 }
{
    let (a, b, c) = (key(4, b"a")?, key(3, b"b")?, key(5, b"c")?);
    ready.insert(3, a)?;
    ready.insert(0, b)?;
    ready.insert(2, c)?;
    let mut first = ready.take_first(2, 1);
    if first.is_err() {
        let are_held = holds(ready, 3, a) && holds(ready, 0, b) && holds(ready, 2, c);
        if !are_held || ready.now() != 2 {
            return Ok(false);
        }
        first = ready.take_first(2, 1);
    }
    let is_left = ready.held(&b.name).is_none() && holds(ready, 2, c);
    Ok(first?.as_slice() == [b].as_slice() && is_left)
}
