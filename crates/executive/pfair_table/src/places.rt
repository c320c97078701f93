//! Places: which processor runs each row of a table, where a task that goes on running stays where
//! it is.
ghost use Rattle.std.specs.Prelude.{ℕ, ◌≡◌, ◌≤◌, ◌<◌, ◌+◌, ◌^◌, ◌∷◌, List, IfOk, length, slice_get};
ghost use Rattle.std.specs.List.{AllByRecursion};
ghost use Rattle.pfair_table.specs.Places.{all_kept, free_place, filled, places_after, IsFit, place_of, bucket, AreBucketsOf};
ghost use Rattle.pfair_weight.specs.Name.{NamesApart};

use crate::settings::Settings;
use crate::slot::Pick;
use pfair_weight::TaskName;
use std::alloc::AllocError;

// The most rows of a table that are gone through for each task: with more, buckets cost less.
const FEW_ROWS: usize = 4;

/// The places of a table, if the one before it has those places. They reuse the memory of two
/// lists.
pub(crate) fn places_beside(
    before: &[Pick],
    places: &[u8],
    table: &[Pick],
    kept: &mut Vec<Option<u8>>,
    room: Vec<u8>,
) -> Result<Vec<u8>, AllocError>
    requires before { IsFit Settings.MAX_PROCESSORS before.now }
    requires below { AllByRecursion (λ k. k < Settings.MAX_PROCESSORS) places.now }
    requires rows { length table.now ≤ Settings.MAX_PROCESSORS }
    ensures { IfOk result (λ here. here.items ≡ places_after before.now places.now table.now) }
{
    kept.clear();
    kept.reserve(table.len())?;
    if before.len() <= FEW_ROWS {
        for pick in table {
            kept.push(find_place(before, places, &pick.name))?;
        }
    } else {
        let ends = buckets_of(before);
        for pick in table {
            kept.push(place_by_bucket(&ends, before, places, &pick.name))?;
        }
    }
    fill_places(kept, room)
}

// The kept places; each other row gets the least free processor.
fn fill_places(kept: &[Option<u8>], mut places: Vec<u8>) -> Result<Vec<u8>, AllocError>
    requires below { AllByRecursion (λ k. k < Settings.MAX_PROCESSORS) (all_kept kept.now) }
    requires rows { length kept.now ≤ Settings.MAX_PROCESSORS }
    ensures { IfOk result (λ here. here.items ≡ filled (all_kept kept.now) kept.now) }
{
    // the processors in use, each as a bit
    let mut in_use: u64 = 0;
    for kept_place in kept {
        if let Some(place) = kept_place {
            in_use |= 1 << *place;
        }
    }
    places.clear();
    places.reserve(kept.len())?;
    for row in kept {
        let place = match row {
            Some(place) => *place,
            None => {
                let least = in_use.trailing_ones() as u8;
                in_use |= 1 << least;
                least
            }
        };
        places.push(place)?;
    }
    Ok(places)
}

// For each of 256 buckets, into which names fall, one more than the last of its rows in a table of
// at most 64, or 0.
fn buckets_of(table: &[Pick]) -> [u8; 256]
    requires { length table.now ≤ Settings.MAX_PROCESSORS }
    ensures { AreBucketsOf table.now result }
{
    let mut ends = [0; 256];
    for (row, pick) in table.iter().enumerate() {
        ends[bucket_of(&pick.name) as usize] = row as u8 + 1;
    }
    ends
}

// The place of a task in a table with those buckets and places. O(1), and O(rows) if two tasks of
// the table are in its bucket.
fn place_by_bucket(ends: &[u8; 256], table: &[Pick], places: &[u8], name: &TaskName) -> Option<u8>
    requires of { AreBucketsOf table.now ends.now }
    requires once { NamesApart (λ p. p.name) table.now }
    ensures { result ≡ place_of table.now places.now name.now }
{
    let end = ends[bucket_of(name) as usize];
    if end == 0 {
        return None;
    }
    let row = end as usize - 1;
    if table[row].name == *name {
        return place_of_row(places, row);
    }
    find_place(table, places, name)
}

fn bucket_of(name: &TaskName) -> u8
    ensures value { result ≡ bucket name.now }
    ensures within { result < 256 }
{
    name.as_bytes().iter().fold(0, |so_far: u8, byte| {
        so_far.wrapping_mul(31).wrapping_add(*byte)
    })
}

fn place_of_row(places: &[u8], row: usize) -> Option<u8>
    ensures { result ≡ slice_get places.now row }
{
    places.get(row).copied()
}

// The place of a task in a table with those places. O(rows of the table).
fn find_place(table: &[Pick], places: &[u8], name: &TaskName) -> Option<u8>
    ensures { result ≡ place_of table.now places.now name.now }
{
    for (pick, place) in table.iter().zip(places.iter()) {
        if *name == pick.name {
            return Some(*place);
        }
    }
    None
}
