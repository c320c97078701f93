//! Books of lags.

use crate::Look;
use crate::entries::name;
use pfair_lag::LagBook;
use pfair_weight::{TaskName, Weight};

// Whether the book has these tasks and no other, in this order.
fn has_entered(book: &LagBook, names: &[TaskName]) -> bool {
    for (place, name) in names.iter().enumerate() {
        if book.name_at(place) != Some(name) || book.lag(name) != Some((0, 2)) {
            return false;
        }
    }
    book.name_at(names.len()).is_none() && book.time() == 0
}

// Enters a task after those that are there. After a failed allocation nothing has changed, and it is
// entered once more.
fn enters(book: &mut LagBook, before: &[TaskName], name: TaskName, weight: Weight) -> Look {
    match book.enter(name, weight) {
        Err(_) if has_entered(book, before) => book.enter(name, weight),
        Err(_) => Ok(false),
        answer => answer,
    }
}

/// Two tasks, one after the other, and the first of them again.
pub(crate) fn enter_two(book: &mut LagBook) -> Look {
    let (Some(a), Some(b), Ok(half)) = (name(b'a'), name(b'b'), Weight::new(1, 2)) else {
        return Ok(false);
    };
    let are_new = enters(book, &[], a, half)? && enters(book, &[a], b, half)?;
    Ok(are_new && book.enter(a, half) == Ok(false) && has_entered(book, &[a, b]))
}
