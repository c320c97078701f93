//! Worked schedules, judged by windows and by lags, and a book that counts lags.

use pfair_lag::{
    LagBook, Miss, PickFault, first_late, first_miss, in_windows, lag_below, lag_within,
    meets_deadlines,
};
use pfair_table::Pick;
use pfair_weight::{TaskName, Weight};
use std::process::Abort;

type Found = Result<Option<Miss>, PickFault>;

const NONE: Found = Ok(None);

const EARLY: Found = Ok(Some(Miss::Early { index: 2, slot: 1 }));

const TARDY: Found = Ok(Some(Miss::Tardy { index: 1, slot: 2 }));

const FIRST: Found = Ok(Some(Miss::Unserved { index: 1 }));

const SECOND: Found = Ok(Some(Miss::Unserved { index: 2 }));

const NOT_RISING: Found = Err(PickFault::PicksNotRising { at: 1 });

const PAST: Found = Err(PickFault::PickPastHorizon { at: 0 });

// Whether the answer is that nothing was missed, or the fault of the picks.
fn is_none(found: Found) -> Result<bool, PickFault> {
    Ok(found?.is_none())
}

#[test]
fn windows_and_lags_agree(rt: HostRuntime) {
    // weight, picks, horizon, the first subtask out of its window, the first that is late
    let rows: [((u64, u64), &[u64], u64, Found, Found); 15] = [
        ((1, 2), &[0, 1], 2, EARLY, NONE),
        ((1, 2), &[], 2, FIRST, FIRST),
        ((1, 2), &[0, 2], 4, NONE, NONE),
        ((1, 2), &[0, 0], 4, NOT_RISING, NOT_RISING),
        ((1, 2), &[4], 4, PAST, PAST),
        ((1, 2), &[0, 1], 4, EARLY, NONE),
        ((1, 2), &[2], 4, TARDY, TARDY),
        ((1, 2), &[0], 4, SECOND, SECOND),
        ((1, 2), &[], 1, NONE, NONE),
        ((1, 1), &[0, 1], 2, NONE, NONE),
        ((1, 2), &[], 0, NONE, NONE),
        ((1, 1), &[], 0, NONE, NONE),
        ((2, 4), &[0, 1], 4, EARLY, NONE),
        ((2, 4), &[], 2, FIRST, FIRST),
        ((2, 4), &[2], 3, TARDY, TARDY),
    ];
    for ((cost, period), picks, horizon, miss, late) in rows {
        let weight = Weight::new(cost, period).expect(&rt, "a weight");
        assert!(&rt; horizon <= 1_000_000);
        let (inside, met) = (is_none(miss), is_none(late));
        assert_eq!(&rt; first_miss(weight, picks, horizon), miss);
        assert!(&rt; in_windows(weight, picks, horizon) == inside);
        assert!(&rt; lag_within(weight, picks, horizon) == inside);
        assert_eq!(&rt; first_late(weight, picks, horizon), late);
        assert!(&rt; meets_deadlines(weight, picks, horizon) == met);
        assert!(&rt; lag_below(weight, picks, horizon) == met);
    }
}

// Enters a of weight 1/2, in the first slot of which it runs, and b of weight 1/3 two slots later.
fn counts(rt: &impl Abort, book: &mut LagBook) {
    let (a, b) = (name(rt, b"a"), name(rt, b"b"));
    enters(rt, book, a, 2);
    records(rt, book, &[Pick { name: a, index: 1 }]);
    assert!(rt; book.lag(&a) == Some((-1, 2)));
    records(rt, book, &[]);
    assert!(rt; book.lag(&a) == Some((0, 2)));
    enters(rt, book, b, 3);
    records(rt, book, &[]);
    assert!(rt; book.lag(&a) == Some((1, 2)) && book.lag(&b) == Some((1, 3)));
    let third = Weight::new(1, 3).expect(rt, "a weight");
    assert!(rt; book.enter(a, third) == Ok(false) && book.time() == 3);
    assert!(rt; book.name_at(0) == Some(&a) && book.name_at(1) == Some(&b));
    assert!(rt; book.name_at(2).is_none());
}

fn name(rt: &impl Abort, letter: &[u8]) -> TaskName {
    TaskName::from_bytes(letter).expect(rt, "a name")
}

fn enters(rt: &impl Abort, book: &mut LagBook, name: TaskName, period: u64) {
    let weight = Weight::new(1, period).expect(rt, "a weight");
    assert!(rt; book.enter(name, weight) == Ok(true));
}

fn records(rt: &impl Abort, book: &mut LagBook, picks: &[Pick]) {
    assert!(rt; book.time() < 1_000_000);
    book.record(picks);
}

#[test]
fn counts_lags(rt: HostRuntime) {
    counts(&rt, &mut LagBook::new(rt.alloc()));
}
