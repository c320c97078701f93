//! Worked boards, and four threads on one board.
ghost use Rattle.pfair_desk.specs.Desks.{IsDeskOf};

use crate::board::row;
use pfair_desk::{Board, Desk, LookFault, PublishFault};
use pfair_entry::Entry;
use pfair_lattice::Flat;
use std::process::Abort;
use std::thread;

fn floor(rt: &impl Abort, floor: u64) -> Entry {
    Entry::new(floor, None).expect(rt, "an entry")
}

// A desk of the first row publishes, one of the second looks, and they meet.
fn publish_look_and_meet(rt: &impl Abort, board: &Board, writer: &mut Desk, reader: &mut Desk)
    requires writer { IsDeskOf writer.old board.now }
    requires reader { IsDeskOf reader.old board.now }
{
    let entry = floor(rt, 3);
    assert!(rt; writer.publish(board, entry) == Ok(1));
    assert!(rt; reader.look(board, 0, 1) == Ok(Some(entry)));
    assert!(rt; reader.look(board, 1, 1) == Ok(None));
    assert!(rt; writer.meet(reader).is_ok() && writer.replica().first_torn().is_none());
    assert!(rt; writer.publish(board, entry) == Err(PublishFault::RowFull));
    assert!(rt; reader.look(board, 2, 1) == Err(LookFault::NoSuchProcessor));
    assert!(rt; reader.look(board, 0, 2) == Err(LookFault::NumberOutOfRange));
}

#[test]
fn one_desk_reads_what_another_published(rt: HostRuntime) {
    let board = Board::new(rt.alloc(), 2, 1).expect(&rt, "memory");
    let mut writer = row(&board, 0).expect(&rt, "memory");
    let mut reader = row(&board, 1).expect(&rt, "memory");
    publish_look_and_meet(&rt, &board, &mut writer, &mut reader);
    let mut fresh = row(&board, 1).expect(&rt, "memory");
    assert!(&rt; fresh.refresh(&board) == Ok(1));
}

// Publishes the same entry until the row is full. Answers whether each publish went well.
fn fills_its_row(board: &Board, writer: &mut Desk, entry: Entry) -> bool
    requires { IsDeskOf writer.old board.now }
    ensures { IsDeskOf writer.new board.now }
{
    for _ in 0..board.capacity() {
        if writer.publish(board, entry).is_err() {
            return false;
        }
    }
    true
}

#[test]
fn the_last_row_of_the_largest_board(rt: HostRuntime) {
    let board = Board::new(rt.alloc(), 64, 4096).expect(&rt, "memory");
    let entry = floor(&rt, 3);
    let mut writer = row(&board, 63).expect(&rt, "memory");
    assert!(&rt; fills_its_row(&board, &mut writer, entry));
    // the last cell of the row is found by a look, and each cell before it by a refresh
    let mut reader = row(&board, 9).expect(&rt, "memory");
    assert!(&rt; reader.look(&board, 63, 4096) == Ok(Some(entry)));
    assert!(&rt; reader.refresh(&board) == Ok(4095));
}

// Two desks of one row publish.
fn publish_twice(rt: &impl Abort, board: &Board, first: &mut Desk, second: &mut Desk)
    requires first { IsDeskOf first.old board.now }
    requires second { IsDeskOf second.old board.now }
{
    let standing = floor(rt, 3);
    assert!(rt; first.publish(board, standing) == Ok(1));
    let refused = second.publish(board, floor(rt, 5));
    assert!(rt; refused == Err(PublishFault::Taken { standing }));
    assert!(rt; second.replica().get(0, 1) == Some(Flat::One(standing)));
    assert!(rt; second.next_number() == 2);
}

#[test]
fn two_pens_of_one_row(rt: HostRuntime) {
    let board = Board::new(rt.alloc(), 1, 2).expect(&rt, "memory");
    let mut first = row(&board, 0).expect(&rt, "memory");
    let mut second = row(&board, 0).expect(&rt, "memory");
    publish_twice(&rt, &board, &mut first, &mut second);
}

// A desk of the first row publishes two entries, and one of the second looks at the later one.
fn look_past_a_gap(rt: &impl Abort, board: &Board, writer: &mut Desk, reader: &mut Desk)
    requires writer { IsDeskOf writer.old board.now }
    requires reader { IsDeskOf reader.old board.now }
{
    let entry = floor(rt, 4);
    assert!(rt; writer.publish(board, floor(rt, 3)) == Ok(1));
    assert!(rt; writer.publish(board, entry) == Ok(2));
    assert!(rt; reader.look(board, 0, 2) == Ok(Some(entry)));
    assert!(rt; reader.refresh(board) == Ok(1));
    assert!(rt; reader.refresh(board) == Ok(0));
    assert!(rt; reader.replica().missing(0).is_none());
    assert!(rt; reader.replica().missing(1) == Some(1));
}

#[test]
fn a_refresh_fills_the_gap(rt: HostRuntime) {
    let board = Board::new(rt.alloc(), 2, 2).expect(&rt, "memory");
    let mut writer = row(&board, 0).expect(&rt, "memory");
    let mut reader = row(&board, 1).expect(&rt, "memory");
    look_past_a_gap(&rt, &board, &mut writer, &mut reader);
}

// Publishes a hundred entries, and refreshes after each. Answers whether all went well.
fn fill(board: &Board, desk: &mut Desk) -> bool
    requires { IsDeskOf desk.old board.now }
    ensures { IsDeskOf desk.new board.now }
{
    for floor in 0..100u64 {
        let Ok(entry) = Entry::new(floor, None) else {
            return false;
        };
        if desk.publish(board, entry).is_err() || desk.refresh(board).is_err() {
            return false;
        }
    }
    true
}

#[test]
fn four_threads_publish_at_once(rt: HostRuntime) {
    let board = Board::new(rt.alloc(), 4, 100).expect(&rt, "memory");
    let mut desks = board.desks().expect(&rt, "memory");
    thread::for_each_mut(
        &rt,
        desks.as_mut_slice(),
        4,
        &|_, desk: &mut Desk|
            requires { IsDeskOf desk.old board }
            ensures { IsDeskOf desk.new board }
        {
            let _filled = fill(&board, desk);
        },
    );
    assert!(&rt; desks.len() == 4 && desks[0].refresh(&board).is_ok());
    let held = desks[0].replica();
    for processor in 0..4u8 {
        assert!(&rt; held.missing(processor).is_none());
    }
    assert!(&rt; held.first_torn().is_none());
}
