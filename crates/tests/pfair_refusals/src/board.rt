//! Boards, and what their desks publish, find and tell each other.
ghost use Rattle.std.specs.Prelude.{◌≡◌, ◌<◌, IfOk};
ghost use Rattle.pfair_desk.specs.Desks.{IsDeskOf};

use crate::entries::quiet;
use crate::{Look, Made, Named};
use pfair_board::{Board, Desk, LookFault, PublishFault};
use pfair_lattice::Flat;
use std::alloc::{AllocError, Global};

pub(crate) fn looks(alloc: Global) -> [Named; 4] {
    [
        ("publish of a desk", look_at(alloc, Call::Publish)),
        ("look of a desk", look_at(alloc, Call::Look)),
        ("refresh of a desk", look_at(alloc, Call::Refresh)),
        ("meet of two desks", look_at(alloc, Call::Meet)),
    ]
}

// A call of a desk.
#[derive(Clone, Copy)]
enum Call {
    Publish,
    Look,
    Refresh,
    Meet,
}

fn look_at(alloc: Global, call: Call) -> Look {
    look_on(&two_rows(alloc)?, call)
}

// A board of two rows with room for two entries each.
fn two_rows(alloc: Global) -> Made<Board> {
    match Board::new(alloc, 2, 2) {
        Ok(board) => Ok(board),
        Err(_) => Board::new(alloc, 2, 2),
    }
}

fn look_on(board: &Board, call: Call) -> Look {
    if board.processors() != 2 {
        return Ok(false);
    }
    let mut first = row(board, 0)?;
    let mut second = row(board, 1)?;
    match call {
        Call::Publish => publishes(board, &mut first),
        Call::Look => looks_at(board, &mut first, &mut second),
        Call::Refresh => refreshes(board, &mut first, &mut second),
        Call::Meet => meets(board, &mut first, &mut second),
    }
}

/// The desk of a row, one of a new set.
pub(crate) fn row(board: &Board, processor: u8) -> Made<Desk>
    requires { processor < board.now.processors }
    ensures { IfOk result (λ desk. IsDeskOf desk board.now × (desk.next_number ≡ 1)) }
{
    let mut desks = board.desks()?;
    Ok(desks.swap_remove(processor as usize))
}

// Publishes two entries of these floors.
fn publish_two(board: &Board, desk: &mut Desk, floors: [u64; 2]) -> Made<()>
    requires { IsDeskOf desk.old board.now }
    ensures { IsDeskOf desk.new board.now }
{
    for floor in floors {
        if desk.publish(board, quiet(floor)?).is_err() {
            return Err(AllocError);
        }
    }
    Ok(())
}

// An entry that is published. After a failed allocation the desk is as before.
fn publishes(board: &Board, desk: &mut Desk) -> Look
    requires { IsDeskOf desk.old board.now }
{
    let entry = quiet(3)?;
    let mut answer = desk.publish(board, entry);
    if answer == Err(PublishFault::Memory) {
        if desk.next_number() != 1 || desk.replica().get(0, 1).is_some() {
            return Ok(false);
        }
        answer = desk.publish(board, entry);
    }
    match answer {
        Ok(number) => Ok(number == 1 && desk.replica().get(0, 1) == Some(Flat::One(entry))),
        Err(PublishFault::Memory) => Err(AllocError),
        Err(_) => Ok(false),
    }
}

// A look at what another desk published. After a failed allocation the desk is as before.
fn looks_at(board: &Board, writer: &mut Desk, reader: &mut Desk) -> Look
    requires of_writer { IsDeskOf writer.old board.now }
    requires of_reader { IsDeskOf reader.old board.now }
{
    let entry = quiet(3)?;
    if writer.publish(board, entry) != Ok(1) {
        return Err(AllocError);
    }
    if reader.look(board, 0, 1) == Err(LookFault::Memory) {
        if reader.replica().get(0, 1).is_some() {
            return Ok(false);
        }
        if reader.look(board, 0, 1) == Err(LookFault::Memory) {
            return Err(AllocError);
        }
    }
    Ok(
        reader.look(board, 0, 1) == Ok(Some(entry))
            && reader.replica().get(0, 1) == Some(Flat::One(entry)),
    )
}

// A refresh that finds two entries. After a failed allocation what was found is held, and another
// refresh finds the rest.
fn refreshes(board: &Board, writer: &mut Desk, reader: &mut Desk) -> Look
    requires of_writer { IsDeskOf writer.old board.now }
    requires of_reader { IsDeskOf reader.old board.now }
{
    publish_two(board, writer, [3, 4])?;
    match reader.refresh(board) {
        Ok(count) if count != 2 => return Ok(false),
        Ok(_) => {}
        Err(_) => {
            if !reader.replica().le(writer.replica()) {
                return Ok(false);
            }
            reader.refresh(board)?;
        }
    }
    Ok(reader.replica().missing(0).is_none() && reader.replica().le(writer.replica()))
}

// A meet of two desks that published. After a failed allocation the first holds a part of the second,
// and meets it again.
fn meets(board: &Board, first: &mut Desk, second: &mut Desk) -> Look
    requires of_first { IsDeskOf first.old board.now }
    requires of_second { IsDeskOf second.old board.now }
{
    publish_two(board, first, [1, 2])?;
    publish_two(board, second, [3, 4])?;
    if first.meet(second).is_err() {
        if first.replica().missing(0).is_some() || first.replica().first_torn().is_some() {
            return Ok(false);
        }
        first.meet(second)?;
    }
    let held = first.replica();
    let is_whole = held.missing(0).is_none() && held.missing(1).is_none();
    Ok(is_whole && held.first_torn().is_none() && second.replica().le(held))
}
