//! A dispatcher's end of the board.
ghost use Rattle.std.specs.Prelude.{◌≡◌, ◌<◌, ◌≤◌, ◌*◌, ◌+◌, ℕ, IfOk, IfErr, OnOk, OnErr, Ok, Some, None, length, map};
ghost use Rattle.once_cell.specs.Once.{cell_name};
ghost use Rattle.pfair_lattice.specs.declared.join_map.Flat.TheVariants.{One};
ghost use Rattle.pfair_entry.specs.Entry.{Logged};
ghost use Rattle.pfair_replica.specs.Replica.{IsShape, IsReplicaRows, held, replica_of, Untorn};
ghost use Rattle.pfair_replica.specs.Faults.{HoldsMore, IsTakeFaultOf};
ghost use Rattle.pfair_desk.specs.Desks.{IsKey, place_of, DeskView, state_of, IsDeskOf, OfOneBoard, IsPartlyMet, GrownDesk, IsLearned, fresh_desk, numbered, met, IsPublishFaultOf, HasReadRow, LacksSome, gained, gained_in_row, NoGapInRow};

use crate::board::{Board, Notes};
use crate::fault::PublishFault;
use once_cell::race::OnceBox;
use pfair_entry::Entry;
use pfair_replica::laws::read_by_number;
use pfair_replica::{Replica, TakeFault as LookFault};
use std::alloc::{AllocError, Global};
use std::marker::Model;

/// The pen of one row of a board, with a replica of the cells that it has seen.
///
/// A desk is used with the board that made it. Its entries never change, and none is torn.
#[derive(Drop)]
pub struct Desk {
    processor: u8,
    next_number: u32,
    replica: Replica,
    notes: Notes,
    alloc: Global,
}

impl Model for Desk {
    ghost use Rattle.pfair_replica.specs.Replica.{replica_of};
    ghost use Rattle.pfair_desk.specs.Desks.{DeskView};
    ghost use Rattle.pfair_desk.specs.Noted.{IsInOrder};

    ghost Value = { DeskView };

    ghost view = { λ d. record { processor = d.processor; next_number = d.next_number; cells = d.notes.cells; replica = d.replica } };

    ghost invariant = { λ d. IsInOrder d.processor d.next_number (replica_of d.replica) d.notes };
}

impl Desk {
    /// The desk of a row over these cells, which holds nothing.
    pub(crate) fn of(
        alloc: Global,
        processors: u8,
        capacity: u32,
        cells: &[OnceBox<Entry>],
        processor: u8,
    ) -> Result<Desk, AllocError>
        requires shape { IsShape processors capacity }
        requires all { length cells.now ≡ processors * capacity }
        requires row { processor < processors }
        ensures { IfOk result (λ desk. state_of desk ≡ fresh_desk
            (record { processors = processors; capacity = capacity; cells = map cell_name cells.now }) processor) }
    {
        let notes = Notes::of(alloc, cells)?;
        Ok(Desk {
            processor,
            next_number: 1,
            replica: Replica::new(alloc, processors, capacity)?,
            notes,
            alloc,
        })
    }

    /// Returns the processor whose row it is, counted from 0.
    pub fn proc(&self) -> u8
        ensures value { result ≡ self.now.processor }
        ensures row { self.now.processor < self.now.replica.processors }
    {
        self.processor
    }

    /// Returns the number at which the desk publishes next, counted from 1; it is past the capacity if
    /// the row is full.
    pub fn next_number(&self) -> u32
        ensures value { result ≡ self.now.next_number }
        ensures numbered { (1 ≤ self.now.next_number) × (self.now.next_number ≤ self.now.replica.capacity + 1) }
    {
        self.next_number
    }

    /// Returns the desk's replica.
    pub fn replica(&self) -> &Replica
        ensures value { result.now ≡ self.now.replica }
        ensures rows { IsReplicaRows self.now.replica }
        ensures whole { Untorn (replica_of self.now.replica) }
    {
        // a replica has a row for each of its processors, and has some
        prove!(self.replica.processors() >= 1);
        &self.replica
    }

    /// Looks at one cell and returns its entry, which the desk then holds, or `None` if it is empty.
    ///
    /// O(log e) for e entries of the row, and the same for each entry right behind a gap that this one
    /// fills, once for each entry.
    ///
    /// # Errors
    /// The first of these that applies: `NoSuchProcessor`, `NumberOutOfRange`, and `Memory`, which
    /// happens only if the desk had no entry of that key.
    pub fn look(&mut self, board: &Board, proc: u8, number: u32) -> Result<Option<Entry>, LookFault>
        requires own { IsDeskOf self.old board.now }
        ensures some { (e : Logged) → result ≡ Ok (Some e) → IsLearned self.old self.new proc number e }
        ensures none { result ≡ Ok None → (held self.old.replica proc number ≡ None) × (self.new ≡ self.old) }
        ensures key { OnOk result (IsKey self.old.replica.processors self.old.replica.capacity proc number) }
        ensures fault { IfErr result (IsTakeFaultOf self.old.replica proc number) }
        ensures unchanged { OnErr result (self.new ≡ self.old) }
        ensures kept { GrownDesk self.old self.new }
        ensures own { IsDeskOf self.new board.now }
    {
        if proc >= self.replica.processors() {
            return Err(LookFault::NoSuchProcessor);
        }
        if number == 0 || number > self.replica.capacity() {
            return Err(LookFault::NumberOutOfRange);
        }
        let place = self.place(proc, number);
        let Some(entry) = self.notes.read(board.cell(place), place) else {
            return Ok(None);
        };
        self.replica.take(proc, number, entry)?;
        Ok(Some(entry))
    }

    /// Puts an entry at the desk's next number and returns that number. The cost is that of
    /// [`Desk::look`].
    ///
    /// # Errors
    /// The first of these that applies. `RowFull` if the next number is past the capacity. `Taken` if
    /// the cell has another entry: the desk then holds that one, and its next number is one further.
    /// `Memory` if an allocation fails; the desk is then as before, but the cell may be set:
    /// publishing the same entry once more returns its number, and another entry is `Taken`.
    pub fn publish(&mut self, board: &Board, entry: Entry) -> Result<u32, PublishFault>
        requires own { IsDeskOf self.old board.now }
        ensures ok { IfOk result (λ n. (n ≡ self.old.next_number) × (state_of self.new ≡ numbered (state_of self.old) entry)) }
        ensures room { OnOk result (self.old.next_number ≤ self.old.replica.capacity) }
        ensures fault { IfErr result (IsPublishFaultOf self.old self.new entry) }
        ensures held_now { OnOk result (held self.new.replica self.old.processor self.old.next_number ≡ Some (One entry)) }
        ensures kept { GrownDesk self.old self.new }
        ensures own { IsDeskOf self.new board.now }
    {
        if self.next_number > self.replica.capacity() {
            return Err(PublishFault::RowFull);
        }
        let number = self.next_number;
        let place = self.place(self.processor, number);
        let cell = board.cell(place);
        let Ok(standing) = self.notes.set(self.alloc, cell, place, entry) else {
            return Err(PublishFault::Memory);
        };
        let Ok(_) = self.replica.take(self.processor, number, standing) else {
            return Err(PublishFault::Memory);
        };
        self.next_number = number + 1;
        if standing == entry {
            Ok(number)
        } else {
            Err(PublishFault::Taken { standing })
        }
    }

    // Where the cell of a key stands among those of all keys.
    fn place(&self, processor: u8, number: u32) -> usize
        requires { IsKey self.now.replica.processors self.now.replica.capacity processor number }
        ensures value { result ≡ place_of self.now.replica.capacity processor number }
        ensures within { result < length self.now.cells }
    {
        processor as usize * self.replica.capacity() as usize + (number as usize - 1)
    }

    /// Adds the entries of another desk of the same board.
    ///
    /// O(cells of the board), and a look-up for each entry of the other and for each number of a row in
    /// which it has one.
    ///
    /// # Errors
    /// Returns [`AllocError`] if an allocation fails: some of the other's entries are then added, and
    /// another meet gives what one would have given.
    pub fn meet(&mut self, other: &Desk) -> Result<(), AllocError>
        requires own { OfOneBoard self.old other.now }
        ensures ok { OnOk result (state_of self.new ≡ met (state_of self.old) (state_of other.now)) }
        ensures partly { OnErr result (IsPartlyMet self.old other.now self.new) }
        ensures lacking { OnErr result (HoldsMore self.old.replica other.now.replica) }
        ensures agree { Untorn (met (state_of self.old) (state_of other.now)).replica }
        ensures kept { GrownDesk self.old self.new }
        ensures own { OfOneBoard self.new other.now }
    {
        self.notes.share(&other.notes);
        self.replica.merge(&other.replica).map_err(|_| AllocError)
    }

    /// Looks at each processor's numbers, from the first that the desk doesn't hold up to the first
    /// empty cell, and returns how many keys are new.
    ///
    /// For each processor the cost of [`Desk::look`] for each new number, one empty cell, and a look-up
    /// for each number past its sound beginning that was held already.
    ///
    /// # Errors
    /// Returns [`AllocError`] if an allocation fails; what was found before that is held.
    pub fn refresh(&mut self, board: &Board) -> Result<u64, AllocError>
        requires own { IsDeskOf self.old board.now }
        ensures count { IfOk result (λ c. c ≡ gained (replica_of self.old.replica) (replica_of self.new.replica)) }
        ensures no_gap { (k : ℕ) → NoGapInRow (replica_of self.old.replica) (replica_of self.new.replica) k }
        ensures lacking { OnErr result (LacksSome self.new.replica) }
        ensures next { self.new.next_number ≡ self.old.next_number }
        ensures kept { GrownDesk self.old self.new }
        ensures own { IsDeskOf self.new board.now }
    {
        let mut found = 0;
        for processor in 0..board.processors() {
            found += self.refresh_row(board, processor)?;
        }
        Ok(found)
    }

    // The same for one row.
    fn refresh_row(&mut self, board: &Board, processor: u8) -> Result<u64, AllocError>
        requires own { IsDeskOf self.old board.now }
        requires row { processor < self.old.replica.processors }
        ensures count { IfOk result (λ c. c ≡ gained_in_row (replica_of self.old.replica) (replica_of self.new.replica) processor self.new.replica.capacity) }
        ensures few { IfOk result (λ c. c ≤ self.new.replica.capacity) }
        ensures lacking { OnErr result (LacksSome self.new.replica) }
        ensures read { HasReadRow self.old self.new processor }
        ensures own { IsDeskOf self.new board.now }
    {
        read_by_number();
        let mut found = 0;
        for number in self.replica.sound_count(processor) + 1..self.replica.capacity() + 1 {
            if self.replica.get(processor, number).is_some() {
                continue;
            }
            match self.look(board, processor, number) {
                Ok(Some(_)) => found += 1,
                Ok(None) => return Ok(found),
                Err(_) => return Err(AllocError),
            }
        }
        Ok(found)
    }
}
