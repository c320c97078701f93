//! The cells of a board, and the notes that desks keep of them.
ghost use Rattle.std.specs.Prelude.{◌≡◌, ◌<◌, ℕ, IfOk, Some, length, slice_get, vec_len, IfSome, OnErr, None, map, replicate, slice_index_or};
ghost use Rattle.once_cell.specs.Once.{cell_name, Agrees};
ghost use Rattle.pfair_replica.specs.Replica.{IsShape};
ghost use Rattle.pfair_desk.specs.Desks.{BoardFrame, DeskView, IsDeskOf, state_of, fresh_desk};
ghost use Rattle.pfair_desk.specs.Noted.{Knowledge, knowing, shared, Grows, KnowMore};

use crate::desk::Desk;
use once_cell::race::{Note, OnceBox};
use pfair_entry::Entry;
use std::alloc::{AllocError, Global};
use std::marker::Model;

/// One row of cells for each processor, and in each row a cell for each number from 1 to the
/// capacity. A cell is empty until a desk sets it, and then keeps its entry for good.
#[derive(Drop)]
pub struct Board {
    processors: u8,
    capacity: u32,
    cells: Vec<OnceBox<Entry>>,
    alloc: Global,
}

impl Model for Board {
    ghost use Rattle.std.specs.Prelude.{◌≡◌, ◌*◌, length, map};
    ghost use Rattle.pfair_replica.specs.Replica.{IsShape};
    ghost use Rattle.pfair_desk.specs.Desks.{BoardFrame};
    ghost use Rattle.once_cell.specs.Once.{cell_name};

    ghost Value = { BoardFrame };

    ghost view = { λ b. record { processors = b.processors; capacity = b.capacity; cells = map cell_name b.cells.items } };

    ghost invariant = { λ b. (length b.cells.items ≡ b.processors * b.capacity) × IsShape b.processors b.capacity };
}

impl Board {
    /// Creates a board of empty cells, for 1 to 64 processors, counted from 0, and logs of 1 to 4,096
    /// entries, counted from 1. O(`processors` `capacity`), and a pointer's memory for each cell.
    ///
    /// # Errors
    /// Returns [`AllocError`] if an allocation fails.
    pub fn new(alloc: Global, processors: u8, capacity: u32) -> Result<Board, AllocError>
        requires { IsShape processors capacity }
        ensures { IfOk result (λ b. (b.processors ≡ processors) × (b.capacity ≡ capacity)) }
    {
        let mut cells = Vec::new(alloc);
        for _ in 0..processors as usize * capacity as usize {
            cells.push(OnceBox::new(alloc))?;
        }
        Ok(Board {
            processors,
            capacity,
            cells,
            alloc,
        })
    }

    /// Returns the number of rows.
    pub fn processors(&self) -> u8
        ensures value { result ≡ self.now.processors }
        ensures shape { IsShape self.now.processors self.now.capacity }
    {
        self.processors
    }

    /// Returns the number of cells of each row; no entry's number is greater.
    pub fn capacity(&self) -> u32
        ensures value { result ≡ self.now.capacity }
        ensures shape { IsShape self.now.processors self.now.capacity }
    {
        self.capacity
    }

    /// Returns a desk for each row, that of processor k at place k, each with an empty replica. A second
    /// call gives other desks, so that a row can have two pens.
    ///
    /// O(M M c) time for M processors and a capacity of c, and O(M) memory, as notes of cells take none.
    ///
    /// # Errors
    /// Returns [`AllocError`] if an allocation fails.
    pub fn desks(&self) -> Result<Vec<Desk>, AllocError>
        ensures count { IfOk result (λ desks. vec_len desks ≡ self.now.processors) }
        ensures fresh { IfOk result (λ desks. (k : ℕ) (d : DeskView) → slice_get desks.items k ≡ Some d → state_of d ≡ fresh_desk self.now k) }
        ensures own { IfOk result (λ desks. (k : ℕ) (d : DeskView) → slice_get desks.items k ≡ Some d → IsDeskOf d self.now) }
    {
        let mut desks = Vec::new(self.alloc);
        for processor in 0..self.processors {
            let cells = self.cells.as_slice();
            let desk = Desk::of(self.alloc, self.processors, self.capacity, cells, processor)?;
            desks.push(desk)?;
        }
        Ok(desks)
    }

    pub(crate) fn cell(&self, place: usize) -> &OnceBox<Entry>
        requires { place < length self.now.cells }
        ensures { slice_get self.now.cells place ≡ Some (cell_name result.now) }
    {
        &self.cells[place]
    }
}

/// One note for each cell of a list. They take no bytes.
#[derive(Drop)]
pub(crate) struct Notes {
    notes: Vec<Note<Entry>>,
}

impl Model for Notes {
    ghost use Rattle.std.specs.Prelude.{map};
    ghost use Rattle.pfair_desk.specs.Noted.{Knowledge};

    ghost Value = { Knowledge };

    ghost view = { λ n. record { cells = map (λ m. m.cell) n.notes.items; known = map (λ m. m.known) n.notes.items } };
}

impl Notes {
    /// Notes that know nothing yet.
    pub(crate) fn of(alloc: Global, cells: &[OnceBox<Entry>]) -> Result<Notes, AllocError>
        ensures cells { IfOk result (λ notes. notes.cells ≡ map cell_name cells.now) }
        ensures known { IfOk result (λ notes. notes.known ≡ replicate (length cells.now) None) }
    {
        let mut notes = Vec::new(alloc);
        for cell in cells {
            notes.push(cell.note())?;
        }
        Ok(Notes { notes })
    }

    pub(crate) fn read(&mut self, cell: &OnceBox<Entry>, place: usize) -> Option<Entry>
        requires { slice_get self.old.cells place ≡ Some (cell_name cell.now) }
        ensures none { result ≡ None → (slice_index_or self.old.known place None ≡ None) × (self.new ≡ self.old) }
        ensures some { IfSome result (λ e. self.new ≡ knowing self.old place e) }
        ensures same { IfSome result (λ e. IfSome (slice_index_or self.old.known place None) (λ known. known ≡ e)) }
    {
        cell.get_as(&mut self.notes[place]).copied()
    }

    /// Sets the cell if it is empty, and returns its content.
    pub(crate) fn set(
        &mut self,
        alloc: Global,
        cell: &OnceBox<Entry>,
        place: usize,
        entry: Entry,
    ) -> Result<Entry, AllocError>
        requires { slice_get self.old.cells place ≡ Some (cell_name cell.now) }
        ensures ok { IfOk result (λ e. self.new ≡ knowing self.old place e) }
        ensures same { IfOk result (λ e. IfSome (slice_index_or self.old.known place None) (λ known. known ≡ e)) }
        ensures err { OnErr result ((slice_index_or self.old.known place None ≡ None) × (self.new ≡ self.old)) }
    {
        let standing = cell.get_or_try_init_as(
            move || -> Result<Box<Entry>, AllocError> { Ok(Box::new(alloc, entry)?) },
            &mut self.notes[place],
        )?;
        Ok(*standing)
    }

    /// Takes over all that the other list knows. Notes take no bytes, so this copies nothing.
    pub(crate) fn share(&mut self, other: &Notes)
        requires { self.old.cells ≡ other.now.cells }
        ensures mine { KnowMore self.old self.new }
        ensures theirs { Grows other.now.known self.new.known }
    {
        for place in 0..other.notes.len() {
            learn(&mut self.notes[place], &other.notes[place]);
        }
    }
}

// Tells `mine` what `other` knows of the cell of both. If both knew a value, it was the same one.
fn learn<T>(mine: &mut Note<T>, other: &Note<T>)
    requires { other.now.cell ≡ mine.old.cell }
    ensures cell { mine.new.cell ≡ mine.old.cell }
    ensures known { mine.new.known ≡ shared mine.old.known other.now.known }
    ensures agree { IfSome other.now.known (Agrees mine.old.known) }
{}
