//! The states of cells, and the list of those to be made invalid, which is threaded through the cells.
ghost use Rattle.std.specs.Prelude.{◌≡◌, ℕ, ◌+◌, ◌-◌, ◌<◌, ◌≤◌, Some, None, [], ◌++◌, replicate, length, MatchOption, IsTrue, ◌↔◌, OnOk, OnErr};

use slint_base::Memory;
use std::alloc::Global;

/// The state of a cell. `Marked` is one that is to be made invalid, and `Gone` one that is in no block.
#[derive(Clone, Copy, PartialEq, Eq)]
pub enum State {
    Gone,
    Invalid,
    Running,
    Valid,
    Assigned,
    Marked,
}

/// A cell's state, and the cell behind it in the list of those to be made invalid.
#[derive(Clone, Copy)]
pub struct Mark {
    pub(crate) state: State,
    pub(crate) next: Option<usize>,
}

#[derive(Drop)]
pub struct Marks {
    pub(crate) cells: Vec<Mark>,
    pub(crate) head: Option<usize>,
}

impl Marks {
    ghost use Rattle.property_cells.specs.Marks.{pending, state_at, HasValue, marked, written, AreWritten, fresh, taken, HeadInside};

    pub(crate) fn new(alloc: Global) -> Marks
        ensures cells { result.cells.items ≡ [] }
        ensures none { result.head ≡ None }
    {
        Marks {
            cells: Vec::new(alloc),
            head: None,
        }
    }

    // How many cells there are, with those that are gone.
    pub(crate) fn len(&self) -> usize
        ensures { result ≡ length self.now.cells.items }
    {
        self.cells.len()
    }

    pub(crate) fn state(&self, cell: usize) -> State
        requires { cell < length self.now.cells.items }
        ensures { result ≡ state_at self.now.cells.items cell }
    {
        self.cells[cell].state
    }

    // Whether the cell is valid or assigned.
    pub(crate) fn has_value(&self, cell: usize) -> bool
        requires { cell < length self.now.cells.items }
        ensures { IsTrue result ↔ HasValue (state_at self.now.cells.items cell) }
    {
        matches!(self.cells[cell].state, State::Valid | State::Assigned)
    }

    pub(crate) fn set(&mut self, cell: usize, state: State)
        requires { cell < length self.old.cells.items }
        ensures { pending self.new ≡ written cell state (pending self.old) }
    {
        self.cells[cell] = Mark { state, next: None };
    }

    // The cells from one on get the state, so many of them.
    pub(crate) fn set_all(&mut self, first: usize, count: usize, state: State)
        requires { first + count ≤ length self.old.cells.items }
        ensures { AreWritten (pending self.old) (pending self.new) first (first + count) state }
    {
        for cell in first..first + count {
            self.set(cell, state);
        }
    }

    // Invalid cells behind the others, up to so many in all.
    pub(crate) fn append(&mut self, cells: usize) -> Result<(), Memory>
        requires { length self.old.cells.items ≤ cells }
        ensures ok { OnOk result (self.new.cells.items ≡ self.old.cells.items ++ replicate (cells - length self.old.cells.items) fresh) }
        ensures err { OnErr result (self.new.cells.items ≡ self.old.cells.items) }
        ensures head { self.new.head ≡ self.old.head }
    {
        let state = State::Invalid;
        self.cells.resize(cells, Mark { state, next: None })?;
        Ok(())
    }

    // A valid cell comes into the list of those to be made invalid.
    pub(crate) fn mark(&mut self, cell: usize)
        requires { cell < length self.old.cells.items }
        ensures { pending self.new ≡ marked cell (pending self.old) }
    {
        if self.cells[cell].state == State::Valid {
            self.cells[cell] = Mark {
                state: State::Marked,
                next: self.head,
            };
            self.head = Some(cell);
        }
    }

    // The first of the list becomes invalid.
    pub(crate) fn take_out(&mut self) -> Option<usize>
        requires { HeadInside (pending self.old) }
        ensures { MatchOption result ((self.old.head ≡ None) × (pending self.new ≡ pending self.old)) (λ cell. (self.old.head ≡ Some cell) × (pending self.new ≡ taken cell (pending self.old))) }
    {
        let cell = self.head?;
        self.head = self.cells[cell].next;
        self.cells[cell] = Mark {
            state: State::Invalid,
            next: None,
        };
        Some(cell)
    }
}
