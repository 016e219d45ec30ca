//! The cells as callers have them.
ghost use Rattle.std.specs.Prelude.{◌≡◌, ◌≢◌, ℕ, ◌+◌, ◌<◌, ◌≤◌, ◌⊎◌, List, [], ◌∷◌, length, slice_set, Some, false, IfOk, OnOk, OnErr};
ghost use Rattle.std.specs.Option.{option_copied};
ghost use Rattle.value_types.specs.declared.values.Value.TheVariants.{Array};
ghost use Rattle.property_cells.specs.Net.{no_cell, invalid_cell, no_cells, cell_in, state_of, value_of, array_of, Stands, InNoPair, begun, ended, Notes, Assigns, Adds, Removes, IsKept};

use crate::states::CellState;
use crate::store::Store;
use slint_base::Memory;
use std::alloc::Global;
use std::marker::Model;
use value_types::{Facet, Value};

/// Cells that keep values, which of them are valid, and what each has read in its last run.
#[derive(Drop)]
pub struct Cells {
    store: Store,
}

impl Model for Cells {
    ghost use Rattle.property_cells.specs.Net.{Net};
    ghost use Rattle.property_cells.specs.Codes.{net_code};

    ghost Value = { Net };

    ghost coded = { net_code };

    ghost use Rattle.property_cells.specs.Store.{seen, Held};

    ghost view = { λ c. seen c.store };

    ghost invariant = { λ c. Held c.store };
}

impl Cells {
    /// No cell.
    pub fn new(alloc: Global) -> Cells
        ensures { result ≡ no_cells }
    {
        Cells {
            store: Store::new(alloc),
        }
    }

    /// Adds so many invalid cells with numbers that follow each other, and answers the first. A block of as many cells that was taken out gives its numbers.
    pub fn add(&mut self, count: usize) -> Result<usize, Memory>
        ensures ok { IfOk result (λ first. Adds self.old self.new first count) }
        ensures err { OnErr result (self.new ≡ self.old) }
        ensures kept { IsKept self.new }
    {
        self.store.add(count)
    }

    /// A run of an invalid cell begins, within that of the innermost running one. What the cell has read before is forgotten.
    pub fn begin_run(&mut self, cell: usize)
        requires { cell_in self.old cell ≡ invalid_cell }
        ensures begun { self.new ≡ begun cell self.old }
        ensures kept { IsKept self.new }
    {
        self.store.begin_run(cell);
    }

    /// Notes once that the innermost running cell has read a facet of a cell's value. Where none runs, nothing is noted.
    pub fn note_read(&mut self, on: usize, facet: Facet) -> Result<(), Memory>
        requires { Stands (cell_in self.old on) }
        ensures ok { OnOk result (Notes self.old.running (on, facet) self.old self.new) }
        ensures err { OnErr result (self.new ≡ self.old) }
        ensures kept { IsKept self.new }
    {
        self.store.note_read(on, facet)
    }

    /// The run of the innermost running cell ends, which is valid with its value.
    pub fn end_run(&mut self, cell: usize, value: Value)
        requires { (rest : List ℕ) × (self.old.running ≡ cell ∷ rest) }
        ensures ended { self.new ≡ ended cell value self.old }
        ensures kept { IsKept self.new }
    {
        self.store.end_run(cell, value);
    }

    /// Assigns a value to a cell. `new_keys` says that the lists of keys differ, so that the length changes even where it is the same.
    /// Every valid cell that has read a facet that changes, or has read such a cell, is invalid from then on.
    pub fn assign(&mut self, cell: usize, value: Value, new_keys: bool)
        requires live { cell_in self.old cell ≢ no_cell }
        requires idle { (self.old.running ≡ []) ⊎ ((cell_in self.old cell ≡ invalid_cell) × InNoPair cell self.old.pairs) }
        ensures assigns { Assigns self.old self.new cell value new_keys }
        ensures kept { IsKept self.new }
    {
        self.store.assign(cell, value, new_keys);
    }

    /// Assigns to a cell its array with the item at a place replaced.
    pub fn touch_row(&mut self, cell: usize, row: u32, value: Value)
        requires idle { self.old.running ≡ [] }
        requires inside { row < length (array_of (cell_in self.old cell)) }
        ensures assigns { Assigns self.old self.new cell (Array (slice_set (array_of (cell_in self.old cell)) row value)) false }
        ensures kept { IsKept self.new }
    {
        self.store.touch_row(cell, row, value);
    }

    /// Takes out so many cells from a first one on, and all pairs with them.
    pub fn remove_block(&mut self, first: usize, count: usize)
        requires idle { self.old.running ≡ [] }
        requires live { (c : ℕ) → first ≤ c → c < first + count → cell_in self.old c ≢ no_cell }
        ensures removes { Removes self.old self.new first count }
        ensures kept { IsKept self.new }
    {
        self.store.remove_block(first, count);
    }

    pub fn state_of(&self, cell: usize) -> CellState
        requires { cell_in self.now cell ≢ no_cell }
        ensures { state_of (cell_in self.now cell) ≡ Some result }
    {
        self.store.state_of(cell)
    }

    /// The value of a cell that is valid or assigned, and `None` for any other.
    pub fn value_of(&self, cell: usize) -> Option<&Value>
        requires { cell_in self.now cell ≢ no_cell }
        ensures { option_copied result ≡ value_of (cell_in self.now cell) }
    {
        self.store.value_of(cell)
    }

    /// How many runs have ended, at most 2^64 - 1.
    pub fn runs(&self) -> u64
        ensures { result ≡ self.now.runs }
    {
        self.store.runs
    }

    /// How many pairs of a cell and what it has read there are.
    pub fn pairs(&self) -> u64
        ensures { result ≡ length self.now.pairs }
    {
        self.store.deps.pairs()
    }
}
