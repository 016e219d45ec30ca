//! What `Cells` keeps, part by part: the pairs, the points, the states, the cells that run, the values and the free blocks. The calls that begin and end a run.
ghost use Rattle.std.specs.Prelude.{◌≡◌, ℕ, ◌<◌, List, ◌∷◌, length, slice_index_or, None};
ghost use Rattle.std.specs.Option.{option_copied};
ghost use Rattle.value_types.specs.declared.values.Value.{Value};
ghost use Rattle.property_cells.specs.Marks.{state_at};
ghost use Rattle.property_cells.specs.Net.{invalid_cell, cell_in, value_of, no_cells, begun, ended};

use crate::blocks::Blocks;
use crate::marks::{Marks, State};
use crate::points::Points;
use crate::running::Runs;
use dep_list::Deps;
use std::alloc::Global;
use value_types::Value;

#[derive(Drop)]
pub struct Store {
    pub(crate) deps: Deps,
    pub(crate) points: Points,
    pub(crate) marks: Marks,
    pub(crate) running: Runs,
    pub(crate) values: Vec<Option<Value>>,
    pub(crate) blocks: Blocks,
    pub(crate) runs: u64,
}

impl Store {
    ghost use Rattle.property_cells.specs.Store.{seen, Held};

    pub(crate) fn new(alloc: Global) -> Store
        ensures held { Held result }
        ensures seen { seen result ≡ no_cells }
    {
        Store {
            deps: Deps::new(alloc),
            points: Points::new(alloc),
            marks: Marks::new(alloc),
            running: Runs::new(alloc),
            values: Vec::new(alloc),
            blocks: Blocks::new(alloc),
            runs: 0,
        }
    }

    // A cell runs, and what it has read before is forgotten.
    pub(crate) fn begin_run(&mut self, cell: usize)
        requires held { Held self.old }
        requires invalid { cell_in (seen self.old) cell ≡ invalid_cell }
        ensures held { Held self.new }
        ensures seen { seen self.new ≡ begun cell (seen self.old) }
    {
        self.deps.unlink_reader(cell);
        self.marks.set(cell, State::Running);
        self.running.begin(cell);
    }

    // The innermost cell is valid with its value.
    pub(crate) fn end_run(&mut self, cell: usize, value: Value)
        requires held { Held self.old }
        requires innermost { (rest : List ℕ) × ((seen self.old).running ≡ cell ∷ rest) }
        ensures held { Held self.new }
        ensures seen { seen self.new ≡ ended cell value (seen self.old) }
    {
        self.values[cell] = Some(value);
        self.marks.set(cell, State::Valid);
        self.running.end(cell);
        self.runs = self.runs.saturating_add(1);
    }
}
