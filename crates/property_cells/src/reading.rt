//! States and values are looked up.
ghost use Rattle.std.specs.Prelude.{◌≡◌, ◌≢◌, ℕ, ◌<◌, length, slice_index_or, Some, None};
ghost use Rattle.std.specs.Option.{option_copied};
ghost use Rattle.value_types.specs.declared.values.Value.{Value};
ghost use Rattle.property_cells.specs.Marks.{state_at};
ghost use Rattle.property_cells.specs.Net.{no_cell, cell_in, value_of, state_of};
ghost use Rattle.property_cells.specs.Store.{cell_of};

use crate::marks::{Marks, State};
use crate::states::CellState;
use crate::store::Store;
use value_types::Value;

// The value of a cell that is valid or assigned.
pub(crate) fn value_at<'a>(
    marks: &Marks,
    values: &'a [Option<Value>],
    cell: usize,
) -> Option<&'a Value>
    requires cell { cell < length marks.now.cells.items }
    requires value { cell < length values.now }
    ensures { option_copied result ≡ value_of (cell_of (state_at marks.now.cells.items cell) (slice_index_or values.now cell None)) }
{
    if marks.has_value(cell) {
        return values[cell].as_ref();
    }
    None
}

impl Store {
    ghost use Rattle.property_cells.specs.Store.{seen, Held};

    pub(crate) fn state_of(&self, cell: usize) -> CellState
        requires held { Held self.now }
        requires live { cell_in (seen self.now) cell ≢ no_cell }
        ensures { state_of (cell_in (seen self.now) cell) ≡ Some result }
    {
        match self.marks.state(cell) {
            State::Running => CellState::Running,
            State::Valid => CellState::Valid,
            State::Assigned => CellState::Assigned,
            _ => CellState::Invalid,
        }
    }

    pub(crate) fn value_of(&self, cell: usize) -> Option<&Value>
        requires held { Held self.now }
        requires live { cell_in (seen self.now) cell ≢ no_cell }
        ensures { option_copied result ≡ value_of (cell_in (seen self.now) cell) }
    {
        value_at(&self.marks, self.values.as_slice(), cell)
    }
}
