//! Cells are assigned values, and what the change reaches becomes invalid.
ghost use Rattle.std.specs.Prelude.{◌≡◌, ◌≢◌, ℕ, ◌<◌, ◌≤◌, ◌⊎◌, [], length, None, Some, MatchBool, false, slice_set, slice_get};
ghost use Rattle.std.specs.Option.{option_copied};
ghost use Rattle.dep_list.specs.Pairs.{In};
ghost use Rattle.value_types.specs.declared.values.Value.TheVariants.{Array};
ghost use Rattle.property_cells.specs.declared.marks.State.{State};
ghost use Rattle.property_cells.specs.Points.{IsThreaded};
ghost use Rattle.property_cells.specs.Marks.{state_at, EachInside};
ghost use Rattle.property_cells.specs.Hits.{named, Touches};
ghost use Rattle.property_cells.specs.Reach.{IsNet, Unmakes};
ghost use Rattle.property_cells.specs.Net.{no_cell, invalid_cell, cell_in, array_of, InNoPair, Replaces, Assigns};
ghost use Rattle.property_cells.specs.Assigning.{array_items};

use crate::changes::Change;
use crate::marks::{Marks, State};
use crate::points::Points;
use crate::reading::value_at;
use crate::store::Store;
use dep_list::Deps;
use value_types::{Value, same};

impl Marks {
    // What reads a facet that differs between a cell's value and the one that takes its place, directly or through others, becomes invalid.
    fn follow_value(
        &mut self,
        deps: &Deps,
        points: &Points,
        cell: usize,
        old: Option<&Value>,
        new: &Value,
        new_keys: bool,
    )
        requires threaded { IsThreaded points.now.entries.items points.now.lasts.items }
        requires cells { length self.old.cells.items ≤ length points.now.lasts.items }
        requires inside { cell < length self.old.cells.items }
        requires readers { EachInside (length self.old.cells.items) (length points.now.entries.items) deps.now.pairs }
        requires none { self.old.head ≡ None }
        requires net { IsNet (named points.now.entries.items deps.now.pairs) (λ x. x.0) (λ x. ⊥) (state_at self.old.cells.items) }
        ensures unmade { Unmakes (named points.now.entries.items deps.now.pairs) (λ x. x.0) (Touches cell (Replaces (option_copied old.entry) new.now new_keys)) (state_at self.old.cells.items) (state_at self.new.cells.items) }
        ensures none { self.new.head ≡ None }
        ensures cells { length self.new.cells.items ≡ length self.old.cells.items }
    {
        match old {
            Some(old) => self.follow(deps, points, cell, &Change::Replaced(old, new, new_keys)),
            None => {}
        }
    }
}

// The value with the item at a place replaced, if it is an array; and whether the item differs.
fn with_item(value: Value, place: usize, item: Value) -> (Value, bool)
    requires { place < length (array_items value) }
    ensures value { result.0 ≡ Array (slice_set (array_items value) place item) }
    ensures differs { MatchBool result.1 (slice_get (array_items value) place ≢ Some item) (slice_get (array_items value) place ≡ Some item) }
    ensures was { value ≡ Array (array_items value) }
{
    match value {
        Value::Array(mut items) => {
            let differs = match items.get(place) {
                Some(old) => !same(old, &item),
                None => true,
            };
            items.set(place, item);
            (Value::Array(items), differs)
        }
        other => (other, false),
    }
}

impl Store {
    ghost use Rattle.property_cells.specs.Store.{seen, Held};

    // A cell is assigned a value.
    pub(crate) fn assign(&mut self, cell: usize, value: Value, new_keys: bool)
        requires held { Held self.old }
        requires live { cell_in (seen self.old) cell ≢ no_cell }
        requires idle { ((seen self.old).running ≡ []) ⊎ ((cell_in (seen self.old) cell ≡ invalid_cell) × InNoPair cell (seen self.old).pairs) }
        ensures held { Held self.new }
        ensures assigns { Assigns (seen self.old) (seen self.new) cell value new_keys }
    {
        self.deps.unlink_reader(cell);
        let old = value_at(&self.marks, self.values.as_slice(), cell);
        self.marks
            .follow_value(&self.deps, &self.points, cell, old, &value, new_keys);
        self.marks.set(cell, State::Assigned);
        self.values[cell] = Some(value);
    }

    // A cell is assigned its array with one item replaced.
    pub(crate) fn touch_row(&mut self, cell: usize, row: u32, value: Value)
        requires held { Held self.old }
        requires idle { (seen self.old).running ≡ [] }
        requires inside { row < length (array_of (cell_in (seen self.old) cell)) }
        ensures held { Held self.new }
        ensures assigns { Assigns (seen self.old) (seen self.new) cell (Array (slice_set (array_of (cell_in (seen self.old) cell)) row value)) false }
    {
        let Some(old) = self.values[cell].take() else {
            return;
        };
        let (new, differs) = with_item(old, row as usize, value);
        self.values[cell] = Some(new);
        self.deps.unlink_reader(cell);
        self.marks.follow(&self.deps, &self.points, cell, &Change::Item(row, differs));
        self.marks.set(cell, State::Assigned);
    }
}
