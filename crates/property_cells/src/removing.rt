//! Blocks of cells are taken out, with all pairs of their cells.
ghost use Rattle.std.specs.Prelude.{◌≡◌, ◌≢◌, ℕ, ◌+◌, ◌<◌, ◌≤◌, [], length, filter, slice_index_or, None};
ghost use Rattle.dep_list.specs.Pairs.{SameEnds};
ghost use Rattle.property_cells.specs.Points.{IsThreaded};
ghost use Rattle.property_cells.specs.Marks.{EachInside};
ghost use Rattle.property_cells.specs.Net.{no_cell, cell_in, Removes};
ghost use Rattle.property_cells.specs.Removing.{is_of_other, is_apart, AreDropped};

use crate::marks::State;
use crate::points::Points;
use crate::store::Store;
use dep_list::Deps;
use value_types::Value;

// The pairs of all readers of a cell are taken out.
fn unlink_points(deps: &mut Deps, points: &Points, cell: usize)
    requires threaded { IsThreaded points.now.entries.items points.now.lasts.items }
    requires inside { cell < length points.now.lasts.items }
    requires points { length points.now.entries.items ≤ deps.old.points }
    requires pairs { EachInside deps.old.readers (length points.now.entries.items) deps.old.pairs }
    ensures pairs { deps.new.pairs ≡ filter (is_of_other points.now.entries.items cell) deps.old.pairs }
    ensures ends { SameEnds deps.old deps.new }
{
    let mut at = points.last(cell);
    while let Some(point) = at {
        deps.unlink_point(point);
        at = points.before(point);
    }
}

// All pairs with some cells are taken out: those from a first one on, up to one that is past them.
fn unlink_cells(deps: &mut Deps, points: &Points, first: usize, past: usize)
    requires threaded { IsThreaded points.now.entries.items points.now.lasts.items }
    requires order { first ≤ past }
    requires inside { past ≤ length points.now.lasts.items }
    requires readers { past ≤ deps.old.readers }
    requires points { length points.now.entries.items ≤ deps.old.points }
    requires pairs { EachInside deps.old.readers (length points.now.entries.items) deps.old.pairs }
    ensures pairs { deps.new.pairs ≡ filter (is_apart points.now.entries.items first past) deps.old.pairs }
    ensures ends { SameEnds deps.old deps.new }
{
    for cell in first..past {
        deps.unlink_reader(cell);
        unlink_points(deps, points, cell);
    }
}

// The values of some cells are given back.
fn drop_values(values: &mut [Option<Value>], first: usize, past: usize)
    requires order { first ≤ past }
    requires inside { past ≤ length values.old }
    ensures { AreDropped values.old values.new first past }
{
    for cell in first..past {
        values[cell] = None;
    }
}

impl Store {
    ghost use Rattle.property_cells.specs.Store.{seen, Held};

    // A block of cells is taken out.
    pub(crate) fn remove_block(&mut self, first: usize, count: usize)
        requires held { Held self.old }
        requires idle { (seen self.old).running ≡ [] }
        requires live { (c : ℕ) → first ≤ c → c < first + count → cell_in (seen self.old) c ≢ no_cell }
        ensures held { Held self.new }
        ensures removes { Removes (seen self.old) (seen self.new) first count }
    {
        if count == 0 {
            return;
        }
        unlink_cells(&mut self.deps, &self.points, first, first + count);
        drop_values(&mut self.values, first, first + count);
        self.marks.set_all(first, count, State::Gone);
        self.blocks.give(first, count);
    }
}
