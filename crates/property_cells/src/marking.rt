//! A change is followed to all that it reaches, cell by cell. It goes along points that are there, and never recurses.
ghost use Rattle.std.specs.Prelude.{◌≡◌, ℕ, ◌<◌, ◌≤◌, None, List, length};
ghost use Rattle.dep_list.specs.Pairs.{readers_of};
ghost use Rattle.property_cells.specs.Points.{IsThreaded, points_of};
ghost use Rattle.property_cells.specs.Marks.{pending, state_at, all_marked, points_marked, AllBelow, EachInside, IsUnmaking};
ghost use Rattle.property_cells.specs.Changed.{Changed};
ghost use Rattle.property_cells.specs.Hits.{Looked, MarksHits, named, Touches};
ghost use Rattle.property_cells.specs.Reach.{IsNet, Unmakes};
ghost use Rattle.property_cells.specs.declared.marks.State.{State};

use crate::changes::Change;
use crate::marks::Marks;
use crate::points::Points;
use dep_list::Deps;

impl Marks {
    // The valid readers of a point come into the list.
    pub(crate) fn mark_readers(&mut self, deps: &Deps, point: usize)
        requires { AllBelow (length self.old.cells.items) (readers_of point deps.now.pairs) }
        ensures { pending self.new ≡ all_marked (readers_of point deps.now.pairs) (pending self.old) }
    {
        let mut readers = deps.readers(point);
        while let Some(reader) = readers.next() {
            self.mark(reader);
        }
    }

    // The valid readers of all points of a cell come into the list.
    pub(crate) fn mark_cell(&mut self, deps: &Deps, points: &Points, cell: usize)
        requires threaded { IsThreaded points.now.entries.items points.now.lasts.items }
        requires inside { cell < length points.now.lasts.items }
        requires readers { EachInside (length self.old.cells.items) (length points.now.entries.items) deps.now.pairs }
        ensures { pending self.new ≡ points_marked deps.now.pairs (points_of points.now.entries.items cell) (pending self.old) }
    {
        let mut at = points.last(cell);
        while let Some(point) = at {
            self.mark_readers(deps, point);
            at = points.before(point);
        }
    }

    // All that is reached from the readers that were marked becomes invalid.
    pub(crate) fn unmake(&mut self, deps: &Deps, points: &Points)
        requires threaded { IsThreaded points.now.entries.items points.now.lasts.items }
        requires cells { length self.old.cells.items ≤ length points.now.lasts.items }
        requires readers { EachInside (length self.old.cells.items) (length points.now.entries.items) deps.now.pairs }
        requires begun { (hits : List ℕ) × (first : ℕ → State) × IsUnmaking deps.now.pairs points.now.entries.items hits first (pending self.old) }
        ensures reached { (hits : List ℕ) (first : ℕ → State) → IsUnmaking deps.now.pairs points.now.entries.items hits first (pending self.old) → IsUnmaking deps.now.pairs points.now.entries.items hits first (pending self.new) }
        ensures all { self.new.head ≡ None }
        ensures cells { length self.new.cells.items ≡ length self.old.cells.items }
    {
        while let Some(cell) = self.take_out() {
            self.mark_cell(deps, points, cell);
        }
    }

    // The valid readers of a point come into the list, if its facet changes.
    fn mark_changed(&mut self, deps: &Deps, points: &Points, point: usize, change: &Change)
        requires inside { point < length points.now.entries.items }
        requires readers { AllBelow (length self.old.cells.items) (readers_of point deps.now.pairs) }
        ensures { Looked deps.now.pairs points.now.entries.items (Changed change.now) point (pending self.old) (pending self.new) }
    {
        if change.changes(points.facet(point)) {
            self.mark_readers(deps, point);
        }
    }

    // The valid readers of all points of a cell of which the facet changes come into the list.
    fn mark_hits(&mut self, deps: &Deps, points: &Points, cell: usize, change: &Change)
        requires threaded { IsThreaded points.now.entries.items points.now.lasts.items }
        requires inside { cell < length points.now.lasts.items }
        requires readers { EachInside (length self.old.cells.items) (length points.now.entries.items) deps.now.pairs }
        ensures { MarksHits deps.now.pairs points.now.entries.items cell (Changed change.now) (pending self.old) (pending self.new) }
    {
        let mut at = points.last(cell);
        while let Some(point) = at {
            self.mark_changed(deps, points, point, change);
            at = points.before(point);
        }
    }

    // Exactly the valid cells that the change of a cell's value reaches become invalid.
    pub(crate) fn follow(&mut self, deps: &Deps, points: &Points, cell: usize, change: &Change)
        requires threaded { IsThreaded points.now.entries.items points.now.lasts.items }
        requires cells { length self.old.cells.items ≤ length points.now.lasts.items }
        requires inside { cell < length self.old.cells.items }
        requires readers { EachInside (length self.old.cells.items) (length points.now.entries.items) deps.now.pairs }
        requires none { self.old.head ≡ None }
        requires net { IsNet (named points.now.entries.items deps.now.pairs) (λ x. x.0) (Touches cell (Changed change.now)) (state_at self.old.cells.items) }
        ensures unmade { Unmakes (named points.now.entries.items deps.now.pairs) (λ x. x.0) (Touches cell (Changed change.now)) (state_at self.old.cells.items) (state_at self.new.cells.items) }
        ensures none { self.new.head ≡ None }
        ensures cells { length self.new.cells.items ≡ length self.old.cells.items }
    {
        self.mark_hits(deps, points, cell, change);
        self.unmake(deps, points);
    }
}
