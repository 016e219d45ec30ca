//! The points: each pair of a cell and a facet that was read gets a number, which it keeps for good. A cell's points are a thread through the table.
ghost use Rattle.std.specs.Prelude.{◌≡◌, ◌<◌, length, [], IfOk, OnOk, OnErr, MatchOption, max, IsTrue, ◌↔◌};

use slint_base::Memory;
use std::alloc::Global;
use value_types::Facet;

/// A point's cell and facet, and the point of the same cell that was given before it.
#[derive(Clone, Copy)]
pub struct Entry {
    pub(crate) cell: usize,
    pub(crate) facet: Facet,
    pub(crate) next: Option<usize>,
}

#[derive(Drop)]
pub struct Points {
    pub(crate) entries: Vec<Entry>,
    pub(crate) lasts: Vec<Option<usize>>,
}

impl Points {
    ghost use Rattle.property_cells.specs.Points.{IsThreaded, last_below, entry_at, name_at, IsNew, AddsPoint};

    pub(crate) fn new(alloc: Global) -> Points
        ensures entries { result.entries.items ≡ [] }
        ensures lasts { result.lasts.items ≡ [] }
    {
        Points {
            entries: Vec::new(alloc),
            lasts: Vec::new(alloc),
        }
    }

    // How many points there are.
    pub(crate) fn len(&self) -> usize
        ensures { result ≡ length self.now.entries.items }
    {
        self.entries.len()
    }

    // The last point of a cell.
    pub(crate) fn last(&self, cell: usize) -> Option<usize>
        requires threaded { IsThreaded self.now.entries.items self.now.lasts.items }
        requires inside { cell < length self.now.lasts.items }
        ensures { result ≡ last_below self.now.entries.items cell (length self.now.entries.items) }
    {
        self.lasts[cell]
    }

    // The point of the same cell before this one.
    pub(crate) fn before(&self, point: usize) -> Option<usize>
        requires threaded { IsThreaded self.now.entries.items self.now.lasts.items }
        requires inside { point < length self.now.entries.items }
        ensures { result ≡ last_below self.now.entries.items (entry_at self.now.entries.items point).cell point }
    {
        self.entries[point].next
    }

    pub(crate) fn facet(&self, point: usize) -> Facet
        requires { point < length self.now.entries.items }
        ensures { result ≡ (entry_at self.now.entries.items point).facet }
    {
        self.entries[point].facet
    }

    // The point of a cell and a facet, if it has one.
    pub(crate) fn find(&self, cell: usize, facet: Facet) -> Option<usize>
        requires threaded { IsThreaded self.now.entries.items self.now.lasts.items }
        requires inside { cell < length self.now.lasts.items }
        ensures { MatchOption result (IsNew self.now.entries.items (cell, facet)) (λ p. (p < length self.now.entries.items) × (name_at self.now.entries.items p ≡ (cell, facet))) }
    {
        let mut at = self.last(cell);
        while let Some(point) = at {
            if is_same(self.facet(point), facet) {
                return Some(point);
            }
            at = self.before(point);
        }
        None
    }

    // One more point.
    pub(crate) fn add(&mut self, cell: usize, facet: Facet) -> Result<usize, Memory>
        requires threaded { IsThreaded self.old.entries.items self.old.lasts.items }
        requires inside { cell < length self.old.lasts.items }
        ensures threaded { IsThreaded self.new.entries.items self.new.lasts.items }
        ensures cells { length self.new.lasts.items ≡ length self.old.lasts.items }
        ensures ok { IfOk result (λ p. (p ≡ length self.old.entries.items) × AddsPoint self.old.entries.items self.new.entries.items (cell, facet)) }
        ensures err { OnErr result (self.new.entries.items ≡ self.old.entries.items) }
    {
        let point = self.entries.len();
        let next = self.lasts[cell];
        self.entries.push(Entry { cell, facet, next })?;
        self.lasts[cell] = Some(point);
        Ok(point)
    }

    // Cells up to this many, with no points of the new ones.
    pub(crate) fn admit(&mut self, cells: usize) -> Result<(), Memory>
        requires { IsThreaded self.old.entries.items self.old.lasts.items }
        ensures threaded { IsThreaded self.new.entries.items self.new.lasts.items }
        ensures points { self.new.entries.items ≡ self.old.entries.items }
        ensures cells { OnOk result (length self.new.lasts.items ≡ max cells (length self.old.lasts.items)) }
        ensures err { OnErr result (length self.new.lasts.items ≡ length self.old.lasts.items) }
    {
        if self.lasts.len() < cells {
            self.lasts.resize(cells, None)?;
        }
        Ok(())
    }
}

fn is_same(a: Facet, b: Facet) -> bool
    ensures { IsTrue result ↔ (a ≡ b) }
{
    match (a, b) {
        (Facet::Whole, Facet::Whole) => true,
        (Facet::Length, Facet::Length) => true,
        (Facet::Row(first), Facet::Row(second)) => first == second,
        _ => false,
    }
}
