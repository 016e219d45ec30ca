//! What a running cell reads is noted, once.
ghost use Rattle.std.specs.Prelude.{◌≡◌, ℕ, ◌<◌, ◌⊎◌, ◌∷◌, List, length, IfOk, OnOk, OnErr};
ghost use Rattle.dep_list.specs.Pairs.{In};
ghost use Rattle.property_cells.specs.Points.{name_at};
ghost use Rattle.property_cells.specs.Net.{cell_in, Stands, noted, Notes};

use crate::store::Store;
use slint_base::Memory;
use value_types::Facet;

impl Store {
    ghost use Rattle.property_cells.specs.Store.{seen, Held};

    // The point of a cell and a facet, which is given where it has none.
    fn point_of(&mut self, cell: usize, facet: Facet) -> Result<usize, Memory>
        requires held { Held self.old }
        requires inside { cell < length self.old.marks.cells.items }
        ensures held { Held self.new }
        ensures seen { seen self.new ≡ seen self.old }
        ensures ok { IfOk result (λ p. (p < length self.new.points.entries.items) × (name_at self.new.points.entries.items p ≡ (cell, facet))) }
    {
        if let Some(point) = self.points.find(cell, facet) {
            return Ok(point);
        }
        let Some(points) = self.points.len().checked_add(1) else {
            return Err(Memory);
        };
        self.deps.reserve_ends(0, points)?;
        let point = self.points.add(cell, facet)?;
        Ok(point)
    }

    // The pair is there from then on.
    fn note(&mut self, reader: usize, point: usize) -> Result<(), Memory>
        requires held { Held self.old }
        requires runs { (rest : List ℕ) × ((seen self.old).running ≡ reader ∷ rest) }
        requires inside { point < length self.old.points.entries.items }
        requires stands { Stands (cell_in (seen self.old) (name_at self.old.points.entries.items point).0) }
        ensures held { Held self.new }
        ensures ok { OnOk result (Notes (seen self.old).running (name_at self.old.points.entries.items point) (seen self.old) (seen self.new)) }
        ensures err { OnErr result (seen self.new ≡ seen self.old) }
    {
        if self.deps.has(reader, point) {
            return Ok(());
        }
        self.deps.reserve(1)?;
        self.deps.link(reader, point);
        Ok(())
    }

    // The innermost running cell has read the facet.
    pub(crate) fn note_read(&mut self, on: usize, facet: Facet) -> Result<(), Memory>
        requires held { Held self.old }
        requires stands { Stands (cell_in (seen self.old) on) }
        ensures held { Held self.new }
        ensures ok { OnOk result (Notes (seen self.old).running (on, facet) (seen self.old) (seen self.new)) }
        ensures err { OnErr result (seen self.new ≡ seen self.old) }
    {
        let Some(reader) = self.running.innermost() else {
            return Ok(());
        };
        let point = self.point_of(on, facet)?;
        self.note(reader, point)
    }
}
