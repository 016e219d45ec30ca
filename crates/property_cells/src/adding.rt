//! Cells are added, by blocks.
ghost use Rattle.std.specs.Prelude.{◌≡◌, ◌≢◌, ℕ, ◌+◌, ◌<◌, ◌≤◌, length, slice_index_or, None, IfOk, OnOk, OnErr};
ghost use Rattle.value_types.specs.declared.values.Value.{Value};
ghost use Rattle.property_cells.specs.Net.{Adds};

use crate::marks::State;
use crate::store::Store;
use slint_base::Memory;
use value_types::Value;

// Room for the values of so many cells.
fn admit_values(values: &mut Vec<Option<Value>>, cells: usize) -> Result<(), Memory>
    ensures values { (c : ℕ) → slice_index_or values.new.items c None ≡ slice_index_or values.old.items c None }
    ensures grown { length values.old.items ≤ length values.new.items }
    ensures ok { OnOk result (cells ≤ length values.new.items) }
{
    while values.len() < cells {
        values.push(None)?;
    }
    Ok(())
}

impl Store {
    ghost use Rattle.property_cells.specs.Store.{seen, Held, HasTables, HasEnds};

    // Room for so many cells where points, runs and free blocks are threaded through them.
    fn admit_threads(&mut self, cells: usize) -> Result<(), Memory>
        requires { Held self.old }
        ensures held { Held self.new }
        ensures seen { seen self.new ≡ seen self.old }
        ensures cells { self.new.marks ≡ self.old.marks }
        ensures ok { OnOk result (HasTables cells self.new) }
    {
        self.points.admit(cells)?;
        self.running.admit(cells)?;
        self.blocks.admit(cells)
    }

    // Room for the values and the pairs of so many cells.
    fn admit_pairs(&mut self, cells: usize) -> Result<(), Memory>
        requires held { Held self.old }
        requires tables { HasTables cells self.old }
        ensures held { Held self.new }
        ensures seen { seen self.new ≡ seen self.old }
        ensures cells { self.new.marks ≡ self.old.marks }
        ensures tables { HasTables cells self.new }
        ensures ok { OnOk result (HasEnds cells self.new) }
    {
        admit_values(&mut self.values, cells)?;
        self.deps.reserve_ends(cells, 0)
    }

    // Cells with numbers that no cell had.
    fn append(&mut self, count: usize) -> Result<usize, Memory>
        requires { Held self.old }
        ensures held { Held self.new }
        ensures ok { IfOk result (λ first. Adds (seen self.old) (seen self.new) first count) }
        ensures err { OnErr result (seen self.new ≡ seen self.old) }
    {
        let first = self.marks.len();
        let Some(cells) = first.checked_add(count) else {
            return Err(Memory);
        };
        self.admit_threads(cells)?;
        self.admit_pairs(cells)?;
        self.marks.append(cells)?;
        Ok(first)
    }

    // Adds a block of cells, with the numbers of one of the same size that was taken out, if there is one.
    pub(crate) fn add(&mut self, count: usize) -> Result<usize, Memory>
        requires { Held self.old }
        ensures held { Held self.new }
        ensures ok { IfOk result (λ first. Adds (seen self.old) (seen self.new) first count) }
        ensures err { OnErr result (seen self.new ≡ seen self.old) }
    {
        let Some(first) = self.blocks.take(count) else {
            return self.append(count);
        };
        self.marks.set_all(first, count, State::Invalid);
        Ok(first)
    }
}
