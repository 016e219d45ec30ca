//! The cells that run, the innermost first. They are threaded through the cells, so that beginning a run takes no memory.
ghost use Rattle.std.specs.Prelude.{◌≡◌, ℕ, ◌<◌, List, [], ◌∷◌, length, max, MatchOption, OnOk, OnErr};
ghost use Rattle.dep_list.specs.Pairs.{In};

use slint_base::Memory;
use std::alloc::Global;
use std::marker::Model;

#[derive(Drop)]
pub struct Runs {
    below: Vec<Option<usize>>,
    top: Option<usize>,
    count: usize,
}

impl Model for Runs {
    ghost use Rattle.std.specs.Prelude.{length as len};
    ghost use Rattle.property_cells.specs.Runs.{Running, run_list, IsRun};

    ghost Value = { Running };

    ghost view = { λ r. record { cells = len r.below.items; list = run_list r.count r.top r.below.items } };

    ghost invariant = { λ r. IsRun r.below.items r.top r.count };
}

impl Runs {
    pub(crate) fn new(alloc: Global) -> Runs
        ensures cells { result.cells ≡ 0 }
        ensures list { result.list ≡ [] }
    {
        Runs {
            below: Vec::new(alloc),
            top: None,
            count: 0,
        }
    }

    // A cell is the innermost that runs from then on.
    pub(crate) fn begin(&mut self, cell: usize)
        requires inside { cell < self.old.cells }
        requires free { In cell self.old.list → ⊥ }
        requires room { length self.old.list < self.old.cells }
        ensures cells { self.new.cells ≡ self.old.cells }
        ensures list { self.new.list ≡ cell ∷ self.old.list }
    {
        self.below[cell] = self.top;
        self.top = Some(cell);
        self.count += 1;
    }

    // The innermost no longer runs.
    pub(crate) fn end(&mut self, cell: usize)
        requires { (rest : List ℕ) × (self.old.list ≡ cell ∷ rest) }
        ensures cells { self.new.cells ≡ self.old.cells }
        ensures list { self.old.list ≡ cell ∷ self.new.list }
    {
        self.top = self.below[cell];
        self.count -= 1;
    }

    // The innermost that runs, if any does.
    pub(crate) fn innermost(&self) -> Option<usize>
        ensures { MatchOption result (self.now.list ≡ []) (λ cell. (rest : List ℕ) × (self.now.list ≡ cell ∷ rest)) }
    {
        if self.count == 0 { None } else { self.top }
    }

    // Cells up to this many, of which the new ones do not run.
    pub(crate) fn admit(&mut self, cells: usize) -> Result<(), Memory>
        ensures cells { OnOk result (self.new.cells ≡ max cells self.old.cells) }
        ensures list { self.new.list ≡ self.old.list }
        ensures err { OnErr result (self.new.cells ≡ self.old.cells) }
    {
        if self.below.len() < cells {
            self.below.resize(cells, None)?;
        }
        Ok(())
    }
}
