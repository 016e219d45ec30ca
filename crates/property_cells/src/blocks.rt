//! Blocks of cells that were taken out and are free to be used again, by their size. They are threaded through the cells, so that giving one back takes no memory.
ghost use Rattle.std.specs.Prelude.{◌≡◌, ℕ, ◌+◌, ◌<◌, ◌≤◌, [], MatchOption, OnOk};
ghost use Rattle.dep_list.specs.Pairs.{In};

use slint_base::Memory;
use std::alloc::Global;
use std::marker::Model;

#[derive(Drop)]
pub struct Blocks {
    // the first cell of the block of each size, from one cell on, that was given back last
    heads: Vec<Option<usize>>,
    // by the first cell of a block, that of the block of its size given back before it
    next: Vec<Option<usize>>,
}

impl Model for Blocks {
    ghost use Rattle.std.specs.Prelude.{length as len};
    ghost use Rattle.property_cells.specs.Blocks.{Free, chains, AreChains};

    ghost Value = { Free };

    ghost view = { λ b. record { cells = len b.next.items; blocks = chains b.heads.items b.next.items } };

    ghost invariant = { λ b. AreChains b.heads.items b.next.items };
}

impl Blocks {
    ghost use Rattle.property_cells.specs.Blocks.{sized, IsMore};

    pub(crate) fn new(alloc: Global) -> Blocks
        ensures cells { result.cells ≡ 0 }
        ensures blocks { result.blocks ≡ [] }
    {
        Blocks {
            heads: Vec::new(alloc),
            next: Vec::new(alloc),
        }
    }

    // The block of this size that was given back last is no longer free.
    pub(crate) fn take(&mut self, size: usize) -> Option<usize>
        ensures cells { self.new.cells ≡ self.old.cells }
        ensures block { MatchOption result ((sized self.old.blocks size ≡ []) × (self.new.blocks ≡ self.old.blocks)) (λ first. IsMore self.new.blocks size first self.old.blocks) }
    {
        if size == 0 {
            return None;
        }
        if self.heads.len() < size {
            return None;
        }
        let first = self.heads[size - 1]?;
        self.heads[size - 1] = self.next[first];
        Some(first)
    }

    // A block is free from then on.
    pub(crate) fn give(&mut self, first: usize, size: usize)
        requires cell { 0 < size }
        requires inside { first + size ≤ self.old.cells }
        requires new { (n : ℕ) → In first (sized self.old.blocks n) → ⊥ }
        ensures cells { self.new.cells ≡ self.old.cells }
        ensures block { IsMore self.old.blocks size first self.new.blocks }
    {
        self.next[first] = self.heads[size - 1];
        self.heads[size - 1] = Some(first);
    }

    // Room for blocks of so many cells.
    pub(crate) fn admit(&mut self, cells: usize) -> Result<(), Memory>
        ensures cells { OnOk result (cells ≤ self.new.cells) }
        ensures grown { self.old.cells ≤ self.new.cells }
        ensures blocks { (n : ℕ) → sized self.new.blocks n ≡ sized self.old.blocks n }
    {
        if cells <= self.next.len() {
            return Ok(());
        }
        self.heads.resize(cells.max(self.heads.len()), None)?;
        self.next.resize(cells, None)?;
        Ok(())
    }
}
