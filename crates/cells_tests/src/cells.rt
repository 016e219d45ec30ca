ghost use Rattle.std.specs.Prelude.{◌≡◌, ◌≢◌, ℕ, IfSome, OnOk};
ghost use Rattle.value_types.specs.declared.values.Value.TheVariants.{Int};
ghost use Rattle.property_cells.specs.Net.{cell_in, invalid_cell, valid_cell, Stands};

use property_cells::{CellState, Cells};
use slint_base::Memory;
use std::alloc::Global;
use value_types::{Facet, Value};

/// The innermost running cell reads another whole, if one is given.
fn read(cells: &mut Cells, on: Option<usize>) -> Result<(), Memory>
    requires { IfSome on (λ c. Stands (cell_in cells.old c)) }
    ensures cells { cells.new.cells ≡ cells.old.cells }
    ensures running { cells.new.running ≡ cells.old.running }
{
    let Some(on) = on else {
        return Ok(());
    };
    cells.note_read(on, Facet::Whole)
}

/// Runs a cell that reads at most two others.
fn run(
    cells: &mut Cells,
    cell: usize,
    first: Option<usize>,
    second: Option<usize>,
) -> Result<(), Memory>
    requires invalid { cell_in cells.old cell ≡ invalid_cell }
    requires first { IfSome first (λ c. Stands (cell_in cells.old c)) }
    requires second { IfSome second (λ c. Stands (cell_in cells.old c)) }
    ensures own { OnOk result (Stands (cell_in cells.new cell)) }
    ensures others { OnOk result ((c : ℕ) → c ≢ cell → cell_in cells.new c ≡ cell_in cells.old c) }
    ensures running { OnOk result (cells.new.running ≡ cells.old.running) }
{
    cells.begin_run(cell);
    read(cells, first)?;
    read(cells, second)?;
    cells.end_run(cell, Value::Int(1));
    Ok(())
}

/// The numbers of two cells that are added one after the other, of which the second has read the first, with the pairs and the runs.
fn two_runs(alloc: Global) -> Result<(usize, usize, u64, u64), Memory> {
    let mut cells = Cells::new(alloc);
    let first = cells.add(1)?;
    run(&mut cells, first, None, None)?;
    let second = cells.add(1)?;
    run(&mut cells, second, Some(first), None)?;
    Ok((first, second, cells.pairs(), cells.runs()))
}

/// What is seen of cells 0, 1 and 2 behind a change of cell 0.
#[derive(Clone, Copy, Debug, PartialEq, Eq)]
struct Seen {
    states: (CellState, CellState, CellState),
    pairs: u64,
    pairs_without_1: u64,
    next: usize,
}

/// Cell 1 has read cell 0, and cell 2 has read cells 1 and 0. Then cell 0 is assigned another value, cell 1 is taken out and a cell is added. None where the first number isn't 0.
fn changed(alloc: Global) -> Result<Option<Seen>, Memory> {
    let mut cells = Cells::new(alloc);
    if cells.add(3)? != 0 {
        return Ok(None);
    }
    run(&mut cells, 0, None, None)?;
    run(&mut cells, 1, Some(0), None)?;
    run(&mut cells, 2, Some(1), Some(0))?;
    cells.assign(0, Value::Int(7), false);
    let states = (cells.state_of(0), cells.state_of(1), cells.state_of(2));
    let pairs = cells.pairs();
    cells.remove_block(1, 1);
    let pairs_without_1 = cells.pairs();
    let next = cells.add(1)?;
    Ok(Some(Seen {
        states,
        pairs,
        pairs_without_1,
        next,
    }))
}

#[cfg(test)]
mod tests {
    use super::*;

    #[test]
    fn runs_and_pairs_are_counted(rt: HostRuntime) -> Result<(), Memory> {
        assert_eq!(rt; two_runs(rt.alloc())?, (0, 1, 1, 2));
        Ok(())
    }

    #[test]
    fn a_change_reaches_readers_of_readers(rt: HostRuntime) -> Result<(), Memory> {
        let states = (CellState::Assigned, CellState::Invalid, CellState::Invalid);
        let wanted = Seen {
            states,
            pairs: 3,
            pairs_without_1: 1,
            next: 1,
        };
        assert_eq!(rt; changed(rt.alloc())?, Some(wanted));
        Ok(())
    }
}
