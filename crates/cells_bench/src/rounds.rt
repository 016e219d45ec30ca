//! Rounds of assigning the first cell and running all that became invalid.
ghost use Rattle.std.specs.Prelude.{◌≡◌, ◌≢◌, ℕ, MatchBool, IfSome, OnOk};
ghost use Rattle.property_cells.specs.Net.{cell_in, invalid_cell, Stands};
ghost use Rattle.cells_bench.specs.Shapes.{count_of};
ghost use Rattle.cells_bench.specs.Rest.{IsIdle, AtRest, AllStand};

use crate::shapes::Shape;
use property_cells::{CellState, Cells};
use slint_base::Memory;
use std::alloc::Global;
use value_types::{Facet, Value};

/// The number that a cell holds, and 0 where it holds another value.
fn number_at(cells: &Cells, cell: usize) -> i32
    requires { Stands (cell_in cells.now cell) }
{
    match cells.value_of(cell) {
        Some(Value::Int(number)) => *number,
        _ => 0,
    }
}

/// The innermost running cell reads another whole: its number, or 0 if none is given.
fn read(cells: &mut Cells, on: Option<usize>) -> Result<i32, Memory>
    requires { IfSome on (λ c. Stands (cell_in cells.old c)) }
    ensures cells { cells.new.cells ≡ cells.old.cells }
    ensures running { cells.new.running ≡ cells.old.running }
{
    let Some(on) = on else {
        return Ok(0);
    };
    let number = number_at(cells, on);
    cells.note_read(on, Facet::Whole)?;
    Ok(number)
}

/// Runs a cell that reads at most two others: it holds one more than the greater of their numbers.
fn run(
    cells: &mut Cells,
    cell: usize,
    first: Option<usize>,
    second: Option<usize>,
) -> Result<(), Memory>
    requires invalid { cell_in cells.old cell ≡ invalid_cell }
    requires first { IfSome first (λ c. Stands (cell_in cells.old c)) }
    requires second { IfSome second (λ c. Stands (cell_in cells.old c)) }
    ensures own { OnOk result (Stands (cell_in cells.new cell)) }
    ensures others { OnOk result ((c : ℕ) → c ≢ cell → cell_in cells.new c ≡ cell_in cells.old c) }
    ensures running { OnOk result (cells.new.running ≡ cells.old.running) }
{
    cells.begin_run(cell);
    let one = read(cells, first)?;
    let other = read(cells, second)?;
    cells.end_run(cell, Value::Int(one.max(other).saturating_add(1)));
    Ok(())
}

fn is_invalid(cells: &Cells, cell: usize) -> bool
    requires { IsIdle (cell_in cells.now cell) }
    ensures { MatchBool result (cell_in cells.now cell ≡ invalid_cell) (Stands (cell_in cells.now cell)) }
{
    match cells.state_of(cell) {
        CellState::Invalid => true,
        _ => false,
    }
}

/// Runs a cell if it is invalid.
fn settle(cells: &mut Cells, shape: Shape, cell: usize) -> Result<(), Memory>
    requires idle { IsIdle (cell_in cells.old cell) }
    requires below { AllStand cell cells.old }
    ensures own { OnOk result (Stands (cell_in cells.new cell)) }
    ensures others { OnOk result ((c : ℕ) → c ≢ cell → cell_in cells.new c ≡ cell_in cells.old c) }
    ensures running { OnOk result (cells.new.running ≡ cells.old.running) }
{
    if !is_invalid(cells, cell) {
        return Ok(());
    }
    let (first, second) = shape.reads(cell);
    run(cells, cell, first, second)
}

/// Runs all cells that are invalid, in rising order, so that what a cell reads has a value.
fn refresh(cells: &mut Cells, shape: Shape) -> Result<(), Memory>
    requires { AtRest (count_of shape) cells.old }
    ensures rest { OnOk result (AtRest (count_of shape) cells.new) }
    ensures stand { OnOk result (AllStand (count_of shape) cells.new) }
{
    for cell in 0..shape.count() {
        settle(cells, shape, cell)?;
    }
    Ok(())
}

/// What is seen of a net behind its rounds.
#[derive(Clone, Copy, Debug, PartialEq, Eq)]
pub struct Outcome {
    /// How many runs there were.
    pub runs: u64,
    /// The number that the last cell holds.
    pub last: i32,
}

/// Runs each cell of a net, and then so often assigns the first one another number and runs all that became invalid.
pub fn run_rounds(alloc: Global, shape: Shape, rounds: i32) -> Result<Outcome, Memory> {
    let count = shape.count();
    let mut cells = Cells::new(alloc);
    cells.add(count)?;
    refresh(&mut cells, shape)?;
    for round in 0..rounds {
        cells.assign(0, Value::Int(round), false);
        refresh(&mut cells, shape)?;
    }
    let runs = cells.runs();
    let last = number_at(&cells, count - 1);
    Ok(Outcome { runs, last })
}
