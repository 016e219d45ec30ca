//! The nets that are timed: how many cells each has, and what each cell reads.
ghost use Rattle.std.specs.Prelude.{◌≡◌, ◌<◌, IfSome};
ghost use Rattle.cells_bench.specs.Shapes.{count_of};

/// A net of cells, each of which reads none or some of lower numbers.
#[derive(Clone, Copy, Debug, PartialEq, Eq)]
pub enum Shape {
    /// 1,000 cells, of which each reads the one before it.
    Chain,
    /// A cell and 1,000 that read it.
    Fan,
    /// 100 rows of 100 cells, of which each reads the one left of it and the one above it.
    Grid,
}

/// How many cells stand in a row of the grid.
const SIDE: usize = 100;

impl Shape {
    pub fn named(name: &str) -> Option<Shape> {
        match name {
            "chain" => Some(Shape::Chain),
            "fan" => Some(Shape::Fan),
            "grid" => Some(Shape::Grid),
            _ => None,
        }
    }

    pub fn name(self) -> &'static str {
        match self {
            Shape::Chain => "chain",
            Shape::Fan => "fan",
            Shape::Grid => "grid",
        }
    }

    /// How many cells there are.
    pub fn count(self) -> usize
        ensures count { result ≡ count_of self }
        ensures some { 0 < result }
    {
        match self {
            Shape::Chain => 1000,
            Shape::Fan => 1001,
            Shape::Grid => SIDE * SIDE,
        }
    }

    /// What a cell reads: the one before it or left of it or the first, and the one above it.
    pub fn reads(self, cell: usize) -> (Option<usize>, Option<usize>)
        ensures first { IfSome result.0 (λ on. on < cell) }
        ensures second { IfSome result.1 (λ on. on < cell) }
    {
        match self {
            Shape::Chain => (cell.checked_sub(1), None),
            Shape::Fan if cell == 0 => (None, None),
            Shape::Fan => (Some(0), None),
            Shape::Grid if cell % SIDE == 0 => (None, cell.checked_sub(SIDE)),
            Shape::Grid => (cell.checked_sub(1), cell.checked_sub(SIDE)),
        }
    }
}
