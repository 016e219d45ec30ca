ghost use Rattle.std.specs.Prelude.{◌≡◌};
ghost use Rattle.row_models.specs.declared.ends.RowEnd.TheVariants.{Memory as memory_end};

use slint_base::Memory;
use std::alloc::{AllocError, AllocFailed};

/// There is no row at the place.
#[derive(Clone, Copy, Debug, PartialEq, Eq)]
pub struct NoRow;

/// Why an edit of rows is refused.
#[derive(Clone, Copy, Debug, PartialEq, Eq)]
pub enum RowEnd {
    /// The place is past the rows.
    NoRow,
    /// There are as many rows as an edit may make, or there would be more.
    TooManyRows,
    /// Memory could not be had.
    Memory,
}

impl From<Memory> for RowEnd {
    ghost from_gives = { λ _ e. e ≡ memory_end };

    fn from(_e: Memory) -> RowEnd {
        RowEnd::Memory
    }
}

impl From<AllocError> for RowEnd {
    ghost from_gives = { λ _ e. e ≡ memory_end };

    fn from(_e: AllocError) -> RowEnd {
        RowEnd::Memory
    }
}

impl<T: Drop> From<AllocFailed<T>> for RowEnd {
    ghost from_gives = { λ _ e. e ≡ memory_end };

    fn from(_e: AllocFailed<T>) -> RowEnd {
        RowEnd::Memory
    }
}
