//! Cells that keep values, which of them are valid, and what each has read.
#![tactic(auto)]

mod adding;
mod assigning;
mod blocks;
mod cells;
mod changes;
mod marking;
mod marks;
mod noting;
mod points;
mod reading;
mod removing;
mod running;
mod states;
mod store;

pub use cells::Cells;
pub use states::CellState;
// A crate can name `Cells` in a contract only if the types of its fields are exported.
#[doc(hidden)]
pub use blocks::Blocks;
#[doc(hidden)]
pub use marks::{Mark, Marks, State};
#[doc(hidden)]
pub use points::{Entry, Points};
#[doc(hidden)]
pub use running::Runs;
#[doc(hidden)]
pub use store::Store;
