//! The second pass over a source: children and grids. Which children land where they may not, which `@children` may not be where it
//! is, and what in and out of grids breaks their rules.
#![tactic(auto)]

mod cells;
mod children;
mod cursors;
mod ends;
mod faults;
mod grids;
mod items;
mod landing;
mod moving;
mod numbers;
mod places;
mod rows;
mod slots;
mod source;

pub use cursors::Cursor;
pub use numbers::Numbers;
pub use source::child_fault;
