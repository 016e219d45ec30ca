//! Where the lines of a file start, and the line and the column of a byte by these starts.
#![tactic(auto)]

mod laws;
mod lines;

pub use laws::places_by_starts;
pub use lines::{line_starts, place_by};
