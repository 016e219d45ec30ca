//! The typed tree of a source, or the first fault of the first pass in which anything is broken.
#![tactic(auto)]

mod adding;
mod bodies;
mod elements;
mod laws;
mod resolving;
mod sources;
mod trees;

pub use elements::Inside;
pub use laws::{one_resolution, some_resolution};
pub use resolving::resolve;
