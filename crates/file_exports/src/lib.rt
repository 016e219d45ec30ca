//! What a file imports and exports, and which of its components is the root of a source.
#![tactic(auto)]

mod names;
mod roots;

pub use names::exported_names;
pub use roots::root_place;
