//! Pairs of a reader and a point that it has read, kept so that a reader's pairs, and a point's, are found and taken out without a search.
#![tactic(auto)]

mod dependencies;
mod growing;
mod linking;
mod lists;
mod loose;
mod node;
mod nodes;
mod steps;
mod walking;

pub use dependencies::Deps;
// A crate can name a `Deps` in a contract only if the types of its fields are exported.
#[doc(hidden)]
pub use lists::Lists;
#[doc(hidden)]
pub use node::{Ends, Link, Node, Place, Side};
#[doc(hidden)]
pub use nodes::Nodes;
pub use walking::Others as Readers;
