//! Purity: bindings, conditions and models change nothing, nor does what is marked `pure`.
#![tactic(auto)]

mod acts;
mod block_acts;
mod bodies;
mod expr_acts;
mod graphs;
mod kinds;
mod laws;
mod numbers;
mod purity;

pub use acts::{Act, Home, Routine};
pub use bodies::{Body, Place};
pub use laws::some_purity_verdict;
pub use purity::check_purity;
