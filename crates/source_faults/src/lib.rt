//! Which rules the faults of names, types and purity are of. A law alone: nothing here runs.
#![tactic(auto)]

mod laws;

pub use laws::{no_fault_misses_a_file, no_impurity_misses_a_file};
