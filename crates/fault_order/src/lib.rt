//! The order in which faults of one pass are told: by file, then by the first byte, then by the rule, then by the end.
#![tactic(auto)]

mod order;

pub use order::{earlier, is_not_behind, one_first_fault};
