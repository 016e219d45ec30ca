//! The reading of one file of a source: its bytes as a tree, or the first fault of its length, its tokens, their grammar.
#![tactic(auto)]

mod laws;
mod reading;

pub use laws::{fronts_read, one_reading, reading_rules, some_reading};
pub use reading::{MOST_BYTES, read_tree};
