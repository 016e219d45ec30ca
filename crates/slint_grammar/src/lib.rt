//! The written grammar of sources: which tokens derive which tree, and where tokens that derive none break it.
#![tactic(auto)]

mod laws;
mod words;

pub use laws::{one_fault, one_tree, printed_again, printed_reads, tree_or_fault};
pub use words::{Word, word_of};
