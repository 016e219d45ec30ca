//! Which file the path of an import means.
#![tactic(auto)]

mod paths;

pub use paths::{file_meant, is_below};
