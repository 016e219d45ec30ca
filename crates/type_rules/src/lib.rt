//! Which types convert to which, and which are the same.
#![tactic(auto)]

mod conversions;
mod field_index;
mod plain_types;
mod sameness;

pub use conversions::converts;
pub use plain_types::is_void;
pub use sameness::{same_type, sameness_is_equality};
