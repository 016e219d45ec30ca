//! Names by their places in a list.
#![tactic(auto)]

mod index;

pub use index::{NameIndex, NumbersByName, add_number, numbers_of};
