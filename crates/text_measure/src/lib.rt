//! How wide characters are, by a table, and how much room a text takes.
#![tactic(auto)]

mod faults;
mod lines;
mod measuring;
mod reading;
mod tables;
mod words;

pub use faults::BadTable;
pub use lines::MOST_TABLE_BYTES;
pub use measuring::{Size, measure};
pub use reading::read_table;
pub use tables::TextTable;
