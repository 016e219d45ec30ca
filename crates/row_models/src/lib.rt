//! The rows of an array: its items, each with a key that stays with its row when others come and go.
#![tactic(auto)]

mod ends;
mod items;
mod keys;
mod laws;
mod rows;

pub use ends::{NoRow, RowEnd};
pub use laws::keys_stay_apart;
pub use rows::{MOST_ROWS, Rows};
