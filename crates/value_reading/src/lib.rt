//! How written values are read by their types.
#![tactic(auto)]

mod color_names;
mod laws;
mod parts;
mod reading;

pub use color_names::color_named;
pub use laws::{printed_numbers_read, printed_values_read, written_values_read};
pub use reading::{BadValue, read_value};
