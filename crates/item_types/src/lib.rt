//! The typed form of one item of a body, of a condition and of a model; or of the rules that are broken in it the first one.
#![tactic(auto)]

mod bindings;
mod handlers;
mod items;
mod judging;
mod laws;
mod links;
mod members;
mod models;
mod parameters;
mod rows;
mod states;
mod targets;
mod values;

pub use judging::{type_condition, type_item, type_model};
pub use laws::{grid_numbers, one_condition, one_item, one_model, some_verdict};
pub use rows::row_names;
