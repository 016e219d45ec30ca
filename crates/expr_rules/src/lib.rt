//! What each form of expressions and statements comes to once its parts have come to something, or the rule that it breaks itself.
#![tactic(auto)]

mod assignments;
mod blocks;
mod calls;
mod chains;
mod collections;
mod expressions;
mod fitting;
mod items;
mod judged;
mod literals;
mod making;
mod members;
mod names;
mod operators;
mod parts;
mod paths;
mod places;
mod spans;
mod statements;
mod suffixes;
mod targets;
mod templates;

pub use assignments::own_assigned;
pub use expressions::{own_chained, own_field_name, own_form};
pub use judged::{Denoted, Judged};
pub use places::{argument_places, assigned_place, at_place};
pub use statements::{own_body, own_braces, own_otherwise, own_statement};
pub use suffixes::own_suffixed;
