//! The second pass over a source: names in bodies. Which names stand twice where they have to differ, and which names outside
//! expressions stand for nothing, or for what may not be used so.
#![tactic(auto)]

mod bodies;
mod body;
mod items;
mod members;
mod names;
mod rows;
mod source;
mod twice;
mod types;
mod uses;

pub use names::NameKind;
pub use source::item_fault;
pub use types::type_fault;
pub use uses::Use;
