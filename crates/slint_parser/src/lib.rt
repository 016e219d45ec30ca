//! From the tokens of a source to its tree.
#![tactic(auto)]

mod bodies;
mod callbacks;
mod cursor;
mod files;
mod functions;
mod globals;
mod grammar;
mod handlers;
mod heads;
mod joined;
mod leaves;
mod operators;
mod paths;
mod primaries;
mod properties;
mod starts;
mod statements;
mod states;
mod stops;
mod trees;
mod types;
mod values;

pub use files::parse;
