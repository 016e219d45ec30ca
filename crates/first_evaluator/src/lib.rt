//! The first language, which is a part of the whole: trees of it, and the plain evaluator of a component's bindings, with their names
//! resolved, in the order of the text.
#![tactic(auto)]

mod evaluator;
mod forms;
mod resolving;
mod trees;

pub use evaluator::Evaluator;
pub use forms::first_file;
pub use resolving::{Component, component_of, resolve};
pub use trees::{Factor, FirstFile, FirstProp, FirstProps, Terms};

#[cfg(test)]
mod tests;
