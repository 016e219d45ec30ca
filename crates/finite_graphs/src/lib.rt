//! Finite graphs: which of their nodes and edges lie on circles, and how long the walks from their nodes are.
#![tactic(auto)]

mod circles;
mod edge;
mod graph;
mod laws;
mod ranks;
mod reached;
mod rows;
mod search;
mod walking;

pub use circles::{Circles, components, find_circles};
pub use edge::Edge;
pub use graph::Graph;
pub use laws::{
    circles_are_decided, circles_are_whole, circles_have_no_rank, numbers_keep_circles,
};
pub use ranks::ranks_of;
pub use reached::reached_from;

#[cfg(test)]
mod tests;
