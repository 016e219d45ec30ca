//! Tests of the expanded tree: what `expand` gives for typed trees that are built by hand.
#![tactic(auto)]

#[cfg(test)]
mod expanding;
