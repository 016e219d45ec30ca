//! Tests of classes of linked members: what is chosen for a class, and which changes of states are refused.
#![tactic(auto)]

#[cfg(test)]
mod choices;
