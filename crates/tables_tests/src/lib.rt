//! Tests of the tables of what is built in, over public calls.
#![tactic(auto)]

#[cfg(test)]
mod functions;
#[cfg(test)]
mod members;
#[cfg(test)]
mod names;
#[cfg(test)]
mod operators;
