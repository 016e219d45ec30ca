//! Tests of what a file exports and of the root of a source, over public calls.
#![tactic(auto)]

#[cfg(test)]
mod exported;
#[cfg(test)]
mod roots;
#[cfg(test)]
mod sources;
