//! Tests of how the words of the command line are read, over public calls.
#![tactic(auto)]

#[cfg(test)]
mod readings;
