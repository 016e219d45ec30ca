//! Tests of how sources are read and printed, over public calls.
#![tactic(auto)]

#[cfg(test)]
mod faults;
#[cfg(test)]
mod printing;
#[cfg(test)]
mod sources;
#[cfg(test)]
mod tokens;
