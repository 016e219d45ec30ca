//! Tests of the whole program and of the calls below it, over objects in memory and files of the system.
#![tactic(auto)]

#[cfg(test)]
mod disk;
#[cfg(test)]
mod loads;
#[cfg(test)]
mod places;
#[cfg(test)]
mod runs;
