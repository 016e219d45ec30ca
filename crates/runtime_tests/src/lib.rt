//! Tests of the cached runtime's parts, over their public calls.
#![tactic(auto)]

#[cfg(test)]
mod boxes;
#[cfg(test)]
mod grids;
#[cfg(test)]
mod pairs;
#[cfg(test)]
mod rows;
#[cfg(test)]
mod texts;
