//! From a typed tree to the expanded tree of its root component, within the limits of elements and of repeaters in repeaters.
#![tactic(auto)]

mod children;
mod counting;
mod expanding;
mod extents;
mod faults;
mod growing;
mod measuring;
mod ordering;
mod owning;
mod repeaters;

pub use expanding::expand;
