//! The elements of a component in the order of the text: for each of them where it stands, how often it is there, and its body.
#![tactic(auto)]

mod collecting;
mod laws;
mod written;

pub use collecting::written_in;
pub use laws::parents_stand_before;
pub use written::{Repeating, Written};
