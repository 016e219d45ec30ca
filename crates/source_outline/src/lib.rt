//! The outline of a source: all its declarations, with the elements and members that they have; kinds that are left out are taken over along
//! links.
#![tactic(auto)]

mod ends;
mod followers;
mod kinds;
mod laws;
mod links;
mod members;
mod numbers;
mod outlines;
mod refilling;
mod rows;
mod sketching;
mod slots;

pub use followers::Follower;
pub use laws::some_first_endless_link;
pub use outlines::sketch_roughly;
pub use sketching::{Sketch, sketch_source};
pub use slots::SlotAt;
