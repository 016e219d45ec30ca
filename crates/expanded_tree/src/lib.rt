//! The expanded tree of a source's root component, in which every component is replaced by its elements.
#![tactic(auto)]

mod bodies;
mod components;
mod elements;
mod expanded;
mod holders;
mod items;
mod limits;
mod members;
mod places;
mod tasks;

pub use bodies::{Body, Place, Spot};
pub use components::{base_at, elements_at, slot_at};
pub use elements::ExpandedElement;
pub use expanded::Expanded;
pub use holders::Holder;
pub use limits::{MOST_ELEMENTS, MOST_REPEATERS};
pub use members::ExpandedMember;
pub use places::{innermost, inwards, layers, place_at, type_at};
pub use tasks::{Around, Task};
