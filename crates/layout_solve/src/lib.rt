//! Sizes and places of what a layout holds: boxes along an axis, and the tracks of grids.
#![tactic(auto)]

mod boxes;
mod grids;
mod items;
mod laws;
mod levels;
mod places;
mod sizings;

pub use boxes::solve_box;
pub use grids::grid_tracks;
pub use items::{Cell, Item};
pub use laws::room_is_shared_one_way;
pub use places::{Align, place};
pub use sizings::Sizing;
