//! What a name stands for in a scope, what stands behind a point, and where a path outside expressions leads.
#![tactic(auto)]

mod behind;
mod far;
mod leads;
mod looking_up;
mod meanings;
mod members;
mod near;
mod values;

pub use leads::{Lead, lead_of, own_member};
pub use looking_up::{behind_point, look_up};
pub use meanings::{Lookup, Meaning};
