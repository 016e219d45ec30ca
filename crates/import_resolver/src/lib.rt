//! The files of a source: its main file and all that it imports.
#![tactic(auto)]

mod ends;
mod laws;
mod loaded;
mod loading;
mod steps;
mod tables;

pub use ends::LoadEnd;
pub use laws::{imports_lead, one_outcome, some_outcome};
pub use loaded::{Loaded, SourceFile};
pub use loading::load;
