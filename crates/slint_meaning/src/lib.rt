//! What a source and a script mean: the definitions that every answer is proved against, and laws about them.
#![tactic(auto)]

mod endings;
mod laws;
mod refusals;

pub use endings::Ending;
pub use laws::{
    an_assignment_stays, one_outcome, one_verdict, refused_lines_change_nothing, some_outcome,
    some_verdict,
};
pub use refusals::LineRefusal;
