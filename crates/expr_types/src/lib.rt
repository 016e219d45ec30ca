//! The judgement of expressions and blocks: which type each has, and where it breaks a rule.
#![tactic(auto)]

mod assignments;
mod blocks;
mod endings;
mod expressions;
mod fronts;
mod judging;
mod laws;
mod places;
mod verdicts;

pub use judging::{stands_for, type_block, type_expr};
pub use laws::{one_thing_or_faults, some_outcome};
