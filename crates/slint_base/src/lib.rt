//! The words of the whole project: numbers that saturate, names, texts, spans, rules and faults.
#![tactic(auto)]

mod comparisons;
mod endings;
mod faults;
mod laws;
mod names;
mod numbers;
mod places;
mod refusals;
mod rules;
mod texts;

pub use endings::{End, Memory};
pub use faults::{Fault, Span};
pub use laws::{rounding_is_to_nearest, short_texts_stay_whole};
pub use names::Name;
pub use numbers::{LIM, int_add, int_mul, int_sub, sat_add, sat_div, sat_mul, sat_sub};
pub use places::Place;
pub use refusals::{Refusal, at_start};
pub use rules::Rule;
pub use texts::{MOST_TEXT_BYTES, Text};

#[cfg(test)]
mod tests;
