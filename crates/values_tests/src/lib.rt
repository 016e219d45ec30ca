//! Tests of values, over public calls: arithmetic, texts, common types, conversions, and how values are read and printed.
#![tactic(auto)]

#[cfg(test)]
mod arithmetic;
#[cfg(test)]
mod building;
#[cfg(test)]
mod conversions;
#[cfg(test)]
mod reading;
#[cfg(test)]
mod texts;
#[cfg(test)]
mod typing;
