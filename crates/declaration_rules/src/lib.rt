//! The first pass over the files of a source: the first rule that its declarations break.
#![tactic(auto)]

mod circles;
mod declarations;
mod exports;
mod files;
mod laws;
mod repeats;
mod type_words;
mod unknown;
mod usages;
mod words;

pub use declarations::declaration_fault;
pub use laws::some_first_declaration_fault;
pub use usages::Usage;
