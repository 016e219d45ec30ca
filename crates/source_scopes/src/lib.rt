//! What the names of a source's files stand for: numbers of declarations, scopes, exports, written types and the types of elements.
#![tactic(auto)]

mod declarations;
mod entries;
mod files;
mod meanings;
mod naming;
mod numbers;
mod scopes;
mod structs;
mod tables;
mod written;

pub use declarations::{FileComponent, FileGlobal, FileStruct};
pub use meanings::{Counts, Entry, Meaning};
pub use scopes::Scopes;
