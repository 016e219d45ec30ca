//! The classes of linked members of an expanded tree, and what is chosen for each.
#![tactic(auto)]

mod candidate;
mod candidates;
mod change_lists;
mod changes;
mod choosing;
mod circle_faults;
mod holdings;
mod homes;
mod labels;
mod laws;
mod links;
mod merged;
mod numbers;
mod rows;

pub use candidate::Candidate;
pub use candidates::{bindings, defaults, handlers};
pub use change_lists::{state_changes, state_lists};
pub use changes::{Change, StateList, changed_by, first_change_fault};
pub use choosing::choose;
pub use circle_faults::{Spanned, first_on_circle};
pub use holdings::Holding;
pub use homes::{Home, class_homes};
pub use labels::class_labels;
pub use laws::{
    homes_are_of_classes, merged_or_broken, no_merge_fault_misses_a_file, one_choice, one_merge,
    one_merge_fault, rows_are_numbered, some_choice, some_circle_verdict, some_merge,
};
pub use links::member_links;
pub use merged::{Classes, merge};
pub use numbers::{Block, MemberNumbers};
pub use rows::{InstanceKey, MemberRow, member_rows};
