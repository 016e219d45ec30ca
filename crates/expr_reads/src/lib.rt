//! What typed expressions, blocks, values and items can read or call.
#![tactic(auto)]

mod block_names;
mod expr_names;
mod item_names;
mod laws;
mod names;

pub use block_names::{named_in_block, named_in_value};
pub use expr_names::named_in_expr;
pub use item_names::{
    named_in_change, named_in_conditions, named_in_item, named_in_repeat, named_in_when,
};
pub use laws::{names_are_exact, names_of_blocks_are_exact, names_of_items_are_exact};
pub use names::Named;
