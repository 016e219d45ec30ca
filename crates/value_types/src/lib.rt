//! The values of the language and their types.
#![tactic(auto)]

mod common_types;
mod converting;
mod decimals;
mod defaults;
mod enums;
mod facets;
mod printing;
mod sameness;
mod scalar_types;
mod scalars;
mod types;
mod values;

pub use common_types::common_type;
pub use converting::convert;
pub use defaults::default_of;
pub use enums::{EnumNames, Enums};
pub use facets::Facet;
pub use printing::print_value;
pub use sameness::same;
pub use types::{Fields, Ty};
pub use values::{FieldValues, KeyList, PlaceList, RowPlace, Value, Values};
