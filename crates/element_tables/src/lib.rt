//! The tables of what is built into the language.
#![tactic(auto)]

mod built_in_operators;
mod elements;
mod functions;
mod keys;
mod matrices;
mod members;
mod names;
mod operators;
mod order;
mod typed_operators;
mod types;

pub use built_in_operators::{missing_rule, operator_row, prefix_result};
pub use elements::{ElementKind, element_named};
pub use functions::{
    Arguments, BuiltInFunction, MathFunction, Namespace, ValueMember, ValueMemberKind,
    array_member_named, function_named, namespace_named, string_member_named,
};
pub use keys::key_named;
pub use matrices::Matrix;
pub use members::{Mark, Member, MemberKind, PropertyDefault, Signature, member_at, member_named};
pub use names::NameTable;
pub use operators::{Op, OpRow, Operation, PrefixOp, TyCode};
pub use typed_operators::{Operands, operator_between};
pub use types::{BuiltInEnum, BuiltInType, enum_named, type_named};
