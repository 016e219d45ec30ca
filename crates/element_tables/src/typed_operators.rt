ghost use Rattle.std.specs.Prelude.{◌≡◌, IfOk};
ghost use Rattle.value_types.specs.declared.types.Ty.{out-Ty};
ghost use Rattle.value_types.specs.CommonTypes.{common};
ghost use Rattle.slint_base.specs.Answers.{Gives};
ghost use Rattle.element_tables.specs.Operands.{plain_type, counted, by_common, by_rows, is_equality, operands_of};
ghost use Rattle.element_tables.specs.Operators.{code_of};

use crate::built_in_operators::{missing_rule, operator_row};
use crate::operators::{Op, TyCode};
use slint_base::{End, Memory, Rule};
use sqlite_items::Boxed;
use std::alloc::Global;
use value_types::{Ty, common_type};

/// The types to which the sides of an operator are converted, and the type of its result.
#[derive(Drop)]
pub struct Operands {
    pub left: Ty,
    pub right: Ty,
    pub result: Ty,
}

/// What an operator does between two types. A percent counts as a float, `[]` as an array of ints, a literal of zeros as the other side's
/// unit at `+`, `-` and comparisons and else as an int. The fault is the rule that is broken where the operator has no result.
pub fn operator_between(alloc: Global, op: Op, left: &Ty, right: &Ty) -> Result<Operands, End<Rule>>
    ensures { Gives (λ x. x) result (operands_of op left.now right.now) }
{
    let left_side = counted(alloc, op, left, right)?;
    let right_side = counted(alloc, op, right, left)?;
    if is_equality(op) {
        by_common(alloc, &left_side, &right_side)
    } else {
        by_rows(op, TyCode::of(&left_side), TyCode::of(&right_side))
    }
}

/// Whether an operator goes by the common type of its sides.
fn is_equality(op: Op) -> bool
    ensures { result ≡ is_equality op }
{
    matches!(op, Op::Equal | Op::NotEqual)
}

/// The type as which a side is looked up.
fn counted(alloc: Global, op: Op, side: &Ty, other: &Ty) -> Result<Ty, Memory>
    ensures { IfOk result (λ ty. ty ≡ counted op side.now other.now) }
{
    match side {
        Ty::Percent => Ok(Ty::Float),
        Ty::Empty => Ok(Ty::Array(Boxed::new(alloc, Ty::Int)?)),
        Ty::Zero => Ok(TyCode::Zero.looked_up(op, TyCode::of(other)).plain_type()),
        _ => {
            let same = side.copy(alloc)?;
            Ok(same)
        }
    }
}

/// The operands of a comparison by the type that its sides have in common.
fn by_common(alloc: Global, left: &Ty, right: &Ty) -> Result<Operands, End<Rule>>
    ensures { Gives (λ x. x) result (by_common (common left.now right.now)) }
{
    match common_type(alloc, left, right)? {
        Some(ty) => {
            let left = ty.copy(alloc)?;
            Ok(Operands {
                left,
                right: ty,
                result: Ty::Bool,
            })
        }
        None => Err(End::Fault(Rule::NoOperator)),
    }
}

/// The operands of another operator by its rows.
fn by_rows(op: Op, left: TyCode, right: TyCode) -> Result<Operands, End<Rule>>
    ensures { Gives (λ x. x) result (by_rows op left right) }
{
    match operator_row(op, left, right) {
        Some(row) => Ok(Operands {
            left: row.left.plain_type(),
            right: row.right.plain_type(),
            result: row.result.plain_type(),
        }),
        None => Err(End::Fault(missing_rule(op, left, right))),
    }
}

impl TyCode {
    /// The type of a kind without parts; of one with parts `Ty::Void`.
    pub fn plain_type(self) -> Ty
        ensures { result ≡ plain_type self }
    {
        match self {
            TyCode::Zero => Ty::Zero,
            TyCode::Int => Ty::Int,
            TyCode::Float => Ty::Float,
            TyCode::Percent => Ty::Percent,
            TyCode::Bool => Ty::Bool,
            TyCode::Str => Ty::Str,
            TyCode::Color => Ty::Color,
            TyCode::Length => Ty::Length,
            TyCode::Duration => Ty::Duration,
            TyCode::Angle => Ty::Angle,
            TyCode::Image => Ty::Image,
            TyCode::Empty => Ty::Empty,
            TyCode::Void | TyCode::Enum | TyCode::Struct | TyCode::Array => Ty::Void,
        }
    }
}
