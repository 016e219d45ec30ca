ghost use Rattle.std.specs.Prelude.{◌≡◌, IfOk};
ghost use Rattle.std.specs.Option.{option_copied};
ghost use Rattle.value_types.specs.CommonTypes.{common};
ghost use Rattle.typed_tree.specs.Typed.{expr_ty};
ghost use Rattle.expr_rules.specs.Denotations.{given};
ghost use Rattle.expr_rules.specs.Own.{as_judged, as_type, binary_op, choice, chosen_as, joined, of_one, of_three, of_two, operation_on, prefix, prefix_op, with_prefix};

use crate::Judged;
use crate::fitting::{as_judged, as_type, given, operation_on};
use crate::making::made;
use crate::parts::{one_part, three_parts, two_parts};
use element_tables::{Op, PrefixOp as TypedPrefixOp, TyCode, prefix_result};
use slint_base::{Fault, Memory, Rule, Span};
use sqlite_items::Items;
use std::alloc::Global;
use syntax_tree::{BinaryOp, PrefixOp};
use typed_tree::{ExprKind, TypedExpr};
use value_types::{Ty, common_type};

/// An operator before an operand, as the tables have it.
fn prefix_op(op: PrefixOp) -> TypedPrefixOp
    ensures { result ≡ prefix_op op }
{
    match op {
        PrefixOp::Not => TypedPrefixOp::Not,
        PrefixOp::Minus => TypedPrefixOp::Minus,
        PrefixOp::Plus => TypedPrefixOp::Plus,
    }
}

/// An operator before an operand of which it makes this kind, if it has a result.
fn with_prefix(
    alloc: Global,
    op: TypedPrefixOp,
    span: Span,
    e: TypedExpr,
    found: Option<TyCode>,
) -> Result<Result<Judged, Fault>, Memory>
    ensures { IfOk result (λ judged. judged ≡ with_prefix op span e found) }
{
    match found {
        Some(code) => {
            let ty = code.plain_type();
            let operand = as_type(alloc, &ty, e)?;
            made(alloc, ExprKind::Prefix(op, operand), ty, span)
        }
        None => Ok(Err(Fault {
            rule: Rule::NoOperator,
            span,
        })),
    }
}

/// An operator before a value.
fn prefixed(
    alloc: Global,
    op: PrefixOp,
    span: Span,
    e: TypedExpr,
) -> Result<Result<Judged, Fault>, Memory>
    ensures { IfOk result (λ judged. judged ≡ prefix op span e) }
{
    let op = prefix_op(op);
    let found = prefix_result(op, TyCode::of(&e.ty));
    with_prefix(alloc, op, span, e, found)
}

/// An operator before its operand.
#[tactic(auto, using(crate::proofs::PartCounts::not_one))]
pub(crate) fn own_prefix(
    alloc: Global,
    op: PrefixOp,
    span: Span,
    parts: Items<Judged>,
) -> Result<Result<Judged, Fault>, Memory>
    ensures { IfOk result (λ judged. judged ≡ of_one (λ x. prefix op span (given x)) parts) }
{
    match one_part(parts) {
        Some(x) => {
            let e = given(alloc, x)?;
            prefixed(alloc, op, span, e)
        }
        None => Ok(Ok(Judged::Fresh)),
    }
}

/// The branches of a choice, converted to a type.
fn branches_as(
    alloc: Global,
    ty: &Ty,
    yes: TypedExpr,
    no: TypedExpr,
) -> Result<(TypedExpr, TypedExpr), Memory>
    ensures { IfOk result (λ branches. (branches.0 ≡ as_type ty.now yes) × (branches.1 ≡ as_type ty.now no)) }
{
    let yes = as_type(alloc, ty, yes)?;
    let no = as_type(alloc, ty, no)?;
    Ok((yes, no))
}

/// A choice of what its branches have in common, if they have.
fn chosen_as(
    alloc: Global,
    span: Span,
    condition: TypedExpr,
    yes: TypedExpr,
    no: TypedExpr,
    found: Option<Ty>,
) -> Result<Result<Judged, Fault>, Memory>
    ensures { IfOk result (λ judged. judged ≡ chosen_as span condition yes no found) }
{
    match found {
        Some(ty) => {
            let (yes, no) = branches_as(alloc, &ty, yes, no)?;
            made(alloc, ExprKind::Choice(condition, yes, no), ty, span)
        }
        None => Ok(Err(Fault {
            rule: Rule::TypeMismatch,
            span,
        })),
    }
}

/// A choice where no type is wanted.
fn free_choice(
    alloc: Global,
    span: Span,
    condition: TypedExpr,
    yes: TypedExpr,
    no: TypedExpr,
) -> Result<Result<Judged, Fault>, Memory>
    ensures { IfOk result (λ judged. judged ≡ chosen_as span condition yes no (common (expr_ty yes) (expr_ty no))) }
{
    let found = common_type(alloc, &yes.ty, &no.ty)?;
    chosen_as(alloc, span, condition, yes, no, found)
}

/// A choice of the type that is wanted, or of what the branches have in common.
fn choice(
    alloc: Global,
    place: Option<&Ty>,
    span: Span,
    condition: TypedExpr,
    yes: TypedExpr,
    no: TypedExpr,
) -> Result<Result<Judged, Fault>, Memory>
    ensures { IfOk result (λ judged. judged ≡ choice (option_copied place.entry) span condition yes no) }
{
    match place {
        Some(ty) => {
            let ty = ty.copy(alloc)?;
            made(alloc, ExprKind::Choice(condition, yes, no), ty, span)
        }
        None => free_choice(alloc, span, condition, yes, no),
    }
}

/// A choice by its condition, and what its branches came to.
fn choice_between(
    alloc: Global,
    place: Option<&Ty>,
    span: Span,
    condition: TypedExpr,
    yes: Judged,
    no: Judged,
) -> Result<Result<Judged, Fault>, Memory>
    ensures { IfOk result (λ judged. judged ≡ choice (option_copied place.entry) span condition (given yes) (given no)) }
{
    let yes = given(alloc, yes)?;
    let no = given(alloc, no)?;
    choice(alloc, place, span, condition, yes, no)
}

/// `condition ? yes : no`.
#[tactic(auto, using(crate::proofs::PartCounts::not_three))]
pub(crate) fn own_choice(
    alloc: Global,
    place: Option<&Ty>,
    span: Span,
    parts: Items<Judged>,
) -> Result<Result<Judged, Fault>, Memory>
    ensures { IfOk result (λ judged. judged ≡ of_three (λ x y z. choice (option_copied place.entry) span (given x) (given y) (given z)) parts) }
{
    match three_parts(parts) {
        Some((condition, yes, no)) => {
            let condition = given(alloc, condition)?;
            choice_between(alloc, place, span, condition, yes, no)
        }
        None => Ok(Ok(Judged::Fresh)),
    }
}

/// An operator between two operands, as the tables have it.
pub(crate) fn binary_op(op: BinaryOp) -> Op
    ensures { result ≡ binary_op op }
{
    match op {
        BinaryOp::And => Op::And,
        BinaryOp::Or => Op::Or,
        BinaryOp::Equal => Op::Equal,
        BinaryOp::NotEqual => Op::NotEqual,
        BinaryOp::Less => Op::Less,
        BinaryOp::LessEqual => Op::LessEqual,
        BinaryOp::Greater => Op::Greater,
        BinaryOp::GreaterEqual => Op::GreaterEqual,
        BinaryOp::Add => Op::Add,
        BinaryOp::Sub => Op::Sub,
        BinaryOp::Mul => Op::Mul,
        BinaryOp::Div => Op::Div,
    }
}

/// From the first token of one stretch to the last one of another.
pub(crate) fn joined(first: Span, last: Span) -> Span
    ensures { result ≡ joined first last }
{
    Span {
        file: first.file,
        start: first.start,
        end: last.end,
    }
}

/// An operation on what two nodes came to.
fn operation_of(
    alloc: Global,
    goes_on: bool,
    op: Op,
    span: Span,
    left: Judged,
    right: Judged,
) -> Result<Result<Judged, Fault>, Memory>
    ensures { IfOk result (λ judged. judged ≡ as_judged (operation_on goes_on op span (given left) (given right))) }
{
    let left = given(alloc, left)?;
    let right = given(alloc, right)?;
    let operation = operation_on(alloc, goes_on, op, span, left, right)?;
    as_judged(alloc, operation)
}

/// An operation on a front of a chain and the operand behind it.
#[tactic(auto, using(crate::proofs::PartCounts::not_two))]
pub(crate) fn own_operation(
    alloc: Global,
    goes_on: bool,
    op: Op,
    span: Span,
    parts: Items<Judged>,
) -> Result<Result<Judged, Fault>, Memory>
    ensures { IfOk result (λ judged. judged ≡ of_two (λ x y. as_judged (operation_on goes_on op span (given x) (given y))) parts) }
{
    match two_parts(parts) {
        Some((left, right)) => operation_of(alloc, goes_on, op, span, left, right),
        None => Ok(Ok(Judged::Fresh)),
    }
}
