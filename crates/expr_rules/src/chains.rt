ghost use Rattle.std.specs.Prelude.{◌≡◌, [], ◌∷◌, ◌++◌, IfOk, Ok};
ghost use Rattle.typed_tree.specs.declared.expressions.ExprKind.TheVariants as exprs;
ghost use Rattle.typed_tree.specs.declared.expressions.TypedOperand.{out-TypedOperand};
ghost use Rattle.typed_tree.specs.Typed.{kind_layer, typed, typed_operand};
ghost use Rattle.expr_rules.specs.Own.{as_type, is_chain, longer, longer_layer, operated};

use crate::fitting::as_type;
use crate::making::typed;
use element_tables::{Op, Operands};
use slint_base::{Memory, Span};
use sqlite_items::Items;
use std::alloc::Global;
use typed_tree::{ExprKind, TypedExpr, TypedOperand};

/// Whether an expression is a chain of operands.
fn is_chain(e: &TypedExpr) -> bool
    ensures { result ≡ is_chain (kind_layer e.now) }
{
    matches!(e.kind.get(), ExprKind::Chain(..))
}

/// A second operand behind a first one.
fn chain_of(alloc: Global, first: TypedExpr, operand: TypedOperand) -> Result<ExprKind, Memory>
    ensures { IfOk result (λ kind. kind ≡ exprs.Chain first (operand ∷ [])) }
{
    let mut operands = Items::new(alloc);
    operands.push(operand)?;
    Ok(ExprKind::Chain(first, operands))
}

/// One more operand behind others.
fn further_chain(
    first: TypedExpr,
    mut operands: Items<TypedOperand>,
    operand: TypedOperand,
) -> Result<ExprKind, Memory>
    ensures { IfOk result (λ kind. kind ≡ exprs.Chain first (operands ++ operand ∷ [])) }
{
    operands.push(operand)?;
    Ok(ExprKind::Chain(first, operands))
}

/// One more operand behind an expression that goes on if it is a chain.
fn longer_chain(alloc: Global, first: TypedExpr, operand: TypedOperand) -> Result<ExprKind, Memory>
    ensures { IfOk result (λ kind. kind ≡ longer_layer first (kind_layer first) operand) }
{
    if !is_chain(&first) {
        return chain_of(alloc, first, operand);
    }
    let TypedExpr { kind, .. } = first;
    match kind.into_inner() {
        ExprKind::Chain(base, operands) => further_chain(base, operands, operand),
        _ => unreachable!(),
    }
}

/// One more operand of a chain; a first operand that is a chain itself, in parentheses, stays one operand.
fn longer(
    alloc: Global,
    goes_on: bool,
    first: TypedExpr,
    operand: TypedOperand,
) -> Result<ExprKind, Memory>
    ensures { IfOk result (λ kind. kind ≡ longer goes_on first operand) }
{
    if goes_on {
        longer_chain(alloc, first, operand)
    } else {
        chain_of(alloc, first, operand)
    }
}

/// An operator with its operand, converted as the operator says.
fn operand_as(
    alloc: Global,
    op: Op,
    right: TypedExpr,
    found: Operands,
) -> Result<TypedOperand, Memory>
    ensures { IfOk result (λ operand. operand ≡ typed_operand op found.left (as_type found.right right) found.result) }
{
    let Operands {
        left,
        right: wanted,
        result: ty,
    } = found;
    let right = as_type(alloc, &wanted, right)?;
    Ok(TypedOperand {
        op,
        left,
        right,
        ty,
    })
}

/// An operand behind an expression: of the type of the operation's result.
fn operated(
    alloc: Global,
    goes_on: bool,
    first: TypedExpr,
    operand: TypedOperand,
    span: Span,
) -> Result<TypedExpr, Memory>
    ensures { IfOk result (λ made. made ≡ typed (longer goes_on first operand) (out-TypedOperand operand).ty span) }
{
    let ty = operand.ty.copy(alloc)?;
    let kind = longer(alloc, goes_on, first, operand)?;
    typed(alloc, kind, ty, span)
}

/// An operation whose operands have these types.
pub(crate) fn operation_as(
    alloc: Global,
    goes_on: bool,
    op: Op,
    span: Span,
    left: TypedExpr,
    right: TypedExpr,
    found: Operands,
) -> Result<TypedExpr, Memory>
    ensures { IfOk result (λ made. Ok made ≡ operated goes_on op span left right (Ok found)) }
{
    let operand = operand_as(alloc, op, right, found)?;
    operated(alloc, goes_on, left, operand, span)
}
