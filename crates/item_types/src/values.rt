ghost use Rattle.std.specs.Prelude.{◌≡◌, ◌&&◌, IfOk};
ghost use Rattle.syntax_tree.specs.declared.expressions.Expr.{out-Expr};
ghost use Rattle.value_types.specs.declared.types.Ty.TheVariants as ty_of;
ghost use Rattle.typed_tree.specs.declared.statements.TypedValue.TheVariants as typed_values;
ghost use Rattle.item_types.specs.Judging.{Tells, made};
ghost use Rattle.item_types.specs.Members.{is_below_root, is_size};
ghost use Rattle.item_types.specs.Values.{block_judging, bound_value, constant, constants, expression_judging, is_constant, is_minus, is_plain_number, is_whole, is_whole_literal, plain, share, shares, sized_value, standing_judging, value_judging, value_span};

use crate::members::{is_below_root, is_grid_number, is_size};
use expr_rules::Denoted;
use expr_types::{stands_for, type_block, type_expr};
use slint_base::{End, Fault, Memory, Rule, Span};
use slint_literals::Number;
use std::alloc::Global;
use syntax_tree::{Block, Expr, PrefixOp, Value};
use typed_tree::{MemberRef, Scope, Site, TypedBlock, TypedExpr, TypedValue};
use value_types::Ty;

/// An expression where a type is wanted.
pub(crate) fn judge_expr(
    alloc: Global,
    scope: &Scope<'_>,
    ty: &Ty,
    e: &Expr,
) -> Result<Result<TypedExpr, Fault>, Memory>
    ensures { IfOk result (λ verdict. Tells (expression_judging scope.now ty.now e.now) verdict) }
{
    match type_expr(alloc, scope, e, ty) {
        Ok(e) => Ok(Ok(e)),
        Err(End::Fault(fault)) => Ok(Err(fault)),
        Err(End::Memory) => Err(Memory),
    }
}

/// A block where a type is wanted.
pub(crate) fn judge_block(
    alloc: Global,
    scope: &Scope<'_>,
    ty: &Ty,
    block: &Block,
) -> Result<Result<TypedBlock, Fault>, Memory>
    ensures { IfOk result (λ verdict. Tells (block_judging scope.now ty.now block.now) verdict) }
{
    match type_block(alloc, scope, block.stmts.as_slice(), block.span, ty) {
        Ok(block) => Ok(Ok(block)),
        Err(End::Fault(fault)) => Ok(Err(fault)),
        Err(End::Memory) => Err(Memory),
    }
}

/// What an expression stands for by itself.
pub(crate) fn judge_standing(
    alloc: Global,
    scope: &Scope<'_>,
    e: &Expr,
) -> Result<Result<Denoted, Fault>, Memory>
    ensures { IfOk result (λ verdict. Tells (standing_judging scope.now e.now) verdict) }
{
    match stands_for(alloc, scope, e) {
        Ok(denoted) => Ok(Ok(denoted)),
        Err(End::Fault(fault)) => Ok(Err(fault)),
        Err(End::Memory) => Err(Memory),
    }
}

/// An expression as a value where a type is wanted.
fn expr_value(
    alloc: Global,
    scope: &Scope<'_>,
    ty: &Ty,
    e: &Expr,
) -> Result<Result<TypedValue, Fault>, Memory>
    ensures { IfOk result (λ verdict. Tells (made (expression_judging scope.now ty.now e.now) (λ x. typed_values.Expr x)) verdict) }
{
    let verdict = judge_expr(alloc, scope, ty, e)?;
    match verdict {
        Ok(e) => Ok(Ok(TypedValue::Expr(e))),
        Err(fault) => Ok(Err(fault)),
    }
}

/// A block as a value where a type is wanted.
fn block_value(
    alloc: Global,
    scope: &Scope<'_>,
    ty: &Ty,
    block: &Block,
) -> Result<Result<TypedValue, Fault>, Memory>
    ensures { IfOk result (λ verdict. Tells (made (block_judging scope.now ty.now block.now) (λ x. typed_values.Block x)) verdict) }
{
    let verdict = judge_block(alloc, scope, ty, block)?;
    match verdict {
        Ok(block) => Ok(Ok(TypedValue::Block(block))),
        Err(fault) => Ok(Err(fault)),
    }
}

/// A value where a type is wanted.
pub(crate) fn judge_value(
    alloc: Global,
    scope: &Scope<'_>,
    ty: &Ty,
    value: &Value,
) -> Result<Result<TypedValue, Fault>, Memory>
    ensures { IfOk result (λ verdict. Tells (value_judging scope.now ty.now value.now) verdict) }
{
    match value {
        Value::Expr(e) => expr_value(alloc, scope, ty, e),
        Value::Block(block) => block_value(alloc, scope, ty, block),
    }
}

/// The stretch of a value.
pub(crate) fn value_span(value: &Value) -> Span
    ensures { result ≡ value_span value.now }
{
    match value {
        Value::Expr(e) => e.span(),
        Value::Block(block) => block.span,
    }
}

/// Whether a written number is whole and has no unit.
fn is_whole(number: Number) -> bool
    ensures { result ≡ is_whole number }
{
    match number {
        Number::Zero => true,
        Number::Int(_) => true,
        _ => false,
    }
}

/// Whether an expression is a whole number, without anything before it.
fn is_plain_number(e: &Expr) -> bool
    ensures { result ≡ is_plain_number (out-Expr e.now) }
{
    match e {
        Expr::Number(number, _) => is_whole(*number),
        _ => false,
    }
}

/// Whether an operator is `-`.
fn is_minus(op: PrefixOp) -> bool
    ensures { result ≡ is_minus op }
{
    match op {
        PrefixOp::Minus => true,
        PrefixOp::Plus => false,
        PrefixOp::Not => false,
    }
}

/// Whether an expression is a whole number, with at most a `-` before it.
fn is_whole_literal(e: &Expr) -> bool
    ensures { result ≡ is_whole_literal (out-Expr e.now) }
{
    match e {
        Expr::Number(number, _) => is_whole(*number),
        Expr::Prefix(op, e, _) => is_minus(*op) && is_plain_number(e.get()),
        _ => false,
    }
}

/// Whether a value is a whole number, with at most a `-` before it.
fn is_constant(value: &Value) -> bool
    ensures { result ≡ is_constant value.now }
{
    match value {
        Value::Expr(e) => is_whole_literal(e),
        Value::Block(_) => false,
    }
}

/// A value of a property's type, which is no share.
fn plain_value(
    alloc: Global,
    scope: &Scope<'_>,
    ty: &Ty,
    value: &Value,
) -> Result<Result<(TypedValue, bool), Fault>, Memory>
    ensures { IfOk result (λ verdict. Tells (made (value_judging scope.now ty.now value.now) plain) verdict) }
{
    let verdict = judge_value(alloc, scope, ty, value)?;
    match verdict {
        Ok(value) => Ok(Ok((value, false))),
        Err(fault) => Ok(Err(fault)),
    }
}

/// A percent, as a share.
fn share_value(
    alloc: Global,
    scope: &Scope<'_>,
    value: &Value,
) -> Result<Result<(TypedValue, bool), Fault>, Memory>
    ensures { IfOk result (λ verdict. Tells (made (value_judging scope.now ty_of.Percent value.now) share) verdict) }
{
    let verdict = judge_value(alloc, scope, &Ty::Percent, value)?;
    match verdict {
        Ok(value) => Ok(Ok((value, true))),
        Err(fault) => Ok(Err(fault)),
    }
}

/// A size: a value of its own type, or else a share. Where it is neither, the fault is the one of its own type.
fn size_value(
    alloc: Global,
    scope: &Scope<'_>,
    ty: &Ty,
    value: &Value,
) -> Result<Result<(TypedValue, bool), Fault>, Memory>
    ensures { IfOk result (λ verdict. Tells (shares scope.now ty.now value.now) verdict) }
{
    let verdict = plain_value(alloc, scope, ty, value)?;
    let fault = match verdict {
        Ok(value) => return Ok(Ok(value)),
        Err(fault) => fault,
    };
    let as_share = share_value(alloc, scope, value)?;
    match as_share {
        Ok(share) => Ok(Ok(share)),
        Err(_) => Ok(Err(fault)),
    }
}

/// The value of a grid cell's number, which has to be a literal.
fn constant(written: &Value, value: TypedValue) -> Result<(TypedValue, bool), Fault>
    ensures { result ≡ constant written.now value }
{
    if is_constant(written) {
        Ok((value, false))
    } else {
        Err(Fault {
            rule: Rule::NotConstant,
            span: value_span(written),
        })
    }
}

/// A value of a grid cell's number.
fn constant_value(
    alloc: Global,
    scope: &Scope<'_>,
    ty: &Ty,
    value: &Value,
) -> Result<Result<(TypedValue, bool), Fault>, Memory>
    ensures { IfOk result (λ verdict. Tells (constants scope.now ty.now value.now) verdict) }
{
    let verdict = judge_value(alloc, scope, ty, value)?;
    match verdict {
        Ok(typed) => Ok(constant(value, typed)),
        Err(fault) => Ok(Err(fault)),
    }
}

/// A value of a property that isn't a grid cell's number; `is_size` says whether it takes shares.
fn sized_value(
    alloc: Global,
    scope: &Scope<'_>,
    is_size: bool,
    ty: &Ty,
    value: &Value,
) -> Result<Result<(TypedValue, bool), Fault>, Memory>
    ensures { IfOk result (λ verdict. Tells (sized_value scope.now is_size ty.now value.now) verdict) }
{
    if is_size {
        return size_value(alloc, scope, ty, value);
    }
    plain_value(alloc, scope, ty, value)
}

/// Whether a property takes shares of the parent's size where it is bound in a body.
fn takes_shares(site: Site, member: MemberRef) -> bool
    ensures { result ≡ (is_below_root site && is_size member) }
{
    is_below_root(site) && is_size(member)
}

/// A bound value, and whether it is a share of the parent's size.
pub(crate) fn judge_bound_value(
    alloc: Global,
    scope: &Scope<'_>,
    member: MemberRef,
    ty: &Ty,
    value: &Value,
) -> Result<Result<(TypedValue, bool), Fault>, Memory>
    ensures { IfOk result (λ verdict. Tells (bound_value scope.now member ty.now value.now) verdict) }
{
    if is_grid_number(member) {
        return constant_value(alloc, scope, ty, value);
    }
    let shares = takes_shares(scope.site(), member);
    sized_value(alloc, scope, shares, ty, value)
}
