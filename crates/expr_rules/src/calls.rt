ghost use Rattle.std.specs.Prelude.{◌≡◌, IfOk, Ok, Some, length};
ghost use Rattle.value_types.specs.declared.types.Ty.{out-Ty};
ghost use Rattle.typed_tree.specs.declared.expressions.ExprKind.TheVariants as exprs;
ghost use Rattle.typed_tree.specs.BuiltIns.{built_in_ty};
ghost use Rattle.slint_base.specs.declared.rules.Rule.TheVariants as rules;
ghost use Rattle.expr_rules.specs.Denotations.{broken, made};
ghost use Rattle.expr_rules.specs.Own.{alike, alike_form, alike_type, call, common_of, counted, is_quantity, math_call};

use crate::Judged;
use crate::fitting::{as_types, common_of};
use crate::making::made;
use element_tables::{Arguments, MathFunction, TyCode, ValueMember};
use name_lookup::Meaning;
use slint_base::{Fault, Memory, Rule, Span};
use sqlite_items::Items;
use std::alloc::Global;
use typed_tree::{Callee, ExprKind, Signature, TypedExpr, built_in_type};
use value_types::Ty;

/// Whether values of a type can be turned to alike ones: int, float and units.
fn is_quantity(ty: &Ty) -> bool
    ensures { result ≡ is_quantity ty.now }
{
    let code = TyCode::of(ty);
    code.is_number() || code.is_unit()
}

/// The type as which a built-in function of alike values takes them: percent counts as float, and zeros alone as int.
fn alike_form(ty: Ty) -> Ty
    ensures { result ≡ alike_form (out-Ty ty) ty }
{
    match ty {
        Ty::Percent => Ty::Float,
        Ty::Zero => Ty::Int,
        other => other,
    }
}

/// The type of alike values, by the one that they have in common; `None` where they are no quantities.
fn alike_type(common: Option<Ty>) -> Option<Ty>
    ensures { result ≡ alike_type common }
{
    let Some(common) = common else {
        return None;
    };
    let ty = alike_form(common);
    if is_quantity(&ty) { Some(ty) } else { None }
}

/// A call of a built-in function of alike values.
fn alike(
    alloc: Global,
    function: MathFunction,
    span: Span,
    values: Items<TypedExpr>,
) -> Result<Result<Judged, Fault>, Memory>
    ensures { IfOk result (λ judged. judged ≡ alike function span values (alike_type (common_of values))) }
{
    let common = common_of(alloc, values.as_slice())?;
    let Some(ty) = alike_type(common) else {
        return Ok(Err(Fault {
            rule: Rule::TypeMismatch,
            span,
        }));
    };
    let values = as_types(alloc, &ty, values)?;
    let judged = made(alloc, ExprKind::Math(function, values), ty, span)?;
    Ok(judged)
}

/// The fault of a call with another number of arguments than are wanted.
fn wrong_count(span: Span) -> Result<Judged, Fault>
    ensures { result ≡ broken rules.ArgCount span }
{
    Err(Fault {
        rule: Rule::ArgCount,
        span,
    })
}

/// A call of a built-in function.
fn math_call(
    alloc: Global,
    function: MathFunction,
    arguments: Arguments,
    span: Span,
    values: Items<TypedExpr>,
) -> Result<Result<Judged, Fault>, Memory>
    ensures { IfOk result (λ judged. judged ≡ math_call function arguments span values) }
{
    match arguments {
        Arguments::Alike(count) if values.len() == count as usize => {
            alike(alloc, function, span, values)
        }
        Arguments::Rounded if values.len() == 1 => {
            let judged = made(alloc, ExprKind::Math(function, values), Ty::Int, span)?;
            Ok(judged)
        }
        _ => Ok(wrong_count(span)),
    }
}

/// A call of a callback or a function.
fn callee_call(
    alloc: Global,
    callee: Callee,
    signature: Signature,
    span: Span,
    values: Items<TypedExpr>,
) -> Result<Result<Judged, Fault>, Memory>
    ensures { IfOk result (λ judged. judged ≡ counted (length signature.parameters) values span (Ok (made (exprs.Call callee values) signature.result span))) }
{
    let Signature { parameters, result } = signature;
    if values.len() != parameters.len() {
        return Ok(wrong_count(span));
    }
    let judged = made(alloc, ExprKind::Call(callee, values), result, span)?;
    Ok(judged)
}

/// A call of a function of a value.
fn method_call(
    alloc: Global,
    member: ValueMember,
    e: TypedExpr,
    span: Span,
    values: &[TypedExpr],
) -> Result<Result<Judged, Fault>, Memory>
    ensures { IfOk result (λ judged. judged ≡ counted 0 values.now span (Ok (made (exprs.Ask member.kind e) (built_in_ty member.result) span))) }
{
    if !values.is_empty() {
        return Ok(wrong_count(span));
    }
    let ty = built_in_type(alloc, member.result)?;
    let judged = made(alloc, ExprKind::Ask(member.kind, e), ty, span)?;
    Ok(judged)
}

/// A call of what an expression stands for, with these arguments.
pub(crate) fn call(
    alloc: Global,
    called: Meaning,
    span: Span,
    values: Items<TypedExpr>,
) -> Result<Result<Judged, Fault>, Memory>
    ensures { IfOk result (λ judged. judged ≡ call called span values) }
{
    match called {
        Meaning::Callable(callee, signature) => {
            callee_call(alloc, callee, signature, span, values)
        }
        Meaning::Math(function) => {
            math_call(alloc, function.function, function.arguments, span, values)
        }
        Meaning::Method(member, e) => method_call(alloc, member, e, span, values.as_slice()),
        _ => Ok(Err(Fault {
            rule: Rule::NotCallable,
            span,
        })),
    }
}
