ghost use Rattle.std.specs.Prelude.{◌≡◌, IfOk, map, Some};
ghost use Rattle.std.specs.Option.{option_copied};
ghost use Rattle.value_types.specs.declared.types.Ty.{out-Ty};
ghost use Rattle.expr_rules.specs.Denotations.{as_value, given, value_in};
ghost use Rattle.expr_rules.specs.Own.{all_given, as_judged, as_type, common_from, common_of, fitted, fitted_form, operation_on};

use crate::chains::operation_as;
use crate::making::{NOWHERE, denoted, nothing, typed, value_of};
use crate::parts::reversed;
use crate::{Denoted, Judged};
use element_tables::{Op, operator_between};
use name_lookup::Meaning;
use slint_base::{End, Fault, Memory, Rule, Span};
use sqlite_items::Items;
use std::alloc::Global;
use type_rules::{converts, same_type};
use typed_tree::{ExprKind, TypedExpr};
use value_types::{Ty, common_type};

/// The value that something stands for; what is no value counts as one of no type.
fn value_in(alloc: Global, meaning: Meaning) -> Result<TypedExpr, Memory>
    ensures { IfOk result (λ e. e ≡ value_in meaning) }
{
    match meaning {
        Meaning::Value(e) => Ok(e),
        _ => nothing(alloc, NOWHERE),
    }
}

/// The value that a node at a place came to.
pub(crate) fn given(alloc: Global, part: Judged) -> Result<TypedExpr, Memory>
    ensures { IfOk result (λ e. e ≡ given part) }
{
    let Denoted { meaning, .. } = denoted(alloc, part)?;
    let e = value_in(alloc, meaning)?;
    Ok(e)
}

/// The values that nodes at places came to.
pub(crate) fn all_given(alloc: Global, parts: Items<Judged>) -> Result<Items<TypedExpr>, Memory>
    ensures { IfOk result (λ es. es ≡ all_given parts) }
{
    let mut left = reversed(alloc, parts)?;
    let mut made = Items::new(alloc);
    while let Some(part) = left.pop() {
        made.push(given(alloc, part)?)?;
    }
    Ok(made)
}

/// What stands as a value: a callback or a function does only if it is called, and what isn't one never does. Misuse is told at the
/// name, or at the whole, `span`.
pub(crate) fn as_value(span: Span, name: Span, meaning: Meaning) -> Result<TypedExpr, Fault>
    ensures { result ≡ as_value span name meaning }
{
    match meaning {
        Meaning::Value(e) => Ok(e),
        Meaning::Callable(..) | Meaning::Math(..) | Meaning::Method(..) => {
            Err(Fault {
                rule: Rule::NotCallable,
                span: name,
            })
        }
        _ => Err(Fault {
            rule: Rule::TypeMismatch,
            span,
        }),
    }
}

/// A value converted to a type, where it hasn't that type already.
pub(crate) fn as_type(alloc: Global, ty: &Ty, e: TypedExpr) -> Result<TypedExpr, Memory>
    ensures { IfOk result (λ made. made ≡ as_type ty.now e) }
{
    if same_type(&e.ty, ty) {
        return Ok(e);
    }
    let span = e.span;
    let ty = ty.copy(alloc)?;
    let made = typed(alloc, ExprKind::Convert(e), ty, span)?;
    Ok(made)
}

/// Values converted to a type, where they haven't that type already.
pub(crate) fn as_types(
    alloc: Global,
    ty: &Ty,
    es: Items<TypedExpr>,
) -> Result<Items<TypedExpr>, Memory>
    ensures { IfOk result (λ made. made ≡ map (as_type ty.now) es) }
{
    let mut left = reversed(alloc, es)?;
    let mut made = Items::new(alloc);
    while let Some(e) = left.pop() {
        made.push(as_type(alloc, ty, e)?)?;
    }
    Ok(made)
}

/// A value fitted into its place: converted to the type that is wanted there.
pub(crate) fn fitted(
    alloc: Global,
    place: Option<&Ty>,
    span: Span,
    e: TypedExpr,
) -> Result<Result<TypedExpr, Fault>, Memory>
    ensures { IfOk result (λ made. made ≡ fitted (option_copied place.entry) span e) }
{
    match place {
        Some(ty) => fitted_to(alloc, ty, span, e),
        None => Ok(Ok(e)),
    }
}

/// A value fitted into a place where a type is wanted. Where that is void the value is dropped.
fn fitted_to(
    alloc: Global,
    ty: &Ty,
    span: Span,
    e: TypedExpr,
) -> Result<Result<TypedExpr, Fault>, Memory>
    ensures { IfOk result (λ made. made ≡ fitted_form ty.now (out-Ty ty.now) span e) }
{
    if let Ty::Void = ty {
        return Ok(Ok(e));
    }
    if !converts(&e.ty, ty) {
        return Ok(Err(Fault {
            rule: Rule::TypeMismatch,
            span,
        }));
    }
    let made = as_type(alloc, ty, e)?;
    Ok(Ok(made))
}

/// The type that values have in common, from the left.
pub(crate) fn common_of(alloc: Global, es: &[TypedExpr]) -> Result<Option<Ty>, Memory>
    ensures { IfOk result (λ ty. ty ≡ common_of es.now) }
{
    match es {
        [] => Ok(None),
        [first, rest @ ..] => common_from(alloc, &first.ty, rest),
    }
}

/// The type that a type and values have in common, from the left.
fn common_from(alloc: Global, first: &Ty, es: &[TypedExpr]) -> Result<Option<Ty>, Memory>
    ensures { IfOk result (λ ty. ty ≡ common_from (Some first.now) es.now) }
{
    let mut common = first.copy(alloc)?;
    for e in es {
        let Some(ty) = common_type(alloc, &common, &e.ty)? else {
            return Ok(None);
        };
        common = ty;
    }
    Ok(Some(common))
}

/// An operation on two values; `goes_on` says whether the first one may be a chain that goes on.
pub(crate) fn operation_on(
    alloc: Global,
    goes_on: bool,
    op: Op,
    span: Span,
    left: TypedExpr,
    right: TypedExpr,
) -> Result<Result<TypedExpr, Fault>, Memory>
    ensures { IfOk result (λ made. made ≡ operation_on goes_on op span left right) }
{
    match operator_between(alloc, op, &left.ty, &right.ty) {
        Ok(found) => {
            let made = operation_as(alloc, goes_on, op, span, left, right, found)?;
            Ok(Ok(made))
        }
        Err(End::Fault(rule)) => Ok(Err(Fault { rule, span })),
        Err(End::Memory) => Err(Memory),
    }
}

/// What something stands for, as a value of its own, unless it is a fault.
pub(crate) fn as_judged(
    alloc: Global,
    made: Result<TypedExpr, Fault>,
) -> Result<Result<Judged, Fault>, Memory>
    ensures { IfOk result (λ judged. judged ≡ as_judged made) }
{
    match made {
        Ok(e) => {
            let value = value_of(alloc, e)?;
            Ok(Ok(value))
        }
        Err(fault) => Ok(Err(fault)),
    }
}
