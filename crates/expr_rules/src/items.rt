ghost use Rattle.std.specs.Prelude.{◌≡◌, IfOk};
ghost use Rattle.value_types.specs.declared.types.Ty.{out-Ty};
ghost use Rattle.typed_tree.specs.declared.expressions.ExprKind.{out-ExprKind};
ghost use Rattle.name_lookup.specs.declared.meanings.Meaning.TheVariants as meaning;
ghost use Rattle.typed_tree.specs.Typed.{expr_ty, kind_layer};
ghost use Rattle.expr_rules.specs.Own.{index, item_layer, item_of, items_of};
ghost use Rattle.expr_rules.specs.OwnSteps.{plain_property};

use crate::fitting::as_value;
use crate::making::standing;
use crate::{Denoted, Judged};
use name_lookup::Meaning;
use slint_base::{Fault, Memory, Rule, Span};
use std::alloc::Global;
use typed_tree::{ExprKind, MemberRef, StepKind, TypedExpr, TypedStep};
use value_types::Ty;

/// The type of an array's items, `None` of what is no array; `[]` counts as an array of ints.
fn items_of(alloc: Global, ty: &Ty) -> Result<Option<Ty>, Memory>
    ensures { IfOk result (λ item. item ≡ items_of (out-Ty ty.now)) }
{
    match ty {
        Ty::Array(item) => {
            let item = item.get().copy(alloc)?;
            Ok(Some(item))
        }
        Ty::Empty => Ok(Some(Ty::Int)),
        _ => Ok(None),
    }
}

/// The property that an expression is, where it is written as a plain path.
fn plain_property(is_plain: bool, kind: &ExprKind) -> Option<MemberRef>
    ensures { result ≡ plain_property is_plain (out-ExprKind kind.now) }
{
    match kind {
        ExprKind::Property(member) if is_plain => Some(*member),
        _ => None,
    }
}

/// An item of an array. The item of a property that is written as a plain path is read without the rest of it.
fn item_layer(
    alloc: Global,
    is_plain: bool,
    e: TypedExpr,
    at: TypedExpr,
    ty: Ty,
    span: Span,
) -> Result<TypedExpr, Memory>
    ensures { IfOk result (λ made. made ≡ item_layer is_plain e (kind_layer e) at ty span) }
{
    match plain_property(is_plain, e.kind.get()) {
        Some(member) => {
            let made = TypedExpr::new(alloc, ExprKind::PropertyItem(member, at), ty, span)?;
            Ok(made)
        }
        None => {
            let kind = StepKind::ToItem(at);
            let made = e.part(alloc, TypedStep { kind, ty }, span)?;
            Ok(made)
        }
    }
}

/// The item of an expression whose items have a type, which what is no array hasn't.
fn item_of(
    alloc: Global,
    e: TypedExpr,
    name: Span,
    is_plain: bool,
    at: TypedExpr,
    span: Span,
    ty: Option<Ty>,
) -> Result<Result<Judged, Fault>, Memory>
    ensures { IfOk result (λ judged. judged ≡ item_of (record { meaning = meaning.Value e; name = name; is_plain = is_plain }) e at span ty) }
{
    let Some(ty) = ty else {
        return Ok(Err(Fault {
            rule: Rule::TypeMismatch,
            span,
        }));
    };
    let item = item_layer(alloc, is_plain, e, at, ty, span)?;
    let judged = standing(alloc, Meaning::Value(item), name, false)?;
    Ok(Ok(judged))
}

/// The item of an expression, which has to be an array.
fn item(
    alloc: Global,
    e: TypedExpr,
    name: Span,
    is_plain: bool,
    at: TypedExpr,
    span: Span,
) -> Result<Result<Judged, Fault>, Memory>
    ensures { IfOk result (λ judged. judged ≡ item_of (record { meaning = meaning.Value e; name = name; is_plain = is_plain }) e at span (items_of (out-Ty (expr_ty e)))) }
{
    let ty = items_of(alloc, &e.ty)?;
    let judged = item_of(alloc, e, name, is_plain, at, span, ty)?;
    Ok(judged)
}

/// An item of an array. `before` is the stretch of the array, and `span` that of the whole.
pub(crate) fn index(
    alloc: Global,
    of: Denoted,
    at: TypedExpr,
    before: Span,
    span: Span,
) -> Result<Result<Judged, Fault>, Memory>
    ensures { IfOk result (λ judged. judged ≡ index of at before span) }
{
    let Denoted {
        meaning,
        name,
        is_plain,
    } = of;
    match as_value(before, name, meaning) {
        Err(fault) => Ok(Err(fault)),
        Ok(e) => {
            let judged = item(alloc, e, name, is_plain, at, span)?;
            Ok(judged)
        }
    }
}
