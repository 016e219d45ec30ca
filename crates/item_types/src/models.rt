ghost use Rattle.std.specs.Prelude.{◌≡◌, ◌∷◌, IfOk};
ghost use Rattle.syntax_tree.specs.Spans.{expr_span};
ghost use Rattle.value_types.specs.declared.types.Ty.{out-Ty};
ghost use Rattle.value_types.specs.declared.types.Ty.TheVariants as ty_of;
ghost use Rattle.typed_tree.specs.Typed.{expr_ty, kind_layer};
ghost use Rattle.expr_rules.specs.OwnBlocks.{may_assign_kind, may_assign_member};
ghost use Rattle.expr_rules.specs.OwnSteps.{plain_property};
ghost use Rattle.expr_rules.specs.Targets.{property_in};
ghost use Rattle.typed_tree.specs.Members.{is_inside};
ghost use Rattle.item_types.specs.Judging.{Tells, made, owned};
ghost use Rattle.item_types.specs.Rows.{array_rows, counted_rows, model_judging, row_target, row_type, rows_with, source_of};
ghost use Rattle.item_types.specs.Values.{expression_judging, standing_judging};

use crate::rows::{as_array, row_type};
use crate::targets::target_of;
use crate::values::{judge_expr, judge_standing};
use expr_rules::Denoted;
use name_lookup::Meaning;
use slint_base::{Fault, Memory, Rule, Span};
use std::alloc::Global;
use syntax_tree::Expr;
use typed_tree::{
    ExprKind, Found, MemberKind, MemberRef, RowSource, Scope, Site, Target, TargetBase, TypedExpr,
    TypedFor, assignable, is_inside,
};
use value_types::Ty;

/// The property that an expression is, where it is written as a plain path.
fn plain_property(is_plain: bool, e: &TypedExpr) -> Option<MemberRef>
    ensures { result ≡ plain_property is_plain (kind_layer e.now) }
{
    if !is_plain {
        return None;
    }
    match e.kind.get() {
        ExprKind::Property(member) => Some(*member),
        _ => None,
    }
}

/// Where the rows of an array come from, whose items have a type.
fn source_of(alloc: Global, is_plain: bool, e: TypedExpr, item: &Ty) -> Result<RowSource, Memory>
    ensures { IfOk result (λ made. made ≡ source_of is_plain e (kind_layer e) item.now) }
{
    match plain_property(is_plain, &e) {
        Some(member) => Ok(RowSource::Property(member)),
        None => {
            let rows = as_array(alloc, item, e)?;
            Ok(RowSource::Array(rows))
        }
    }
}

/// Whether a member may be assigned in a body; what is no property isn't a matter of marks.
fn may_assign_found(at: Site, found: &Found) -> bool
    ensures { result ≡ may_assign_kind (is_inside at found.now.owner) found.now.kind }
{
    match &found.kind {
        MemberKind::Property(mark, _) => assignable(is_inside(at, found.owner), *mark),
        _ => true,
    }
}

/// Whether the member of a reference may be assigned in a body.
fn may_assign_member(alloc: Global, scope: &Scope<'_>, member: MemberRef) -> Result<bool, Memory>
    ensures { IfOk result (λ may. may ≡ may_assign_member scope.now (Some member)) }
{
    match scope.names().member(alloc, scope.site(), member)? {
        None => Ok(true),
        Some(found) => Ok(may_assign_found(scope.site(), &found)),
    }
}

/// Whether an assignment that begins at this may be made in a body, as far as marks say.
fn may_assign(alloc: Global, scope: &Scope<'_>, base: TargetBase) -> Result<bool, Memory>
    ensures { IfOk result (λ may. may ≡ may_assign_member scope.now (property_in base)) }
{
    match base {
        TargetBase::Property(member) => may_assign_member(alloc, scope, member),
        TargetBase::RowItem(_) => Ok(true),
    }
}

/// What an assignment to a row's item assigns: a part of the model, where that can be assigned.
fn row_target(alloc: Global, scope: &Scope<'_>, e: &TypedExpr) -> Result<Option<Target>, Memory>
    ensures { IfOk result (λ target. target ≡ row_target scope.now e.now) }
{
    let found = target_of(alloc, scope, e)?;
    let Some(target) = found else {
        return Ok(None);
    };
    let may = may_assign(alloc, scope, target.base)?;
    if may {
        return Ok(Some(target));
    }
    Ok(None)
}

/// The rows of an array, whose items have a type.
fn rows_of(
    alloc: Global,
    scope: &Scope<'_>,
    span: Span,
    is_plain: bool,
    e: TypedExpr,
    item: Ty,
) -> Result<TypedFor, Memory>
    ensures { IfOk result (λ made. Ok made ≡ rows_with scope.now span is_plain e (Some item)) }
{
    let target = row_target(alloc, scope, &e)?;
    let rows = source_of(alloc, is_plain, e, &item)?;
    Ok(TypedFor {
        rows,
        item,
        target,
        span,
    })
}

/// The rows of a value, which has to be an array.
fn rows_with(
    alloc: Global,
    scope: &Scope<'_>,
    span: Span,
    is_plain: bool,
    e: TypedExpr,
) -> Result<Result<TypedFor, Fault>, Memory>
    ensures { IfOk result (λ made. made ≡ rows_with scope.now span is_plain e (row_type (out-Ty (expr_ty e)))) }
{
    let ty = row_type(alloc, &e.ty)?;
    match ty {
        Some(item) => {
            let rows = rows_of(alloc, scope, span, is_plain, e, item)?;
            Ok(Ok(rows))
        }
        None => Ok(Err(Fault {
            rule: Rule::TypeMismatch,
            span,
        })),
    }
}

/// The rows of what a model stands for, which has to be an array.
fn array_rows(
    alloc: Global,
    scope: &Scope<'_>,
    span: Span,
    denoted: Denoted,
) -> Result<Result<TypedFor, Fault>, Memory>
    ensures { IfOk result (λ made. made ≡ array_rows scope.now span denoted) }
{
    let Denoted {
        meaning,
        is_plain,
        ..
    } = denoted;
    match meaning {
        Meaning::Value(e) => rows_with(alloc, scope, span, is_plain, e),
        _ => Ok(Err(Fault {
            rule: Rule::TypeMismatch,
            span,
        })),
    }
}

/// A model that is an array by itself.
fn judge_array(
    alloc: Global,
    scope: &Scope<'_>,
    e: &Expr,
) -> Result<Result<TypedFor, Fault>, Memory>
    ensures { IfOk result (λ verdict. Tells (owned (standing_judging scope.now e.now) (array_rows scope.now (expr_span e.now))) verdict) }
{
    let verdict = judge_standing(alloc, scope, e)?;
    match verdict {
        Ok(denoted) => array_rows(alloc, scope, e.span(), denoted),
        Err(fault) => Ok(Err(fault)),
    }
}

/// A model that says how many rows there are.
fn judge_count(
    alloc: Global,
    scope: &Scope<'_>,
    e: &Expr,
) -> Result<Result<TypedFor, Fault>, Memory>
    ensures { IfOk result (λ verdict. Tells (made (expression_judging scope.now ty_of.Int e.now) (counted_rows (expr_span e.now))) verdict) }
{
    let verdict = judge_expr(alloc, scope, &Ty::Int, e)?;
    match verdict {
        Ok(count) => Ok(Ok(TypedFor {
            rows: RowSource::Count(count),
            item: Ty::Int,
            target: None,
            span: e.span(),
        })),
        Err(fault) => Ok(Err(fault)),
    }
}

/// A model.
pub(crate) fn judge_model(
    alloc: Global,
    scope: &Scope<'_>,
    e: &Expr,
) -> Result<Result<TypedFor, Fault>, Memory>
    ensures { IfOk result (λ verdict. Tells (model_judging scope.now e.now) verdict) }
{
    let verdict = judge_array(alloc, scope, e)?;
    match verdict {
        Ok(rows) => Ok(Ok(rows)),
        Err(_) => judge_count(alloc, scope, e),
    }
}
