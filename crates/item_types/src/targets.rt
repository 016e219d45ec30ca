ghost use Rattle.std.specs.Prelude.{◌≡◌, ◌∷◌, IfOk};
ghost use Rattle.std.specs.Option.{option_map};
ghost use Rattle.typed_tree.specs.declared.expressions.ExprKind.{out-ExprKind};
ghost use Rattle.typed_tree.specs.declared.expressions.StepKind.TheVariants as step;
ghost use Rattle.typed_tree.specs.Typed.{expr_ty, kind_layer, typed_step};
ghost use Rattle.expr_rules.specs.OwnSteps.{base_of};
ghost use Rattle.expr_rules.specs.Targets.{base_target, is_assignable_row, target_of};

use slint_base::Memory;
use sqlite_items::Items;
use std::alloc::Global;
use typed_tree::{
    ExprKind, RowNames, Scope, StepKind, Target, TargetBase, TypedExpr, TypedStep, copy_steps,
};
use value_types::Ty;

/// Whether the item of a row may be assigned: the model of its `for` can be assigned itself.
fn is_assignable_row(element: usize, rows: &[RowNames]) -> bool
    ensures { result ≡ is_assignable_row element rows.now }
{
    rows.iter()
        .any(|row| row.element == element && row.is_assignable)
}

/// Where an assignment to what an expression does begins, if that can be assigned and is no part of anything.
fn base_of(scope: &Scope<'_>, kind: &ExprKind) -> Option<TargetBase>
    ensures { result ≡ base_of scope.now (out-ExprKind kind.now) }
{
    match kind {
        ExprKind::Property(member) => Some(TargetBase::Property(*member)),
        ExprKind::PropertyItem(member, _) => Some(TargetBase::Property(*member)),
        ExprKind::RowItem(element) => {
            if is_assignable_row(*element, scope.rows()) {
                Some(TargetBase::RowItem(*element))
            } else {
                None
            }
        }
        _ => None,
    }
}

/// Where an assignment to an expression begins, if it can be assigned.
pub(crate) fn target_base(scope: &Scope<'_>, e: &TypedExpr) -> Option<TargetBase>
    ensures { result ≡ option_map (λ target. target.base) (target_of scope.now e.now) }
{
    match e.kind.get() {
        ExprKind::Part(base, _) => base_of(scope, base.kind.get()),
        kind => base_of(scope, kind),
    }
}

/// The step to an item of an array.
fn item_step(alloc: Global, at: &TypedExpr, ty: &Ty) -> Result<TypedStep, Memory>
    ensures { IfOk result (λ made. made ≡ typed_step (step.ToItem at.now) ty.now) }
{
    let ty = ty.copy(alloc)?;
    let at = at.copy(alloc)?;
    Ok(TypedStep {
        kind: StepKind::ToItem(at),
        ty,
    })
}

/// A step, and others behind it.
fn steps_behind(
    alloc: Global,
    first: TypedStep,
    steps: &Items<TypedStep>,
) -> Result<Items<TypedStep>, Memory>
    ensures { IfOk result (λ made. made ≡ first ∷ steps.now) }
{
    let mut made = Items::new(alloc);
    made.push(first)?;
    made.append(copy_steps(alloc, steps)?)?;
    Ok(made)
}

/// The step to an item of an array, and others behind it.
fn item_steps(
    alloc: Global,
    at: &TypedExpr,
    ty: &Ty,
    steps: &Items<TypedStep>,
) -> Result<Items<TypedStep>, Memory>
    ensures { IfOk result (λ made. made ≡ typed_step (step.ToItem at.now) ty.now ∷ steps.now) }
{
    let first = item_step(alloc, at, ty)?;
    let made = steps_behind(alloc, first, steps)?;
    Ok(made)
}

/// What these steps into an expression's value assign, if they assign anything.
fn base_target(
    alloc: Global,
    scope: &Scope<'_>,
    base: &TypedExpr,
    steps: &Items<TypedStep>,
) -> Result<Option<Target>, Memory>
    ensures { IfOk result (λ target. target ≡ base_target scope.now (kind_layer base.now) (expr_ty base.now) steps.now) }
{
    let Some(start) = base_of(scope, base.kind.get()) else {
        return Ok(None);
    };
    let steps = match base.kind.get() {
        ExprKind::PropertyItem(_, at) => item_steps(alloc, at, &base.ty, steps)?,
        _ => copy_steps(alloc, steps)?,
    };
    Ok(Some(Target { base: start, steps }))
}

/// What an expression assigns where it is assigned: a property, an assignable row's item, or a part of one.
pub(crate) fn target_of(
    alloc: Global,
    scope: &Scope<'_>,
    e: &TypedExpr,
) -> Result<Option<Target>, Memory>
    ensures { IfOk result (λ target. target ≡ target_of scope.now e.now) }
{
    match e.kind.get() {
        ExprKind::Part(base, steps) => {
            let target = base_target(alloc, scope, base, steps)?;
            Ok(target)
        }
        _ => {
            let target = base_target(alloc, scope, e, &Items::new(alloc))?;
            Ok(target)
        }
    }
}
