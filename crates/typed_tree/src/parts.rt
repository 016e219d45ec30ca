ghost use Rattle.std.specs.Prelude.{◌≡◌, [], ◌∷◌, IfOk, IsTrue};
ghost use Rattle.typed_tree.specs.Parts.{is_part};
ghost use Rattle.typed_tree.specs.declared.expressions.ExprKind.{out-ExprKind};
ghost use Rattle.typed_tree.specs.Typed.{further, kind_layer, part_of, typed};

use crate::{ExprKind, TypedExpr, TypedStep};
use slint_base::{Memory, Span};
use sqlite_items::{Boxed, Items};
use std::alloc::Global;
use value_types::Ty;

impl TypedExpr {
    /// An expression that does this.
    pub fn new(alloc: Global, kind: ExprKind, ty: Ty, span: Span) -> Result<TypedExpr, Memory>
        ensures { IfOk result (λ made. made ≡ typed kind ty span) }
    {
        let kind = Boxed::new(alloc, kind)?;
        Ok(TypedExpr { kind, ty, span })
    }

    /// A part of an expression's value: one more step into it.
    pub fn part(self, alloc: Global, step: TypedStep, span: Span) -> Result<TypedExpr, Memory>
        ensures { IfOk result (λ made. made ≡ part_of self step span) }
    {
        let ty = step.ty.copy(alloc)?;
        let kind = further(alloc, self, step)?;
        let made = TypedExpr::new(alloc, kind, ty, span)?;
        Ok(made)
    }
}

/// Whether an expression is a part of a value.
fn is_part(kind: &ExprKind) -> bool
    ensures { result ≡ is_part (out-ExprKind kind.now) }
{
    matches!(kind, ExprKind::Part(_, _))
}

/// One more step into a value; steps are kept side by side.
fn further(alloc: Global, e: TypedExpr, step: TypedStep) -> Result<ExprKind, Memory>
    ensures { IfOk result (λ kind. kind ≡ further e (kind_layer e) step) }
{
    if is_part(e.kind.get()) {
        longer(e, step)
    } else {
        let mut steps = Items::new(alloc);
        steps.push(step)?;
        Ok(ExprKind::Part(e, steps))
    }
}

/// One more step behind the ones of a part.
fn longer(part: TypedExpr, step: TypedStep) -> Result<ExprKind, Memory>
    requires { IsTrue (is_part (kind_layer part)) }
    ensures { IfOk result (λ kind. kind ≡ further part (kind_layer part) step) }
{
    let TypedExpr {
        kind,
        ty: _,
        span: _,
    } = part;
    let ExprKind::Part(base, mut steps) = kind.into_inner() else {
        unreachable!();
    };
    steps.push(step)?;
    Ok(ExprKind::Part(base, steps))
}
