ghost use Rattle.std.specs.Prelude.{◌∷◌, [], Bool, IfOk, Some};
ghost use Rattle.value_types.specs.declared.types.Ty.{Ty as TyValue};
ghost use Rattle.expr_types.specs.Nodes.{Assigned, At, Statement, expression_place, returned, right_operand};
ghost use Rattle.expr_types.specs.Verdicts.{Seen, SeenLater, SeenRight, Tells};

use crate::expressions::{denote, see, see_alone};
use crate::fronts::{first_come, see_none};
use crate::verdicts::{Seen, Verdict, only};
use expr_rules::{assigned_place, own_assigned};
use slint_base::Memory;
use std::alloc::Global;
use syntax_tree::{AssignOp, Expr, Stmt};
use typed_tree::Scope;
use value_types::Ty;

/// The value of a `return`, if it has one.
pub(crate) fn see_returned(
    alloc: Global,
    scope: &Scope<'_>,
    ty: &Ty,
    value: &Option<Expr>,
) -> Result<Seen, Memory>
    ensures { IfOk result (λ seen. Seen scope.now (returned ty.now value.now) seen) }
{
    match value {
        None => see_none(alloc, scope),
        Some(e) => see_alone(alloc, scope, Some(ty), e),
    }
}

/// The expression of an expression statement.
pub(crate) fn see_value(
    alloc: Global,
    scope: &Scope<'_>,
    ty: &Ty,
    ends: bool,
    e: &Expr,
) -> Result<Seen, Memory>
    ensures { IfOk result (λ seen. Seen scope.now (At (Some (expression_place ty.now ends)) e.now ∷ []) seen) }
{
    if ends {
        return see_alone(alloc, scope, Some(ty), e);
    }
    see_alone(alloc, scope, Some(&Ty::Void), e)
}

/// What is assigned.
fn assigned(alloc: Global, scope: &Scope<'_>, left: &Expr) -> Result<Verdict, Memory>
    ensures { IfOk result (λ verdict. Tells scope.now (Assigned left.now) verdict) }
{
    let denoted = denote(alloc, scope, None, left)?;
    let part = match denoted {
        Ok(part) => part,
        Err(fault) => return Ok(Err(fault)),
    };
    let verdict = own_assigned(alloc, scope, part)?;
    Ok(verdict)
}

/// The parts of an assignment: what is assigned, and an operand that is worked into it.
pub(crate) fn see_assignment(
    alloc: Global,
    scope: &Scope<'_>,
    left: &Expr,
    op: AssignOp,
    right: &Expr,
) -> Result<Seen, Memory>
    ensures { IfOk result (λ seen. Seen scope.now (Assigned left.now ∷ right_operand op right.now) seen) }
{
    let verdict = assigned(alloc, scope, left)?;
    let seen = only(alloc, verdict)?;
    match op {
        AssignOp::Set => Ok(seen),
        _ => see(alloc, scope, seen, None, right),
    }
}

/// The right side of `=`, once it is known what is assigned.
fn see_right(
    alloc: Global,
    scope: &Scope<'_>,
    op: AssignOp,
    right: &Expr,
    parts: &Seen,
) -> Result<Seen, Memory>
    ensures { IfOk result (λ later. SeenRight scope.now op right.now parts.now later) }
{
    let none = see_none(alloc, scope)?;
    if op != AssignOp::Set {
        return Ok(none);
    }
    let Some(left) = first_come(parts) else {
        return Ok(none);
    };
    let place = assigned_place(alloc, scope, left)?;
    let later = see_alone(alloc, scope, place.as_ref(), right)?;
    Ok(later)
}

/// The further parts of a statement: the right side of `=`.
pub(crate) fn see_later(
    alloc: Global,
    scope: &Scope<'_>,
    stmt: &Stmt,
    parts: &Seen,
) -> Result<Seen, Memory>
    ensures { IfOk result (λ later. (t : TyValue) (ends : Bool) → SeenLater scope.now (Statement t ends stmt.now) parts.now later) }
{
    let none = see_none(alloc, scope)?;
    match stmt {
        Stmt::If(..) => Ok(none),
        Stmt::Return(..) => Ok(none),
        Stmt::Empty(_) => Ok(none),
        Stmt::Expr(_) => Ok(none),
        Stmt::Assign(_, op, right, _) => {
            let later = see_right(alloc, scope, *op, right, parts)?;
            Ok(later)
        }
    }
}
