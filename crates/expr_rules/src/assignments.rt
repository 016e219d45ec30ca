ghost use Rattle.std.specs.Prelude.{◌≡◌, IfOk, Ok, Some, false};
ghost use Rattle.typed_tree.specs.Members.{assignable, is_inside};
ghost use Rattle.typed_tree.specs.Typed.{typed_stmt};
ghost use Rattle.typed_tree.specs.declared.statements.StmtKind.TheVariants as stmt_kinds;
ghost use Rattle.expr_rules.specs.declared.judged.Judged.TheVariants as judged;
ghost use Rattle.expr_rules.specs.Denotations.{denoted, given, on_ok};
ghost use Rattle.expr_rules.specs.Own.{fitted, operation_on};
ghost use Rattle.expr_rules.specs.OwnSteps.{assigned_fault, two, two_sides};
ghost use Rattle.expr_rules.specs.OwnBlocks.{assigned_from, assigned_own, assigned_target, assigned_value, assignment, changing, is_callable, may_assign, may_assign_kind, may_assign_member};

use crate::blocks::stmt;
use crate::fitting::{fitted, given, operation_on};
use crate::making::denoted;
use crate::parts::{one_part, two_parts};
use crate::targets::{target_base, target_of};
use crate::{Denoted, Judged};
use element_tables::Op;
use name_lookup::Meaning;
use slint_base::{Fault, Memory, Rule, Span};
use sqlite_items::{Boxed, Items};
use std::alloc::Global;
use syntax_tree::{AssignOp, Mark};
use typed_tree::{
    Found, MemberKind, MemberRef, Scope, Site, StmtKind, Target, TargetBase, TypedExpr, is_inside,
};
use value_types::Ty;

/// Whether something is called: a callback or a function isn't anything before that.
fn is_callable(meaning: &Meaning) -> bool
    ensures { result ≡ is_callable meaning.now }
{
    matches!(
        meaning,
        Meaning::Callable(_, _) | Meaning::Math(_) | Meaning::Method(_, _)
    )
}

/// Whether a property with a mark may be assigned, by its owner's body or by others.
fn is_assignable(inside: bool, mark: Mark) -> bool
    ensures { result ≡ assignable inside mark }
{
    match mark {
        Mark::In => !inside,
        Mark::InOut => true,
        _ => inside,
    }
}

/// Whether a member may be assigned in a body; what is no property isn't a matter of marks.
fn may_assign_found(at: Site, found: &Found) -> bool
    ensures { result ≡ may_assign_kind (is_inside at found.now.owner) found.now.kind }
{
    match &found.kind {
        MemberKind::Property(mark, _) => is_assignable(is_inside(at, found.owner), *mark),
        _ => true,
    }
}

/// Whether the member of a reference may be assigned.
fn may_assign_member(alloc: Global, scope: &Scope<'_>, member: MemberRef) -> Result<bool, Memory>
    ensures { IfOk result (λ may. may ≡ may_assign_member scope.now (Some member)) }
{
    match scope.names().member(alloc, scope.site(), member)? {
        None => Ok(true),
        Some(found) => Ok(may_assign_found(scope.site(), &found)),
    }
}

/// Whether what an expression stands for may be assigned here, as far as marks say.
fn may_assign(alloc: Global, scope: &Scope<'_>, meaning: &Meaning) -> Result<bool, Memory>
    ensures { IfOk result (λ may. may ≡ may_assign scope.now meaning.now) }
{
    let Meaning::Value(e) = meaning else {
        return Ok(true);
    };
    match target_base(scope, e) {
        Some(TargetBase::Property(member)) => {
            let may = may_assign_member(alloc, scope, member)?;
            Ok(may)
        }
        _ => Ok(true),
    }
}

/// The rule that an assignment breaks by what an expression stands for, if it breaks one.
fn fault_of(alloc: Global, scope: &Scope<'_>, assigned: &Denoted) -> Result<Option<Fault>, Memory>
    ensures { IfOk result (λ fault. fault ≡ assigned_fault scope.now assigned.now) }
{
    if is_callable(&assigned.meaning) {
        return Ok(Some(Fault {
            rule: Rule::NotCallable,
            span: assigned.name,
        }));
    }
    if may_assign(alloc, scope, &assigned.meaning)? {
        return Ok(None);
    }
    Ok(Some(Fault {
        rule: Rule::Visibility,
        span: assigned.name,
    }))
}

/// The rule that an assignment breaks by what is assigned, if it breaks one.
fn assigned_fault(alloc: Global, scope: &Scope<'_>, part: &Judged) -> Result<Option<Fault>, Memory>
    ensures { IfOk result (λ fault. fault ≡ assigned_fault scope.now (denoted part.now)) }
{
    match part {
        Judged::Denoted(denoted) => {
            let fault = fault_of(alloc, scope, denoted.get())?;
            Ok(fault)
        }
        _ => Ok(None),
    }
}

/// What the node of an expression came to, as it is.
fn as_denoted(alloc: Global, part: Judged) -> Result<Judged, Memory>
    ensures { IfOk result (λ made. made ≡ judged.Denoted (denoted part)) }
{
    match part {
        Judged::Denoted(denoted) => Ok(Judged::Denoted(denoted)),
        _ => {
            let nothing = denoted(alloc, Judged::Fresh)?;
            let nothing = Boxed::new(alloc, nothing)?;
            Ok(Judged::Denoted(nothing))
        }
    }
}

/// What is assigned: it has to be open to that, and callbacks and functions aren't before they are called.
pub fn own_assigned(
    alloc: Global,
    scope: &Scope<'_>,
    part: Judged,
) -> Result<Result<Judged, Fault>, Memory>
    ensures { IfOk result (λ judged. judged ≡ assigned_own scope.now (denoted part)) }
{
    match assigned_fault(alloc, scope, &part)? {
        Some(fault) => Ok(Err(fault)),
        None => {
            let judged = as_denoted(alloc, part)?;
            Ok(Ok(judged))
        }
    }
}

/// What an assignment to this part assigns, if it can be assigned.
fn assigned_target(
    alloc: Global,
    scope: &Scope<'_>,
    left: &Judged,
) -> Result<Option<Target>, Memory>
    ensures { IfOk result (λ target. target ≡ assigned_target scope.now (denoted left.now).meaning) }
{
    let Judged::Denoted(denoted) = left else {
        return Ok(None);
    };
    match &denoted.get().meaning {
        Meaning::Value(e) => {
            let target = target_of(alloc, scope, e)?;
            Ok(target)
        }
        _ => Ok(None),
    }
}

/// The operator of an assignment, `None` of `=`.
fn changing(op: AssignOp) -> Option<Op>
    ensures { result ≡ changing op }
{
    match op {
        AssignOp::Set => None,
        AssignOp::Add => Some(Op::Add),
        AssignOp::Sub => Some(Op::Sub),
        AssignOp::Mul => Some(Op::Mul),
        AssignOp::Div => Some(Op::Div),
    }
}

/// The value that is assigned, if there is one, fitted to the type of what is assigned.
fn fitted_value(
    alloc: Global,
    ty: &Ty,
    span: Span,
    value: Result<TypedExpr, Fault>,
) -> Result<Result<TypedExpr, Fault>, Memory>
    ensures { IfOk result (λ made. made ≡ on_ok value (λ e. fitted (Some ty.now) span e)) }
{
    match value {
        Err(fault) => Ok(Err(fault)),
        Ok(e) => {
            let made = fitted(alloc, Some(ty), span, e)?;
            Ok(made)
        }
    }
}

/// The value of an operation, fitted to the type of what is assigned.
fn fitted_operation(
    alloc: Global,
    ty: &Ty,
    op: Op,
    span: Span,
    left: TypedExpr,
    right: TypedExpr,
) -> Result<Result<TypedExpr, Fault>, Memory>
    ensures { IfOk result (λ made. made ≡ on_ok (operation_on false op span left right) (λ e. fitted (Some ty.now) span e)) }
{
    let value = operation_on(alloc, false, op, span, left, right)?;
    let made = fitted_value(alloc, ty, span, value)?;
    Ok(made)
}

/// The value of an operation on what is assigned, which has to fit there.
fn changed(
    alloc: Global,
    op: Op,
    span: Span,
    left: TypedExpr,
    right: TypedExpr,
) -> Result<Result<TypedExpr, Fault>, Memory>
    ensures { IfOk result (λ made. made ≡ assigned_value (Some op) span left right) }
{
    let ty = left.ty.copy(alloc)?;
    let made = fitted_operation(alloc, &ty, op, span, left, right)?;
    Ok(made)
}

/// The value of an operation on what two parts came to, of which the first one is assigned.
fn changed_value(
    alloc: Global,
    op: Op,
    span: Span,
    left: Judged,
    right: Judged,
) -> Result<Result<TypedExpr, Fault>, Memory>
    ensures { IfOk result (λ made. made ≡ assigned_value (Some op) span (given left) (given right)) }
{
    let left = given(alloc, left)?;
    let right = given(alloc, right)?;
    let made = changed(alloc, op, span, left, right)?;
    Ok(made)
}

/// The value that is assigned: the right side, or an operation on what is assigned.
fn assigned_value(
    alloc: Global,
    op: Option<Op>,
    span: Span,
    left: Judged,
    right: Judged,
) -> Result<Result<TypedExpr, Fault>, Memory>
    ensures { IfOk result (λ made. made ≡ assigned_value op span (given left) (given right)) }
{
    match op {
        Some(op) => {
            let made = changed_value(alloc, op, span, left, right)?;
            Ok(made)
        }
        None => {
            let made = given(alloc, right)?;
            Ok(Ok(made))
        }
    }
}

/// An assignment of a value, if there is one.
fn assigning(
    alloc: Global,
    span: Span,
    target: Target,
    value: Result<TypedExpr, Fault>,
) -> Result<Result<Judged, Fault>, Memory>
    ensures { IfOk result (λ made. made ≡ on_ok value (λ e. Ok (judged.Stmt (typed_stmt (stmt_kinds.Assign target e) span)))) }
{
    match value {
        Err(fault) => Ok(Err(fault)),
        Ok(e) => {
            let judged = stmt(alloc, StmtKind::Assign(target, e), span)?;
            Ok(Ok(judged))
        }
    }
}

/// An assignment to what one part came to of what another one came to.
fn assignment(
    alloc: Global,
    op: Option<Op>,
    span: Span,
    left: Judged,
    right: Judged,
    target: Option<Target>,
) -> Result<Result<Judged, Fault>, Memory>
    ensures { IfOk result (λ judged. judged ≡ assignment op span left right target) }
{
    let Some(target) = target else {
        return Ok(Err(Fault {
            rule: Rule::NotAssignable,
            span,
        }));
    };
    let value = assigned_value(alloc, op, span, left, right)?;
    let judged = assigning(alloc, span, target, value)?;
    Ok(judged)
}

/// The two sides of an assignment: both parts, or a part and a later one.
#[tactic(auto, using(crate::proofs::Sides::only_none, crate::proofs::Sides::two_none))]
fn two_sides(parts: Items<Judged>, later: Items<Judged>) -> Option<(Judged, Judged)>
    ensures { result ≡ two_sides parts later }
{
    if later.is_empty() {
        return both(parts);
    }
    let Some(left) = one_part(parts) else {
        return None;
    };
    match one_part(later) {
        Some(right) => Some((left, right)),
        None => None,
    }
}

/// The two sides where both are parts.
#[tactic(auto, using(crate::proofs::Sides::two_none))]
fn both(parts: Items<Judged>) -> Option<(Judged, Judged)>
    ensures { result ≡ two parts }
{
    match two_parts(parts) {
        Some((left, right)) => Some((left, right)),
        None => None,
    }
}

/// An assignment, where its two sides have come to something: the right side of `=` as a later part.
pub(crate) fn assigned_from(
    alloc: Global,
    scope: &Scope<'_>,
    op: AssignOp,
    span: Span,
    parts: Items<Judged>,
    later: Items<Judged>,
) -> Result<Result<Judged, Fault>, Memory>
    ensures { IfOk result (λ judged. judged ≡ assigned_from scope.now op span parts later) }
{
    match two_sides(parts, later) {
        None => Ok(Ok(Judged::Fresh)),
        Some((left, right)) => {
            let target = assigned_target(alloc, scope, &left)?;
            let judged = assignment(alloc, changing(op), span, left, right, target)?;
            Ok(judged)
        }
    }
}
