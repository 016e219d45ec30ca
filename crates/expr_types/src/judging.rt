ghost use Rattle.std.specs.Prelude.{◌≡◌, IfOk, Some};
ghost use Rattle.expr_rules.specs.Denotations.{value_of};
ghost use Rattle.expr_rules.specs.declared.judged.Judged.TheVariants as judged_of;
ghost use Rattle.expr_types.specs.Nodes.{Body};
ghost use Rattle.expr_types.specs.Verdicts.{Tells};
ghost use Rattle.expr_types.specs.Kinds.{IsBlock, IsStanding, IsValue};
ghost use Rattle.expr_types.specs.Typing.{JudgesBlock, JudgesExpr, JudgesStanding};

use crate::blocks::judge_braces;
use crate::endings::bodied;
use crate::expressions::{denote, judge};
use crate::verdicts::{Verdict, only};
use expr_rules::{Denoted, Judged};
use name_lookup::Meaning;
use slint_base::{End, Fault, Memory, Span};
use std::alloc::Global;
use syntax_tree::{Expr, Stmt};
use typed_tree::{Scope, TypedBlock, TypedExpr};
use value_types::Ty;

/// The typed form of an expression that stands where a type is wanted, or the fault in it that is told first.
pub fn type_expr(
    alloc: Global,
    scope: &Scope<'_>,
    e: &Expr,
    place: &Ty,
) -> Result<TypedExpr, End<Fault>>
    ensures { JudgesExpr scope.now (Some place.now) e.now result }
{
    match judge(alloc, scope, Some(place), e) {
        Ok(Ok(judged)) => Ok(value_given(judged)),
        Ok(Err(fault)) => Err(End::Fault(fault)),
        Err(Memory) => Err(End::Memory),
    }
}

/// The typed form of a block that gives a value of type `place`, or the fault in it that is told first. `span` is the block's
/// stretch.
pub fn type_block(
    alloc: Global,
    scope: &Scope<'_>,
    stmts: &[Stmt],
    span: Span,
    place: &Ty,
) -> Result<TypedBlock, End<Fault>>
    ensures { JudgesBlock scope.now place.now stmts.now span result }
{
    match judge_body(alloc, scope, stmts, span, place) {
        Ok(Ok(judged)) => Ok(block_given(judged)),
        Ok(Err(fault)) => Err(End::Fault(fault)),
        Err(Memory) => Err(End::Memory),
    }
}

/// What an expression stands for where any value is wanted, before it is taken as one, or the fault in it that is told first.
pub fn stands_for(alloc: Global, scope: &Scope<'_>, e: &Expr) -> Result<Denoted, End<Fault>>
    ensures { JudgesStanding scope.now e.now result }
{
    match denote(alloc, scope, None, e) {
        Ok(Ok(judged)) => Ok(denoted_given(judged)),
        Ok(Err(fault)) => Err(End::Fault(fault)),
        Err(Memory) => Err(End::Memory),
    }
}

/// A block that gives a value of a type.
fn judge_body(
    alloc: Global,
    scope: &Scope<'_>,
    stmts: &[Stmt],
    span: Span,
    ty: &Ty,
) -> Result<Verdict, Memory>
    ensures { IfOk result (λ verdict. Tells scope.now (Body ty.now stmts.now span) verdict) }
{
    let braces = judge_braces(alloc, scope, stmts, span, ty, true)?;
    let parts = only(alloc, braces)?;
    let verdict = bodied(alloc, ty, stmts, span, parts)?;
    Ok(verdict)
}

/// What an expression stands for, of what its node came to.
fn denoted_given(judged: Judged) -> Denoted
    requires { IsStanding judged }
    ensures { judged ≡ judged_of.Denoted result }
{
    let Judged::Denoted(denoted) = judged else {
        unreachable!();
    };
    denoted.into_inner()
}

/// The value that an expression at a place came to.
fn value_given(judged: Judged) -> TypedExpr
    requires { IsValue judged }
    ensures { judged ≡ value_of result }
{
    let Denoted { meaning, .. } = denoted_given(judged);
    let Meaning::Value(e) = meaning else {
        unreachable!();
    };
    e
}

/// The block that a node of statements came to.
fn block_given(judged: Judged) -> TypedBlock
    requires { IsBlock judged }
    ensures { judged ≡ judged_of.Block result }
{
    let Judged::Block(block) = judged else {
        unreachable!();
    };
    block
}
