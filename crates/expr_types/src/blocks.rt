ghost use Rattle.std.specs.Prelude.{◌∷◌, [], IfOk};
ghost use Rattle.syntax_tree.specs.declared.statements.Else.{out-Else};
ghost use Rattle.syntax_tree.specs.declared.statements.Stmt.{out-Stmt};
ghost use Rattle.expr_types.specs.Nodes.{Braces, Otherwise, Statement, braces, if_parts, otherwise_parts, statement_parts};
ghost use Rattle.expr_types.specs.Verdicts.{Seen, Tells};

use crate::assignments::{see_assignment, see_later, see_returned, see_value};
use crate::endings::{braced, continued, ends_inside, ends_with, stated};
use crate::expressions::see_alone;
use crate::fronts::see_none;
use crate::verdicts::{Seen, Verdict, add, only};
use slint_base::{Memory, Span};
use sqlite_items::{Items, at};
use std::alloc::Global;
use syntax_tree::{Block, Else, Expr, Stmt};
use typed_tree::Scope;
use value_types::Ty;

/// Statements in braces.
#[cycle(judging_blocks)]
pub(crate) fn judge_braces(
    alloc: Global,
    scope: &Scope<'_>,
    stmts: &[Stmt],
    span: Span,
    ty: &Ty,
    ends: bool,
) -> Result<Verdict, Memory>
    ensures { IfOk result (λ verdict. Tells scope.now (Braces ty.now ends stmts.now span) verdict) }
{
    let mut seen = Ok(Items::new(alloc));
    for (number, stmt) in stmts.iter().enumerate() {
        let is_end = ends_with(ends, at(stmts, number + 1));
        let told = judge_statement(alloc, scope, ty, is_end, stmt)?;
        seen = add(seen, told)?;
    }
    let verdict = braced(alloc, stmts, span, seen)?;
    Ok(verdict)
}

/// A statement of a block that gives a value of a type; `ends` says whether the block ends with it.
#[cycle(judging_blocks)]
fn judge_statement(
    alloc: Global,
    scope: &Scope<'_>,
    ty: &Ty,
    ends: bool,
    stmt: &Stmt,
) -> Result<Verdict, Memory>
    ensures { IfOk result (λ verdict. Tells scope.now (Statement ty.now ends stmt.now) verdict) }
{
    let parts = see_statement(alloc, scope, ty, ends, stmt)?;
    let later = see_later(alloc, scope, stmt, &parts)?;
    let verdict = stated(alloc, scope, ty, ends, stmt, parts, later)?;
    Ok(verdict)
}

/// The parts of a statement.
#[cycle(judging_blocks)]
fn see_statement(
    alloc: Global,
    scope: &Scope<'_>,
    ty: &Ty,
    ends: bool,
    stmt: &Stmt,
) -> Result<Seen, Memory>
    ensures { IfOk result (λ parts. Seen scope.now (statement_parts ty.now ends (out-Stmt stmt.now)) parts) }
{
    match stmt {
        Stmt::If(condition, block, otherwise, _) => {
            see_if(alloc, scope, ty, ends, condition, block, otherwise)
        }
        Stmt::Return(value, _) => see_returned(alloc, scope, ty, value),
        Stmt::Empty(_) => see_none(alloc, scope),
        Stmt::Expr(e) => see_value(alloc, scope, ty, ends, e),
        Stmt::Assign(left, op, right, _) => see_assignment(alloc, scope, left, *op, right),
    }
}

/// The parts of an `if`.
#[cycle(judging_blocks)]
fn see_if(
    alloc: Global,
    scope: &Scope<'_>,
    ty: &Ty,
    ends: bool,
    condition: &Expr,
    block: &Block,
    otherwise: &Else,
) -> Result<Seen, Memory>
    ensures { IfOk result (λ parts. Seen scope.now (if_parts ty.now ends condition.now block.now otherwise.now) parts) }
{
    let condition = see_alone(alloc, scope, Some(&Ty::Bool), condition)?;
    let is_end = ends_inside(ends, otherwise);
    let first = judge_braces(alloc, scope, block.stmts.as_slice(), block.span, ty, is_end)?;
    let before = add(condition, first)?;
    let second = judge_otherwise(alloc, scope, ty, ends, otherwise)?;
    let parts = add(before, second)?;
    Ok(parts)
}

/// What stands behind the block of an `if`.
#[cycle(judging_blocks)]
fn judge_otherwise(
    alloc: Global,
    scope: &Scope<'_>,
    ty: &Ty,
    ends: bool,
    otherwise: &Else,
) -> Result<Verdict, Memory>
    ensures { IfOk result (λ verdict. Tells scope.now (Otherwise ty.now ends otherwise.now) verdict) }
{
    let parts = see_otherwise(alloc, scope, ty, ends, otherwise)?;
    let verdict = continued(alloc, otherwise, parts)?;
    Ok(verdict)
}

/// The parts of what stands behind the block of an `if`.
#[cycle(judging_blocks)]
fn see_otherwise(
    alloc: Global,
    scope: &Scope<'_>,
    ty: &Ty,
    ends: bool,
    otherwise: &Else,
) -> Result<Seen, Memory>
    ensures { IfOk result (λ parts. Seen scope.now (otherwise_parts ty.now ends (out-Else otherwise.now)) parts) }
{
    match otherwise {
        Else::Nothing => see_none(alloc, scope),
        Else::ElseIf(condition, block, behind, _) => {
            see_if(alloc, scope, ty, ends, condition, block, behind.get())
        }
        Else::ElseBlock(block) => see_block(alloc, scope, ty, ends, block),
    }
}

/// The block of an `else`.
#[cycle(judging_blocks)]
fn see_block(
    alloc: Global,
    scope: &Scope<'_>,
    ty: &Ty,
    ends: bool,
    block: &Block,
) -> Result<Seen, Memory>
    ensures { IfOk result (λ parts. Seen scope.now (braces ty.now ends block.now ∷ []) parts) }
{
    let verdict = judge_braces(alloc, scope, block.stmts.as_slice(), block.span, ty, ends)?;
    let parts = only(alloc, verdict)?;
    Ok(parts)
}
