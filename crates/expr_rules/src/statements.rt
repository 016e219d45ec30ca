ghost use Rattle.std.specs.Prelude.{◌≡◌, IfOk, Ok};
ghost use Rattle.value_types.specs.declared.types.Ty.{out-Ty};
ghost use Rattle.syntax_tree.specs.declared.statements.Else.{out-Else};
ghost use Rattle.syntax_tree.specs.declared.statements.Stmt.{out-Stmt};
ghost use Rattle.typed_tree.specs.Typed.{typed_stmt};
ghost use Rattle.typed_tree.specs.declared.statements.StmtKind.TheVariants as stmt_kinds;
ghost use Rattle.expr_rules.specs.declared.judged.Judged.TheVariants as judged;
ghost use Rattle.expr_rules.specs.Denotations.{given};
ghost use Rattle.expr_rules.specs.Own.{of_one};
ghost use Rattle.expr_rules.specs.OwnBlocks.{body_own, braces_own, conditional, else_if_own, if_own, lacks_value, otherwise_own, return_own, statement_own, stmts_given, value_stmt};
ghost use Rattle.expr_rules.specs.OwnSteps.{first};

use crate::Judged;
use crate::assignments::assigned_from;
use crate::blocks::{block_given, no_block, stmt};
use crate::fitting::given;
use crate::parts::{one_part, own_only, reversed, three_parts};
use crate::paths::gives_on_each;
use slint_base::{Fault, Memory, Rule, Span};
use sqlite_items::{Boxed, Items};
use std::alloc::Global;
use syntax_tree::{Else, Stmt};
use type_rules::is_void;
use typed_tree::{Scope, StmtKind, TypedBlock, TypedExpr, TypedStmt};
use value_types::Ty;

/// An `if`, of what its condition and its two blocks came to.
fn conditional(
    alloc: Global,
    span: Span,
    condition: Judged,
    block: Judged,
    otherwise: Judged,
) -> Result<TypedStmt, Memory>
    ensures { IfOk result (λ made. made ≡ conditional span condition block otherwise) }
{
    let condition = given(alloc, condition)?;
    let block = block_given(alloc, block);
    let otherwise = block_given(alloc, otherwise);
    Ok(TypedStmt {
        kind: StmtKind::If(condition, block, otherwise),
        span,
    })
}

/// An `if`, where its condition and its two blocks have come to something.
#[tactic(auto, using(crate::proofs::PartCounts::not_three))]
fn own_if(alloc: Global, span: Span, parts: Items<Judged>) -> Result<Result<Judged, Fault>, Memory>
    ensures { IfOk result (λ judged. judged ≡ if_own span parts) }
{
    match three_parts(parts) {
        None => Ok(Ok(Judged::Fresh)),
        Some((condition, block, otherwise)) => {
            let made = conditional(alloc, span, condition, block, otherwise)?;
            let made = Boxed::new(alloc, made)?;
            Ok(Ok(Judged::Stmt(made)))
        }
    }
}

/// An `if` behind `else`, as a block of its own.
#[tactic(auto, using(crate::proofs::PartCounts::not_three))]
fn own_else_if(alloc: Global, span: Span, parts: Items<Judged>) -> Result<Judged, Memory>
    ensures { IfOk result (λ judged. Ok judged ≡ else_if_own span parts) }
{
    match three_parts(parts) {
        None => Ok(Judged::Fresh),
        Some((condition, block, otherwise)) => {
            let made = conditional(alloc, span, condition, block, otherwise)?;
            let mut stmts = Items::new(alloc);
            stmts.push(made)?;
            Ok(Judged::Block(TypedBlock { stmts, span }))
        }
    }
}

/// The first part, `None` where there is none.
fn first_part(mut parts: Items<Judged>) -> Option<Judged>
    ensures { result ≡ first parts }
{
    if parts.is_empty() {
        return None;
    }
    Some(parts.remove(0))
}

/// A `return`, with what its value came to, if it has one.
fn own_return(
    alloc: Global,
    span: Span,
    parts: Items<Judged>,
) -> Result<Result<Judged, Fault>, Memory>
    ensures { IfOk result (λ judged. judged ≡ return_own span parts) }
{
    match first_part(parts) {
        None => {
            let judged = stmt(alloc, StmtKind::Return(None), span)?;
            Ok(Ok(judged))
        }
        Some(value) => {
            let value = given(alloc, value)?;
            let judged = stmt(alloc, StmtKind::Return(Some(value)), span)?;
            Ok(Ok(judged))
        }
    }
}

/// A lone semicolon.
fn own_empty(alloc: Global, span: Span) -> Result<Result<Judged, Fault>, Memory>
    ensures { IfOk result (λ made. made ≡ Ok (judged.Stmt (typed_stmt stmt_kinds.Empty span))) }
{
    let judged = stmt(alloc, StmtKind::Empty, span)?;
    Ok(Ok(judged))
}

/// What an expression statement does: an expression at the end of a block that gives a value gives it; the value of any other is dropped.
fn value_stmt(ty: &Ty, ends: bool, e: TypedExpr) -> StmtKind
    ensures { result ≡ value_stmt (out-Ty ty.now) ends e }
{
    if ends && !is_void(ty) {
        StmtKind::Return(Some(e))
    } else {
        StmtKind::Expr(e)
    }
}

/// An expression statement, where the expression has come to something.
#[tactic(auto, using(crate::proofs::PartCounts::not_one))]
fn own_expr_stmt(
    alloc: Global,
    ty: &Ty,
    ends: bool,
    span: Span,
    parts: Items<Judged>,
) -> Result<Result<Judged, Fault>, Memory>
    ensures { IfOk result (λ made. made ≡ of_one (λ x. Ok (judged.Stmt (typed_stmt (value_stmt (out-Ty ty.now) ends (given x)) span))) parts) }
{
    match one_part(parts) {
        None => Ok(Ok(Judged::Fresh)),
        Some(part) => {
            let e = given(alloc, part)?;
            let judged = stmt(alloc, value_stmt(ty, ends, e), span)?;
            Ok(Ok(judged))
        }
    }
}

/// What a statement of a block that gives a value of type `ty` comes to; `ends` says whether the block ends with it.
pub fn own_statement(
    alloc: Global,
    scope: &Scope<'_>,
    ty: &Ty,
    ends: bool,
    stmt: &Stmt,
    parts: Items<Judged>,
    later: Items<Judged>,
) -> Result<Result<Judged, Fault>, Memory>
    ensures { IfOk result (λ judged. judged ≡ statement_own scope.now ty.now ends (out-Stmt stmt.now) parts later) }
{
    match stmt {
        Stmt::If(_, _, _, span) => own_if(alloc, *span, parts),
        Stmt::Return(_, span) => own_return(alloc, *span, parts),
        Stmt::Empty(span) => own_empty(alloc, *span),
        Stmt::Expr(e) => own_expr_stmt(alloc, ty, ends, e.span(), parts),
        Stmt::Assign(_, op, _, span) => assigned_from(alloc, scope, *op, *span, parts, later),
    }
}

/// What stands behind the block of an `if`, as a block.
pub fn own_otherwise(
    alloc: Global,
    otherwise: &Else,
    parts: Items<Judged>,
) -> Result<Result<Judged, Fault>, Memory>
    ensures { IfOk result (λ judged. judged ≡ otherwise_own (out-Else otherwise.now) parts) }
{
    match otherwise {
        Else::Nothing => Ok(Ok(Judged::Block(no_block(alloc)))),
        Else::ElseIf(_, _, _, span) => Ok(Ok(own_else_if(alloc, *span, parts)?)),
        Else::ElseBlock(_) => Ok(Ok(own_only(parts))),
    }
}

/// The statements that nodes came to.
fn stmts_given(alloc: Global, parts: Items<Judged>) -> Result<Items<TypedStmt>, Memory>
    ensures { IfOk result (λ stmts. stmts ≡ stmts_given parts) }
{
    let mut rest = reversed(alloc, parts)?;
    let mut stmts = Items::new(alloc);
    while let Some(part) = rest.pop() {
        if let Judged::Stmt(stmt) = part {
            stmts.push(stmt.into_inner())?;
        }
    }
    Ok(stmts)
}

/// Statements in braces.
pub fn own_braces(alloc: Global, span: Span, parts: Items<Judged>) -> Result<Judged, Memory>
    ensures { IfOk result (λ judged. judged ≡ braces_own span parts) }
{
    let stmts = stmts_given(alloc, parts)?;
    Ok(Judged::Block(TypedBlock { stmts, span }))
}

/// Whether a block that is to give a value of a type has a path without one.
fn lacks_value(ty: &Ty, stmts: &[Stmt]) -> bool
    ensures { result ≡ lacks_value (out-Ty ty.now) stmts.now }
{
    !is_void(ty) && !gives_on_each(stmts)
}

/// A block that gives a value of type `ty` does so on each path through its statements.
pub fn own_body(
    alloc: Global,
    ty: &Ty,
    stmts: &[Stmt],
    span: Span,
    parts: Items<Judged>,
) -> Result<Result<Judged, Fault>, Memory>
    ensures { IfOk result (λ judged. judged ≡ body_own ty.now stmts.now span parts) }
{
    if lacks_value(ty, stmts) {
        return Ok(Err(Fault {
            rule: Rule::TypeMismatch,
            span,
        }));
    }
    Ok(Ok(own_only(parts)))
}
