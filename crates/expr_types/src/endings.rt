ghost use Rattle.std.specs.Prelude.{◌≡◌, ◌∷◌, ◌&&◌, [], Bool, IfOk, is_none, true};
ghost use Rattle.std.specs.Option.{option_copied};
ghost use Rattle.syntax_tree.specs.declared.statements.Else.{out-Else};
ghost use Rattle.syntax_tree.specs.declared.statements.Stmt.{out-Stmt};
ghost use Rattle.value_types.specs.declared.types.Ty.{Ty as TyValue};
ghost use Rattle.typed_tree.specs.Scopes.{ScopeValue};
ghost use Rattle.expr_types.specs.Nodes.{Body, Braces, Otherwise, Statement, has_else, otherwise_parts, statement_nodes, statement_parts};
ghost use Rattle.expr_types.specs.Verdicts.{Seen, SeenLater, Tells};

use crate::verdicts::{Seen, Verdict};
use expr_rules::{own_body, own_braces, own_otherwise, own_statement};
use slint_base::{Memory, Span};
use std::alloc::Global;
use syntax_tree::{Else, Stmt};
use typed_tree::Scope;
use value_types::Ty;

/// Whether a block ends with one of its statements: if it ends with them at all, and nothing stands behind this one.
pub(crate) fn ends_with(ends: bool, behind: Option<&Stmt>) -> bool
    ensures { result ≡ (ends && is_none (option_copied behind.entry)) }
{
    ends && behind.is_none()
}

/// Whether a block that ends with an `if` ends with its first block: only where it has an `else`.
pub(crate) fn ends_inside(ends: bool, otherwise: &Else) -> bool
    ensures { result ≡ (ends && has_else (out-Else otherwise.now)) }
{
    if !ends {
        return false;
    }
    match otherwise {
        Else::Nothing => false,
        Else::ElseIf(..) => true,
        Else::ElseBlock(_) => true,
    }
}

/// A statement, by its parts and the further ones.
pub(crate) fn stated(
    alloc: Global,
    scope: &Scope<'_>,
    ty: &Ty,
    ends: bool,
    stmt: &Stmt,
    parts: Seen,
    later: Seen,
) -> Result<Verdict, Memory>
    ensures { IfOk result (λ verdict. Seen scope.now (statement_parts ty.now ends (out-Stmt stmt.now)) parts → SeenLater scope.now (Statement ty.now ends stmt.now) parts later → Tells scope.now (Statement ty.now ends stmt.now) verdict) }
{
    let parts = match parts {
        Ok(parts) => parts,
        Err(fault) => return Ok(Err(fault)),
    };
    let later = match later {
        Ok(later) => later,
        Err(fault) => return Ok(Err(fault)),
    };
    let verdict = own_statement(alloc, scope, ty, ends, stmt, parts, later)?;
    Ok(verdict)
}

/// Statements in braces, by what is told of them.
pub(crate) fn braced(
    alloc: Global,
    stmts: &[Stmt],
    span: Span,
    parts: Seen,
) -> Result<Verdict, Memory>
    ensures { IfOk result (λ verdict. (s : ScopeValue) (t : TyValue) (ends : Bool) → Seen s (statement_nodes t ends stmts.now) parts → Tells s (Braces t ends stmts.now span) verdict) }
{
    let parts = match parts {
        Ok(parts) => parts,
        Err(fault) => return Ok(Err(fault)),
    };
    let block = own_braces(alloc, span, parts)?;
    Ok(Ok(block))
}

/// What stands behind the block of an `if`, by its parts.
pub(crate) fn continued(alloc: Global, otherwise: &Else, parts: Seen) -> Result<Verdict, Memory>
    ensures { IfOk result (λ verdict. (s : ScopeValue) (t : TyValue) (ends : Bool) → Seen s (otherwise_parts t ends (out-Else otherwise.now)) parts → Tells s (Otherwise t ends otherwise.now) verdict) }
{
    let parts = match parts {
        Ok(parts) => parts,
        Err(fault) => return Ok(Err(fault)),
    };
    let verdict = own_otherwise(alloc, otherwise, parts)?;
    Ok(verdict)
}

/// A block that gives a value of a type, by what is told of its statements in braces.
pub(crate) fn bodied(
    alloc: Global,
    ty: &Ty,
    stmts: &[Stmt],
    span: Span,
    parts: Seen,
) -> Result<Verdict, Memory>
    ensures { IfOk result (λ verdict. (s : ScopeValue) → Seen s (Braces ty.now true stmts.now span ∷ []) parts → Tells s (Body ty.now stmts.now span) verdict) }
{
    let parts = match parts {
        Ok(parts) => parts,
        Err(fault) => return Ok(Err(fault)),
    };
    let verdict = own_body(alloc, ty, stmts, span, parts)?;
    Ok(verdict)
}
