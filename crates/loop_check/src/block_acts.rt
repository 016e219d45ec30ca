ghost use Rattle.std.specs.Prelude.{◌≡◌, ◌++◌, ◌∷◌, IfOk, OnOk};
ghost use Rattle.std.specs.List.{flat_map};
ghost use Rattle.loop_check.specs.Acts.{acts_in_block, acts_in_expr, acts_in_optional, acts_in_stmt, acts_in_stmt_kind, acts_in_target, acts_in_value, assignment};

use crate::Act;
use crate::acts::assignment;
use crate::expr_acts::{add_expr, add_steps};
use slint_base::{Memory, Span};
use sqlite_items::Items;
use std::alloc::Global;
use typed_tree::{StmtKind, Target, TypedBlock, TypedExpr, TypedStmt, TypedValue};

/// The acts of what is bound or run.
pub(crate) fn value_acts(alloc: Global, value: &TypedValue) -> Result<Items<Act>, Memory>
    ensures { IfOk result (λ acts. acts ≡ acts_in_value value.now) }
{
    match value {
        TypedValue::Expr(expr) => expr_acts(alloc, expr),
        TypedValue::Block(block) => block_acts(alloc, block),
    }
}

/// The acts of an expression.
pub(crate) fn expr_acts(alloc: Global, expr: &TypedExpr) -> Result<Items<Act>, Memory>
    ensures { IfOk result (λ acts. acts ≡ acts_in_expr expr.now) }
{
    let mut acts = Items::new(alloc);
    add_expr(&mut acts, expr)?;
    Ok(acts)
}

/// The acts of a block.
pub(crate) fn block_acts(alloc: Global, block: &TypedBlock) -> Result<Items<Act>, Memory>
    ensures { IfOk result (λ acts. acts ≡ acts_in_block block.now) }
{
    let mut acts = Items::new(alloc);
    add_block(&mut acts, block)?;
    Ok(acts)
}

/// Adds the acts of an expression that may be there.
fn add_optional(acts: &mut Items<Act>, expr: &Option<TypedExpr>) -> Result<(), Memory>
    ensures { OnOk result (acts.new ≡ acts.old ++ acts_in_optional expr.now) }
{
    match expr {
        None => Ok(()),
        Some(expr) => add_expr(acts, expr),
    }
}

/// Adds an assignment, with the acts of what is assigned and of the value.
fn add_assignment(
    acts: &mut Items<Act>,
    target: &Target,
    value: &TypedExpr,
    span: Span,
) -> Result<(), Memory>
    ensures { OnOk result (acts.new ≡ acts.old ++ (assignment span ∷ (acts_in_target target.now ++ acts_in_expr value.now))) }
{
    acts.push(assignment(span))?;
    add_steps(acts, target.steps.as_slice())?;
    add_expr(acts, value)
}

/// Adds the acts of a block.
#[cycle(block_acts)]
fn add_block(acts: &mut Items<Act>, block: &TypedBlock) -> Result<(), Memory>
    ensures { OnOk result (acts.new ≡ acts.old ++ acts_in_block block.now) }
{
    add_stmts(acts, block.stmts.as_slice())
}

/// Adds the acts of statements.
#[cycle(block_acts)]
fn add_stmts(acts: &mut Items<Act>, stmts: &[TypedStmt]) -> Result<(), Memory>
    ensures { OnOk result (acts.new ≡ acts.old ++ flat_map acts_in_stmt stmts.now) }
{
    for stmt in stmts {
        add_stmt(acts, &stmt.kind, stmt.span)?;
    }
    Ok(())
}

/// Adds the acts of a statement.
#[cycle(block_acts)]
fn add_stmt(acts: &mut Items<Act>, kind: &StmtKind, span: Span) -> Result<(), Memory>
    ensures { OnOk result (acts.new ≡ acts.old ++ acts_in_stmt_kind kind.now span) }
{
    match kind {
        StmtKind::If(condition, yes, no) => {
            add_expr(acts, condition)?;
            add_block(acts, yes)?;
            add_block(acts, no)
        }
        StmtKind::Return(value) => add_optional(acts, value),
        StmtKind::Empty => Ok(()),
        StmtKind::Expr(expr) => add_expr(acts, expr),
        StmtKind::Assign(target, value) => add_assignment(acts, target, value, span),
    }
}
