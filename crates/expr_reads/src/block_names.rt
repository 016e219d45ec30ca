ghost use Rattle.std.specs.Prelude.{◌≡◌, ◌++◌, OnOk};
ghost use Rattle.std.specs.List.{flat_map};
ghost use Rattle.expr_reads.specs.Names.{named, named_block, named_optional, named_stmt, named_stmt_kind, named_target, named_value};

use crate::Named;
use crate::expr_names::{add_steps, named_in_expr};
use slint_base::Memory;
use sqlite_items::Items;
use typed_tree::{StmtKind, Target, TypedBlock, TypedExpr, TypedStmt, TypedValue};

/// Adds what is named by what is bound or run, in the order of the text.
///
/// # Errors
///
/// Memory is short; then what was added is not told.
pub fn named_in_value(value: &TypedValue, found: &mut Items<Named>) -> Result<(), Memory>
    ensures { OnOk result (found.new ≡ found.old ++ named_value value.now) }
{
    match value {
        TypedValue::Expr(expr) => named_in_expr(expr, found),
        TypedValue::Block(block) => named_in_block(block, found),
    }
}

/// Adds what an expression that may be there names.
pub(crate) fn add_optional(expr: &Option<TypedExpr>, found: &mut Items<Named>) -> Result<(), Memory>
    ensures { OnOk result (found.new ≡ found.old ++ named_optional expr.now) }
{
    match expr {
        None => Ok(()),
        Some(expr) => named_in_expr(expr, found),
    }
}

/// Adds what an assignment names: its target's indices and its value. What is assigned is written, not read.
fn add_assignment(
    target: &Target,
    value: &TypedExpr,
    found: &mut Items<Named>,
) -> Result<(), Memory>
    ensures { OnOk result (found.new ≡ found.old ++ (named_target target.now ++ named value.now)) }
{
    add_steps(target.steps.as_slice(), found)?;
    named_in_expr(value, found)
}

/// Adds what a block names, in the order of the text. Statements that may not run are looked at too; of an assignment the indices and the
/// value.
///
/// # Errors
///
/// Memory is short; then what was added is not told.
#[cycle(block_names)]
pub fn named_in_block(block: &TypedBlock, found: &mut Items<Named>) -> Result<(), Memory>
    ensures { OnOk result (found.new ≡ found.old ++ named_block block.now) }
{
    add_stmts(block.stmts.as_slice(), found)
}

/// Adds what statements name.
#[cycle(block_names)]
fn add_stmts(stmts: &[TypedStmt], found: &mut Items<Named>) -> Result<(), Memory>
    ensures { OnOk result (found.new ≡ found.old ++ flat_map named_stmt stmts.now) }
{
    for stmt in stmts {
        add_stmt(&stmt.kind, found)?;
    }
    Ok(())
}

/// Adds what a statement names.
#[cycle(block_names)]
fn add_stmt(kind: &StmtKind, found: &mut Items<Named>) -> Result<(), Memory>
    ensures { OnOk result (found.new ≡ found.old ++ named_stmt_kind kind.now) }
{
    match kind {
        StmtKind::If(condition, yes, no) => {
            named_in_expr(condition, found)?;
            named_in_block(yes, found)?;
            named_in_block(no, found)
        }
        StmtKind::Return(value) => add_optional(value, found),
        StmtKind::Empty => Ok(()),
        StmtKind::Expr(expr) => named_in_expr(expr, found),
        StmtKind::Assign(target, value) => add_assignment(target, value, found),
    }
}
