ghost use Rattle.std.specs.Prelude.{◌≡◌, ◌++◌, OnOk};
ghost use Rattle.std.specs.List.{flat_map};
ghost use Rattle.expr_reads.specs.Names.{named, named_field, named_hole, named_kind, named_operand, named_step};

use crate::Named;
use crate::names::{add, add_callee};
use slint_base::{Memory, Span};
use sqlite_items::Items;
use typed_tree::{ExprKind, StepKind, TypedExpr, TypedField, TypedHole, TypedOperand, TypedStep};

/// Adds what an expression names, in the order of the text: each property and row that it can read and each function and callback that
/// it can call, behind what the arguments or the index name. Branches that may not be taken are looked at too.
///
/// # Errors
///
/// Memory is short; then what was added is not told.
#[cycle(expr_names)]
pub fn named_in_expr(expr: &TypedExpr, found: &mut Items<Named>) -> Result<(), Memory>
    ensures { OnOk result (found.new ≡ found.old ++ named expr.now) }
{
    add_kind(expr.kind.get(), expr.span, found)
}

/// Adds what is named by what an expression does.
#[cycle(expr_names)]
fn add_kind(kind: &ExprKind, span: Span, found: &mut Items<Named>) -> Result<(), Memory>
    ensures { OnOk result (found.new ≡ found.old ++ named_kind kind.now span) }
{
    match kind {
        ExprKind::Literal(_) => Ok(()),
        ExprKind::Parameter(_) => Ok(()),
        ExprKind::Property(member) => add(found, Named::Property(*member)),
        ExprKind::PropertyLength(member) => add(found, Named::Property(*member)),
        ExprKind::PropertyItem(member, at) => {
            named_in_expr(at, found)?;
            add(found, Named::Property(*member))
        }
        ExprKind::RowItem(element) => add(found, Named::RowItem(*element)),
        ExprKind::RowNumber(element) => add(found, Named::RowNumber(*element)),
        ExprKind::Part(base, steps) => {
            named_in_expr(base, found)?;
            add_steps(steps.as_slice(), found)
        }
        ExprKind::Ask(_, of) => named_in_expr(of, found),
        ExprKind::Struct(fields) => add_fields(fields.as_slice(), found),
        ExprKind::Array(items) => add_exprs(items.as_slice(), found),
        ExprKind::Convert(of) => named_in_expr(of, found),
        ExprKind::Prefix(_, of) => named_in_expr(of, found),
        ExprKind::Chain(first, operands) => {
            named_in_expr(first, found)?;
            add_operands(operands.as_slice(), found)
        }
        ExprKind::Choice(condition, yes, no) => {
            named_in_expr(condition, found)?;
            named_in_expr(yes, found)?;
            named_in_expr(no, found)
        }
        ExprKind::Math(_, values) => add_exprs(values.as_slice(), found),
        ExprKind::Template(_, holes) => add_holes(holes.as_slice(), found),
        ExprKind::Call(callee, values) => {
            add_exprs(values.as_slice(), found)?;
            add_callee(found, *callee, span)
        }
    }
}

/// Adds what expressions name.
#[cycle(expr_names)]
fn add_exprs(exprs: &[TypedExpr], found: &mut Items<Named>) -> Result<(), Memory>
    ensures { OnOk result (found.new ≡ found.old ++ flat_map named exprs.now) }
{
    for expr in exprs {
        named_in_expr(expr, found)?;
    }
    Ok(())
}

/// Adds what operands name.
#[cycle(expr_names)]
fn add_operands(operands: &[TypedOperand], found: &mut Items<Named>) -> Result<(), Memory>
    ensures { OnOk result (found.new ≡ found.old ++ flat_map named_operand operands.now) }
{
    for operand in operands {
        named_in_expr(&operand.right, found)?;
    }
    Ok(())
}

/// Adds what a step into a value names.
#[cycle(expr_names)]
fn add_step(step: &TypedStep, found: &mut Items<Named>) -> Result<(), Memory>
    ensures { OnOk result (found.new ≡ found.old ++ named_step step.now) }
{
    match &step.kind {
        StepKind::ToField(_) => Ok(()),
        StepKind::ToItem(at) => named_in_expr(at, found),
    }
}

/// Adds what steps into a value name.
#[cycle(expr_names)]
pub(crate) fn add_steps(steps: &[TypedStep], found: &mut Items<Named>) -> Result<(), Memory>
    ensures { OnOk result (found.new ≡ found.old ++ flat_map named_step steps.now) }
{
    for step in steps {
        add_step(step, found)?;
    }
    Ok(())
}

/// Adds what fields name.
#[cycle(expr_names)]
fn add_fields(fields: &[TypedField], found: &mut Items<Named>) -> Result<(), Memory>
    ensures { OnOk result (found.new ≡ found.old ++ flat_map named_field fields.now) }
{
    for field in fields {
        named_in_expr(&field.value, found)?;
    }
    Ok(())
}

/// Adds what holes name.
#[cycle(expr_names)]
fn add_holes(holes: &[TypedHole], found: &mut Items<Named>) -> Result<(), Memory>
    ensures { OnOk result (found.new ≡ found.old ++ flat_map named_hole holes.now) }
{
    for hole in holes {
        named_in_expr(&hole.value, found)?;
    }
    Ok(())
}
