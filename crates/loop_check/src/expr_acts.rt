ghost use Rattle.std.specs.Prelude.{◌≡◌, ◌++◌, OnOk};
ghost use Rattle.std.specs.List.{flat_map};
ghost use Rattle.loop_check.specs.Acts.{acts_in_expr, acts_in_field, acts_in_hole, acts_in_kind, acts_in_operand, acts_in_step};

use crate::Act;
use crate::acts::call;
use slint_base::{Memory, Span};
use sqlite_items::Items;
use typed_tree::{ExprKind, StepKind, TypedExpr, TypedField, TypedHole, TypedOperand, TypedStep};

/// Adds the acts of an expression.
#[cycle(expr_acts)]
pub(crate) fn add_expr(acts: &mut Items<Act>, expr: &TypedExpr) -> Result<(), Memory>
    ensures { OnOk result (acts.new ≡ acts.old ++ acts_in_expr expr.now) }
{
    add_kind(acts, expr.kind.get(), expr.span)
}

/// Adds the acts of what an expression does.
#[cycle(expr_acts)]
fn add_kind(acts: &mut Items<Act>, kind: &ExprKind, span: Span) -> Result<(), Memory>
    ensures { OnOk result (acts.new ≡ acts.old ++ acts_in_kind kind.now span) }
{
    match kind {
        ExprKind::Literal(_) => Ok(()),
        ExprKind::Parameter(_) => Ok(()),
        ExprKind::Property(_) => Ok(()),
        ExprKind::PropertyLength(_) => Ok(()),
        ExprKind::PropertyItem(_, at) => add_expr(acts, at),
        ExprKind::RowItem(_) => Ok(()),
        ExprKind::RowNumber(_) => Ok(()),
        ExprKind::Part(base, steps) => {
            add_expr(acts, base)?;
            add_steps(acts, steps.as_slice())
        }
        ExprKind::Ask(_, of) => add_expr(acts, of),
        ExprKind::Struct(fields) => add_fields(acts, fields.as_slice()),
        ExprKind::Array(items) => add_exprs(acts, items.as_slice()),
        ExprKind::Convert(of) => add_expr(acts, of),
        ExprKind::Prefix(_, of) => add_expr(acts, of),
        ExprKind::Chain(first, operands) => {
            add_expr(acts, first)?;
            add_operands(acts, operands.as_slice())
        }
        ExprKind::Choice(condition, yes, no) => {
            add_expr(acts, condition)?;
            add_expr(acts, yes)?;
            add_expr(acts, no)
        }
        ExprKind::Math(_, values) => add_exprs(acts, values.as_slice()),
        ExprKind::Template(_, holes) => add_holes(acts, holes.as_slice()),
        ExprKind::Call(callee, values) => {
            acts.push(call(*callee, span))?;
            add_exprs(acts, values.as_slice())
        }
    }
}

/// Adds the acts of expressions.
#[cycle(expr_acts)]
fn add_exprs(acts: &mut Items<Act>, exprs: &[TypedExpr]) -> Result<(), Memory>
    ensures { OnOk result (acts.new ≡ acts.old ++ flat_map acts_in_expr exprs.now) }
{
    for expr in exprs {
        add_expr(acts, expr)?;
    }
    Ok(())
}

/// Adds the acts of operands.
#[cycle(expr_acts)]
fn add_operands(acts: &mut Items<Act>, operands: &[TypedOperand]) -> Result<(), Memory>
    ensures { OnOk result (acts.new ≡ acts.old ++ flat_map acts_in_operand operands.now) }
{
    for operand in operands {
        add_expr(acts, &operand.right)?;
    }
    Ok(())
}

/// Adds the acts of a step into a value.
#[cycle(expr_acts)]
fn add_step(acts: &mut Items<Act>, step: &TypedStep) -> Result<(), Memory>
    ensures { OnOk result (acts.new ≡ acts.old ++ acts_in_step step.now) }
{
    match &step.kind {
        StepKind::ToField(_) => Ok(()),
        StepKind::ToItem(at) => add_expr(acts, at),
    }
}

/// Adds the acts of steps into a value.
#[cycle(expr_acts)]
pub(crate) fn add_steps(acts: &mut Items<Act>, steps: &[TypedStep]) -> Result<(), Memory>
    ensures { OnOk result (acts.new ≡ acts.old ++ flat_map acts_in_step steps.now) }
{
    for step in steps {
        add_step(acts, step)?;
    }
    Ok(())
}

/// Adds the acts of fields.
#[cycle(expr_acts)]
fn add_fields(acts: &mut Items<Act>, fields: &[TypedField]) -> Result<(), Memory>
    ensures { OnOk result (acts.new ≡ acts.old ++ flat_map acts_in_field fields.now) }
{
    for field in fields {
        add_expr(acts, &field.value)?;
    }
    Ok(())
}

/// Adds the acts of holes.
#[cycle(expr_acts)]
fn add_holes(acts: &mut Items<Act>, holes: &[TypedHole]) -> Result<(), Memory>
    ensures { OnOk result (acts.new ≡ acts.old ++ flat_map acts_in_hole holes.now) }
{
    for hole in holes {
        add_expr(acts, &hole.value)?;
    }
    Ok(())
}
