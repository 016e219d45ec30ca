ghost use Rattle.std.specs.Prelude.{◌≡◌, IfOk};

use crate::{
    ExprKind, StepKind, Target, TypedExpr, TypedField, TypedHole, TypedOperand, TypedStep,
};
use slint_base::Memory;
use sqlite_items::{Boxed, Items};
use std::alloc::Global;

impl TypedExpr {
    /// The same expression once more.
    #[cycle(copy_typed)]
    pub fn copy(&self, alloc: Global) -> Result<TypedExpr, Memory>
        ensures { IfOk result (λ e. e ≡ self.now) }
    {
        let ty = self.ty.copy(alloc)?;
        let kind = copy_kind(alloc, self.kind.get())?;
        Ok(TypedExpr {
            kind: Boxed::new(alloc, kind)?,
            ty,
            span: self.span,
        })
    }
}

/// The same kind of expression once more.
#[cycle(copy_typed)]
fn copy_kind(alloc: Global, kind: &ExprKind) -> Result<ExprKind, Memory>
    ensures { IfOk result (λ made. made ≡ kind.now) }
{
    Ok(match kind {
        ExprKind::Literal(value) => ExprKind::Literal(value.copy(alloc)?),
        ExprKind::Parameter(number) => ExprKind::Parameter(*number),
        ExprKind::Property(member) => ExprKind::Property(*member),
        ExprKind::PropertyLength(member) => ExprKind::PropertyLength(*member),
        ExprKind::PropertyItem(member, at) => ExprKind::PropertyItem(*member, at.copy(alloc)?),
        ExprKind::RowItem(element) => ExprKind::RowItem(*element),
        ExprKind::RowNumber(element) => ExprKind::RowNumber(*element),
        ExprKind::Part(base, steps) => {
            ExprKind::Part(base.copy(alloc)?, copy_steps(alloc, steps)?)
        }
        ExprKind::Ask(member, of) => ExprKind::Ask(*member, of.copy(alloc)?),
        ExprKind::Struct(fields) => ExprKind::Struct(copy_fields(alloc, fields)?),
        ExprKind::Array(items) => ExprKind::Array(copy_exprs(alloc, items)?),
        ExprKind::Convert(of) => ExprKind::Convert(of.copy(alloc)?),
        ExprKind::Prefix(op, of) => ExprKind::Prefix(*op, of.copy(alloc)?),
        ExprKind::Chain(first, operands) => {
            ExprKind::Chain(first.copy(alloc)?, copy_operands(alloc, operands)?)
        }
        ExprKind::Choice(condition, yes, no) => {
            ExprKind::Choice(condition.copy(alloc)?, yes.copy(alloc)?, no.copy(alloc)?)
        }
        ExprKind::Math(function, values) => {
            ExprKind::Math(*function, copy_exprs(alloc, values)?)
        }
        ExprKind::Template(text, holes) => {
            ExprKind::Template(text.copy()?, copy_holes(alloc, holes)?)
        }
        ExprKind::Call(callee, values) => ExprKind::Call(*callee, copy_exprs(alloc, values)?),
    })
}

/// The same expressions once more.
#[cycle(copy_typed)]
fn copy_exprs(alloc: Global, exprs: &Items<TypedExpr>) -> Result<Items<TypedExpr>, Memory>
    ensures { IfOk result (λ made. made ≡ exprs.now) }
{
    let mut made = Items::new(alloc);
    for expr in exprs.as_slice() {
        made.push(expr.copy(alloc)?)?;
    }
    Ok(made)
}

/// The same operands once more.
#[cycle(copy_typed)]
fn copy_operands(
    alloc: Global,
    operands: &Items<TypedOperand>,
) -> Result<Items<TypedOperand>, Memory>
    ensures { IfOk result (λ made. made ≡ operands.now) }
{
    let mut made = Items::new(alloc);
    for operand in operands.as_slice() {
        let left = operand.left.copy(alloc)?;
        let right = operand.right.copy(alloc)?;
        let ty = operand.ty.copy(alloc)?;
        made.push(TypedOperand {
            op: operand.op,
            left,
            right,
            ty,
        })?;
    }
    Ok(made)
}

/// The same steps into a value once more.
#[cycle(copy_typed)]
pub fn copy_steps(alloc: Global, steps: &Items<TypedStep>) -> Result<Items<TypedStep>, Memory>
    ensures { IfOk result (λ made. made ≡ steps.now) }
{
    let mut made = Items::new(alloc);
    for step in steps.as_slice() {
        let ty = step.ty.copy(alloc)?;
        let kind = match &step.kind {
            StepKind::ToField(name) => StepKind::ToField(name.copy()?),
            StepKind::ToItem(at) => StepKind::ToItem(at.copy(alloc)?),
        };
        made.push(TypedStep { kind, ty })?;
    }
    Ok(made)
}

/// The same fields once more.
#[cycle(copy_typed)]
fn copy_fields(alloc: Global, fields: &Items<TypedField>) -> Result<Items<TypedField>, Memory>
    ensures { IfOk result (λ made. made ≡ fields.now) }
{
    let mut made = Items::new(alloc);
    for field in fields.as_slice() {
        let name = field.name.copy()?;
        let value = field.value.copy(alloc)?;
        made.push(TypedField { name, value })?;
    }
    Ok(made)
}

/// The same holes once more.
#[cycle(copy_typed)]
fn copy_holes(alloc: Global, holes: &Items<TypedHole>) -> Result<Items<TypedHole>, Memory>
    ensures { IfOk result (λ made. made ≡ holes.now) }
{
    let mut made = Items::new(alloc);
    for hole in holes.as_slice() {
        let behind = hole.behind.copy()?;
        let value = hole.value.copy(alloc)?;
        made.push(TypedHole { value, behind })?;
    }
    Ok(made)
}

impl Target {
    /// The same target once more.
    pub fn copy(&self, alloc: Global) -> Result<Target, Memory>
        ensures { IfOk result (λ target. target ≡ self.now) }
    {
        let steps = copy_steps(alloc, &self.steps)?;
        Ok(Target {
            base: self.base,
            steps,
        })
    }
}
