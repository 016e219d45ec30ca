ghost use Rattle.std.specs.Prelude.{◌≡◌, IfOk, Ok};
ghost use Rattle.value_types.specs.declared.types.Ty.TheVariants as ty_of;
ghost use Rattle.value_types.specs.declared.values.Value.TheVariants as value_variants;
ghost use Rattle.expr_rules.specs.Denotations.{value_of};
ghost use Rattle.expr_rules.specs.Literals.{image, literal, number, text};

use crate::Judged;
use crate::making::made;
use slint_base::{Fault, Memory, Span, Text};
use slint_literals::Number;
use std::alloc::Global;
use typed_tree::ExprKind;
use value_types::{Ty, Value};

/// A literal of a type.
fn literal(alloc: Global, value: Value, ty: Ty, span: Span) -> Result<Result<Judged, Fault>, Memory>
    ensures { IfOk result (λ judged. judged ≡ Ok (value_of (literal value ty span))) }
{
    made(alloc, ExprKind::Literal(value), ty, span)
}

/// A number: it has the type of its unit, and zeros alone have a type of their own.
pub(crate) fn own_number(
    alloc: Global,
    written: Number,
    span: Span,
) -> Result<Result<Judged, Fault>, Memory>
    ensures { IfOk result (λ judged. judged ≡ Ok (value_of (number written span))) }
{
    match written {
        Number::Zero => literal(alloc, Value::Int(0), Ty::Zero, span),
        Number::Int(n) => literal(alloc, Value::Int(n), Ty::Int, span),
        Number::Float(n) => literal(alloc, Value::Float(n), Ty::Float, span),
        Number::Percent(n) => literal(alloc, Value::Percent(n), Ty::Percent, span),
        Number::Length(n) => literal(alloc, Value::Length(n), Ty::Length, span),
        Number::Duration(n) => literal(alloc, Value::Duration(n), Ty::Duration, span),
        Number::Angle(n) => literal(alloc, Value::Angle(n), Ty::Angle, span),
    }
}

/// A colour.
pub(crate) fn own_colour(
    alloc: Global,
    color: u32,
    span: Span,
) -> Result<Result<Judged, Fault>, Memory>
    ensures { IfOk result (λ judged. judged ≡ Ok (value_of (literal (value_variants.Color color) ty_of.Color span))) }
{
    literal(alloc, Value::Color(color), Ty::Color, span)
}

/// A string without holes, cut to the length of a text.
pub(crate) fn own_text(
    alloc: Global,
    string: &Text,
    span: Span,
) -> Result<Result<Judged, Fault>, Memory>
    ensures { IfOk result (λ judged. judged ≡ Ok (value_of (text string.now span))) }
{
    let cut = Text::cut(alloc, string.as_str())?;
    literal(alloc, Value::Str(cut), Ty::Str, span)
}

/// The image at a path, which is cut to the length of a text.
pub(crate) fn own_image(
    alloc: Global,
    path: &Text,
    span: Span,
) -> Result<Result<Judged, Fault>, Memory>
    ensures { IfOk result (λ judged. judged ≡ Ok (value_of (image path.now span))) }
{
    let cut = Text::cut(alloc, path.as_str())?;
    literal(alloc, Value::Image(cut), Ty::Image, span)
}
