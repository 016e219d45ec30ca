ghost use Rattle.std.specs.Prelude.{◌≡◌, ◌≤◌, IfOk, length, reverse, take};
ghost use Rattle.std.specs.Option.{option_copied};
ghost use Rattle.syntax_tree.specs.declared.expressions.Expr.{out-Expr};
ghost use Rattle.expr_rules.specs.Own.{chained_own, field_name_own, form_own};

use crate::Judged;
use crate::collections::{own_array, own_struct};
use crate::literals::{own_colour, own_image, own_number, own_text};
use crate::names::own_name;
use crate::operators::{binary_op, joined, own_choice, own_operation, own_prefix};
use crate::parts::{own_only, own_paren};
use crate::templates::{own_template, own_translated};
use name_index::NameIndex;
use slint_base::{Fault, Memory, Rule};
use sqlite_items::Items;
use std::alloc::Global;
use syntax_tree::{Expr, Ident, Operand};
use typed_tree::Scope;
use value_types::Ty;

/// What an expression comes to before it is fitted into its place, once its parts have come to these things.
pub fn own_form(
    alloc: Global,
    scope: &Scope<'_>,
    place: Option<&Ty>,
    e: &Expr,
    parts: Items<Judged>,
) -> Result<Result<Judged, Fault>, Memory>
    ensures { IfOk result (λ judged. judged ≡ form_own scope.now (option_copied place.entry) (out-Expr e.now) parts) }
{
    match e {
        Expr::Number(number, span) => own_number(alloc, *number, *span),
        Expr::Colour(color, span) => own_colour(alloc, *color, *span),
        Expr::Text(text, span) => own_text(alloc, text, *span),
        Expr::Template(first, holes, span) => {
            own_template(alloc, first, holes.as_slice(), parts, *span)
        }
        Expr::Name(ident, _) => own_name(alloc, scope, place, ident),
        Expr::Paren(_, _) => own_paren(alloc, parts),
        Expr::Array(_, span) => own_array(alloc, place, *span, parts),
        Expr::Struct(fields, span) => own_struct(alloc, place, fields.as_slice(), parts, *span),
        Expr::ImageUrl(path, span) => own_image(alloc, &path.text, *span),
        Expr::Tr(_, text, _, span) => own_translated(alloc, &text.text, parts, *span),
        Expr::Postfix(_, _, _) | Expr::Chain(_, _, _) => Ok(Ok(own_only(parts))),
        Expr::Prefix(op, _, span) => own_prefix(alloc, *op, *span, parts),
        Expr::Choice(_, _, _, span) => own_choice(alloc, place, *span, parts),
    }
}

/// What an operand comes to with so many of the operands behind it, once the front before the last of them and that one have come to
/// something; the first operand alone comes to what it is.
pub fn own_chained(
    alloc: Global,
    e: &Expr,
    operands: &[Operand],
    count: usize,
    parts: Items<Judged>,
) -> Result<Result<Judged, Fault>, Memory>
    requires { count ≤ length operands.now }
    ensures { IfOk result (λ judged. judged ≡ chained_own e.now (reverse (take count operands.now)) parts) }
{
    if count == 0 {
        return Ok(Ok(own_only(parts)));
    }
    let operand = &operands[count - 1];
    let span = joined(e.span(), operand.right.span());
    own_operation(alloc, count > 1, binary_op(operand.op), span, parts)
}

/// A field's name is new among those before it.
pub fn own_field_name(ident: &Ident, before: &NameIndex) -> Result<Judged, Fault>
    ensures { result ≡ field_name_own ident.now before.now }
{
    if before.contains(&ident.name) {
        return Err(Fault {
            rule: Rule::NameTwice,
            span: ident.span,
        });
    }
    Ok(Judged::Fresh)
}
