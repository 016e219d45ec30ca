ghost use Rattle.std.specs.Prelude.{◌≡◌, ◌∷◌, IfOk, Ok, reverse};
ghost use Rattle.value_types.specs.declared.types.Ty.TheVariants as ty_of;
ghost use Rattle.typed_tree.specs.declared.expressions.ExprKind.TheVariants as exprs;
ghost use Rattle.typed_tree.specs.Typed.{typed_hole};
ghost use Rattle.expr_rules.specs.Denotations.{given, made};
ghost use Rattle.expr_rules.specs.Literals.{filled, pieces_of, typed_holes};
ghost use Rattle.expr_rules.specs.Own.{translated};

use crate::Judged;
use crate::fitting::given;
use crate::making::made;
use crate::parts::reversed;
use slint_base::{Fault, Memory, Rule, Span, Text};
use sqlite_items::Items;
use std::alloc::Global;
use syntax_tree::Hole;
use typed_tree::{ExprKind, TypedHole};
use value_types::Ty;

/// A string with holes.
fn template(
    alloc: Global,
    first: Text,
    holes: Items<TypedHole>,
    span: Span,
) -> Result<Result<Judged, Fault>, Memory>
    ensures { IfOk result (λ judged. judged ≡ Ok (made (exprs.Template first holes) ty_of.Str span)) }
{
    made(alloc, ExprKind::Template(first, holes), Ty::Str, span)
}

/// A hole, by what its expression came to, with the text behind it.
fn typed_hole(alloc: Global, part: Judged, behind: Text) -> Result<TypedHole, Memory>
    ensures { IfOk result (λ hole. hole ≡ typed_hole (given part) behind) }
{
    let value = given(alloc, part)?;
    Ok(TypedHole { value, behind })
}

/// A hole, by what its expression came to, and the text behind it.
fn hole_before(alloc: Global, part: Judged, behind: &Text) -> Result<TypedHole, Memory>
    ensures { IfOk result (λ hole. hole ≡ typed_hole (given part) behind.now) }
{
    let behind = behind.copy()?;
    typed_hole(alloc, part, behind)
}

/// The holes of a text, with what their expressions came to.
fn typed_holes(
    alloc: Global,
    holes: &[Hole],
    parts: Items<Judged>,
) -> Result<Items<TypedHole>, Memory>
    ensures { IfOk result (λ made. made ≡ typed_holes holes.now parts) }
{
    let mut left = reversed(alloc, parts)?;
    let mut made = Items::new(alloc);
    for hole in holes {
        let Some(part) = left.pop() else {
            return Ok(made);
        };
        made.push(hole_before(alloc, part, &hole.behind)?)?;
    }
    Ok(made)
}

/// A string with holes, by its text up to the first one, its holes, and what their expressions came to.
pub(crate) fn own_template(
    alloc: Global,
    first: &Text,
    holes: &[Hole],
    parts: Items<Judged>,
    span: Span,
) -> Result<Result<Judged, Fault>, Memory>
    ensures { IfOk result (λ judged. judged ≡ Ok (made (exprs.Template first.now (typed_holes holes.now parts)) ty_of.Str span)) }
{
    let holes = typed_holes(alloc, holes, parts)?;
    template(alloc, first.copy()?, holes, span)
}

/// The pieces of a translated text: what stands before the first `{}`, between two, and behind the last.
fn pieces_of(alloc: Global, text: &str) -> Result<Items<Text>, Memory>
    ensures { IfOk result (λ pieces. pieces ≡ pieces_of text.now) }
{
    let mut pieces = Items::new(alloc);
    let mut rest = text;
    while let Some((piece, behind)) = rest.split_once("{}") {
        pieces.push(Text::from_str(alloc, piece)?)?;
        rest = behind;
    }
    pieces.push(Text::from_str(alloc, rest)?)?;
    Ok(pieces)
}

/// The pieces behind the first one, last first, each behind its argument.
fn filled(
    alloc: Global,
    mut pieces: Items<Text>,
    parts: Items<Judged>,
) -> Result<Items<TypedHole>, Memory>
    ensures { IfOk result (λ made. made ≡ filled (reverse pieces) parts) }
{
    let mut left = reversed(alloc, parts)?;
    let mut made = Items::new(alloc);
    while let Some(piece) = pieces.pop() {
        let Some(part) = left.pop() else {
            return Ok(made);
        };
        made.push(typed_hole(alloc, part, piece)?)?;
    }
    Ok(made)
}

/// A translated text by its first piece and the others, last first.
fn translation(
    alloc: Global,
    first: Text,
    pieces: Items<Text>,
    parts: Items<Judged>,
    span: Span,
) -> Result<Result<Judged, Fault>, Memory>
    ensures { IfOk result (λ judged. judged ≡ translated span parts (first ∷ reverse pieces)) }
{
    if parts.len() != pieces.len() {
        return Ok(Err(Fault {
            rule: Rule::ArgCount,
            span,
        }));
    }
    let holes = filled(alloc, pieces, parts)?;
    template(alloc, first, holes, span)
}

/// A translated text, with as many `{}` as it has arguments.
pub(crate) fn own_translated(
    alloc: Global,
    text: &Text,
    parts: Items<Judged>,
    span: Span,
) -> Result<Result<Judged, Fault>, Memory>
    ensures { IfOk result (λ judged. judged ≡ translated span parts (pieces_of text.now)) }
{
    let pieces = pieces_of(alloc, text.as_str())?;
    let mut left = reversed(alloc, pieces)?;
    match left.pop() {
        Some(first) => translation(alloc, first, left, parts, span),
        None => Ok(Err(Fault {
            rule: Rule::ArgCount,
            span,
        })),
    }
}
