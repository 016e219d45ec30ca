ghost use Rattle.std.specs.Prelude.{◌∷◌, [], IfOk, List, reverse};
ghost use Rattle.std.specs.Option.{option_copied};
ghost use Rattle.syntax_tree.specs.declared.expressions.Expr.{Expr as ExprValue, out-Expr};
ghost use Rattle.syntax_tree.specs.declared.expressions.Suffix.{Suffix as SuffixValue, out-Suffix};
ghost use Rattle.expr_rules.specs.Denotations.{denoted};
ghost use Rattle.expr_rules.specs.Targets.{argument_places};
ghost use Rattle.expr_types.specs.Nodes.{At, Denotes, Suffixed, Chained, argument_nodes, at_all, field_nodes, form_parts, hole_nodes, suffix_parts};
ghost use Rattle.expr_types.specs.Verdicts.{Adds, Seen, SeenLater, Tells};

use crate::fronts::{
    chained_front, first_come, formed, placed, see_name, see_none, suffixed_front,
};
use crate::places::{field_place, item_place};
use crate::verdicts::{Seen, Verdict, add, only};
use expr_rules::{Judged, argument_places};
use name_index::NameIndex;
use slint_base::Memory;
use sqlite_items::{Items, at};
use std::alloc::Global;
use syntax_tree::{Expr, FieldValue, Hole, Operand, Suffix};
use typed_tree::Scope;
use value_types::Ty;

/// An expression at a place, as a value that has the type wanted there.
#[cycle(judging)]
pub(crate) fn judge(
    alloc: Global,
    scope: &Scope<'_>,
    place: Option<&Ty>,
    e: &Expr,
) -> Result<Verdict, Memory>
    ensures { IfOk result (λ verdict. Tells scope.now (At (option_copied place.entry) e.now) verdict) }
{
    let part = denote(alloc, scope, place, e)?;
    let verdict = placed(alloc, place, e, part)?;
    Ok(verdict)
}

/// What an expression stands for, before it is fitted into its place.
#[cycle(judging)]
pub(crate) fn denote(
    alloc: Global,
    scope: &Scope<'_>,
    place: Option<&Ty>,
    e: &Expr,
) -> Result<Verdict, Memory>
    ensures { IfOk result (λ verdict. Tells scope.now (Denotes (option_copied place.entry) e.now) verdict) }
{
    let parts = parts_of(alloc, scope, place, e)?;
    let verdict = formed(alloc, scope, place, e, parts)?;
    Ok(verdict)
}

/// The parts of an expression.
#[cycle(judging)]
fn parts_of(alloc: Global, scope: &Scope<'_>, place: Option<&Ty>, e: &Expr) -> Result<Seen, Memory>
    ensures { IfOk result (λ parts. Seen scope.now (form_parts (option_copied place.entry) (out-Expr e.now)) parts) }
{
    match e {
        Expr::Number(..) => see_none(alloc, scope),
        Expr::Colour(..) => see_none(alloc, scope),
        Expr::Text(..) => see_none(alloc, scope),
        Expr::Name(..) => see_none(alloc, scope),
        Expr::ImageUrl(..) => see_none(alloc, scope),
        Expr::Template(_, holes, _) => see_holes(alloc, scope, holes.as_slice()),
        Expr::Paren(e, _) => see_inside(alloc, scope, place, e.get()),
        Expr::Array(es, _) => see_each(alloc, scope, item_place(place), es.as_slice()),
        Expr::Struct(fields, _) => see_fields(alloc, scope, place, fields.as_slice()),
        Expr::Tr(_, _, es, _) => see_each(alloc, scope, Some(&Ty::Str), es.as_slice()),
        Expr::Postfix(e, ss, _) => see_suffixed(alloc, scope, ss.as_slice(), e.get()),
        Expr::Prefix(_, e, _) => see_alone(alloc, scope, None, e.get()),
        Expr::Chain(e, os, _) => see_chained(alloc, scope, os.as_slice(), e.get()),
        Expr::Choice(c, a, b, _) => see_choice(alloc, scope, place, c.get(), a.get(), b.get()),
    }
}

/// One more expression behind what is told of others.
#[cycle(judging)]
pub(crate) fn see(
    alloc: Global,
    scope: &Scope<'_>,
    seen: Seen,
    place: Option<&Ty>,
    e: &Expr,
) -> Result<Seen, Memory>
    ensures { IfOk result (λ all. Adds scope.now (At (option_copied place.entry) e.now ∷ []) seen all) }
{
    let verdict = judge(alloc, scope, place, e)?;
    let all = add(seen, verdict)?;
    Ok(all)
}

/// An expression alone.
#[cycle(judging)]
pub(crate) fn see_alone(
    alloc: Global,
    scope: &Scope<'_>,
    place: Option<&Ty>,
    e: &Expr,
) -> Result<Seen, Memory>
    ensures { IfOk result (λ seen. Seen scope.now (At (option_copied place.entry) e.now ∷ []) seen) }
{
    let verdict = judge(alloc, scope, place, e)?;
    let seen = only(alloc, verdict)?;
    Ok(seen)
}

/// What stands in parentheses.
#[cycle(judging)]
fn see_inside(
    alloc: Global,
    scope: &Scope<'_>,
    place: Option<&Ty>,
    e: &Expr,
) -> Result<Seen, Memory>
    ensures { IfOk result (λ seen. Seen scope.now (Denotes (option_copied place.entry) e.now ∷ []) seen) }
{
    let verdict = denote(alloc, scope, place, e)?;
    let seen = only(alloc, verdict)?;
    Ok(seen)
}

/// Expressions that all stand at one place.
#[cycle(judging)]
fn see_each(
    alloc: Global,
    scope: &Scope<'_>,
    place: Option<&Ty>,
    es: &[Expr],
) -> Result<Seen, Memory>
    ensures { IfOk result (λ seen. Seen scope.now (at_all (option_copied place.entry) es.now) seen) }
{
    let mut seen = Ok(Items::new(alloc));
    for e in es {
        seen = see(alloc, scope, seen, place, e)?;
    }
    Ok(seen)
}

/// The holes of a text.
#[cycle(judging)]
fn see_holes(alloc: Global, scope: &Scope<'_>, holes: &[Hole]) -> Result<Seen, Memory>
    ensures { IfOk result (λ seen. Seen scope.now (hole_nodes holes.now) seen) }
{
    let mut seen = Ok(Items::new(alloc));
    for hole in holes {
        seen = see(alloc, scope, seen, Some(&Ty::Str), &hole.value)?;
    }
    Ok(seen)
}

/// The fields of a struct: of each its name and its value.
#[cycle(judging)]
fn see_fields(
    alloc: Global,
    scope: &Scope<'_>,
    place: Option<&Ty>,
    fields: &[FieldValue],
) -> Result<Seen, Memory>
    ensures { IfOk result (λ seen. Seen scope.now (field_nodes (option_copied place.entry) [] fields.now) seen) }
{
    let mut before = NameIndex::new(alloc);
    let mut seen = Ok(Items::new(alloc));
    for field in fields {
        let named = see_name(seen, &field.name, &before)?;
        let wanted = field_place(place, &field.name.name);
        seen = see(alloc, scope, named, wanted, &field.value)?;
        before.push(&field.name.name)?;
    }
    Ok(seen)
}

/// The parts of a choice.
#[cycle(judging)]
fn see_choice(
    alloc: Global,
    scope: &Scope<'_>,
    place: Option<&Ty>,
    condition: &Expr,
    yes: &Expr,
    no: &Expr,
) -> Result<Seen, Memory>
    ensures { IfOk result (λ seen. Seen scope.now (At (Some Ty.Bool) condition.now ∷ At (option_copied place.entry) yes.now ∷ At (option_copied place.entry) no.now ∷ []) seen) }
{
    let before = see_alone(alloc, scope, Some(&Ty::Bool), condition)?;
    let first = see(alloc, scope, before, place, yes)?;
    let second = see(alloc, scope, first, place, no)?;
    Ok(second)
}

/// An expression with suffixes behind it, one after the other.
#[cycle(judging)]
fn see_suffixed(
    alloc: Global,
    scope: &Scope<'_>,
    suffixes: &[Suffix],
    first: &Expr,
) -> Result<Seen, Memory>
    ensures { IfOk result (λ seen. Seen scope.now (Suffixed first.now (reverse suffixes.now) ∷ []) seen) }
{
    let start = see_inside(alloc, scope, None, first)?;
    let mut front = suffixed_front(
        alloc,
        scope,
        first,
        suffixes,
        0,
        start,
        Ok(Items::new(alloc)),
    )?;
    for (at, suffix) in suffixes.iter().enumerate() {
        let parts = see_behind(alloc, scope, suffix, front)?;
        let later = see_arguments(alloc, scope, suffix, &parts)?;
        front = suffixed_front(alloc, scope, first, suffixes, at + 1, parts, later)?;
    }
    let seen = only(alloc, front)?;
    Ok(seen)
}

/// The parts of an expression with a suffix behind it: all before the suffix, and an index.
#[cycle(judging)]
fn see_behind(
    alloc: Global,
    scope: &Scope<'_>,
    suffix: &Suffix,
    front: Verdict,
) -> Result<Seen, Memory>
    ensures { IfOk result (λ seen. (e : ExprValue) (before : List SuffixValue) → Tells scope.now (Suffixed e before) front → Seen scope.now (suffix_parts e before (out-Suffix suffix.now)) seen) }
{
    let seen = only(alloc, front)?;
    match suffix {
        Suffix::Index(index, _) => see(alloc, scope, seen, Some(&Ty::Int), index),
        _ => Ok(seen),
    }
}

/// The further parts of an expression with a suffix behind it: the arguments of a call, where what is called is known.
#[cycle(judging)]
fn see_arguments(
    alloc: Global,
    scope: &Scope<'_>,
    suffix: &Suffix,
    parts: &Seen,
) -> Result<Seen, Memory>
    ensures { IfOk result (λ later. (e : ExprValue) (before : List SuffixValue) → SeenLater scope.now (Suffixed e (suffix.now ∷ before)) parts.now later) }
{
    let none = see_none(alloc, scope)?;
    let arguments = match suffix {
        Suffix::Member(_) => return Ok(none),
        Suffix::Index(..) => return Ok(none),
        Suffix::Call(arguments, _) => arguments.as_slice(),
    };
    let Some(called) = first_come(parts) else {
        return Ok(none);
    };
    let later = see_passed(alloc, scope, called, arguments)?;
    Ok(later)
}

/// The arguments of what is called.
#[cycle(judging)]
fn see_passed(
    alloc: Global,
    scope: &Scope<'_>,
    called: &Judged,
    arguments: &[Expr],
) -> Result<Seen, Memory>
    ensures { IfOk result (λ seen. Seen scope.now (argument_nodes (argument_places (denoted called.now).meaning) arguments.now) seen) }
{
    let places = argument_places(alloc, called)?;
    let wanted = places.as_slice();
    let mut seen = Ok(Items::new(alloc));
    for (number, argument) in arguments.iter().enumerate() {
        seen = see(alloc, scope, seen, at(wanted, number), argument)?;
    }
    Ok(seen)
}

/// Operands with an operator before each but the first, one after the other.
#[cycle(judging)]
fn see_chained(
    alloc: Global,
    scope: &Scope<'_>,
    operands: &[Operand],
    first: &Expr,
) -> Result<Seen, Memory>
    ensures { IfOk result (λ seen. Seen scope.now (Chained first.now (reverse operands.now) ∷ []) seen) }
{
    let start = see_alone(alloc, scope, None, first)?;
    let mut front = chained_front(alloc, first, operands, 0, start)?;
    for (at, operand) in operands.iter().enumerate() {
        let before = only(alloc, front)?;
        let parts = see(alloc, scope, before, None, &operand.right)?;
        front = chained_front(alloc, first, operands, at + 1, parts)?;
    }
    let seen = only(alloc, front)?;
    Ok(seen)
}
