ghost use Rattle.std.specs.Prelude.{◌≡◌, ◌≤◌, ◌∷◌, IfOk, length, reverse, take};
ghost use Rattle.expr_rules.specs.Denotations.{denoted, given};
ghost use Rattle.expr_rules.specs.Own.{all_given, call, index, member, of_one, of_two, suffixed_own};

use crate::calls::call;
use crate::fitting::{all_given, given};
use crate::items::index;
use crate::making::denoted;
use crate::members::member;
use crate::parts::{one_part, own_only, two_parts};
use crate::spans::{suffix_end, suffixed_span};
use crate::{Denoted, Judged};
use name_lookup::Meaning;
use slint_base::{Fault, Memory, Span};
use sqlite_items::Items;
use std::alloc::Global;
use syntax_tree::{Expr, Ident, Suffix};
use typed_tree::Scope;

/// A member behind the point behind what a part came to.
fn member_of(
    alloc: Global,
    scope: &Scope<'_>,
    before: Judged,
    ident: &Ident,
    span: Span,
) -> Result<Result<Judged, Fault>, Memory>
    ensures { IfOk result (λ judged. judged ≡ member scope.now (denoted before) ident.now span) }
{
    let before = denoted(alloc, before)?;
    let judged = member(alloc, scope, before, ident, span)?;
    Ok(judged)
}

/// A member behind a point, where the part before it has come to something.
#[tactic(auto, using(crate::proofs::PartCounts::not_one))]
fn own_member(
    alloc: Global,
    scope: &Scope<'_>,
    ident: &Ident,
    span: Span,
    parts: Items<Judged>,
) -> Result<Result<Judged, Fault>, Memory>
    ensures { IfOk result (λ judged. judged ≡ of_one (λ x. member scope.now (denoted x) ident.now span) parts) }
{
    match one_part(parts) {
        None => Ok(Ok(Judged::Fresh)),
        Some(before) => {
            let judged = member_of(alloc, scope, before, ident, span)?;
            Ok(judged)
        }
    }
}

/// A call with arguments that have come to something.
fn call_with(
    alloc: Global,
    called: Meaning,
    span: Span,
    arguments: Items<Judged>,
) -> Result<Result<Judged, Fault>, Memory>
    ensures { IfOk result (λ judged. judged ≡ call called span (all_given arguments)) }
{
    let values = all_given(alloc, arguments)?;
    let judged = call(alloc, called, span, values)?;
    Ok(judged)
}

/// A call of what a part came to, with arguments that have come to something.
fn call_of(
    alloc: Global,
    called: Judged,
    span: Span,
    arguments: Items<Judged>,
) -> Result<Result<Judged, Fault>, Memory>
    ensures { IfOk result (λ judged. judged ≡ call (denoted called).meaning span (all_given arguments)) }
{
    let called = denoted(alloc, called)?;
    let judged = call_with(alloc, called.meaning, span, arguments)?;
    Ok(judged)
}

/// A call, where what is called and the arguments have come to something.
#[tactic(auto, using(crate::proofs::PartCounts::not_one))]
fn own_call(
    alloc: Global,
    span: Span,
    parts: Items<Judged>,
    arguments: Items<Judged>,
) -> Result<Result<Judged, Fault>, Memory>
    ensures { IfOk result (λ judged. judged ≡ of_one (λ x. call (denoted x).meaning span (all_given arguments)) parts) }
{
    match one_part(parts) {
        None => Ok(Ok(Judged::Fresh)),
        Some(called) => {
            let judged = call_of(alloc, called, span, arguments)?;
            Ok(judged)
        }
    }
}

/// An item of an array, at the index that a part came to.
fn item_at(
    alloc: Global,
    array: Denoted,
    at: Judged,
    before: Span,
    span: Span,
) -> Result<Result<Judged, Fault>, Memory>
    ensures { IfOk result (λ judged. judged ≡ index array (given at) before span) }
{
    let at = given(alloc, at)?;
    let judged = index(alloc, array, at, before, span)?;
    Ok(judged)
}

/// An item of the array that a part came to, at the index that another one came to.
fn item_of(
    alloc: Global,
    array: Judged,
    at: Judged,
    before: Span,
    span: Span,
) -> Result<Result<Judged, Fault>, Memory>
    ensures { IfOk result (λ judged. judged ≡ index (denoted array) (given at) before span) }
{
    let array = denoted(alloc, array)?;
    let judged = item_at(alloc, array, at, before, span)?;
    Ok(judged)
}

/// An item of an array, where the array and the index have come to something.
#[tactic(auto, using(crate::proofs::PartCounts::not_two))]
fn own_index(
    alloc: Global,
    before: Span,
    span: Span,
    parts: Items<Judged>,
) -> Result<Result<Judged, Fault>, Memory>
    ensures { IfOk result (λ judged. judged ≡ of_two (λ x y. index (denoted x) (given y) before span) parts) }
{
    match two_parts(parts) {
        None => Ok(Ok(Judged::Fresh)),
        Some((array, at)) => {
            let judged = item_of(alloc, array, at, before, span)?;
            Ok(judged)
        }
    }
}

/// What an expression comes to with a suffix behind it, and others before that one.
fn own_suffix(
    alloc: Global,
    scope: &Scope<'_>,
    e: &Expr,
    before: &[Suffix],
    suffix: &Suffix,
    parts: Items<Judged>,
    later: Items<Judged>,
) -> Result<Result<Judged, Fault>, Memory>
    ensures { IfOk result (λ judged. judged ≡ suffixed_own scope.now e.now (suffix.now ∷ reverse before.now) parts later) }
{
    let span = suffix_end(e.span(), suffix);
    match suffix {
        Suffix::Member(ident) => own_member(alloc, scope, ident, span, parts),
        Suffix::Call(_, _) => own_call(alloc, span, parts, later),
        Suffix::Index(_, _) => own_index(alloc, suffixed_span(e, before), span, parts),
    }
}

/// What an expression comes to with so many of the suffixes behind it, once the front before the last of them has come to something,
/// and its index, or, as later parts, its arguments; without a suffix it comes to what it is.
pub fn own_suffixed(
    alloc: Global,
    scope: &Scope<'_>,
    e: &Expr,
    suffixes: &[Suffix],
    count: usize,
    parts: Items<Judged>,
    later: Items<Judged>,
) -> Result<Result<Judged, Fault>, Memory>
    requires { count ≤ length suffixes.now }
    ensures { IfOk result (λ judged. judged ≡ suffixed_own scope.now e.now (reverse (take count suffixes.now)) parts later) }
{
    let (front, _) = suffixes.split_at(count);
    match front.split_last() {
        None => Ok(Ok(own_only(parts))),
        Some((suffix, before)) => own_suffix(alloc, scope, e, before, suffix, parts, later),
    }
}
