ghost use Rattle.std.specs.Prelude.{◌≡◌, IfOk};
ghost use Rattle.item_types.specs.Judging.{both_told};
ghost use Rattle.item_types.specs.Items.{both_or_neither, link, linked, same_callback, same_kind, same_signature, same_types};
ghost use Rattle.fault_order.specs.Order.{earlier_fault};

use crate::members::{is_grid_number, path_span, side_found, side_led};
use fault_order::is_not_behind;
use name_lookup::{lead_of, own_member};
use slint_base::{Fault, Memory, Rule, Span};
use sqlite_items::at;
use std::alloc::Global;
use syntax_tree::{Ident, Path};
use type_rules::same_type;
use typed_tree::{Found, MemberKind, Scope, Signature, TypedItem, TypedLink};
use value_types::Ty;

/// Of two faults the one that is told first.
pub(crate) fn earlier_fault(a: Fault, b: Fault) -> Fault
    ensures { result ≡ earlier_fault a b }
{
    if is_not_behind(&a, &b) { a } else { b }
}

/// Whether two lists of types are the same.
fn same_types(types: &[Ty], others: &[Ty]) -> bool
    ensures { result ≡ same_types types.now others.now }
{
    if types.len() != others.len() {
        return false;
    }
    for (place, ty) in types.iter().enumerate() {
        let Some(other) = at(others, place) else {
            return false;
        };
        if !same_type(ty, other) {
            return false;
        }
    }
    true
}

/// Whether two callbacks take and give the same.
fn same_signature(signature: &Signature, other: &Signature) -> bool
    ensures { result ≡ same_signature signature.now other.now }
{
    same_types(signature.parameters.as_slice(), other.parameters.as_slice())
        && same_type(&signature.result, &other.result)
}

/// Whether both are so or neither is.
fn both_or_neither(one: bool, other: bool) -> bool
    ensures { result ≡ both_or_neither one other }
{
    if one { other } else { !other }
}

/// Whether two callbacks are `pure` alike, and take and give the same.
fn same_callback(
    is_pure: bool,
    signature: &Signature,
    is_other_pure: bool,
    other: &Signature,
) -> bool
    ensures { result ≡ same_callback is_pure signature.now is_other_pure other.now }
{
    both_or_neither(is_pure, is_other_pure) && same_signature(signature, other)
}

/// Whether two members can be linked: properties of one type, or callbacks of one type.
fn same_kind(kind: &MemberKind, other: &MemberKind) -> bool
    ensures { result ≡ same_kind kind.now other.now }
{
    match (kind, other) {
        (MemberKind::Property(_, ty), MemberKind::Property(_, other)) => same_type(ty, other),
        (MemberKind::Callback(is_pure, signature), MemberKind::Callback(is_other_pure, other)) => {
            same_callback(*is_pure, signature, *is_other_pure, other)
        }
        _ => false,
    }
}

/// A link of two members. `span` is its whole stretch, and `right` that of its right side.
fn linked(span: Span, right: Span, sides: (Found, Found)) -> Result<TypedItem, Fault>
    ensures { result ≡ linked span right sides }
{
    if !same_kind(&sides.0.kind, &sides.1.kind) {
        return Err(Fault {
            rule: Rule::AliasTypes,
            span,
        });
    }
    if is_grid_number(sides.0.member) || is_grid_number(sides.1.member) {
        return Err(Fault {
            rule: Rule::NotConstant,
            span,
        });
    }
    Ok(TypedItem::Link(TypedLink {
        left: sides.0.member,
        right: sides.1.member,
        span: right,
    }))
}

/// Both sides of a link, or the fault that is told first.
fn both_sides(
    left: Result<Found, Fault>,
    right: Result<Found, Fault>,
) -> Result<(Found, Found), Fault>
    ensures { result ≡ both_told left right }
{
    match left {
        Ok(left) => match right {
            Ok(right) => Ok((left, right)),
            Err(fault) => Err(fault),
        },
        Err(fault) => match right {
            Ok(_) => Err(fault),
            Err(other) => Err(earlier_fault(fault, other)),
        },
    }
}

/// The link of a name to a path. `span` is the stretch of the whole link.
pub(crate) fn judge_link(
    alloc: Global,
    scope: &Scope<'_>,
    left: &Ident,
    right: &Path,
    span: Span,
) -> Result<Result<TypedItem, Fault>, Memory>
    ensures { IfOk result (λ made. made ≡ link scope.now left.now right.now span) }
{
    let found = own_member(alloc, scope, &left.name)?;
    let lead = lead_of(alloc, scope, right)?;
    let sides = both_sides(side_found(left.span, found), side_led(right, lead));
    match sides {
        Ok(sides) => Ok(linked(span, path_span(right), sides)),
        Err(fault) => Ok(Err(fault)),
    }
}
