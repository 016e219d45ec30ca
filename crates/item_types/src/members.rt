ghost use Rattle.std.specs.Prelude.{◌≡◌};
ghost use Rattle.slint_base.specs.declared.rules.Rule.TheVariants as rule_of;
ghost use Rattle.name_lookup.specs.Leads.{last_span};
ghost use Rattle.item_types.specs.Members.{callback_found, callback_of, function_found, function_numbered, function_of, is_below_root, is_function, is_grid_number, is_size, path_span, property_found, property_led, property_of, side_found, side_led, side_of};
ghost use Rattle.name_lookup.specs.Leads.{path_name};

use name_lookup::Lead;
use slint_base::{Fault, Rule, Span};
use syntax_tree::{Ident, Path};
use typed_tree::{ElementMember, Found, HandlerOf, MemberKind, MemberRef, Signature, Site};
use value_types::Ty;

/// The fault of a name that stands for nothing, or for what doesn't fit there.
fn unknown(span: Span) -> Fault
    ensures { result ≡ record { rule = rule_of.UnknownName; span = span } }
{
    Fault {
        rule: Rule::UnknownName,
        span,
    }
}

/// The stretch of the last name, or the one before where there are none.
fn last_span(before: Span, names: &[Ident]) -> Span
    ensures { result ≡ last_span before names.now }
{
    match names.last() {
        Some(name) => name.span,
        None => before,
    }
}

/// The stretch of a path's last name.
fn path_name(path: &Path) -> Span
    ensures { result ≡ path_name path.now }
{
    last_span(path.first.span, path.rest.as_slice())
}

/// The stretch from a path's first token to its last one.
pub(crate) fn path_span(path: &Path) -> Span
    ensures { result ≡ path_span path.now }
{
    let first = path.first.span;
    Span {
        file: first.file,
        start: first.start,
        end: path_name(path).end,
    }
}

/// A member that has to be a property: which it is, and its type. `span` is the stretch of its name.
fn property_of(span: Span, member: MemberRef, kind: MemberKind) -> Result<(MemberRef, Ty), Fault>
    ensures { result ≡ property_of span member kind }
{
    match kind {
        MemberKind::Property(_, ty) => Ok((member, ty)),
        MemberKind::Callback(_, _) => Err(unknown(span)),
        MemberKind::Function(_, _, _) => Err(unknown(span)),
    }
}

/// What a name stands for, which has to be a property.
pub(crate) fn property_found(span: Span, found: Option<Found>) -> Result<(MemberRef, Ty), Fault>
    ensures { result ≡ property_found span found }
{
    match found {
        Some(found) => property_of(span, found.member, found.kind),
        None => Err(unknown(span)),
    }
}

/// Where a path leads, which has to be a property.
pub(crate) fn property_led(path: &Path, lead: Lead) -> Result<(MemberRef, Ty), Fault>
    ensures { result ≡ property_led path.now lead }
{
    match lead {
        Lead::To(found) => property_of(path_name(path), found.member, found.kind),
        Lead::Lost(span) => Err(unknown(span)),
    }
}

/// A declared function: its number among the members that are declared with it.
fn function_numbered(
    span: Span,
    member: MemberRef,
    signature: Signature,
) -> Result<(usize, Signature), Fault>
    ensures { result ≡ function_numbered span member signature }
{
    match member {
        MemberRef::Element(_, ElementMember::Declared(_, number)) => Ok((number, signature)),
        MemberRef::Element(_, ElementMember::BuiltIn(_)) => Err(unknown(span)),
        MemberRef::Global(_, number) => Ok((number, signature)),
    }
}

/// A member that has to be a declared function.
fn function_of(span: Span, member: MemberRef, kind: MemberKind) -> Result<(usize, Signature), Fault>
    ensures { result ≡ function_of span member kind }
{
    match kind {
        MemberKind::Function(_, _, signature) => function_numbered(span, member, signature),
        MemberKind::Property(_, _) => Err(unknown(span)),
        MemberKind::Callback(_, _) => Err(unknown(span)),
    }
}

/// What a name stands for, which has to be a declared function.
pub(crate) fn function_found(span: Span, found: Option<Found>) -> Result<(usize, Signature), Fault>
    ensures { result ≡ function_found span found }
{
    match found {
        Some(found) => function_of(span, found.member, found.kind),
        None => Err(unknown(span)),
    }
}

/// A member that has to be a callback.
fn callback_of(
    span: Span,
    member: MemberRef,
    kind: MemberKind,
) -> Result<(HandlerOf, Signature), Fault>
    ensures { result ≡ callback_of span member kind }
{
    match kind {
        MemberKind::Callback(_, signature) => Ok((HandlerOf::Callback(member), signature)),
        MemberKind::Property(_, _) => Err(unknown(span)),
        MemberKind::Function(_, _, _) => Err(unknown(span)),
    }
}

/// What a name stands for, which has to be a callback.
pub(crate) fn callback_found(
    span: Span,
    found: Option<Found>,
) -> Result<(HandlerOf, Signature), Fault>
    ensures { result ≡ callback_found span found }
{
    match found {
        Some(found) => callback_of(span, found.member, found.kind),
        None => Err(unknown(span)),
    }
}

/// Whether a member is a function.
fn is_function(kind: &MemberKind) -> bool
    ensures { result ≡ is_function kind.now }
{
    match kind {
        MemberKind::Function(_, _, _) => true,
        MemberKind::Property(_, _) => false,
        MemberKind::Callback(_, _) => false,
    }
}

/// A member that has to be a property or a callback, as a side of a link.
fn side_of(span: Span, found: Found) -> Result<Found, Fault>
    ensures { result ≡ side_of span found }
{
    if is_function(&found.kind) {
        return Err(unknown(span));
    }
    Ok(found)
}

/// The left side of a link, by what its name stands for.
pub(crate) fn side_found(span: Span, found: Option<Found>) -> Result<Found, Fault>
    ensures { result ≡ side_found span found }
{
    match found {
        Some(found) => side_of(span, found),
        None => Err(unknown(span)),
    }
}

/// The right side of a link, by where its path leads.
pub(crate) fn side_led(path: &Path, lead: Lead) -> Result<Found, Fault>
    ensures { result ≡ side_led path.now lead }
{
    match lead {
        Lead::To(found) => side_of(path_name(path), found),
        Lead::Lost(span) => Err(unknown(span)),
    }
}

/// Whether a member is the `width` or the `height` of an element.
pub(crate) fn is_size(member: MemberRef) -> bool
    ensures { result ≡ is_size member }
{
    match member {
        MemberRef::Element(_, ElementMember::BuiltIn(number)) => number == 2 || number == 3,
        MemberRef::Element(_, ElementMember::Declared(_, _)) => false,
        MemberRef::Global(_, _) => false,
    }
}

/// Whether a body is that of an element that isn't its component's root.
pub(crate) fn is_below_root(site: Site) -> bool
    ensures { result ≡ is_below_root site }
{
    match site {
        Site::Element(_, element) => element != 0,
        Site::Global(_) => false,
    }
}

/// Whether a member is the `row`, `col`, `rowspan` or `colspan` of an element.
pub(crate) fn is_grid_number(member: MemberRef) -> bool
    ensures { result ≡ is_grid_number member }
{
    match member {
        MemberRef::Element(_, ElementMember::BuiltIn(number)) => 15 <= number && number <= 18,
        MemberRef::Element(_, ElementMember::Declared(_, _)) => false,
        MemberRef::Global(_, _) => false,
    }
}
