ghost use Rattle.std.specs.Prelude.{◌≡◌, IfOk, Some};
ghost use Rattle.std.specs.Option.{option_copied};
ghost use Rattle.fault_order.specs.Order.{first_of};
ghost use Rattle.name_lookup.specs.Leads.{last_span, path_name};
ghost use Rattle.item_rules.specs.Items.{clash_faults, link_faults};
ghost use Rattle.item_rules.specs.Uses.{breach, handler_faults, lead_faults, name_faults, path_faults, told_at};
ghost use Rattle.item_rules.specs.declared.uses.Use.TheVariants as use_of;

use crate::body::Body;
use crate::twice::twice_if;
use crate::uses::{Use, breach, left_mark, told_at};
use fault_order::earlier;
use name_lookup::Lead;
use slint_base::{Fault, Memory, Rule, Span};
use std::alloc::Global;
use syntax_tree::{Ident, Link, Path};
use typed_tree::{Found, Site};

/// The fault of a name that is declared although the element has it from its type.
pub(crate) fn clash(body: &Body<'_>, name: &Ident) -> Option<Fault>
    ensures { result ≡ first_of (clash_faults body.now name.now) }
{
    twice_if(body.is_given(&name.name), name.span)
}

/// The fault of a use of a member of the body's element or global by its name.
pub(crate) fn name_fault(
    alloc: Global,
    body: &Body<'_>,
    how: Use,
    name: &Ident,
) -> Result<Option<Fault>, Memory>
    ensures { IfOk result (λ fault. fault ≡ first_of (name_faults body.now how name.now)) }
{
    let found = body.member(alloc, &name.name)?;
    Ok(told_at(name.span, breach(body.here(), how, found.as_ref())))
}

/// The fault of a handler's name; `init` is always one.
pub(crate) fn handler_fault(
    alloc: Global,
    body: &Body<'_>,
    name: &Ident,
) -> Result<Option<Fault>, Memory>
    ensures { IfOk result (λ fault. fault ≡ first_of (handler_faults body.now name.now)) }
{
    if name.name.as_str() == "init" {
        return Ok(None);
    }
    name_fault(alloc, body, Use::Handle, name)
}

/// The stretch of the last name, or the one before where there are none.
fn last_span(before: Span, names: &[Ident]) -> Span
    ensures { result ≡ last_span before names.now }
{
    match names.last() {
        Some(name) => name.span,
        None => before,
    }
}

/// The name at which a path is told: its last one.
fn path_name(path: &Path) -> Span
    ensures { result ≡ path_name path.now }
{
    last_span(path.first.span, path.rest.as_slice())
}

/// The fault of a path that leads somewhere or nowhere.
fn lead_fault(here: Site, how: Use, last: Span, lead: &Lead) -> Option<Fault>
    ensures { result ≡ first_of (lead_faults here how last lead.now) }
{
    match lead {
        Lead::Lost(at) => told_at(*at, Some(Rule::UnknownName)),
        Lead::To(found) => told_at(last, breach(here, how, Some(found))),
    }
}

/// The fault of a path.
pub(crate) fn path_fault(
    alloc: Global,
    body: &Body<'_>,
    how: Use,
    path: &Path,
) -> Result<Option<Fault>, Memory>
    ensures { IfOk result (λ fault. fault ≡ first_of (path_faults body.now how path.now)) }
{
    let lead = body.lead(alloc, path)?;
    Ok(lead_fault(body.here(), how, path_name(path), &lead))
}

/// The first fault of a link's two sides.
pub(crate) fn link_fault(
    alloc: Global,
    body: &Body<'_>,
    link: &Link,
) -> Result<Option<Fault>, Memory>
    ensures { IfOk result (λ fault. fault ≡ first_of (link_faults body.now link.now)) }
{
    let left = body.member(alloc, &link.left.name)?;
    let left_fault = left_side(body.here(), &link.left, left.as_ref());
    let how = Use::LinkRight(left_mark(left.as_ref()));
    let right_fault = path_fault(alloc, body, how, &link.right)?;
    Ok(earlier(left_fault, right_fault))
}

/// The fault of a link's left side, which is this member, if it is there.
fn left_side(here: Site, name: &Ident, found: Option<&Found>) -> Option<Fault>
    ensures { result ≡ first_of (told_at name.now.span (breach here use_of.LinkLeft (option_copied found.entry))) }
{
    told_at(name.span, breach(here, Use::LinkLeft, found))
}
