ghost use Rattle.std.specs.Prelude.{◌≡◌, IfOk, Some};
ghost use Rattle.name_lookup.specs.Leads.{AtElement, AtGlobal, at_found, element_found, last_span, lead_of, member_at, own_member, spot_found, walk};
ghost use Rattle.name_lookup.specs.Names.{root_of};
ghost use Rattle.name_lookup.specs.Paths.{behind_near, far_spot, lead_at, member_around};

use crate::Meaning;
use crate::far::far_name;
use crate::near::near_name;
use slint_base::{Memory, Name, Rule, Span};
use std::alloc::Global;
use syntax_tree::{Ident, Path};
use typed_tree::{Found, Scope, Site};

/// Where a path outside expressions leads.
#[derive(Drop)]
pub enum Lead {
    /// To a member.
    To(Found),
    /// Nowhere: the name at which it is lost.
    Lost(Span),
}

/// The stretch of the last name, or the one before where there are none.
fn last_span(before: Span, names: &[Ident]) -> Span
    ensures { result ≡ last_span before names.now }
{
    match names.last() {
        Some(name) => name.span,
        None => before,
    }
}

/// A path that came to a member at a name: it leads there if that is its last name.
fn at_member(found: Found, at: Span, behind: &[Ident]) -> Lead
    ensures { result ≡ at_found at behind.now (Some found) }
{
    if behind.is_empty() {
        Lead::To(found)
    } else {
        Lead::Lost(last_span(at, behind))
    }
}

/// A path that came to a member, or to none, at a name.
fn at_found(found: Option<Found>, at: Span, behind: &[Ident]) -> Lead
    ensures { result ≡ at_found at behind.now found }
{
    match found {
        Some(found) => at_member(found, at, behind),
        None => Lead::Lost(at),
    }
}

/// A member of an element of the component at hand.
fn element_found(
    alloc: Global,
    scope: &Scope<'_>,
    element: usize,
    name: &Name,
) -> Result<Option<Found>, Memory>
    ensures { IfOk result (λ found. found ≡ element_found scope.now element name.now) }
{
    match scope.site() {
        Site::Element(component, _) => {
            let found = scope
                .names()
                .element_member(alloc, component, element, name)?;
            Ok(found)
        }
        Site::Global(_) => Ok(None),
    }
}

/// A member of the root element of the component at hand, or of the global at hand.
fn root_member(alloc: Global, scope: &Scope<'_>, name: &Name) -> Result<Option<Found>, Memory>
    ensures { IfOk result (λ found. found ≡ member_at scope.now scope.now.site (root_of scope.now.site) name.now) }
{
    match scope.site() {
        Site::Element(component, _) => scope.names().element_member(alloc, component, 0, name),
        Site::Global(global) => scope.names().global_member(alloc, global, name),
    }
}

/// Where the names behind an element lead.
fn behind_element(
    alloc: Global,
    scope: &Scope<'_>,
    element: usize,
    at: Span,
    behind: &[Ident],
) -> Result<Lead, Memory>
    ensures { IfOk result (λ lead. lead ≡ walk scope.now (AtElement element) at behind.now) }
{
    let Some((next, rest)) = behind.split_first() else {
        return Ok(Lead::Lost(at));
    };
    let found = element_found(alloc, scope, element, &next.name)?;
    Ok(at_found(found, next.span, rest))
}

/// Where the names behind a global lead.
fn behind_global(
    alloc: Global,
    scope: &Scope<'_>,
    global: usize,
    at: Span,
    behind: &[Ident],
) -> Result<Lead, Memory>
    ensures { IfOk result (λ lead. lead ≡ walk scope.now (AtGlobal global) at behind.now) }
{
    let Some((next, rest)) = behind.split_first() else {
        return Ok(Lead::Lost(at));
    };
    let found = scope.names().global_member(alloc, global, &next.name)?;
    Ok(at_found(found, next.span, rest))
}

/// Where a path leads whose first name stands for something other than a member of `self` or `root`.
fn lead_from(
    alloc: Global,
    scope: &Scope<'_>,
    found: &Result<Meaning, Rule>,
    path: &Path,
) -> Result<Lead, Memory>
    ensures { IfOk result (λ lead. lead ≡ lead_at scope.now path.now (spot_found (Some found.now))) }
{
    let at = path.first.span;
    let behind = path.rest.as_slice();
    match found {
        Ok(Meaning::Element(element)) => behind_element(alloc, scope, *element, at, behind),
        Ok(Meaning::Global(global)) => behind_global(alloc, scope, *global, at, behind),
        Ok(_) => Ok(Lead::Lost(last_span(at, behind))),
        Err(_) => Ok(Lead::Lost(at)),
    }
}

/// Where a path leads whose first name is found behind members, if anywhere.
fn far_lead(alloc: Global, scope: &Scope<'_>, path: &Path) -> Result<Lead, Memory>
    ensures { IfOk result (λ lead. lead ≡ lead_at scope.now path.now (far_spot scope.now path.now.first)) }
{
    match far_name(alloc, scope, None, &path.first.name, path.first.span)? {
        Some(found) => lead_from(alloc, scope, &found, path),
        None => Ok(Lead::Lost(path.first.span)),
    }
}

/// A member of `self`, or else of `root`.
fn member_around(alloc: Global, scope: &Scope<'_>, name: &Name) -> Result<Option<Found>, Memory>
    ensures { IfOk result (λ found. found ≡ member_around scope.now name.now) }
{
    if let Some(found) = own_member(alloc, scope, name)? {
        return Ok(Some(found));
    }
    root_member(alloc, scope, name)
}

/// Where a path leads whose first name isn't found before members.
fn lead_behind(alloc: Global, scope: &Scope<'_>, path: &Path) -> Result<Lead, Memory>
    ensures { IfOk result (λ lead. lead ≡ lead_at scope.now path.now (behind_near scope.now path.now.first)) }
{
    match member_around(alloc, scope, &path.first.name)? {
        Some(found) => Ok(at_member(found, path.first.span, path.rest.as_slice())),
        None => far_lead(alloc, scope, path),
    }
}

/// Where a path outside expressions leads, seen from a scope.
pub fn lead_of(alloc: Global, scope: &Scope<'_>, path: &Path) -> Result<Lead, Memory>
    ensures { IfOk result (λ lead. lead ≡ lead_of scope.now path.now) }
{
    match near_name(alloc, scope, &path.first.name, path.first.span)? {
        Some(found) => lead_from(alloc, scope, &found, path),
        None => lead_behind(alloc, scope, path),
    }
}

/// The member that a name means as the left side of a binding: one of the element or the global in whose body it stands.
pub fn own_member(alloc: Global, scope: &Scope<'_>, name: &Name) -> Result<Option<Found>, Memory>
    ensures { IfOk result (λ found. found ≡ own_member scope.now name.now) }
{
    match scope.site() {
        Site::Element(component, element) => {
            scope
                .names()
                .element_member(alloc, component, element, name)
        }
        Site::Global(global) => scope.names().global_member(alloc, global, name),
    }
}
