ghost use Rattle.std.specs.Prelude.{◌≡◌, ◌&&◌, ◌||◌, IfOk, not};
ghost use Rattle.std.specs.List.{flat_map};
ghost use Rattle.fault_order.specs.Order.{first_of};
ghost use Rattle.name_lookup.specs.Leads.{last_span, path_name};
ghost use Rattle.child_rules.specs.Cells.{is_cell, is_row};
ghost use Rattle.child_rules.specs.Numbers.{is_cell_number};
ghost use Rattle.child_rules.specs.Children.{binding_faults, bodies_faults, body_faults, change_faults, form_faults, is_misgiven, is_no_cell, last_name, lead_faults, led_faults, link_faults, number_faults, one_item_faults, path_faults, path_lead, state_faults, value_faults};

use crate::faults::grid_place_if;
use crate::numbers::{is_cell_number, is_out, whole_literal};
use crate::places::Places;
use crate::rows::rows_around;
use crate::slots::{first_slot, slot_fault};
use fault_order::earlier;
use name_lookup::{Lead, lead_of};
use slint_base::{Fault, Memory, Span};
use source_elements::Written;
use std::alloc::Global;
use syntax_tree::{CallbackForm, Change, Ident, Item, Link, Path, PropValue, State, Value};
use typed_tree::{ElementMember, MemberRef, Scope, Site};

/// The element of a component in whose body an item stands.
#[derive(Clone, Copy)]
pub(crate) struct Body {
    pub component: usize,
    pub element: usize,
}

/// Whether a name is that of one of the four numbers, which each element has but for a `Row`.
fn has_number(places: &Places<'_>, body: Body, name: &Ident) -> bool
    ensures { result ≡ (is_cell_number name.now.name && not (is_row places.now.comps body.component body.element)) }
{
    is_cell_number(name.name.as_str()) && !places.is_row(body.component, body.element)
}

/// Whether one of the four numbers may not be given: to what is no cell, or where the value is out of range.
fn is_refused(places: &Places<'_>, body: Body, out: bool) -> bool
    ensures { result ≡ (not (is_cell places.now.comps body.component body.element) || out) }
{
    !places.is_cell(body.component, body.element) || out
}

/// Whether a name is that of one of the four numbers, which may not be given.
fn is_misgiven(places: &Places<'_>, body: Body, name: &Ident, out: bool) -> bool
    ensures { result ≡ is_misgiven places.now.comps body.component body.element name.now out }
{
    has_number(places, body, name) && is_refused(places, body, out)
}

/// The fault of a name of one of the four numbers, which a cell alone has: elsewhere, or where the value is out of range.
fn number_fault(places: &Places<'_>, body: Body, name: &Ident, out: bool) -> Option<Fault>
    ensures { result ≡ first_of (number_faults places.now.comps body.component body.element name.now out) }
{
    grid_place_if(is_misgiven(places, body, name, out), name.span)
}

/// The fault of a binding.
fn binding_fault(places: &Places<'_>, body: Body, name: &Ident, value: &Value) -> Option<Fault>
    ensures { result ≡ first_of (binding_faults places.now.comps body.component body.element name.now value.now) }
{
    number_fault(places, body, name, is_out(&name.name, whole_literal(value)))
}

/// The last name of a path.
fn last_name<'a>(first: &'a Ident, rest: &'a [Ident]) -> &'a Ident
    ensures { result.now ≡ last_name first.now rest.now }
{
    match rest.last() {
        Some(name) => name,
        None => first,
    }
}

/// Whether a member is a built-in one of an element that is no cell.
fn is_no_cell(places: &Places<'_>, component: usize, member: MemberRef) -> bool
    ensures { result ≡ is_no_cell places.now.comps component member }
{
    match member {
        MemberRef::Element(element, ElementMember::BuiltIn(_)) => {
            !places.is_cell(component, element)
        }
        MemberRef::Element(_, ElementMember::Declared(_, _)) => false,
        MemberRef::Global(_, _) => false,
    }
}

/// The fault of a path that ends in one of the four names, by where it leads.
fn lead_fault(places: &Places<'_>, component: usize, span: Span, lead: &Lead) -> Option<Fault>
    ensures { result ≡ first_of (lead_faults places.now.comps component span lead.now) }
{
    match lead {
        Lead::To(found) => grid_place_if(is_no_cell(places, component, found.member), span),
        Lead::Lost(_) => None,
    }
}

/// Where a path leads, seen from a body.
fn path_lead(alloc: Global, places: &Places<'_>, body: Body, path: &Path) -> Result<Lead, Memory>
    ensures { IfOk result (λ lead. lead ≡ path_lead places.now body.component body.element path.now) }
{
    let rows = rows_around(alloc, places.elements(body.component), body.element)?;
    let site = Site::Element(body.component, body.element);
    let scope = Scope::new(places.names(), site, &[], rows.as_slice());
    let lead = lead_of(alloc, &scope, path)?;
    Ok(lead)
}

/// The stretch of a path's last name.
fn path_name(path: &Path) -> Span
    ensures { result ≡ path_name path.now }
{
    last_span(path.first.span, path.rest.as_slice())
}

/// The stretch of the last name, or the one before where there are none.
fn last_span(before: Span, names: &[Ident]) -> Span
    ensures { result ≡ last_span before names.now }
{
    match names.last() {
        Some(name) => name.span,
        None => before,
    }
}

/// The fault of a path that ends in one of the four names.
fn led_fault(
    alloc: Global,
    places: &Places<'_>,
    body: Body,
    path: &Path,
) -> Result<Option<Fault>, Memory>
    ensures { IfOk result (λ fault. fault ≡ first_of (led_faults places.now body.component body.element path.now)) }
{
    let lead = path_lead(alloc, places, body, path)?;
    let fault = lead_fault(places, body.component, path_name(path), &lead);
    Ok(fault)
}

/// The fault of a path that a state changes, or a link leads to.
fn path_fault(
    alloc: Global,
    places: &Places<'_>,
    body: Body,
    path: &Path,
) -> Result<Option<Fault>, Memory>
    ensures { IfOk result (λ fault. fault ≡ first_of (path_faults places.now body.component body.element path.now)) }
{
    let last = last_name(&path.first, path.rest.as_slice());
    if is_cell_number(last.name.as_str()) {
        led_fault(alloc, places, body, path)
    } else {
        Ok(None)
    }
}

/// The fault of what a declared property is given.
fn value_fault(
    alloc: Global,
    places: &Places<'_>,
    body: Body,
    value: &PropValue,
) -> Result<Option<Fault>, Memory>
    ensures { IfOk result (λ fault. fault ≡ first_of (value_faults places.now body.component body.element value.now)) }
{
    match value {
        PropValue::Link(path) => path_fault(alloc, places, body, path),
        PropValue::Value(_) => Ok(None),
        PropValue::None => Ok(None),
    }
}

/// The fault of a declared callback's form.
fn form_fault(
    alloc: Global,
    places: &Places<'_>,
    body: Body,
    form: &CallbackForm,
) -> Result<Option<Fault>, Memory>
    ensures { IfOk result (λ fault. fault ≡ first_of (form_faults places.now body.component body.element form.now)) }
{
    match form {
        CallbackForm::Link(path) => path_fault(alloc, places, body, path),
        CallbackForm::Signature(_, _) => Ok(None),
    }
}

/// The first fault of a link.
fn link_fault(
    alloc: Global,
    places: &Places<'_>,
    body: Body,
    link: &Link,
) -> Result<Option<Fault>, Memory>
    ensures { IfOk result (λ fault. fault ≡ first_of (link_faults places.now body.component body.element link.now.left link.now.right)) }
{
    let left = number_fault(places, body, &link.left, false);
    let right = path_fault(alloc, places, body, &link.right)?;
    Ok(earlier(left, right))
}

/// The first fault of a state.
fn state_fault(
    alloc: Global,
    places: &Places<'_>,
    body: Body,
    state: &State,
) -> Result<Option<Fault>, Memory>
    ensures { IfOk result (λ fault. fault ≡ first_of (state_faults places.now body.component body.element state.now)) }
{
    let changes = state.changes.as_slice();
    let mut first = None;
    for change in changes {
        let fault = path_fault(alloc, places, body, &change.path)?;
        first = earlier(first, fault);
    }
    Ok(first)
}

/// The first fault of a list of states.
fn states_fault(
    alloc: Global,
    places: &Places<'_>,
    body: Body,
    states: &[State],
) -> Result<Option<Fault>, Memory>
    ensures { IfOk result (λ fault. fault ≡ first_of (flat_map (state_faults places.now body.component body.element) states.now)) }
{
    let mut first = None;
    for state in states {
        let fault = state_fault(alloc, places, body, state)?;
        first = earlier(first, fault);
    }
    Ok(first)
}

/// The first fault of an item alone.
fn item_fault(
    alloc: Global,
    places: &Places<'_>,
    body: Body,
    slot: Option<Fault>,
    item: &Item,
) -> Result<Option<Fault>, Memory>
    ensures { IfOk result (λ fault. fault ≡ first_of (one_item_faults places.now body.component body.element slot item.now)) }
{
    match item {
        Item::Property(property) => value_fault(alloc, places, body, &property.value),
        Item::Callback(callback) => form_fault(alloc, places, body, &callback.form),
        Item::Binding(binding) => {
            let fault = binding_fault(places, body, &binding.name, &binding.value);
            Ok(fault)
        }
        Item::Link(link) => link_fault(alloc, places, body, link),
        Item::States(list) => states_fault(alloc, places, body, list.states.as_slice()),
        Item::Children(span) => {
            let fault = slot_fault(places, body.component, body.element, slot, *span);
            Ok(fault)
        }
        _ => Ok(None),
    }
}

/// The first fault of the items of a body.
fn body_fault(
    alloc: Global,
    places: &Places<'_>,
    body: Body,
    slot: Option<Fault>,
    items: &[Item],
) -> Result<Option<Fault>, Memory>
    ensures { IfOk result (λ fault. fault ≡ first_of (flat_map (one_item_faults places.now body.component body.element slot) items.now)) }
{
    let mut first = None;
    for item in items {
        let fault = item_fault(alloc, places, body, slot, item)?;
        first = earlier(first, fault);
    }
    Ok(first)
}

/// The first fault of the items of a component's bodies.
pub(crate) fn bodies_fault(
    alloc: Global,
    places: &Places<'_>,
    component: usize,
    written: &[Written<'_>],
) -> Result<Option<Fault>, Memory>
    ensures { IfOk result (λ fault. fault ≡ first_of (bodies_faults places.now component written.now)) }
{
    let slot = first_slot(written);
    let mut first = None;
    for (number, element) in written.iter().enumerate() {
        let body = Body {
            component,
            element: number,
        };
        let fault = body_fault(alloc, places, body, slot, element.body())?;
        first = earlier(first, fault);
    }
    Ok(first)
}
