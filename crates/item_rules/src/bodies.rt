ghost use Rattle.std.specs.Prelude.{◌≡◌, IfOk};
ghost use Rattle.std.specs.List.{filter_map, flat_map};
ghost use Rattle.fault_order.specs.Order.{first_of, numbered};
ghost use Rattle.item_rules.specs.Items.{body_faults, element_faults, elements_faults, id_of, one_item_faults};
ghost use Rattle.item_rules.specs.Twice.{twice_in};

use crate::body::Body;
use crate::items::one_item_fault;
use crate::names::names_fault;
use crate::twice::note_if_any;
use fault_order::earlier;
use name_index::NameIndex;
use slint_base::{Fault, Memory};
use source_elements::Written;
use std::alloc::Global;
use syntax_tree::Item;
use typed_tree::{Names, Site};

/// The first fault of the items of a body, one by one.
fn items_fault(alloc: Global, body: &Body<'_>, items: &[Item]) -> Result<Option<Fault>, Memory>
    ensures { IfOk result (λ fault. fault ≡ first_of (flat_map (one_item_faults body.now) items.now)) }
{
    let mut first = None;
    for item in items {
        first = earlier(first, one_item_fault(alloc, body, item)?);
    }
    Ok(first)
}

/// The first fault of a body.
pub(crate) fn body_fault(
    alloc: Global,
    body: &Body<'_>,
    items: &[Item],
) -> Result<Option<Fault>, Memory>
    ensures { IfOk result (λ fault. fault ≡ first_of (body_faults body.now items.now)) }
{
    let names = names_fault(alloc, items)?;
    let alone = items_fault(alloc, body, items)?;
    Ok(earlier(names, alone))
}

/// The first of the elements that have the id of another one before them.
fn twice_ids(alloc: Global, elements: &[Written<'_>]) -> Result<Option<Fault>, Memory>
    ensures { IfOk result (λ fault. fault ≡ first_of (twice_in (filter_map id_of elements.now))) }
{
    let mut seen = NameIndex::new(alloc);
    let mut fault = None;
    for element in elements {
        fault = note_if_any(&mut seen, fault, element.id())?;
    }
    Ok(fault)
}

/// The first fault of the body of an element, which has a number in its component.
fn element_fault(
    alloc: Global,
    names: &Names,
    component: usize,
    elements: &[Written<'_>],
    number: usize,
    element: &Written<'_>,
) -> Result<Option<Fault>, Memory>
    ensures { IfOk result (λ fault. fault ≡ first_of (element_faults names.now component elements.now number element.now)) }
{
    let body = Body::new(names, Site::Element(component, number), elements);
    body_fault(alloc, &body, element.body())
}

/// The first fault of the bodies of a component's elements.
fn each_element(
    alloc: Global,
    names: &Names,
    component: usize,
    elements: &[Written<'_>],
) -> Result<Option<Fault>, Memory>
    ensures { IfOk result (λ fault. fault ≡ first_of (numbered (element_faults names.now component elements.now) 0 elements.now)) }
{
    let mut first = None;
    for (number, element) in elements.iter().enumerate() {
        let fault = element_fault(alloc, names, component, elements, number, element)?;
        first = earlier(first, fault);
    }
    Ok(first)
}

/// The first fault of a component's elements.
pub(crate) fn elements_fault(
    alloc: Global,
    names: &Names,
    component: usize,
    elements: &[Written<'_>],
) -> Result<Option<Fault>, Memory>
    ensures { IfOk result (λ fault. fault ≡ first_of (elements_faults names.now component elements.now)) }
{
    let ids = twice_ids(alloc, elements)?;
    let bodies = each_element(alloc, names, component, elements)?;
    Ok(earlier(ids, bodies))
}
