ghost use Rattle.std.specs.Prelude.{◌≡◌};
ghost use Rattle.std.specs.List.{flat_map};
ghost use Rattle.syntax_tree.specs.declared.items.Item.{out-Item};
ghost use Rattle.fault_order.specs.Order.{first_of};
ghost use Rattle.child_rules.specs.Children.{at_slot, at_slot_of, at_slots_of, first_slot, is_behind, is_misplaced, slot_faults};
ghost use Rattle.child_rules.specs.Cells.{takes_cells};
ghost use Rattle.child_rules.specs.Faults.{grid_place_if, misplaced_if};
ghost use Rattle.child_rules.specs.Landing.{inside};

use crate::cells::takes_cells;
use crate::faults::{grid_place_if, misplaced_if};
use crate::places::Places;
use crate::rows::is_in_rows;
use fault_order::earlier;
use slint_base::{Fault, Span};
use source_elements::Written;
use syntax_tree::Item;

/// The rule of misplaced children at an item that is `@children`.
fn at_slot(item: &Item) -> Option<Fault>
    ensures { result ≡ first_of (at_slot_of item.now) }
{
    match item {
        Item::Children(span) => misplaced_if(true, *span),
        _ => None,
    }
}

/// The same at the first `@children` of a body.
fn first_in_body(items: &[Item]) -> Option<Fault>
    ensures { result ≡ first_of (flat_map at_slot_of items.now) }
{
    let mut first = None;
    for item in items {
        first = earlier(first, at_slot(item));
    }
    first
}

/// The same at the first `@children` of a component.
pub(crate) fn first_slot(written: &[Written<'_>]) -> Option<Fault>
    ensures { result ≡ first_slot written.now }
{
    let mut first = None;
    for element in written {
        first = earlier(first, first_in_body(element.body()));
    }
    first
}

/// Whether a stretch begins behind the first `@children`.
fn is_behind(first: Option<Fault>, span: Span) -> bool
    ensures { result ≡ is_behind first span }
{
    match first {
        Some(first) => first.span.start < span.start,
        None => false,
    }
}

/// The fault of an `@children` that isn't the first one, or is in a repeated element.
fn later_fault(
    places: &Places<'_>,
    component: usize,
    element: usize,
    first: Option<Fault>,
    span: Span,
) -> Option<Fault>
    ensures { result ≡ first_of (misplaced_if (is_misplaced places.now.comps component element first span) span) }
{
    misplaced_if(is_misplaced(places, component, element, first, span), span)
}

/// Whether an `@children` isn't the first one, or is in a repeated element.
fn is_misplaced(
    places: &Places<'_>,
    component: usize,
    element: usize,
    first: Option<Fault>,
    span: Span,
) -> bool
    ensures { result ≡ is_misplaced places.now.comps component element first span }
{
    is_behind(first, span) || is_in_rows(places.elements(component), element)
}

/// The fault of an `@children` that lands in a grid or in a `Row`.
fn in_grid_fault(places: &Places<'_>, component: usize, element: usize, span: Span) -> Option<Fault>
    ensures { result ≡ first_of (grid_place_if (takes_cells (inside places.now.comps component element)) span) }
{
    grid_place_if(takes_cells(places.inside(component, element)), span)
}

/// The first fault of an `@children`: it isn't the first one, or is in a repeated element; or it lands in a grid or in a `Row`.
pub(crate) fn slot_fault(
    places: &Places<'_>,
    component: usize,
    element: usize,
    first: Option<Fault>,
    span: Span,
) -> Option<Fault>
    ensures { result ≡ first_of (slot_faults places.now.comps component element first span) }
{
    let later = later_fault(places, component, element, first, span);
    let in_grid = in_grid_fault(places, component, element, span);
    earlier(later, in_grid)
}
