ghost use Rattle.std.specs.Prelude.{◌≡◌, ◌&&◌, not};
ghost use Rattle.fault_order.specs.Order.{first_of};
ghost use Rattle.child_rules.specs.Cells.{is_among_cells, is_in_grid};
ghost use Rattle.child_rules.specs.Faults.{grid_place_if, misplaced_if};
ghost use Rattle.child_rules.specs.Children.{element_faults, elements_faults, is_in_leaf, is_leaf_kind, place_faults, repeat_faults};

use crate::cells::{is_among_cells, is_in_grid};
use crate::faults::{grid_place_if, misplaced_if};
use crate::places::Places;
use element_tables::ElementKind;
use fault_order::earlier;
use slint_base::Fault;
use typed_tree::{ElementOutline, Repeat};

/// Whether elements of a kind take no children.
fn is_leaf_kind(kind: ElementKind) -> bool
    ensures { result ≡ is_leaf_kind kind }
{
    matches!(kind, ElementKind::Text | ElementKind::Image)
}

/// Whether an element lands in one that takes no children.
fn is_in_leaf(lands: Option<ElementKind>) -> bool
    ensures { result ≡ is_in_leaf lands }
{
    match lands {
        Some(kind) => is_leaf_kind(kind),
        None => false,
    }
}

/// The fault of what is repeated where it may not be, at the word by which it is.
fn repeat_fault(test: bool, repeat: &Repeat) -> Option<Fault>
    ensures { result ≡ first_of (repeat_faults test repeat.now) }
{
    match repeat {
        Repeat::Once => None,
        Repeat::If(word) => grid_place_if(test, *word),
        Repeat::For(_, _, word) => grid_place_if(test, *word),
    }
}

/// The fault of an element that lands in a text or an image.
fn leaf_fault(lands: Option<ElementKind>, element: &ElementOutline) -> Option<Fault>
    ensures { result ≡ first_of (misplaced_if (is_in_leaf lands) element.now.ty_span) }
{
    misplaced_if(is_in_leaf(lands), element.ty_span)
}

/// Whether an element is a `Row` elsewhere than in a grid.
fn is_astray(lands: Option<ElementKind>, is_row: bool) -> bool
    ensures { result ≡ (is_row && not (is_in_grid lands)) }
{
    is_row && !is_in_grid(lands)
}

/// The fault of a `Row` elsewhere than in a grid.
fn row_fault(lands: Option<ElementKind>, is_row: bool, element: &ElementOutline) -> Option<Fault>
    ensures { result ≡ first_of (grid_place_if (is_row && not (is_in_grid lands)) element.now.ty_span) }
{
    grid_place_if(is_astray(lands, is_row), element.ty_span)
}

/// The fault of what is repeated in a grid or in a `Row`.
fn repeated_fault(lands: Option<ElementKind>, element: &ElementOutline) -> Option<Fault>
    ensures { result ≡ first_of (repeat_faults (is_among_cells lands) element.now.repeat) }
{
    repeat_fault(is_among_cells(lands), &element.repeat)
}

/// The first fault of an element where it lands: in a text or an image; a `Row` elsewhere than in a grid; what is repeated in a grid.
fn place_fault(lands: Option<ElementKind>, is_row: bool, element: &ElementOutline) -> Option<Fault>
    ensures { result ≡ first_of (place_faults lands is_row element.now) }
{
    let leaf = leaf_fault(lands, element);
    let row = row_fault(lands, is_row, element);
    let repeated = repeated_fault(lands, element);
    earlier(leaf, earlier(row, repeated))
}

/// The same of an element of a component.
fn element_fault(
    places: &Places<'_>,
    component: usize,
    number: usize,
    element: &ElementOutline,
) -> Option<Fault>
    ensures { result ≡ first_of (element_faults places.now.comps component number element.now) }
{
    let lands = places.lands_in(component, number);
    place_fault(lands, places.is_row(component, number), element)
}

/// The first fault of a component's elements where they land.
pub(crate) fn elements_fault(places: &Places<'_>, component: usize) -> Option<Fault>
    ensures { result ≡ first_of (elements_faults places.now.comps component) }
{
    let elements = places.elements(component);
    let mut first = None;
    for (number, element) in elements.iter().enumerate() {
        first = earlier(first, element_fault(places, component, number, element));
    }
    first
}
