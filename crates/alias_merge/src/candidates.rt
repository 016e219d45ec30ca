ghost use Rattle.std.specs.Prelude.{◌≡◌, ◌++◌, IfOk, OnOk, slice_get};
ghost use Rattle.std.specs.List.{flat_map};
ghost use Rattle.std.specs.Option.{option_to_list};
ghost use Rattle.alias_merge.specs.Candidates.{binding_of, bindings, bindings_at, bindings_in, default_holding, default_of, defaulted, defaults, defaults_of, event_of, handler_at, handlers, handlers_at, handlers_in, type_span_of};
ghost use Rattle.alias_merge.specs.Numbers.{numbers_of};

use crate::holdings::depth_in;
use crate::{Candidate, Holding, MemberNumbers};
use element_tables::ElementKind;
use expanded_tree::{Expanded, ExpandedElement, ExpandedMember, Holder, Spot, elements_at};
use slint_base::{Memory, Span};
use sqlite_items::{Items, at};
use std::alloc::Global;
use typed_tree::{HandlerOf, TypedHandler, TypedItem};

/// The bindings of an expanded tree, in instance order.
pub fn bindings(
    alloc: Global,
    expanded: &Expanded,
    numbers: &MemberNumbers,
) -> Result<Items<Candidate>, Memory>
    requires { numbers.now ≡ numbers_of expanded.now }
    ensures { IfOk result (λ found. found ≡ bindings expanded.now) }
{
    let holders = expanded.holders(alloc)?;
    let mut found = Items::new(alloc);
    let holders = holders.as_slice();
    for holder in holders {
        add_bindings(expanded, numbers, *holder, &mut found)?;
    }
    Ok(found)
}

/// Adds the bindings of a holder.
fn add_bindings(
    expanded: &Expanded,
    numbers: &MemberNumbers,
    holder: Holder,
    found: &mut Items<Candidate>,
) -> Result<(), Memory>
    ensures { OnOk result (found.new ≡ found.old ++ bindings_at expanded.now numbers.now holder) }
{
    let holding = Holding::of(expanded, holder);
    let items = expanded.items(holder);
    for (number, item) in items.iter().enumerate() {
        add(found, binding_of(expanded, numbers, &holding, number, item))?;
    }
    Ok(())
}

/// Adds what there is.
fn add(found: &mut Items<Candidate>, candidate: Option<Candidate>) -> Result<(), Memory>
    ensures { OnOk result (found.new ≡ found.old ++ option_to_list candidate) }
{
    if let Some(candidate) = candidate {
        found.push(candidate)?;
    }
    Ok(())
}

/// An item as a binding of a property, if it is one.
fn binding_of(
    expanded: &Expanded,
    numbers: &MemberNumbers,
    holding: &Holding,
    number: usize,
    item: &TypedItem,
) -> Option<Candidate>
    ensures { result ≡ binding_of expanded.now numbers.now holding.now number item.now }
{
    match item {
        TypedItem::Binding(binding) => {
            let member = numbers.number(expanded.member_at(holding.body, binding.property));
            holding.candidate_at(number, binding.span, member)
        }
        _ => None,
    }
}

/// The handlers of callbacks in an expanded tree, in instance order.
pub fn handlers(
    alloc: Global,
    expanded: &Expanded,
    numbers: &MemberNumbers,
) -> Result<Items<Candidate>, Memory>
    requires { numbers.now ≡ numbers_of expanded.now }
    ensures { IfOk result (λ found. found ≡ handlers expanded.now) }
{
    let holders = expanded.holders(alloc)?;
    let mut found = Items::new(alloc);
    let holders = holders.as_slice();
    for holder in holders {
        add_handlers(expanded, numbers, *holder, &mut found)?;
    }
    Ok(found)
}

/// Adds the handlers of a holder.
fn add_handlers(
    expanded: &Expanded,
    numbers: &MemberNumbers,
    holder: Holder,
    found: &mut Items<Candidate>,
) -> Result<(), Memory>
    ensures { OnOk result (found.new ≡ found.old ++ handlers_at expanded.now numbers.now holder) }
{
    let holding = Holding::of(expanded, holder);
    let items = expanded.items(holder);
    for (number, item) in items.iter().enumerate() {
        add(found, handler_at(expanded, numbers, &holding, number, item))?;
    }
    Ok(())
}

/// An item as a handler of a callback, if it is one.
fn handler_at(
    expanded: &Expanded,
    numbers: &MemberNumbers,
    holding: &Holding,
    number: usize,
    item: &TypedItem,
) -> Option<Candidate>
    ensures { result ≡ handler_at expanded.now numbers.now holding.now number item.now }
{
    match item {
        TypedItem::Handler(handler) => event_of(expanded, numbers, holding, number, handler),
        _ => None,
    }
}

/// A handler as one of a callback, if it is.
fn event_of(
    expanded: &Expanded,
    numbers: &MemberNumbers,
    holding: &Holding,
    number: usize,
    handler: &TypedHandler,
) -> Option<Candidate>
    ensures { result ≡ event_of expanded.now numbers.now holding.now number handler.now.span handler.now.event }
{
    match handler.event {
        HandlerOf::Init => None,
        HandlerOf::Callback(callback) => {
            let member = numbers.number(expanded.member_at(holding.body, callback));
            holding.candidate_at(number, handler.span, member)
        }
    }
}

/// The defaults that the language gives to properties of the elements of an expanded tree, in instance order, and of one element in byte order
/// of the properties' names.
pub fn defaults(
    alloc: Global,
    expanded: &Expanded,
    numbers: &MemberNumbers,
) -> Result<Items<Candidate>, Memory>
    requires { numbers.now ≡ numbers_of expanded.now }
    ensures { IfOk result (λ found. found ≡ defaults expanded.now) }
{
    let mut found = Items::new(alloc);
    let elements = expanded.elements();
    for (number, element) in elements.iter().enumerate() {
        add_defaults(expanded, numbers, number, element, &mut found)?;
    }
    Ok(found)
}

/// Adds the defaults of an element.
fn add_defaults(
    expanded: &Expanded,
    numbers: &MemberNumbers,
    number: usize,
    element: &ExpandedElement,
    found: &mut Items<Candidate>,
) -> Result<(), Memory>
    ensures { OnOk result (found.new ≡ found.old ++ defaults_of expanded.now numbers.now number element.now) }
{
    let members = defaulted(element.kind);
    for member in members {
        add(
            found,
            default_of(expanded, numbers, number, element, *member),
        )?;
    }
    Ok(())
}

/// The default of a built-in member of an element.
fn default_of(
    expanded: &Expanded,
    numbers: &MemberNumbers,
    number: usize,
    element: &ExpandedElement,
    member: u32,
) -> Option<Candidate>
    ensures { result ≡ default_of expanded.now numbers.now number element.now member }
{
    let holding = default_holding(expanded, element);
    let span = type_span_of(expanded, element.spot);
    let numbered = numbers.number(ExpandedMember::BuiltIn(number, member));
    holding.candidate_at(member as usize, span, numbered)
}

/// Where the defaults of an element count as written.
fn default_holding(expanded: &Expanded, element: &ExpandedElement) -> Holding
    ensures { result ≡ default_holding expanded.now element.now }
{
    Holding {
        holder: Holder::Element(element.spot),
        body: element.spot.body,
        depth: depth_in(expanded, element.spot.body),
        repeaters: element.repeaters,
    }
}

/// The type name of an element where it is used.
fn type_span_of(expanded: &Expanded, spot: Spot) -> Span
    ensures { result ≡ type_span_of expanded.now.tree.comps spot.element (slice_get expanded.now.bodies spot.body) }
{
    let nowhere = Span {
        file: 0,
        start: 0,
        end: 0,
    };
    let Some(body) = at(expanded.bodies(), spot.body) else {
        return nowhere;
    };
    match at(
        elements_at(expanded.tree().comps.as_slice(), body.comp),
        spot.element,
    ) {
        Some(element) => element.ty_span,
        None => nowhere,
    }
}

/// The numbers of an element's properties to which the language gives a default of their own, in byte order of their names.
fn defaulted(kind: ElementKind) -> &'static [u32]
    ensures { result.now ≡ defaulted kind }
{
    match kind {
        ElementKind::Empty => &PLAIN,
        ElementKind::Window => &PLAIN,
        ElementKind::Rectangle => &PLAIN,
        ElementKind::Text => &TEXT,
        ElementKind::Image => &PLAIN,
        ElementKind::TouchArea => &ENABLED,
        ElementKind::FocusScope => &ENABLED,
        ElementKind::HorizontalLayout => &LAYOUT,
        ElementKind::VerticalLayout => &LAYOUT,
        ElementKind::GridLayout => &GRID,
        ElementKind::Row => &[],
    }
}

/// The defaults of an element that has only the common ones.
const PLAIN: [u32; 14] = [3, 10, 8, 5, 7, 4, 13, 9, 6, 11, 12, 2, 0, 1];

/// Those of a text: its font's size and weight come first.
const TEXT: [u32; 16] = [21, 22, 3, 10, 8, 5, 7, 4, 13, 9, 6, 11, 12, 2, 0, 1];

/// Those of an area for touch or focus: `enabled` comes first.
const ENABLED: [u32; 15] = [19, 3, 10, 8, 5, 7, 4, 13, 9, 6, 11, 12, 2, 0, 1];

/// Those of a layout along an axis, with the paddings of its sides.
const LAYOUT: [u32; 18] = [3, 10, 8, 5, 7, 4, 13, 24, 21, 22, 23, 9, 6, 11, 12, 2, 0, 1];

/// Those of a grid, with its two spacings.
const GRID: [u32; 20] = [
    3, 10, 8, 5, 7, 4, 13, 24, 21, 22, 23, 9, 6, 25, 26, 11, 12, 2, 0, 1,
];
