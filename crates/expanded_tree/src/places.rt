ghost use Rattle.std.specs.Prelude.{◌≡◌, ◌+◌, IfOk, slice_get};
ghost use Rattle.expanded_tree.specs.Places.{innermost, inwards, layers, place_at, type_at};

use crate::{Body, Place, Spot, elements_at};
use element_tables::ElementKind;
use slint_base::Memory;
use sqlite_items::{Items, at};
use std::alloc::Global;
use typed_tree::{ElementType, TypedComponent};

/// The place of an element of a body.
fn place_in(places: &[Place], element: usize, body: &Body) -> Option<Place>
    ensures { result ≡ slice_get places.now (body.now.first + element) }
{
    let first = body.first;
    if element < places.len().saturating_sub(first) {
        at(places, first + element).copied()
    } else {
        None
    }
}

/// The place of a spot.
pub fn place_at(bodies: &[Body], places: &[Place], spot: Spot) -> Option<Place>
    ensures { result ≡ place_at bodies.now places.now spot }
{
    match at(bodies, spot.body) {
        Some(body) => place_in(places, spot.element, body),
        None => None,
    }
}

/// One layer further in: the root element of the body inside, if there is one.
pub fn inwards(bodies: &[Body], places: &[Place], spot: Spot) -> Option<Spot>
    ensures { result ≡ inwards bodies.now places.now spot }
{
    match place_at(bodies, places, spot) {
        Some(place) => match place.inner {
            Some(body) => Some(Spot { body, element: 0 }),
            None => None,
        },
        None => None,
    }
}

/// The innermost layer. As many steps are taken as there are layers.
pub fn innermost(bodies: &[Body], places: &[Place], spot: Spot) -> Spot
    ensures { result ≡ innermost bodies.now places.now spot }
{
    let mut last = spot;
    let mut next = Some(spot);
    for _ in 0..bodies.len() {
        let Some(layer) = next else {
            return last;
        };
        last = layer;
        next = inwards(bodies, places, layer);
    }
    last
}

/// A spot and the layers further in.
pub fn layers(
    alloc: Global,
    bodies: &[Body],
    places: &[Place],
    spot: Spot,
) -> Result<Items<Spot>, Memory>
    ensures { IfOk result (λ found. found ≡ layers bodies.now places.now spot) }
{
    let mut found = Items::new(alloc);
    let mut next = Some(spot);
    for _ in 0..bodies.len() {
        let Some(layer) = next else {
            return Ok(found);
        };
        found.push(layer)?;
        next = inwards(bodies, places, layer);
    }
    Ok(found)
}

/// The type of the element at a spot.
pub fn type_at(comps: &[TypedComponent], bodies: &[Body], spot: Spot) -> ElementType
    ensures { result ≡ type_at comps.now bodies.now spot }
{
    let Some(body) = at(bodies, spot.body) else {
        return ElementType::BuiltIn(ElementKind::Empty);
    };
    match at(elements_at(comps, body.comp), spot.element) {
        Some(element) => element.ty,
        None => ElementType::BuiltIn(ElementKind::Empty),
    }
}
