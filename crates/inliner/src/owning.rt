ghost use Rattle.std.specs.Prelude.{◌≡◌, length, Some};
ghost use Rattle.expanded_tree.specs.Places.{with_owner, with_owner_in, with_owner_within};
ghost use Rattle.expanded_tree.specs.Trees.{with_owners};

use expanded_tree::{Body, ExpandedElement, Place, Spot, inwards};
use sqlite_items::{Items, at};

/// The place of a body's element gets the number of the element of which it is a layer.
fn own_in(places: &mut Items<Place>, owner: usize, element: usize, body: &Body)
    ensures { places.new ≡ with_owner_in places.old owner element (Some body.now) }
{
    let first = body.first;
    if element < places.len().saturating_sub(first) {
        let number = first + element;
        let place = places.as_slice()[number];
        places.set(
            number,
            Place {
                body: place.body,
                element: place.element,
                inner: place.inner,
                expanded: owner,
            },
        );
    }
}

/// The same of the place of a spot.
fn own(bodies: &[Body], places: &mut Items<Place>, owner: usize, spot: Spot)
    ensures { places.new ≡ with_owner bodies.now places.old owner spot }
{
    if let Some(body) = at(bodies, spot.body) {
        own_in(places, owner, spot.element, body);
    }
}

/// The same of all layers from a spot inwards.
fn own_layers(bodies: &[Body], places: &mut Items<Place>, owner: usize, spot: Spot)
    ensures { places.new ≡ with_owner_within (length bodies.now) bodies.now owner (Some spot) places.old }
{
    let mut next = Some(spot);
    for _ in 0..bodies.len() {
        let Some(layer) = next else {
            return;
        };
        next = inwards(bodies, places.as_slice(), layer);
        own(bodies, places, owner, layer);
    }
}

/// Each place gets the number of the element of which it is a layer.
pub(crate) fn own_all(bodies: &[Body], places: &mut Items<Place>, elements: &[ExpandedElement])
    ensures { places.new ≡ with_owners bodies.now 0 elements.now places.old }
{
    for (number, element) in elements.iter().enumerate() {
        own_layers(bodies, places, number, element.spot);
    }
}
