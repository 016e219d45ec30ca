ghost use Rattle.std.specs.Prelude.{◌≡◌, slice_get};
ghost use Rattle.expanded_tree.specs.Members.{among_bases, declaring_body, element_at, height_at, levels_between, member_at};
ghost use Rattle.expanded_tree.specs.Places.{place_at};
ghost use Rattle.expanded_tree.specs.Bodies.{spot_of};

use crate::{Body, ExpandedElement, ExpandedMember, Place, Spot, place_at};
use sqlite_items::{Items, at};
use std::marker::Model;
use typed_tree::{ElementMember, MemberRef, TypedTree};

/// The expanded tree of a source's root component. Contracts see it as the record of what it holds.
#[derive(Drop)]
pub struct Expanded<'a> {
    tree: &'a TypedTree,
    bodies: Items<Body>,
    places: Items<Place>,
    elements: Items<ExpandedElement>,
    heights: Items<usize>,
}

impl<'a> Model for Expanded<'a> {
    ghost use Rattle.std.specs.Coded.{codes};
    ghost use Rattle.typed_tree.specs.contracts.trees.TypedTree as tree_rows;
    ghost use Rattle.expanded_tree.specs.Trees.{ExpandedValue};

    ghost Value = { ExpandedValue };

    ghost coded = { Prim.hlevel (codes, tree_rows.the_row.coded) };

    ghost view = { λ e. record { tree = e.tree.now; bodies = e.bodies; places = e.places; elements = e.elements; heights = e.heights } };
}

impl<'a> Expanded<'a> {
    /// An expanded tree of its parts.
    pub fn new(
        tree: &'a TypedTree,
        bodies: Items<Body>,
        places: Items<Place>,
        elements: Items<ExpandedElement>,
        heights: Items<usize>,
    ) -> Expanded<'a>
        ensures { result ≡ record { tree = tree.now; bodies = bodies; places = places; elements = elements; heights = heights } }
    {
        Expanded {
            tree,
            bodies,
            places,
            elements,
            heights,
        }
    }

    /// The typed tree of the source.
    pub fn tree(&self) -> &'a TypedTree
        ensures { result.now ≡ self.now.tree }
    {
        self.tree
    }

    /// The bodies, by their numbers.
    pub fn bodies(&self) -> &[Body]
        ensures { result.now ≡ self.now.bodies }
    {
        self.bodies.as_slice()
    }

    /// The places, by their numbers: body by body, and in each as its elements are numbered.
    pub fn places(&self) -> &[Place]
        ensures { result.now ≡ self.now.places }
    {
        self.places.as_slice()
    }

    /// The elements in instance order.
    pub fn elements(&self) -> &[ExpandedElement]
        ensures { result.now ≡ self.now.elements }
    {
        self.elements.as_slice()
    }

    /// The place of an element of a body.
    pub fn place_of(&self, body: usize, element: usize) -> Option<Place>
        ensures { result ≡ place_at self.now.bodies self.now.places (spot_of body element) }
    {
        place_at(
            self.bodies.as_slice(),
            self.places.as_slice(),
            Spot { body, element },
        )
    }

    /// The number of the element of which an element of a body is a layer.
    pub fn element_at(&self, body: usize, element: usize) -> usize
        ensures { result ≡ element_at self.now body element }
    {
        match self.place_of(body, element) {
            Some(place) => place.expanded,
            None => 0,
        }
    }

    /// The member of the expanded tree that a reference of a body names.
    pub fn member_at(&self, body: usize, member: MemberRef) -> ExpandedMember
        ensures { result ≡ member_at self.now body member }
    {
        match member {
            MemberRef::Element(element, of_element) => match of_element {
                ElementMember::BuiltIn(number) => {
                    ExpandedMember::BuiltIn(self.element_at(body, element), number)
                }
                ElementMember::Declared(component, number) => {
                    ExpandedMember::Declared(self.declaring_body(body, element, component), number)
                }
            },
            MemberRef::Global(global, number) => ExpandedMember::Global(global, number),
        }
    }

    /// The body of a component in which a member is declared that an element of a body has.
    fn declaring_body(&self, body: usize, element: usize, component: usize) -> usize
        ensures { result ≡ declaring_body self.now body element component }
    {
        let Some(found) = at(self.bodies.as_slice(), body) else {
            return body;
        };
        if found.comp == component {
            return body;
        }
        match self.place_of(body, element) {
            Some(place) => match place.inner {
                Some(inner) => self.among_bases(inner, component),
                None => body,
            },
            None => body,
        }
    }

    /// The body of a component among a body and those of its bases, which stand in a row behind it.
    fn among_bases(&self, body: usize, component: usize) -> usize
        ensures { result ≡ among_bases self.now component body }
    {
        let levels = self.levels_between(body, component);
        if levels < self.bodies.len().saturating_sub(body) {
            body + levels
        } else {
            body
        }
    }

    /// How much further in a component lies than that of a body, if it is one of its bases.
    fn levels_between(&self, body: usize, component: usize) -> usize
        ensures { result ≡ levels_between self.now.heights component (slice_get self.now.bodies body) }
    {
        match at(self.bodies.as_slice(), body) {
            Some(found) => self
                .height_at(found.comp)
                .saturating_sub(self.height_at(component)),
            None => 0,
        }
    }

    /// Of how many components' bodies a component consists, its own and those of its bases.
    pub fn height_at(&self, component: usize) -> usize
        ensures { result ≡ height_at self.now.heights component }
    {
        match at(self.heights.as_slice(), component) {
            Some(height) => *height,
            None => 0,
        }
    }
}
