ghost use Rattle.std.specs.Prelude.{◌≡◌, ◌==◌, suc, ◌-◌, [], ◌∷◌, ◌++◌, IfOk, OnOk, length, slice_get};
ghost use Rattle.expanded_tree.specs.Bodies.{grown, growth_of, inner_of, next_place, place_with, whole_growth, with_body, with_element, with_inside, with_lineage};
ghost use Rattle.inliner.specs.Components.{component_of};

use crate::counting::{next, sum};
use expanded_tree::{Body, Place, Spot, base_at, elements_at};
use slint_base::Memory;
use sqlite_items::{Items, at};
use std::alloc::Global;
use typed_tree::{ElementType, TypedComponent};

/// Bodies, and the places of those of them that were looked at.
#[derive(Drop)]
pub(crate) struct Growth {
    pub bodies: Items<Body>,
    pub places: Items<Place>,
}

/// Where the places of the next body begin.
fn next_place(comps: &[TypedComponent], bodies: &[Body]) -> Result<usize, Memory>
    ensures { IfOk result (λ first. first ≡ next_place comps.now bodies.now) }
{
    match at(bodies, bodies.len().saturating_sub(1)) {
        Some(body) => {
            let first = sum(body.first, elements_at(comps, body.comp).len())?;
            Ok(first)
        }
        None => Ok(0),
    }
}

/// Adds the body of a component that is used at a spot.
fn push_body(
    comps: &[TypedComponent],
    bodies: &mut Items<Body>,
    spot: Option<Spot>,
    depth: usize,
    comp: usize,
) -> Result<(), Memory>
    ensures { OnOk result (bodies.new ≡ with_body comps.now spot depth comp bodies.old) }
{
    let first = next_place(comps, bodies.as_slice())?;
    bodies.push(Body {
        comp,
        spot,
        first,
        depth,
    })?;
    Ok(())
}

/// The component of a type, if it is one.
fn component_of(ty: ElementType) -> Option<usize>
    ensures { result ≡ component_of ty }
{
    match ty {
        ElementType::BuiltIn(_) => None,
        ElementType::Component(comp) => Some(comp),
    }
}

/// Adds the body of a component that is used at a spot, and behind it those of its bases.
fn push_lineage(
    comps: &[TypedComponent],
    bodies: &mut Items<Body>,
    spot: Option<Spot>,
    depth: usize,
    ty: ElementType,
) -> Result<(), Memory>
    ensures { OnOk result (bodies.new ≡ with_lineage (length comps.now) comps.now spot depth ty bodies.old) }
{
    let mut spot = spot;
    let mut depth = depth;
    let mut ty = ty;
    for _ in 0..comps.len() {
        let Some(comp) = component_of(ty) else {
            return Ok(());
        };
        let body = bodies.len();
        push_body(comps, bodies, spot, depth, comp)?;
        spot = Some(Spot { body, element: 0 });
        depth = next(depth)?;
        ty = base_at(comps, comp);
    }
    Ok(())
}

/// The number of the body inside an element of a type.
fn inner_of(number: usize, ty: ElementType) -> Option<usize>
    ensures { result ≡ inner_of number ty }
{
    match ty {
        ElementType::BuiltIn(_) => None,
        ElementType::Component(_) => Some(number),
    }
}

/// Whether an element is the root element of its component.
fn is_root(element: usize) -> bool
    ensures { result ≡ (element == 0) }
{
    element == 0
}

impl Growth {
    /// Adds the place of a body's root element. The body inside stands right behind.
    fn push_root(&mut self, body: usize, ty: ElementType) -> Result<(), Memory>
        ensures bodies { OnOk result (self.new.bodies ≡ self.old.bodies) }
        ensures places { OnOk result (self.new.places ≡ self.old.places ++ place_with body 0 (inner_of (suc body) ty) ∷ []) }
    {
        let behind = next(body)?;
        self.places.push(Place {
            body,
            element: 0,
            inner: inner_of(behind, ty),
            expanded: 0,
        })?;
        Ok(())
    }

    /// Adds the place of a body's element, and the bodies inside.
    fn push_element(
        &mut self,
        comps: &[TypedComponent],
        body: usize,
        depth: usize,
        element: usize,
        ty: ElementType,
    ) -> Result<(), Memory>
        ensures { OnOk result (growth_of self.new.bodies self.new.places ≡ with_element comps.now body depth (growth_of self.old.bodies self.old.places) element ty) }
    {
        if is_root(element) {
            self.push_root(body, ty)?;
            return Ok(());
        }
        let inner = inner_of(self.bodies.len(), ty);
        let within = next(depth)?;
        push_lineage(
            comps,
            &mut self.bodies,
            Some(Spot { body, element }),
            within,
            ty,
        )?;
        self.places.push(Place {
            body,
            element,
            inner,
            expanded: 0,
        })?;
        Ok(())
    }

    /// Adds the places of a body, and the bodies inside.
    fn push_inside(&mut self, comps: &[TypedComponent], body: usize) -> Result<(), Memory>
        ensures { OnOk result (growth_of self.new.bodies self.new.places ≡ with_inside comps.now (growth_of self.old.bodies self.old.places) body (slice_get self.old.bodies body)) }
    {
        let Some(found) = at(self.bodies.as_slice(), body) else {
            return Ok(());
        };
        let depth = found.depth;
        let elements = elements_at(comps, found.comp);
        for (number, element) in elements.iter().enumerate() {
            self.push_element(comps, body, depth, number, element.ty)?;
        }
        Ok(())
    }

    /// Adds the places of all bodies from one on that are there, and the bodies inside them.
    fn push_level(&mut self, comps: &[TypedComponent], first: usize) -> Result<(), Memory>
        ensures { OnOk result (growth_of self.new.bodies self.new.places ≡ grown (length self.old.bodies - first) comps.now first (growth_of self.old.bodies self.old.places)) }
    {
        let end = self.bodies.len();
        for body in first..end {
            self.push_inside(comps, body)?;
        }
        Ok(())
    }
}

/// All bodies and places of a component.
pub(crate) fn whole_growth(
    alloc: Global,
    comps: &[TypedComponent],
    root: usize,
) -> Result<Growth, Memory>
    ensures { IfOk result (λ growth. growth_of growth.bodies growth.places ≡ whole_growth comps.now root) }
{
    let mut bodies = Items::new(alloc);
    push_lineage(comps, &mut bodies, None, 0, ElementType::Component(root))?;
    let mut growth = Growth {
        bodies,
        places: Items::new(alloc),
    };
    let mut first = 0;
    for _ in 0..comps.len() {
        let end = growth.bodies.len();
        if first == end {
            return Ok(growth);
        }
        growth.push_level(comps, first)?;
        first = end;
    }
    Ok(growth)
}
