ghost use Rattle.std.specs.Prelude.{◌≡◌, ◌+◌, ◌-◌, IfOk, if◌then◌else◌, length, map, slice_get};
ghost use Rattle.child_rules.specs.Jumps.{AreAfter, AreLandings, jumped, kind_of, landing_by};
ghost use Rattle.child_rules.specs.Landing.{slot_element, taker, taker_of, taking_element};

use element_tables::ElementKind;
use slint_base::Memory;
use sqlite_items::{Items, at};
use std::alloc::Global;
use typed_tree::{ComponentOutline, ElementType, Slot};

/// The element that takes what is written inside the instances of its component: the one around `@children`, and without that the root
/// element.
fn slot_element(slot: Option<Slot>) -> usize
    ensures { result ≡ slot_element slot }
{
    match slot {
        Some(slot) => slot.element,
        None => 0,
    }
}

/// The element of a component that takes what is written inside its instances.
pub(crate) fn taking_element(comps: &[ComponentOutline], component: usize) -> usize
    ensures { result ≡ taking_element comps.now component }
{
    match at(comps, component) {
        Some(comp) => slot_element(comp.slot),
        None => 0,
    }
}

/// The type of the element that takes what is written inside a component's instances.
fn taker_of(comp: &ComponentOutline) -> ElementType
    ensures { result ≡ taker_of comp.now }
{
    match at(comp.elements.as_slice(), slot_element(comp.slot)) {
        Some(element) => element.ty,
        None => ElementType::BuiltIn(ElementKind::Empty),
    }
}

/// The same of a component by its number.
pub(crate) fn taker(comps: &[ComponentOutline], component: usize) -> ElementType
    ensures { result ≡ taker comps.now component }
{
    match at(comps, component) {
        Some(comp) => taker_of(comp),
        None => ElementType::BuiltIn(ElementKind::Empty),
    }
}

/// The type of the element of each component that takes what is written inside its instances.
fn takers(alloc: Global, comps: &[ComponentOutline]) -> Result<Items<ElementType>, Memory>
    ensures { IfOk result (λ types. types ≡ map taker_of comps.now) }
{
    let mut types = Items::new(alloc);
    for comp in comps {
        types.push(taker_of(comp))?;
    }
    Ok(types)
}

/// The kinds of the built-in elements in which children of each component's instances land.
pub(crate) fn landings(
    alloc: Global,
    comps: &[ComponentOutline],
) -> Result<Items<ElementKind>, Memory>
    ensures { IfOk result (λ kinds. AreLandings comps.now kinds) }
{
    let types = takers(alloc, comps)?;
    let ends = ends_of(alloc, comps, types.as_slice())?;
    let kinds = kinds_of(alloc, ends.as_slice())?;
    Ok(kinds)
}

/// Where the takers of each component lead: by steps whose length doubles, since they may be many.
fn ends_of(
    alloc: Global,
    comps: &[ComponentOutline],
    types: &[ElementType],
) -> Result<Items<ElementType>, Memory>
    requires { types.now ≡ map taker_of comps.now }
    ensures { IfOk result (λ ends. AreAfter (1 + (length comps.now - 1)) (taker comps.now) ends) }
{
    let mut ends = Items::from_slice(alloc, types)?;
    let mut jumps = Items::from_slice(alloc, types)?;
    let mut left = types.len().saturating_sub(1);
    while left > 0 {
        ends = after_if(alloc, left % 2 == 1, ends, jumps.as_slice())?;
        jumps = after(alloc, jumps.as_slice(), jumps.as_slice())?;
        left /= 2;
    }
    Ok(ends)
}

/// The same types, or where a jump leads from each of them.
fn after_if(
    alloc: Global,
    jumps_too: bool,
    types: Items<ElementType>,
    jumps: &[ElementType],
) -> Result<Items<ElementType>, Memory>
    ensures { IfOk result (λ made. made ≡ (if jumps_too then map (jumped jumps.now) types else types)) }
{
    if jumps_too {
        after(alloc, types.as_slice(), jumps)
    } else {
        Ok(types)
    }
}

/// Where a jump leads from each of some types.
fn after(
    alloc: Global,
    types: &[ElementType],
    jumps: &[ElementType],
) -> Result<Items<ElementType>, Memory>
    ensures { IfOk result (λ made. made ≡ map (jumped jumps.now) types.now) }
{
    let mut made = Items::new(alloc);
    for ty in types {
        made.push(jumped(jumps, *ty))?;
    }
    Ok(made)
}

/// Where a jump leads from a type.
fn jumped(jumps: &[ElementType], ty: ElementType) -> ElementType
    ensures { result ≡ jumped jumps.now ty }
{
    match ty {
        ElementType::BuiltIn(_) => ty,
        ElementType::Component(component) => match at(jumps, component) {
            Some(next) => *next,
            None => ElementType::BuiltIn(ElementKind::Empty),
        },
    }
}

/// The kinds of types, where no component below them is looked at.
fn kinds_of(alloc: Global, types: &[ElementType]) -> Result<Items<ElementKind>, Memory>
    ensures { IfOk result (λ kinds. kinds ≡ map kind_of types.now) }
{
    let mut kinds = Items::new(alloc);
    for ty in types {
        kinds.push(kind_of(*ty))?;
    }
    Ok(kinds)
}

/// The kind of a type, where no component below it is looked at.
fn kind_of(ty: ElementType) -> ElementKind
    ensures { result ≡ kind_of ty }
{
    match ty {
        ElementType::BuiltIn(kind) => kind,
        ElementType::Component(_) => ElementKind::Empty,
    }
}

/// The kind of the built-in element in which children of an element of a type land, by a table.
pub(crate) fn landing_by(kinds: &[ElementKind], ty: ElementType) -> ElementKind
    ensures { result ≡ landing_by kinds.now ty }
{
    match ty {
        ElementType::BuiltIn(kind) => kind,
        ElementType::Component(component) => match at(kinds, component) {
            Some(kind) => *kind,
            None => ElementKind::Empty,
        },
    }
}
