ghost use Rattle.std.specs.Prelude.{◌≡◌};
ghost use Rattle.expanded_tree.specs.Components.{base_at, elements_at, slot_at};

use element_tables::ElementKind;
use sqlite_items::at;
use typed_tree::{ElementOutline, ElementType, Slot, TypedComponent};

/// The elements of a component; none where there is no component of the number.
pub fn elements_at(comps: &[TypedComponent], component: usize) -> &[ElementOutline]
    ensures { result.now ≡ elements_at comps.now component }
{
    match at(comps, component) {
        Some(comp) => comp.outline.elements.as_slice(),
        None => &[],
    }
}

/// The type of a component's root element, which is what it inherits.
pub fn base_at(comps: &[TypedComponent], component: usize) -> ElementType
    ensures { result ≡ base_at comps.now component }
{
    match at(elements_at(comps, component), 0) {
        Some(element) => element.ty,
        None => ElementType::BuiltIn(ElementKind::Empty),
    }
}

/// The place of `@children` in a component, if it is written.
pub fn slot_at(comps: &[TypedComponent], component: usize) -> Option<Slot>
    ensures { result ≡ slot_at comps.now component }
{
    match at(comps, component) {
        Some(comp) => comp.outline.slot,
        None => None,
    }
}
