ghost use Rattle.std.specs.Prelude.{◌≡◌, slice_get};
ghost use Rattle.std.specs.Option.{option_copied};
ghost use Rattle.typed_tree.specs.Finding.{first_seen, id_of};
ghost use Rattle.typed_tree.specs.Elements.{elements_of, has_id, is_among, outwards, parent_of, repeated_in, sees, type_of};

use crate::{ComponentOutline, ElementOutline, ElementType, Repeat};
use element_tables::ElementKind;
use slint_base::Name;
use sqlite_items::at;

/// The elements of a component.
pub(crate) fn elements_of(comps: &[ComponentOutline], component: usize) -> &[ElementOutline]
    ensures { result.now ≡ elements_of comps.now component }
{
    match at(comps, component) {
        Some(comp) => comp.elements.as_slice(),
        None => &[],
    }
}

/// The type of an element.
pub(crate) fn type_of(comps: &[ComponentOutline], component: usize, element: usize) -> ElementType
    ensures { result ≡ type_of comps.now component element }
{
    match at(elements_of(comps, component), element) {
        Some(element) => element.ty,
        None => ElementType::BuiltIn(ElementKind::Empty),
    }
}

/// The element around an element.
pub(crate) fn parent_of(elements: &[ElementOutline], element: usize) -> Option<usize>
    ensures { result ≡ parent_of elements.now element }
{
    match at(elements, element) {
        Some(element) => element.parent,
        None => None,
    }
}

/// Whether an element is another one or lies in it.
pub(crate) fn is_around(elements: &[ElementOutline], inner: usize, outer: usize) -> bool
    ensures { result ≡ is_among (outwards elements.now inner) outer }
{
    let mut around = Some(inner);
    for _ in 0..elements.len() {
        let Some(element) = around else {
            return false;
        };
        if element == outer {
            return true;
        }
        around = parent_of(elements, element);
    }
    false
}

/// Whether an element is there any number of times.
fn is_repeated(elements: &[ElementOutline], element: usize) -> bool
    ensures { result ≡ repeated_in (slice_get elements.now element) }
{
    match at(elements, element) {
        Some(element) => match &element.repeat {
            Repeat::Once => false,
            Repeat::If(_) => true,
            Repeat::For(_, _, _) => true,
        },
        None => false,
    }
}

/// Whether an element's id is seen from another one.
pub(crate) fn sees(elements: &[ElementOutline], from: usize, element: usize) -> bool
    ensures { result ≡ sees elements.now from element }
{
    let mut around = Some(element);
    for _ in 0..elements.len() {
        let Some(outer) = around else {
            return true;
        };
        if is_repeated(elements, outer) && !is_around(elements, from, outer) {
            return false;
        }
        around = parent_of(elements, outer);
    }
    true
}

/// Of the elements of some numbers the first that has an id and is seen from an element.
pub(crate) fn first_seen(
    elements: &[ElementOutline],
    from: usize,
    name: &Name,
    numbers: &[usize],
) -> Option<usize>
    ensures { result ≡ first_seen elements.now from name.now numbers.now }
{
    for number in numbers {
        if has_id(at(elements, *number), name) && sees(elements, from, *number) {
            return Some(*number);
        }
    }
    None
}

/// Whether an element has a name as its id.
fn has_id(element: Option<&ElementOutline>, name: &Name) -> bool
    ensures { result ≡ has_id name.now (id_of (option_copied element.entry)) }
{
    match element {
        Some(element) => match &element.id {
            Some(id) => id.name.as_str() == name.as_str(),
            None => false,
        },
        None => false,
    }
}
