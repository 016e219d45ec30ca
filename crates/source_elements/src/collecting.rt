ghost use Rattle.std.specs.Prelude.{◌≡◌, ◌++◌, length, IfOk, Some};
ghost use Rattle.source_elements.specs.Elements.{elements_of_body, elements_of_item, of_conditional, of_element, of_repeated, written_in};
ghost use Rattle.source_elements.specs.Views.{how_often};

use crate::{Repeating, Written};
use slint_base::Memory;
use sqlite_items::Items;
use std::alloc::Global;
use syntax_tree::{Component, Element, For, IfElement, Item};

/// Adds an element, and those inside it.
#[cycle(collecting)]
fn push_element<'a>(
    out: &mut Items<Written<'a>>,
    parent: Option<usize>,
    repeating: Repeating<'a>,
    element: &'a Element,
) -> Result<(), Memory>
    ensures { IfOk result (λ _. out.new ≡ out.old ++ of_element element.now element.now parent (how_often repeating.entry) (length out.old)) }
{
    let number = out.len();
    let id = element.id.as_ref();
    let body = element.body.as_slice();
    let itself = Written::new(id, Some(&element.ty), parent, repeating, body);
    out.push(itself)?;
    push_body(out, number, body)?;
    Ok(())
}

/// Adds the elements of an item, in the element of a number.
#[cycle(collecting)]
fn push_item<'a>(out: &mut Items<Written<'a>>, around: usize, item: &'a Item) -> Result<(), Memory>
    ensures { IfOk result (λ _. out.new ≡ out.old ++ elements_of_item item.now around (length out.old)) }
{
    match item {
        Item::Element(element) => push_element(out, Some(around), Repeating::Once, element),
        Item::If(conditional) => push_if(out, around, conditional),
        Item::For(repeated) => push_for(out, around, repeated),
        _ => Ok(()),
    }
}

/// Adds an element that is there while a condition holds, and those inside it.
#[cycle(collecting)]
fn push_if<'a>(
    out: &mut Items<Written<'a>>,
    around: usize,
    conditional: &'a IfElement,
) -> Result<(), Memory>
    ensures { IfOk result (λ _. out.new ≡ out.old ++ of_conditional conditional.now conditional.now around (length out.old)) }
{
    let repeating = Repeating::If(conditional);
    push_element(out, Some(around), repeating, &conditional.element)
}

/// Adds an element that is there for each row of a model, and those inside it.
#[cycle(collecting)]
fn push_for<'a>(
    out: &mut Items<Written<'a>>,
    around: usize,
    repeated: &'a For,
) -> Result<(), Memory>
    ensures { IfOk result (λ _. out.new ≡ out.old ++ of_repeated repeated.now repeated.now around (length out.old)) }
{
    let repeating = Repeating::For(repeated);
    push_element(out, Some(around), repeating, &repeated.element)
}

/// Adds the elements of a body, which is that of the element of a number.
#[cycle(collecting)]
fn push_body<'a>(
    out: &mut Items<Written<'a>>,
    around: usize,
    items: &'a [Item],
) -> Result<(), Memory>
    ensures { IfOk result (λ _. out.new ≡ out.old ++ elements_of_body items.now around (length out.old)) }
{
    for item in items {
        push_item(out, around, item)?;
    }
    Ok(())
}

/// The elements of a component in the order of the text: first its root element, whose type is the component's base, then each element
/// where it is written, those inside it right behind it.
pub fn written_in<'a>(alloc: Global, component: &'a Component) -> Result<Items<Written<'a>>, Memory>
    ensures { IfOk result (λ written. written ≡ written_in component.now) }
{
    let mut out = Items::new(alloc);
    let body = component.body.as_slice();
    out.push(Written::new(None, component.base.as_ref(), None, Repeating::Once, body))?;
    push_body(&mut out, 0, body)?;
    Ok(out)
}
