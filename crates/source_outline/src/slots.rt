ghost use Rattle.std.specs.Prelude.{◌≡◌, ◌+◌, ◌++◌, ◌<◌, ◌^◌, IfOk, Some};
ghost use Rattle.syntax_tree.specs.declared.items.Item.{out-Item};
ghost use Rattle.source_outline.specs.Slots.{body_slots, children_by, element_slots, first_slot, slot_by, slot_of, sooner};

use crate::members::push_if;
use slint_base::Memory;
use source_elements::Written;
use sqlite_items::Items;
use std::alloc::Global;
use syntax_tree::Item;
use typed_tree::Slot;

/// A place of `@children`, and the first byte of the words.
#[derive(Clone, Copy)]
pub struct SlotAt {
    pub slot: Slot,
    pub start: u32,
}

/// `@children`, if an item is that.
fn slot_by(element: usize, before: usize, item: &Item) -> Option<SlotAt>
    ensures { result ≡ slot_by element before (out-Item item.now) }
{
    match item {
        Item::Children(span) => Some(SlotAt {
            slot: Slot { element, before },
            start: span.start,
        }),
        _ => None,
    }
}

/// One more, where an item is a child of the element around it.
fn counted(before: usize, item: &Item) -> usize
    requires { before + 1 < 2 ^ 64 }
    ensures { result ≡ before + children_by (out-Item item.now) }
{
    match item {
        Item::Element(_) => before + 1,
        Item::If(_) => before + 1,
        Item::For(_) => before + 1,
        _ => before,
    }
}

/// Adds the places of `@children` in the body of an element.
fn push_slots(element: usize, items: &[Item], out: &mut Items<SlotAt>) -> Result<(), Memory>
    ensures { IfOk result (λ _. out.new ≡ out.old ++ body_slots element 0 items.now) }
{
    let mut before = 0;
    for item in items {
        push_if(out, slot_by(element, before, item))?;
        before = counted(before, item);
    }
    Ok(())
}

/// All places of `@children` in a component.
fn slots(alloc: Global, written: &[Written<'_>]) -> Result<Items<SlotAt>, Memory>
    ensures { IfOk result (λ made. made ≡ element_slots 0 written.now) }
{
    let mut made = Items::new(alloc);
    for (element, one) in written.iter().enumerate() {
        push_slots(element, one.body(), &mut made)?;
    }
    Ok(made)
}

/// Of two places the one that comes first in the text.
fn sooner(best: Option<SlotAt>, slot: SlotAt) -> Option<SlotAt>
    ensures { result ≡ sooner best slot }
{
    match best {
        Some(best) => {
            if slot.start < best.start {
                Some(slot)
            } else {
                Some(best)
            }
        }
        None => Some(slot),
    }
}

/// The place that comes first in the text.
fn first_slot(slots: &[SlotAt]) -> Option<SlotAt>
    ensures { result ≡ first_slot None slots.now }
{
    let mut best = None;
    for slot in slots {
        best = sooner(best, *slot);
    }
    best
}

/// Where `@children` stands in a component, if it is written.
pub(crate) fn slot_of(alloc: Global, written: &[Written<'_>]) -> Result<Option<Slot>, Memory>
    ensures { IfOk result (λ slot. slot ≡ slot_of written.now) }
{
    let slots = slots(alloc, written)?;
    match first_slot(slots.as_slice()) {
        Some(first) => Ok(Some(first.slot)),
        None => Ok(None),
    }
}
