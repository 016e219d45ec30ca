ghost use Rattle.std.specs.Prelude.{◌≡◌, ◌+◌, IfOk, [], length, map, slice_get};
ghost use Rattle.fault_order.specs.Order.{first_of};
ghost use Rattle.typed_tree.specs.Elements.{parent_of, repeated_in, repeaters_around};
ghost use Rattle.expanded_tree.specs.Repeaters.{at_word, depth_in, repeat_faults};
ghost use Rattle.expanded_tree.specs.Order.{count_of};
ghost use Rattle.inliner.specs.Extents.{deep_in, extent_at, extent_of, first_at, first_deep};

use crate::extents::{Extent, deep_of};
use expanded_tree::MOST_REPEATERS;
use fault_order::earlier;
use slint_base::{Fault, Memory, Rule, Span};
use sqlite_items::{Items, at};
use std::alloc::Global;
use typed_tree::{ElementOutline, Repeat};

/// The element around an element.
fn parent_of(elements: &[ElementOutline], element: usize) -> Option<usize>
    ensures { result ≡ parent_of elements.now element }
{
    match at(elements, element) {
        Some(element) => element.parent,
        None => None,
    }
}

/// Whether an element is repeated.
fn is_repeated(elements: &[ElementOutline], element: usize) -> bool
    ensures { result ≡ repeated_in (slice_get elements.now element) }
{
    match at(elements, element) {
        Some(element) => match &element.repeat {
            Repeat::Once => false,
            Repeat::If(_) => true,
            Repeat::For(_, _, _) => true,
        },
        None => false,
    }
}

/// A repeated element is one repeater.
pub(crate) fn count_of(is_repeated: bool) -> usize
    ensures { result ≡ count_of is_repeated }
{
    if is_repeated { 1 } else { 0 }
}

/// How many repeaters are around an element in its component, its own included.
fn repeaters_around(elements: &[ElementOutline], element: usize) -> usize
    ensures { result ≡ length (repeaters_around elements.now element) }
{
    let mut count = 0;
    let mut around = Some(element);
    for _ in 0..elements.len() {
        let Some(outer) = around else {
            return count;
        };
        count += count_of(is_repeated(elements, outer));
        around = parent_of(elements, outer);
    }
    count
}

/// How many repeaters are around an element, its own included, where so many are around its component's use. More than too many count as one
/// too many.
fn depth_in(around: usize, elements: &[ElementOutline], element: usize) -> usize
    ensures { result ≡ depth_in around elements.now element }
{
    around
        .saturating_add(repeaters_around(elements, element))
        .min(MOST_REPEATERS + 1)
}

/// The fault at the word of a repeater, if it is one too many.
fn at_word(depth: usize, word: Span) -> Option<Fault>
    ensures { result ≡ first_of (at_word depth word) }
{
    if MOST_REPEATERS < depth {
        Some(Fault {
            rule: Rule::RepeaterDepth,
            span: word,
        })
    } else {
        None
    }
}

/// The same of an element, if it is repeated.
fn repeat_fault(depth: usize, repeat: &Repeat) -> Option<Fault>
    ensures { result ≡ first_of (repeat_faults depth repeat.now) }
{
    match repeat {
        Repeat::Once => None,
        Repeat::If(word) => at_word(depth, *word),
        Repeat::For(_, _, word) => at_word(depth, *word),
    }
}

/// The first repeater that is one too many in an element, where so many are around it, its own included.
fn first_at(table: &[Extent], depth: usize, element: &ElementOutline) -> Option<Fault>
    ensures { result ≡ first_at depth element.now (extent_of (extent_at table.now) element.now.ty) }
{
    let own = repeat_fault(depth, &element.repeat);
    let inner = deep_of(table, element.ty, depth);
    earlier(own, inner)
}

/// The first repeater that is one too many in a component's elements, where so many are around its use.
fn first_deep(table: &[Extent], around: usize, elements: &[ElementOutline]) -> Option<Fault>
    ensures { result ≡ first_deep (extent_at table.now) around elements.now 0 elements.now }
{
    let mut first = None;
    for (number, element) in elements.iter().enumerate() {
        let depth = depth_in(around, elements, number);
        first = earlier(first, first_at(table, depth, element));
    }
    first
}

/// The same for each number of repeaters around its use, up to one more than there may be.
pub(crate) fn deep_in(
    alloc: Global,
    table: &[Extent],
    elements: &[ElementOutline],
) -> Result<Items<Option<Fault>>, Memory>
    ensures { IfOk result (λ deep. deep ≡ deep_in (extent_at table.now) elements.now) }
{
    let mut deep = Items::new(alloc);
    for around in 0..MOST_REPEATERS + 2 {
        deep.push(first_deep(table, around, elements))?;
    }
    Ok(deep)
}
