ghost use Rattle.std.specs.Prelude.{◌≡◌, IfOk, length};
ghost use Rattle.std.specs.Option.{option_copied};
ghost use Rattle.fault_order.specs.Order.{first_of};
ghost use Rattle.expanded_tree.specs.Limits.{at_name, count_faults, size_faults};
ghost use Rattle.expanded_tree.specs.Repeaters.{repeater_faults};
ghost use Rattle.expanded_tree.specs.Trees.{heights_of};
ghost use Rattle.inliner.specs.Extents.{AreExtents};

use crate::extents::{Extent, deep_of, height_of, size_of};
use expanded_tree::MOST_ELEMENTS;
use fault_order::earlier;
use slint_base::{Fault, Memory, Rule};
use sqlite_items::{Items, at};
use std::alloc::Global;
use typed_tree::{ElementType, TypedComponent, TypedTree};

/// The rule of too many elements at a component's name.
fn at_name(comp: Option<&TypedComponent>) -> Option<Fault>
    ensures { result ≡ first_of (at_name (option_copied comp.entry)) }
{
    match comp {
        Some(comp) => Some(Fault {
            rule: Rule::TooManyElements,
            span: comp.outline.name.span,
        }),
        None => None,
    }
}

/// The fault of a component that has more elements than there may be.
fn count_fault(table: &[Extent], comps: &[TypedComponent], root: usize) -> Option<Fault>
    requires { AreExtents (length comps.now) comps.now table.now }
    ensures { result ≡ first_of (count_faults comps.now root) }
{
    if MOST_ELEMENTS < size_of(table, ElementType::Component(root)) {
        at_name(at(comps, root))
    } else {
        None
    }
}

/// The first repeater of a component that is one too many.
fn repeater_fault(table: &[Extent], comps: &[TypedComponent], root: usize) -> Option<Fault>
    requires { AreExtents (length comps.now) comps.now table.now }
    ensures { result ≡ first_of (repeater_faults comps.now root) }
{
    deep_of(table, ElementType::Component(root), 0)
}

/// The first fault of a tree that goes beyond the limits.
pub(crate) fn size_fault(table: &[Extent], tree: &TypedTree) -> Option<Fault>
    requires { AreExtents (length tree.now.comps) tree.now.comps table.now }
    ensures { result ≡ first_of (size_faults tree.now) }
{
    let comps = tree.comps.as_slice();
    let of_count = count_fault(table, comps, tree.root);
    let of_repeaters = repeater_fault(table, comps, tree.root);
    earlier(of_count, of_repeaters)
}

/// Of how many components' bodies each component consists, its own and those of its bases.
pub(crate) fn heights_of(
    alloc: Global,
    table: &[Extent],
    comps: &[TypedComponent],
) -> Result<Items<usize>, Memory>
    requires { AreExtents (length comps.now) comps.now table.now }
    ensures { IfOk result (λ heights. heights ≡ heights_of comps.now) }
{
    let mut heights = Items::new(alloc);
    for component in 0..comps.len() {
        let height = height_of(table, ElementType::Component(component));
        heights.push(height)?;
    }
    Ok(heights)
}
