ghost use Rattle.std.specs.Prelude.{◌≡◌, IfOk, length};
ghost use Rattle.fault_order.specs.Order.{NoFault};
ghost use Rattle.expanded_tree.specs.Limits.{Expands, SizeFault};
ghost use Rattle.expanded_tree.specs.Trees.{expanded, heights_of};

use crate::faults::{heights_of, size_fault};
use crate::growing::{Growth, whole_growth};
use crate::measuring::extents;
use crate::ordering::elements_in_order;
use crate::owning::own_all;
use expanded_tree::Expanded;
use slint_base::{End, Fault, Memory};
use sqlite_items::Items;
use std::alloc::Global;
use typed_tree::TypedTree;

/// The expanded tree, within the limits.
fn expand_within<'a>(
    alloc: Global,
    tree: &'a TypedTree,
    heights: Items<usize>,
) -> Result<Expanded<'a>, Memory>
    requires { heights ≡ heights_of tree.now.comps }
    ensures { IfOk result (λ e. e ≡ expanded tree.now) }
{
    let comps = tree.comps.as_slice();
    let Growth { bodies, mut places } = whole_growth(alloc, comps, tree.root)?;
    let elements = elements_in_order(alloc, comps, bodies.as_slice(), places.as_slice())?;
    own_all(bodies.as_slice(), &mut places, elements.as_slice());
    Ok(Expanded::new(tree, bodies, places, elements, heights))
}

/// The expanded tree of a tree in which the limits are kept.
fn expand_sound<'a>(
    alloc: Global,
    tree: &'a TypedTree,
    heights: Items<usize>,
) -> Result<Expanded<'a>, End<Fault>>
    requires sound { NoFault (SizeFault tree.now) }
    requires heights { heights ≡ heights_of tree.now.comps }
    ensures { Expands tree.now result }
{
    let expanded = expand_within(alloc, tree, heights)?;
    Ok(expanded)
}

/// The expanded tree of a source's root component: every component is replaced by its elements.
///
/// # Errors
///
/// The first fault of size: more than 5,000 elements, each repeated element counted once, at the name of the root component; a fourth
/// repeater inside three, at its word `for` or `if`. `Memory`.
pub fn expand(alloc: Global, tree: &TypedTree) -> Result<Expanded<'_>, End<Fault>>
    ensures { Expands tree.now result }
{
    let table = extents(alloc, tree.comps.as_slice())?;
    let heights = heights_of(alloc, table.as_slice(), tree.comps.as_slice())?;
    match size_fault(table.as_slice(), tree) {
        Some(fault) => Err(End::Fault(fault)),
        None => expand_sound(alloc, tree, heights),
    }
}
