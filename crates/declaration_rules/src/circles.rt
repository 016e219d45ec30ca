ghost use Rattle.std.specs.Prelude.{◌≡◌, ◌<◌, ◌≤◌, IfOk, map, slice_get};
ghost use Rattle.fault_order.specs.Order.{FirstIfAny, first_of};
ghost use Rattle.declaration_rules.specs.Circles.{CircleFault, UsagesWithin, edge_of, is_set, marked_faults};

use crate::Usage;
use crate::repeats::broken_if;
use fault_order::earlier;
use finite_graphs::{Graph, find_circles};
use slint_base::{Fault, Memory, Rule};
use sqlite_items::at;
use std::alloc::Global;

/// A number that is greater than all numbers of uses; want of memory stands for numbers that are too great.
fn node_count(usages: &[Usage]) -> Result<usize, Memory>
    ensures { IfOk result (λ count. UsagesWithin count usages.now) }
{
    let mut count = 0;
    for one in usages {
        count = above_both(count, one)?;
    }
    Ok(count)
}

/// A number that is at least a count, and greater than both numbers of a use.
fn above_both(count: usize, one: &Usage) -> Result<usize, Memory>
    ensures { IfOk result (λ more. (count ≤ more) × (one.now.from < more) × (one.now.to < more)) }
{
    let middle = above(count, one.from)?;
    let more = above(middle, one.to)?;
    Ok(more)
}

/// A number that is at least a count, and greater than a node.
fn above(count: usize, node: usize) -> Result<usize, Memory>
    ensures { IfOk result (λ more. (count ≤ more) × (node < more)) }
{
    if node < count {
        return Ok(count);
    }
    node.checked_add(1).ok_or(Memory)
}

/// The graph of uses.
fn graph_of(alloc: Global, usages: &[Usage]) -> Result<Graph, Memory>
    ensures { IfOk result (λ graph. graph.edges ≡ map edge_of usages.now) }
{
    let nodes = node_count(usages)?;
    let mut graph = Graph::new(alloc, nodes);
    for one in usages {
        graph.push(one.from, one.to)?;
    }
    Ok(graph)
}

/// Whether the mark of a number is set.
fn is_set(marks: &[bool], number: usize) -> bool
    ensures { result ≡ is_set (slice_get marks.now number) }
{
    match at(marks, number) {
        Some(mark) => *mark,
        None => false,
    }
}

/// The first of the uses that are marked.
fn first_marked(usages: &[Usage], marks: &[bool]) -> Option<Fault>
    ensures { result ≡ first_of (marked_faults marks.now usages.now) }
{
    let mut first = None;
    for (number, one) in usages.iter().enumerate() {
        let fault = broken_if(is_set(marks, number), Rule::BaseLoop, one.span);
        first = earlier(first, fault);
    }
    first
}

/// The first use that lies on a circle.
pub(crate) fn circle_fault(alloc: Global, usages: &[Usage]) -> Result<Option<Fault>, Memory>
    ensures { IfOk result (λ fault. FirstIfAny (CircleFault usages.now) fault) }
{
    let graph = graph_of(alloc, usages)?;
    let circles = find_circles(alloc, &graph)?;
    let fault = first_marked(usages, circles.edges.as_slice());
    Ok(fault)
}
