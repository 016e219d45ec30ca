ghost use Rattle.std.specs.Prelude.{◌≡◌, ◌<◌, ◌++◌, IfOk, length};
ghost use Rattle.source_outline.specs.Doubling.{again, doubled};
ghost use Rattle.source_outline.specs.Ends.{afters, edge_to, ends_of, link_edges, step};

use finite_graphs::Graph;
use slint_base::Memory;
use sqlite_items::{Items, at};
use std::alloc::Global;

/// One step along a chain.
fn step(nexts: &[Option<usize>], number: usize) -> usize
    ensures { result ≡ step nexts.now number }
{
    match at(nexts, number) {
        Some(Some(next)) => *next,
        _ => number,
    }
}

/// Where each chain is after one step.
fn first_steps(alloc: Global, nexts: &[Option<usize>]) -> Result<Items<usize>, Memory>
    ensures { IfOk result (λ ends. ends ≡ afters 1 nexts.now 0 (length nexts.now)) }
{
    let mut ends = Items::new(alloc);
    for number in 0..nexts.len() {
        ends.push(step(nexts, number))?;
    }
    Ok(ends)
}

/// Where a chain is after as many steps again.
fn again(ends: &[usize], end: usize) -> usize
    ensures { result ≡ again ends.now end }
{
    match at(ends, end) {
        Some(further) => *further,
        None => end,
    }
}

/// Where each chain is after twice as many steps.
fn doubled(alloc: Global, ends: &[usize]) -> Result<Items<usize>, Memory>
    ensures { IfOk result (λ made. made ≡ doubled ends.now) }
{
    let mut made = Items::new(alloc);
    for end in ends {
        made.push(again(ends, *end))?;
    }
    Ok(made)
}

/// Where each chain ends. The cost is the members' number times its logarithm.
pub(crate) fn ends_of(alloc: Global, nexts: &[Option<usize>]) -> Result<Items<usize>, Memory>
    ensures { IfOk result (λ ends. ends ≡ ends_of nexts.now) }
{
    let mut ends = first_steps(alloc, nexts)?;
    let mut steps = 1;
    for _ in 0..nexts.len() {
        if steps >= nexts.len() {
            return Ok(ends);
        }
        ends = doubled(alloc, ends.as_slice())?;
        steps += steps;
    }
    Ok(ends)
}

/// Adds the edge of a chain's step, if there is one.
fn push_edge(graph: &mut Graph, number: usize, next: Option<usize>) -> Result<(), Memory>
    requires { number < graph.old.nodes }
    ensures { IfOk result (λ _. graph.new ≡ record graph.old { edges = graph.old.edges ++ edge_to graph.old.nodes number next }) }
{
    match next {
        Some(next) => {
            if next < graph.nodes() {
                graph.push(number, next)?;
            }
            Ok(())
        }
        None => Ok(()),
    }
}

/// The chains as a graph.
pub(crate) fn link_graph(alloc: Global, nexts: &[Option<usize>]) -> Result<Graph, Memory>
    ensures { IfOk result (λ graph. graph ≡ record { nodes = length nexts.now; edges = link_edges nexts.now }) }
{
    let mut graph = Graph::new(alloc, nexts.len());
    for (number, next) in nexts.iter().enumerate() {
        push_edge(&mut graph, number, *next)?;
    }
    Ok(graph)
}
