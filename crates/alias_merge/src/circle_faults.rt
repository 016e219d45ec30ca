ghost use Rattle.std.specs.Prelude.{◌≡◌, IfOk, map, slice_get};
ghost use Rattle.fault_order.specs.Order.{FirstIfAny, first_of, numbered};
ghost use Rattle.alias_merge.specs.CircleFaults.{CircleFault, EndsWithin, edge_in, fault_if_set, is_set, marked_fault};

use fault_order::earlier;
use finite_graphs::{Graph, find_circles};
use slint_base::{Fault, Memory, Rule, Span};
use sqlite_items::at;
use std::alloc::Global;

/// An edge between two nodes, by their numbers, and the stretch at which it is told if it lies on a circle.
#[derive(Clone, Copy)]
pub struct Spanned {
    pub from: usize,
    pub to: usize,
    pub span: Span,
}

/// The first fault of edges that lie on circles: of those from whose end a walk leads to their start. It is told by a rule at the edge's
/// stretch. Both ends of each edge are nodes, which are numbered from 0. The cost is in proportion to nodes and edges.
pub fn first_on_circle(
    alloc: Global,
    rule: Rule,
    nodes: usize,
    edges: &[Spanned],
) -> Result<Option<Fault>, Memory>
    requires { EndsWithin nodes edges.now }
    ensures { IfOk result (λ fault. FirstIfAny (CircleFault rule edges.now) fault) }
{
    let graph = drawn(alloc, nodes, edges)?;
    let circles = find_circles(alloc, &graph)?;
    let fault = first_marked(rule, edges, circles.edges.as_slice());
    Ok(fault)
}

/// The graph of edges.
pub(crate) fn drawn(alloc: Global, nodes: usize, edges: &[Spanned]) -> Result<Graph, Memory>
    requires { EndsWithin nodes edges.now }
    ensures { IfOk result (λ graph. graph ≡ record { nodes = nodes; edges = map edge_in edges.now }) }
{
    let mut graph = Graph::new(alloc, nodes);
    for edge in edges {
        graph.push(edge.from, edge.to)?;
    }
    Ok(graph)
}

/// The first fault of edges that are marked.
fn first_marked(rule: Rule, edges: &[Spanned], marks: &[bool]) -> Option<Fault>
    ensures { result ≡ first_of (numbered (marked_fault rule marks.now) 0 edges.now) }
{
    let mut first = None;
    for (number, edge) in edges.iter().enumerate() {
        let fault = fault_if_set(rule, is_set(marks, number), edge.span);
        first = earlier(first, fault);
    }
    first
}

/// Whether the mark of a number is set.
fn is_set(marks: &[bool], number: usize) -> bool
    ensures { result ≡ is_set (slice_get marks.now number) }
{
    match at(marks, number) {
        Some(mark) => *mark,
        None => false,
    }
}

/// A fault, if it is one.
fn fault_if_set(rule: Rule, set: bool, span: Span) -> Option<Fault>
    ensures { result ≡ first_of (fault_if_set rule set span) }
{
    if set {
        Some(Fault { rule, span })
    } else {
        None
    }
}
