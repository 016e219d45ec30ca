ghost use Rattle.std.specs.Prelude.{◌≡◌, ◌<◌, ◌↔◌, IfOk, IsTrue, false, true, if◌then◌else◌, length, replicate, slice_set};
ghost use Rattle.finite_graphs.specs.Circles.{AreCircles, AreComponents, SameLabel};

use crate::rows::rows_of;
use crate::walking::labels_of;
use crate::{Edge, Graph};
use slint_base::Memory;
use sqlite_items::Items;
use std::alloc::Global;

/// Which nodes of a graph lie on circles, and which edges.
#[derive(Drop)]
pub struct Circles {
    /// Of each node, whether a walk of at least one edge leads from it back to it.
    pub nodes: Items<bool>,
    /// Of each edge, whether a walk leads from its end to its start.
    pub edges: Items<bool>,
}

/// A label for each node of a graph. Two nodes have the same label exactly where each is reached from the other, and no edge leads to
/// a greater label. The cost is in proportion to nodes and edges.
pub fn components(alloc: Global, graph: &Graph) -> Result<Items<usize>, Memory>
    ensures { IfOk result (λ labels. AreComponents graph.now labels) }
{
    let rows = rows_of(alloc, graph)?;
    let labels = labels_of(alloc, rows.as_slice())?;
    Ok(labels)
}

/// The nodes and edges of a graph that lie on circles. The cost is in proportion to nodes and edges.
pub fn find_circles(alloc: Global, graph: &Graph) -> Result<Circles, Memory>
    ensures { IfOk result (λ circles. AreCircles graph.now circles.nodes circles.edges) }
{
    let labels = components(alloc, graph)?;
    let labels = labels.as_slice();
    let mut nodes = no_marks(alloc, graph.nodes())?;
    let mut edges = Items::new(alloc);
    for edge in graph.edges() {
        let on_circle = is_labelled_once(labels, *edge);
        mark(&mut nodes, edge.from, on_circle);
        edges.push(on_circle)?;
    }
    Ok(Circles { nodes, edges })
}

// Whether both ends of an edge have one label.
pub(crate) fn is_labelled_once(labels: &[usize], edge: Edge) -> bool
    requires from { edge.from < length labels.now }
    requires to { edge.to < length labels.now }
    ensures { IsTrue result ↔ SameLabel labels.now edge }
{
    labels[edge.from] == labels[edge.to]
}

// A node is marked, if it is to be.
fn mark(nodes: &mut Items<bool>, node: usize, on: bool)
    requires { node < length nodes.old }
    ensures { nodes.new ≡ (if on then slice_set nodes.old node true else nodes.old) }
{
    if on {
        nodes.set(node, true);
    }
}

// So many marks that are not set.
fn no_marks(alloc: Global, count: usize) -> Result<Items<bool>, Memory>
    ensures { IfOk result (λ marks. marks ≡ replicate count false) }
{
    let marks = vec![in alloc; false; count]?;
    Ok(Items::from_vec(marks))
}
