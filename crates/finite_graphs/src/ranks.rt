ghost use Rattle.std.specs.Prelude.{◌≡◌, ℕ, ◌+◌, ◌^◌, ◌<◌, max, IfOk, MatchOption, length, replicate};
ghost use Rattle.std.specs.Bool.{OnTrue, OnFalse};
ghost use Rattle.finite_graphs.specs.Circles.{AreLabels, SameLabel, SomeSameLabel};
ghost use Rattle.finite_graphs.specs.Graphs.{EdgesWithin};
ghost use Rattle.finite_graphs.specs.Ranks.{AllFall, AreApart, AreNodes, AreRanks, AreRanksBelow, HasCircle, IsAbove};
ghost use Rattle.finite_graphs.specs.Rows.{RowsWithin};
ghost use Rattle.finite_graphs.specs.Walks.{At, In};

use crate::circles::is_labelled_once;
use crate::rows::rows_of;
use crate::walking::labels_of;
use crate::{Edge, Graph};
use slint_base::Memory;
use sqlite_items::Items;
use std::alloc::Global;

/// For each node of a graph the length of its longest walk, which is greater than those of the nodes to which its edges lead; or `None`
/// where a node lies on a circle. The cost is in proportion to nodes and edges.
pub fn ranks_of(alloc: Global, graph: &Graph) -> Result<Option<Items<usize>>, Memory>
    ensures { IfOk result (λ found. MatchOption found (HasCircle graph.now) (λ ranks. AreRanks graph.now ranks)) }
{
    let rows = rows_of(alloc, graph)?;
    let rows = rows.as_slice();
    let labels = labels_of(alloc, rows)?;
    let labels = labels.as_slice();
    if has_circle(labels, graph.edges()) {
        return Ok(None);
    }
    let order = order_of(alloc, labels)?;
    let ranks = ranks_along(alloc, rows, labels, order.as_slice())?;
    Ok(Some(ranks))
}

// Whether an edge has one label at both ends.
fn has_circle(labels: &[usize], edges: &[Edge]) -> bool
    requires { EdgesWithin (length labels.now) edges.now }
    ensures yes { OnTrue result (SomeSameLabel labels.now edges.now) }
    ensures no { OnFalse result (SomeSameLabel labels.now edges.now → ⊥) }
{
    for edge in edges {
        if is_labelled_once(labels, *edge) {
            return true;
        }
    }
    false
}

// The node of each label.
fn order_of(alloc: Global, labels: &[usize]) -> Result<Items<usize>, Memory>
    requires apart { AreApart labels.now }
    requires small { (a l : ℕ) → At l labels.now a → l < length labels.now }
    ensures { IfOk result (λ order. AreNodes labels.now order (length labels.now)) }
{
    let mut order = zeros(alloc, labels.len())?;
    for (node, label) in labels.iter().enumerate() {
        order.set(*label, node);
    }
    Ok(order)
}

// So many zeros.
fn zeros(alloc: Global, count: usize) -> Result<Items<usize>, Memory>
    ensures { IfOk result (λ numbers. numbers ≡ replicate count 0) }
{
    let numbers = vec![in alloc; 0; count]?;
    Ok(Items::from_vec(numbers))
}

// The ranks of all nodes, in the order of their labels.
fn ranks_along(
    alloc: Global,
    rows: &[Items<usize>],
    labels: &[usize],
    order: &[usize],
) -> Result<Items<usize>, Memory>
    requires labels { AreLabels rows.now labels.now }
    requires falls { AllFall rows.now labels.now }
    requires within { RowsWithin rows.now }
    requires order { AreNodes labels.now order.now (length labels.now) }
    ensures { IfOk result (λ ranks. AreRanksBelow rows.now labels.now ranks (length labels.now)) }
{
    let mut ranks = zeros(alloc, labels.len())?;
    for (label, node) in order.iter().enumerate() {
        prove!(*node < labels.len());
        prove!(*node < rows.len());
        if labels[*node] == label {
            let rank = rank_above(ranks.as_slice(), rows[*node].as_slice());
            ranks.set(*node, rank);
        }
    }
    Ok(ranks)
}

// The least number above the ranks of a row.
fn rank_above(ranks: &[usize], row: &[usize]) -> usize
    requires within { (b : ℕ) → In b row.now → b < length ranks.now }
    requires small { (b q : ℕ) → At q ranks.now b → q < length ranks.now }
    ensures { IsAbove ranks.now row.now result }
{
    let mut above = 0;
    for node in row {
        prove!(*node < ranks.len());
        above = raised(above, ranks[*node]);
    }
    above
}

// A number that is above a rank too.
fn raised(above: usize, rank: usize) -> usize
    requires { rank + 1 < 2 ^ 64 }
    ensures { result ≡ max above (rank + 1) }
{
    if rank < above { above } else { rank + 1 }
}
