ghost use Rattle.std.specs.Prelude.{◌≡◌, ℕ, ◌+◌, ◌<◌, Bool, List, [], IfOk, OnOk, length};
ghost use Rattle.finite_graphs.specs.Reached.{AreReached, AreStarts, IsSpread, SpreadsTo, unmarked};
ghost use Rattle.finite_graphs.specs.Rows.{Steps};
ghost use Rattle.finite_graphs.specs.Walks.{At};

use crate::Graph;
use crate::rows::rows_of;
use slint_base::Memory;
use sqlite_items::Items;
use std::alloc::Global;

/// Of each node of a graph, whether a walk of any length leads to it from a node that is marked. The cost is in proportion to nodes and
/// edges.
pub fn reached_from(alloc: Global, graph: &Graph, marks: &[bool]) -> Result<Items<bool>, Memory>
    requires { length marks.now ≡ graph.now.nodes }
    ensures { IfOk result (λ reached. AreReached graph.now marks.now reached) }
{
    let rows = rows_of(alloc, graph)?;
    let rows = rows.as_slice();
    let mut reached = Items::from_slice(alloc, marks)?;
    let mut waiting = starts(alloc, marks)?;
    while let Some(node) = waiting.pop() {
        prove!(node < rows.len());
        spread(rows, node, &mut reached, &mut waiting)?;
    }
    Ok(reached)
}

// The nodes that are marked.
fn starts(alloc: Global, marks: &[bool]) -> Result<Items<usize>, Memory>
    ensures { IfOk result (λ waiting. AreStarts marks.now (length marks.now) waiting) }
{
    let mut waiting = Items::new(alloc);
    for (node, mark) in marks.iter().enumerate() {
        if *mark {
            waiting.push(node)?;
        }
    }
    Ok(waiting)
}

// The mark of a node spreads along its edges.
fn spread(
    rows: &[Items<usize>],
    node: usize,
    reached: &mut Items<bool>,
    waiting: &mut Items<usize>,
) -> Result<(), Memory>
    requires node { node < length rows.now }
    requires within { (a b : ℕ) → Steps rows.now a b → b < length reached.old }
    ensures state { OnOk result ((marks : List Bool) (row : List ℕ) → At row rows.now node → IsSpread (Steps rows.now) marks reached.old waiting.old node row
        → IsSpread (Steps rows.now) marks reached.new waiting.new node []) }
    ensures count { OnOk result (unmarked reached.new + length waiting.new ≡ unmarked reached.old + length waiting.old) }
{
    let row = rows[node].as_slice();
    for to in row {
        prove!(*to < reached.len());
        spread_to(reached, waiting, *to)?;
    }
    Ok(())
}

// The mark of a node is set, and the node waits, if it wasn't marked before.
fn spread_to(reached: &mut Items<bool>, waiting: &mut Items<usize>, to: usize) -> Result<(), Memory>
    requires { to < length reached.old }
    ensures { OnOk result (SpreadsTo reached.old waiting.old to reached.new waiting.new) }
{
    if reached.as_slice()[to] {
        return Ok(());
    }
    reached.set(to, true);
    waiting.push(to)?;
    Ok(())
}
