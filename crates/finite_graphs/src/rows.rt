ghost use Rattle.std.specs.Prelude.{◌≡◌, ◌<◌, [], IfOk, OnOk, length, replicate};
ghost use Rattle.finite_graphs.specs.Rows.{AreRows, RowGrows, RowsWithin};

use crate::Graph;
use slint_base::Memory;
use sqlite_items::Items;
use std::alloc::Global;

/// For each node of a graph, the nodes to which its edges lead.
pub(crate) fn rows_of(alloc: Global, graph: &Graph) -> Result<Vec<Items<usize>>, Memory>
    ensures rows { IfOk result (λ rows. AreRows graph.now rows.items) }
    ensures within { IfOk result (λ rows. RowsWithin rows.items) }
{
    let mut rows = empty_rows(alloc, graph.nodes())?;
    for edge in graph.edges() {
        add(&mut rows, edge.from, edge.to)?;
    }
    Ok(rows)
}

// So many rows with nothing in them.
fn empty_rows(alloc: Global, count: usize) -> Result<Vec<Items<usize>>, Memory>
    ensures { IfOk result (λ rows. rows.items ≡ replicate count []) }
{
    let mut rows = Vec::new(alloc);
    for _ in 0..count {
        rows.push(Items::new(alloc))?;
    }
    Ok(rows)
}

// A number comes to the end of one row.
fn add(rows: &mut Vec<Items<usize>>, at: usize, to: usize) -> Result<(), Memory>
    requires { at < length rows.old.items }
    ensures { OnOk result (RowGrows rows.old.items rows.new.items at to) }
{
    rows[at].push(to)?;
    Ok(())
}
