ghost use Rattle.std.specs.Prelude.{◌≡◌, ◌<◌, [], IfOk, IsTrue, ◌↔◌, None, length, map, replicate};
ghost use Rattle.finite_graphs.specs.Circles.{AreLabels};
ghost use Rattle.finite_graphs.specs.Rows.{RowsWithin};
ghost use Rattle.finite_graphs.specs.Searching.{Holds, label_of};
ghost use Rattle.finite_graphs.specs.Walks.{At};
ghost use Rattle.finite_graphs.specs.declared.search.Standing.TheVariants.{New, Closed};

use crate::search::{Search, Standing, look_at};
use slint_base::Memory;
use sqlite_items::Items;
use std::alloc::Global;

/// The labels of the nodes of a graph, which is given by rows.
pub(crate) fn labels_of(alloc: Global, rows: &[Items<usize>]) -> Result<Items<usize>, Memory>
    requires { RowsWithin rows.now }
    ensures { IfOk result (λ labels. AreLabels rows.now labels) }
{
    let mut search = begin(alloc, rows)?;
    for node in 0..rows.len() {
        if is_new(search.places.as_slice(), node) {
            search.close_from(rows, node)?;
        }
    }
    labels(alloc, search.places.as_slice())
}

// A search that has met no node.
fn begin(alloc: Global, rows: &[Items<usize>]) -> Result<Search, Memory>
    requires { RowsWithin rows.now }
    ensures state { IfOk result (λ search. Holds rows.now None search) }
    ensures whole { IfOk result (λ search. search.groups ≡ []) }
{
    Ok(Search {
        places: new_places(alloc, rows.len())?,
        path: Items::new(alloc),
        ahead: Items::new(alloc),
        groups: Items::new(alloc),
        count: 0,
    })
}

// So many nodes that were not met.
fn new_places(alloc: Global, count: usize) -> Result<Items<Standing>, Memory>
    ensures { IfOk result (λ places. places ≡ replicate count New) }
{
    let places = vec![in alloc; Standing::New; count]?;
    Ok(Items::from_vec(places))
}

// Whether a node was not met.
fn is_new(places: &[Standing], node: usize) -> bool
    requires { node < length places.now }
    ensures { IsTrue result ↔ At New places.now node }
{
    match look_at(places, node) {
        Standing::New => true,
        Standing::Open(_) => false,
        Standing::Closed(_) => false,
    }
}

// The labels of nodes that are closed.
fn labels(alloc: Global, places: &[Standing]) -> Result<Items<usize>, Memory>
    ensures { IfOk result (λ labels. labels ≡ map label_of places.now) }
{
    let mut labels = Items::new(alloc);
    for place in places {
        labels.push(label(*place))?;
    }
    Ok(labels)
}

// The label of a closed node.
fn label(place: Standing) -> usize
    ensures { result ≡ label_of place }
{
    match place {
        Standing::Closed(label) => label,
        Standing::New => 0,
        Standing::Open(_) => 0,
    }
}
