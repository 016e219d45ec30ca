ghost use Rattle.std.specs.Prelude.{◌≡◌, ◌<◌, ℕ, IfOk, length, slice_get};
ghost use Rattle.std.specs.Option.{option_copied, option_map};
ghost use Rattle.import_resolver.specs.Loaded.{rows_of};
ghost use Rattle.source_scopes.specs.Shown.{row_parts, source_parts};
ghost use Rattle.source_scopes.specs.Declarations.{counted_row};
ghost use Rattle.source_scopes.specs.Tables.{AreStarts};

use crate::Counts;
use crate::numbers::{counted_all, no_declarations};
use finite_graphs::{Graph, components};
use import_resolver::{Loaded, SourceFile};
use slint_base::Memory;
use sqlite_items::Items;
use std::alloc::Global;

/// The file of a number.
pub(crate) fn file_at(loaded: &Loaded, number: usize) -> Option<&SourceFile>
    ensures { option_map source_parts (option_copied result) ≡ option_map row_parts (slice_get (rows_of loaded.now) number) }
{
    match loaded.files.as_slice().get_index(number) {
        Some((_, file)) => Some(file),
        None => None,
    }
}

/// How many files there are.
pub(crate) fn file_count(loaded: &Loaded) -> usize
    ensures { result ≡ length (rows_of loaded.now) }
{
    loaded.files.len()
}

/// Of each file what is declared before it.
pub(crate) fn starts_of(alloc: Global, loaded: &Loaded) -> Result<Items<Counts>, Memory>
    ensures { IfOk result (λ starts. AreStarts (rows_of loaded.now) (length (rows_of loaded.now)) starts) }
{
    let mut starts = Items::new(alloc);
    let mut counts = no_declarations();
    for number in 0..file_count(loaded) {
        starts.push(counts)?;
        counts = counted_file(loaded, number, counts)?;
    }
    Ok(starts)
}

/// The numbers of the files, such that a file comes behind those that it imports.
pub(crate) fn file_order(alloc: Global, loaded: &Loaded) -> Result<Items<usize>, Memory> {
    let mut graph = Graph::new(alloc, file_count(loaded));
    for number in 0..file_count(loaded) {
        add_imports(&mut graph, loaded, number)?;
    }
    order_of(alloc, &graph)
}

/// The nodes of a graph, such that a node comes behind those to which its edges lead, but for those from which edges lead back to it.
pub(crate) fn order_of(alloc: Global, graph: &Graph) -> Result<Items<usize>, Memory> {
    let labels = components(alloc, graph)?;
    let mut labelled = Vec::new(alloc);
    for (node, label) in labels.as_slice().iter().enumerate() {
        labelled.push((*label, node))?;
    }
    labelled.sort()?;
    let mut order = Items::new(alloc);
    for pair in &labelled {
        order.push(pair.1)?;
    }
    Ok(order)
}

/// What is declared before a file, and in it.
fn counted_file(loaded: &Loaded, number: usize, counts: Counts) -> Result<Counts, Memory>
    ensures { IfOk result (λ more. more ≡ counted_row counts (slice_get (rows_of loaded.now) number)) }
{
    match file_at(loaded, number) {
        Some(file) => counted_all(counts, file.tree.items.as_slice()),
        None => Ok(counts),
    }
}

/// Adds an edge from a file to each that it imports.
fn add_imports(graph: &mut Graph, loaded: &Loaded, number: usize) -> Result<(), Memory> {
    if let Some(file) = file_at(loaded, number) {
        for import in &file.imports {
            add_edge(graph, number, *import as usize)?;
        }
    }
    Ok(())
}

/// Adds an edge, where both its ends are nodes.
pub(crate) fn add_edge(graph: &mut Graph, from: usize, to: usize) -> Result<(), Memory> {
    if from < graph.nodes() && to < graph.nodes() {
        graph.push(from, to)?;
    }
    Ok(())
}
