ghost use Rattle.std.specs.Prelude.{◌≡◌, ℕ, ◌+◌, ◌<◌, true, IfOk, OnOk, length, min, replicate, slice_get, slice_set, suc, sum_by};
ghost use Rattle.std.specs.Bool.{OnTrue};
ghost use Rattle.std.specs.List.{list_all};
ghost use Rattle.expanded_tree.specs.Components.{elements_at};
ghost use Rattle.expanded_tree.specs.Sizes.{most_elements};
ghost use Rattle.typed_tree.specs.Elements.{type_in};
ghost use Rattle.inliner.specs.Extents.{AreExtents, AreKnown, extent_at, measured, sized_in, unknown, whole_in};

use crate::counting::next;
use crate::extents::{Extent, height_of, is_whole, size_of, unknown};
use crate::repeaters::deep_in;
use element_tables::ElementKind;
use expanded_tree::{MOST_ELEMENTS, elements_at};
use finite_graphs::{Graph, components};
use slint_base::Memory;
use sqlite_items::{Items, at};
use std::alloc::Global;
use typed_tree::{ElementOutline, ElementType, TypedComponent};

/// Whether all that elements contain is known.
fn all_whole(table: &[Extent], elements: &[ElementOutline]) -> bool
    ensures { result ≡ list_all (whole_in (extent_at table.now)) elements.now }
{
    for element in elements {
        if !is_whole(table, element.ty) {
            return false;
        }
    }
    true
}

/// The sum of two numbers of elements; more than there may be count as one more.
fn capped_sum(a: usize, b: usize) -> usize
    ensures { result ≡ min (suc most_elements) (a + b) }
{
    a.saturating_add(b).min(MOST_ELEMENTS + 1)
}

/// How many elements stand for elements; more than there may be count as one more.
fn total_size(table: &[Extent], elements: &[ElementOutline]) -> usize
    ensures { result ≡ min (suc most_elements) (sum_by (sized_in (extent_at table.now)) elements.now) }
{
    let mut total: usize = 0;
    for element in elements {
        total = capped_sum(total, size_of(table, element.ty));
    }
    total
}

/// The type of the first element.
fn first_type(elements: &[ElementOutline]) -> ElementType
    ensures { result ≡ type_in (slice_get elements.now 0) }
{
    match at(elements, 0) {
        Some(element) => element.ty,
        None => ElementType::BuiltIn(ElementKind::Empty),
    }
}

/// How large what stands for a component of these elements is, by what is known.
fn measure(alloc: Global, table: &[Extent], elements: &[ElementOutline]) -> Result<Extent, Memory>
    ensures { IfOk result (λ extent. extent ≡ measured (extent_at table.now) elements.now) }
{
    let height = next(height_of(table, first_type(elements)))?;
    let deep = deep_in(alloc, table, elements)?;
    Ok(Extent {
        is_whole: all_whole(table, elements),
        size: total_size(table, elements),
        height,
        deep,
    })
}

/// A table in which nothing is known of so many components.
fn nothing_known(alloc: Global, count: usize) -> Result<Items<Extent>, Memory>
    ensures { IfOk result (λ table. table ≡ replicate count unknown) }
{
    let mut table = Items::new(alloc);
    for _ in 0..count {
        table.push(unknown(alloc))?;
    }
    Ok(table)
}

/// Measures a component by what is known.
#[tactic(auto, using(crate::proofs::Rows::set_past))]
fn note(
    alloc: Global,
    comps: &[TypedComponent],
    table: &mut Items<Extent>,
    component: usize,
) -> Result<(), Memory>
    ensures { OnOk result (table.new ≡ slice_set table.old component (measured (extent_at table.old) (elements_at comps.now component))) }
{
    if component < table.len() {
        let extent = measure(alloc, table.as_slice(), elements_at(comps, component))?;
        table.set(component, extent);
    }
    Ok(())
}

/// Measures components one after the other. What is contained in a component has to come before it, else it isn't known how large it is.
fn measured_in_order(
    alloc: Global,
    comps: &[TypedComponent],
    order: &[usize],
) -> Result<Items<Extent>, Memory>
    ensures { IfOk result (λ table. AreKnown (length order.now) comps.now table) }
{
    let mut table = nothing_known(alloc, comps.len())?;
    for component in order {
        note(alloc, comps, &mut table, *component)?;
    }
    Ok(table)
}

/// Adds an edge from a component to each that it contains.
fn add_edges(
    graph: &mut Graph,
    component: usize,
    elements: &[ElementOutline],
) -> Result<(), Memory> {
    for element in elements {
        add_edge(graph, component, element.ty)?;
    }
    Ok(())
}

/// Adds an edge from a component to that of a type, if both are nodes.
fn add_edge(graph: &mut Graph, component: usize, ty: ElementType) -> Result<(), Memory> {
    let ElementType::Component(inner) = ty else {
        return Ok(());
    };
    if component < graph.nodes() && inner < graph.nodes() {
        graph.push(component, inner)?;
    }
    Ok(())
}

/// The components, such that a component comes behind those that it contains.
fn contained_first(alloc: Global, comps: &[TypedComponent]) -> Result<Items<usize>, Memory> {
    let mut graph = Graph::new(alloc, comps.len());
    for (component, comp) in comps.iter().enumerate() {
        add_edges(&mut graph, component, comp.outline.elements.as_slice())?;
    }
    let labels = components(alloc, &graph)?;
    let order = in_order_of(alloc, labels.as_slice())?;
    Ok(order)
}

/// The numbers of labels, ordered by the labels.
fn in_order_of(alloc: Global, labels: &[usize]) -> Result<Items<usize>, Memory> {
    let mut labelled = Vec::new(alloc);
    for (number, label) in labels.iter().enumerate() {
        labelled.push((*label, number))?;
    }
    labelled.sort()?;
    let mut order = Items::new(alloc);
    for pair in &labelled {
        order.push(pair.1)?;
    }
    Ok(order)
}

/// Whether all that a component contains is known.
fn is_known(extent: &Extent) -> bool
    ensures { result ≡ extent.now.is_whole }
{
    extent.is_whole
}

/// Whether all is known.
fn is_all_known(table: &[Extent]) -> bool
    ensures { OnTrue result ((c : ℕ) → c < length table.now → (extent_at table.now c).is_whole ≡ true) }
{
    for extent in table {
        if !is_known(extent) {
            return false;
        }
    }
    true
}

/// The table that looks one component deeper.
fn deeper(
    alloc: Global,
    comps: &[TypedComponent],
    table: &[Extent],
) -> Result<Items<Extent>, Memory>
    ensures { IfOk result (λ made. (n : ℕ) → AreExtents n comps.now table.now → AreExtents (suc n) comps.now made) }
{
    let mut made = Items::new(alloc);
    for comp in comps {
        let extent = measure(alloc, table, comp.outline.elements.as_slice())?;
        made.push(extent)?;
    }
    Ok(made)
}

/// The table of all components, level by level. This takes long; it is needed only where components contain themselves, or ones that aren't
/// there.
fn measured_by_levels(alloc: Global, comps: &[TypedComponent]) -> Result<Items<Extent>, Memory>
    ensures { IfOk result (λ table. AreExtents (length comps.now) comps.now table) }
{
    let mut table = nothing_known(alloc, comps.len())?;
    for _ in 0..comps.len() {
        table = deeper(alloc, comps, table.as_slice())?;
    }
    Ok(table)
}

/// A table in which what is whole is right, if all is whole; else the table level by level.
fn all_or_by_levels(
    alloc: Global,
    comps: &[TypedComponent],
    table: Items<Extent>,
) -> Result<Items<Extent>, Memory>
    requires { AreKnown (length comps.now) comps.now table }
    ensures { IfOk result (λ right. AreExtents (length comps.now) comps.now right) }
{
    if is_all_known(table.as_slice()) {
        return Ok(table);
    }
    let right = measured_by_levels(alloc, comps)?;
    Ok(right)
}

/// How large what stands for each component is.
pub(crate) fn extents(alloc: Global, comps: &[TypedComponent]) -> Result<Items<Extent>, Memory>
    ensures { IfOk result (λ table. AreExtents (length comps.now) comps.now table) }
{
    let order = contained_first(alloc, comps)?;
    let table = measured_in_order(alloc, comps, order.as_slice())?;
    if order.len() == comps.len() {
        let right = all_or_by_levels(alloc, comps, table)?;
        return Ok(right);
    }
    let table = measured_by_levels(alloc, comps)?;
    Ok(table)
}
