ghost use Rattle.std.specs.Prelude.{◌≡◌, ◌<◌, [], IfOk, OnOk, length, replicate};
ghost use Rattle.inliner.specs.Children.{AreChildren, AreRows, row_of, with_child, with_child_at};

use slint_base::Memory;
use sqlite_items::{Items, at};
use std::alloc::Global;
use typed_tree::{ElementOutline, TypedComponent};

/// The elements that are written directly in each element of a component.
fn children_in(alloc: Global, elements: &[ElementOutline]) -> Result<Items<Items<usize>>, Memory>
    ensures { IfOk result (λ rows. AreRows elements.now rows) }
{
    let mut rows = empty_rows(alloc, elements.len())?;
    for (number, element) in elements.iter().enumerate() {
        add_child(&mut rows, element.parent, number)?;
    }
    Ok(Items::from_vec(rows))
}

/// So many empty rows.
fn empty_rows(alloc: Global, count: usize) -> Result<Vec<Items<usize>>, Memory>
    ensures { IfOk result (λ rows. rows.items ≡ replicate count []) }
{
    let mut rows = Vec::new(alloc);
    for _ in 0..count {
        rows.push(Items::new(alloc))?;
    }
    Ok(rows)
}

/// Adds an element to a row.
fn add_at(rows: &mut Vec<Items<usize>>, at: usize, child: usize) -> Result<(), Memory>
    requires { at < length rows.old.items }
    ensures { OnOk result (rows.new.items ≡ with_child_at rows.old.items at child) }
{
    rows[at].push(child)?;
    Ok(())
}

/// Adds an element to the row of the one in which it is written.
#[tactic(auto, using(crate::proofs::Rows::nobody))]
fn add_child(
    rows: &mut Vec<Items<usize>>,
    parent: Option<usize>,
    child: usize,
) -> Result<(), Memory>
    ensures { OnOk result (rows.new.items ≡ with_child rows.old.items parent child) }
{
    let Some(parent) = parent else {
        return Ok(());
    };
    if parent < rows.len() {
        add_at(rows, parent, child)?;
    }
    Ok(())
}

/// The elements that are written directly in each element of each component.
pub(crate) fn all_children(
    alloc: Global,
    comps: &[TypedComponent],
) -> Result<Items<Items<Items<usize>>>, Memory>
    ensures { IfOk result (λ tables. AreChildren comps.now tables) }
{
    let mut tables = Items::new(alloc);
    for comp in comps {
        let rows = children_in(alloc, comp.outline.elements.as_slice())?;
        tables.push(rows)?;
    }
    Ok(tables)
}

/// The elements that are written directly in an element of a component, by that table.
pub(crate) fn row_of(tables: &[Items<Items<usize>>], component: usize, element: usize) -> &[usize]
    ensures { result.now ≡ row_of tables.now component element }
{
    let Some(rows) = at(tables, component) else {
        return &[];
    };
    match at(rows.as_slice(), element) {
        Some(row) => row.as_slice(),
        None => &[],
    }
}
