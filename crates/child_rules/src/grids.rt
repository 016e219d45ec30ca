ghost use Rattle.std.specs.Prelude.{◌≡◌, IfOk, Some, slice_get};
ghost use Rattle.fault_order.specs.Order.{first_of};
ghost use Rattle.child_rules.specs.Cells.{grid_of};
ghost use Rattle.child_rules.specs.Ends.{first_cursor_by, first_cursors_by, grid_faults_by};
ghost use Rattle.child_rules.specs.Grids.{cells_faults, cursor_for, cursors_after, cursors_behind, end_faults, is_past_end};

use crate::cells::is_grid_kind;
use crate::cursors::{Cursor, ends_past, start};
use crate::ends::end_by;
use crate::faults::grid_place_if;
use crate::moving::{cell_at, moved};
use crate::numbers::numbers_of;
use crate::places::Places;
use fault_order::earlier;
use slint_base::{Fault, Memory};
use source_elements::Written;
use sqlite_items::{Items, at};
use std::alloc::Global;
use syntax_tree::Item;
use typed_tree::ElementOutline;

/// The cursor of an element before the children that are written in it, if it is a grid.
fn first_cursor(places: &Places<'_>, ends: &[Cursor], element: &ElementOutline) -> Cursor
    ensures { result ≡ first_cursor_by ends.now places.now.comps element.now }
{
    if is_grid_kind(places.landing(element.ty)) {
        end_by(ends, element.ty)
    } else {
        start()
    }
}

/// The first cursors of a component's elements.
fn first_cursors(
    alloc: Global,
    places: &Places<'_>,
    ends: &[Cursor],
    component: usize,
) -> Result<Items<Cursor>, Memory>
    ensures { IfOk result (λ cursors. cursors ≡ first_cursors_by ends.now places.now.comps component) }
{
    let elements = places.elements(component);
    let mut cursors = Items::new(alloc);
    for element in elements {
        cursors.push(first_cursor(places, ends, element))?;
    }
    Ok(cursors)
}

/// The cursor of a grid, if there is one.
fn cursor_for(cursors: &[Cursor], grid: Option<usize>) -> Option<Cursor>
    ensures { result ≡ cursor_for cursors.now grid }
{
    match grid {
        Some(grid) => at(cursors, grid).copied(),
        None => None,
    }
}

/// Moves the cursor of a grid, if there is one.
fn move_at(
    cursors: &mut Items<Cursor>,
    grid: usize,
    places: &Places<'_>,
    component: usize,
    element: usize,
    body: &[Item],
)
    ensures { cursors.new ≡ cursors_behind places.now.comps component element body.now cursors.old (Some grid) (slice_get cursors.old grid) }
{
    let Some(cursor) = cursors.get(grid).copied() else {
        return;
    };
    cursors.set(grid, moved(places, component, element, body, cursor));
}

/// Moves the cursor of the grid in which an element is, if it is in one.
fn move_on(
    cursors: &mut Items<Cursor>,
    places: &Places<'_>,
    component: usize,
    number: usize,
    element: &Written<'_>,
)
    ensures { cursors.new ≡ cursors_after places.now.comps component number element.now.body cursors.old }
{
    match places.grid_of(component, number) {
        Some(grid) => move_at(cursors, grid, places, component, number, element.body()),
        None => {}
    }
}

/// Whether an element is a cell that ends past the last row or column, where its grid's cursor is there.
fn is_past_end(
    places: &Places<'_>,
    component: usize,
    element: usize,
    body: &[Item],
    cursor: Option<Cursor>,
) -> bool
    ensures { result ≡ is_past_end places.now.comps component element body.now cursor }
{
    match cursor {
        Some(cursor) => {
            let at = cell_at(places, component, element, body, cursor);
            !places.is_row(component, element) && ends_past(numbers_of(body), at)
        }
        None => false,
    }
}

/// The fault of a cell that ends past the last row or column, at its type.
fn end_fault(
    places: &Places<'_>,
    component: usize,
    element: usize,
    body: &[Item],
    cursor: Option<Cursor>,
) -> Option<Fault>
    ensures { result ≡ first_of (end_faults places.now.comps component element body.now cursor) }
{
    match at(places.elements(component), element) {
        Some(found) => grid_place_if(
            is_past_end(places, component, element, body, cursor),
            found.ty_span,
        ),
        None => None,
    }
}

/// The fault of an element that is a cell and ends past the last row or column, by the cursor of its grid.
fn cell_fault(
    cursors: &[Cursor],
    places: &Places<'_>,
    component: usize,
    number: usize,
    element: &Written<'_>,
) -> Option<Fault>
    ensures { result ≡ first_of (end_faults places.now.comps component number element.now.body (cursor_for cursors.now (grid_of places.now.comps component number))) }
{
    let cursor = cursor_for(cursors, places.grid_of(component, number));
    end_fault(places, component, number, element.body(), cursor)
}

/// The first of a component's cells that ends past the last row or column of its grid, out of the first cursors.
fn cells_fault(
    mut cursors: Items<Cursor>,
    places: &Places<'_>,
    component: usize,
    written: &[Written<'_>],
) -> Option<Fault>
    ensures { result ≡ first_of (cells_faults places.now.comps component cursors 0 written.now) }
{
    let mut first = None;
    for (number, element) in written.iter().enumerate() {
        let fault = cell_fault(cursors.as_slice(), places, component, number, element);
        first = earlier(first, fault);
        move_on(&mut cursors, places, component, number, element);
    }
    first
}

/// The first of a component's cells that ends past the last row or column of its grid.
pub(crate) fn grid_fault(
    alloc: Global,
    places: &Places<'_>,
    ends: &[Cursor],
    component: usize,
    written: &[Written<'_>],
) -> Result<Option<Fault>, Memory>
    ensures { IfOk result (λ fault. fault ≡ first_of (grid_faults_by ends.now places.now.comps component written.now)) }
{
    let cursors = first_cursors(alloc, places, ends, component)?;
    Ok(cells_fault(cursors, places, component, written))
}
