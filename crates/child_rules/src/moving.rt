ghost use Rattle.std.specs.Prelude.{◌≡◌, if◌then◌else◌};
ghost use Rattle.child_rules.specs.Cursors.{at_child as at_child_value};
ghost use Rattle.child_rules.specs.Grids.{cell_at, is_number, moved, moved_along, moved_in, row_passed};

use crate::cells::is_in_grid;
use crate::cursors::{Cursor, at_child, at_row, behind_cell, placed_by};
use crate::numbers::numbers_of;
use crate::places::Places;
use source_elements::Written;
use syntax_tree::Item;

/// The cursor at a direct child of a grid, or at one of a `Row` of it.
fn at_cell(direct: bool, cursor: Cursor) -> Cursor
    ensures { result ≡ (if direct then at_child_value cursor else cursor) }
{
    if direct { at_child(cursor) } else { cursor }
}

/// The cursor where a cell stands, out of where its grid's cursor is.
pub(crate) fn cell_at(
    places: &Places<'_>,
    component: usize,
    element: usize,
    body: &[Item],
    cursor: Cursor,
) -> Cursor
    ensures { result ≡ cell_at places.now.comps component element body.now cursor }
{
    let direct = is_in_grid(places.lands_in(component, element));
    placed_by(numbers_of(body), at_cell(direct, cursor))
}

/// The cursor behind a `Row`, which moves it where the `Row` is a direct child.
fn row_passed(direct: bool, cursor: Cursor) -> Cursor
    ensures { result ≡ row_passed direct cursor }
{
    if direct { at_row(cursor) } else { cursor }
}

/// How an element of a grid moves the grid's cursor.
pub(crate) fn moved(
    places: &Places<'_>,
    component: usize,
    element: usize,
    body: &[Item],
    cursor: Cursor,
) -> Cursor
    ensures { result ≡ moved places.now.comps component element body.now cursor }
{
    if places.is_row(component, element) {
        row_passed(is_in_grid(places.lands_in(component, element)), cursor)
    } else {
        let at = cell_at(places, component, element, body, cursor);
        behind_cell(numbers_of(body), at)
    }
}

/// Whether a number is that of an element that may be there.
fn is_number(number: usize, of: Option<usize>) -> bool
    ensures { result ≡ is_number number of }
{
    match of {
        Some(other) => other == number,
        None => false,
    }
}

/// How an element moves the cursor of a grid, which may not be its own.
fn moved_in(
    places: &Places<'_>,
    component: usize,
    grid: usize,
    element: usize,
    body: &[Item],
    cursor: Cursor,
) -> Cursor
    ensures { result ≡ moved_in places.now.comps component grid element body.now cursor }
{
    if is_number(grid, places.grid_of(component, element)) {
        moved(places, component, element, body, cursor)
    } else {
        cursor
    }
}

/// How the elements of a component move the cursor of one of its grids.
pub(crate) fn moved_along(
    places: &Places<'_>,
    component: usize,
    grid: usize,
    written: &[Written<'_>],
    cursor: Cursor,
) -> Cursor
    ensures { result ≡ moved_along places.now.comps component grid 0 written.now cursor }
{
    let mut moving = cursor;
    for (number, element) in written.iter().enumerate() {
        moving = moved_in(places, component, grid, number, element.body(), moving);
    }
    moving
}
