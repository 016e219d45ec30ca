ghost use Rattle.std.specs.Prelude.{◌≡◌};
ghost use Rattle.child_rules.specs.Cursors.{at_child, at_row, behind_cell, column_by, ends_past, is_past, new_row, placed_by, row_behind, span_by, start};

use crate::numbers::Numbers;
use slint_base::sat_add;

/// Where the next cell of a grid stands: its row and column, counted from 0; the row in which the cell before begins, if there is one;
/// and whether the last direct child was a `Row`.
#[derive(Clone, Copy)]
pub struct Cursor {
    pub row: i64,
    pub column: i64,
    pub begun: Option<i64>,
    pub after_row: bool,
}

/// How many rows and columns a grid may have.
const MOST_TRACKS: i64 = 1000;

/// The cursor before any cell.
pub(crate) fn start() -> Cursor
    ensures { result ≡ start }
{
    Cursor {
        row: 0,
        column: 0,
        begun: None,
        after_row: false,
    }
}

/// The row behind that in which the cell before begins, or the first one where there is none.
fn row_behind(begun: Option<i64>) -> i64
    ensures { result ≡ row_behind begun }
{
    match begun {
        Some(row) => sat_add(row, 1),
        None => 0,
    }
}

/// The cursor at a new row, which begins at a `Row` or at a direct child behind one.
fn new_row(after_row: bool, cursor: Cursor) -> Cursor
    ensures { result ≡ new_row after_row cursor }
{
    Cursor {
        row: row_behind(cursor.begun),
        column: 0,
        begun: cursor.begun,
        after_row,
    }
}

/// The cursor at a `Row`.
pub(crate) fn at_row(cursor: Cursor) -> Cursor
    ensures { result ≡ at_row cursor }
{
    new_row(true, cursor)
}

/// The cursor at a direct child that is no `Row`.
pub(crate) fn at_child(cursor: Cursor) -> Cursor
    ensures { result ≡ at_child cursor }
{
    if cursor.after_row {
        new_row(false, cursor)
    } else {
        cursor
    }
}

/// The column of a cell: a row that is given sets it to the first one, unless a column is given too.
fn column_by(numbers: Numbers, column: i64) -> i64
    ensures { result ≡ column_by numbers column }
{
    match numbers.column {
        Some(given) => given,
        None => { if numbers.row.is_some() { 0 } else { column } }
    }
}

/// The cursor at a cell, by the numbers that are given to it.
pub(crate) fn placed_by(numbers: Numbers, cursor: Cursor) -> Cursor
    ensures { result ≡ placed_by numbers cursor }
{
    Cursor {
        row: numbers.row.unwrap_or(cursor.row),
        column: column_by(numbers, cursor.column),
        begun: cursor.begun,
        after_row: cursor.after_row,
    }
}

/// How many rows or columns a cell spans.
fn span_by(span: Option<i64>) -> i64
    ensures { result ≡ span_by span }
{
    span.unwrap_or(1)
}

/// The cursor behind a cell that stands at it.
pub(crate) fn behind_cell(numbers: Numbers, cursor: Cursor) -> Cursor
    ensures { result ≡ behind_cell numbers cursor }
{
    Cursor {
        row: cursor.row,
        column: sat_add(cursor.column, span_by(numbers.colspan)),
        begun: Some(cursor.row),
        after_row: cursor.after_row,
    }
}

/// Whether a place lies past the last row or column that a grid may have.
fn is_past(at: i64) -> bool
    ensures { result ≡ is_past at }
{
    MOST_TRACKS < at
}

/// Whether a cell that stands at the cursor ends past the last row or column.
pub(crate) fn ends_past(numbers: Numbers, cursor: Cursor) -> bool
    ensures { result ≡ ends_past numbers cursor }
{
    is_past(sat_add(cursor.row, span_by(numbers.rowspan)))
        || is_past(sat_add(cursor.column, span_by(numbers.colspan)))
}
