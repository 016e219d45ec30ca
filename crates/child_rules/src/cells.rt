ghost use Rattle.std.specs.Prelude.{◌≡◌};
ghost use Rattle.typed_tree.specs.Elements.{is_row_kind};
ghost use Rattle.child_rules.specs.Cells.{is_among_cells, is_grid_kind, is_in_grid, takes_cells};

use element_tables::ElementKind;

/// Whether a kind is that of rows of a grid.
pub(crate) fn is_row_kind(kind: ElementKind) -> bool
    ensures { result ≡ is_row_kind kind }
{
    matches!(kind, ElementKind::Row)
}

/// Whether a kind is that of grids.
pub(crate) fn is_grid_kind(kind: ElementKind) -> bool
    ensures { result ≡ is_grid_kind kind }
{
    matches!(kind, ElementKind::GridLayout)
}

/// Whether what lands in an element of a kind is a cell: in a grid or in a `Row`.
pub(crate) fn takes_cells(kind: ElementKind) -> bool
    ensures { result ≡ takes_cells kind }
{
    matches!(kind, ElementKind::GridLayout | ElementKind::Row)
}

/// Whether an element lands in a grid itself, not in a `Row` of it.
pub(crate) fn is_in_grid(lands: Option<ElementKind>) -> bool
    ensures { result ≡ is_in_grid lands }
{
    match lands {
        Some(kind) => is_grid_kind(kind),
        None => false,
    }
}

/// Whether an element lands in a grid or in a `Row`.
pub(crate) fn is_among_cells(lands: Option<ElementKind>) -> bool
    ensures { result ≡ is_among_cells lands }
{
    match lands {
        Some(kind) => takes_cells(kind),
        None => false,
    }
}
