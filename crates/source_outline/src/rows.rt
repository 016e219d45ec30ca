ghost use Rattle.std.specs.Prelude.{◌≡◌, ◌++◌, IfOk, length};
ghost use Rattle.std.specs.Option.{option_copied, option_map};
ghost use Rattle.typed_tree.specs.Elements.{parent_in};
ghost use Rattle.source_outline.specs.Following.{name_only, row_in, row_names, rows_around};

use slint_base::{Memory, Name};
use sqlite_items::{Items, at};
use std::alloc::Global;
use syntax_tree::Ident;
use typed_tree::{ElementOutline, Repeat, RowNames};
use value_types::Ty;

/// The name that an identifier spells, if there is one.
fn name_if_any(ident: &Option<Ident>) -> Result<Option<Name>, Memory>
    ensures { IfOk result (λ name. name ≡ option_map name_only ident.now) }
{
    match ident {
        Some(ident) => Ok(Some(ident.name.copy()?)),
        None => Ok(None),
    }
}

/// The names of a repeater, whose item has the type void.
fn row_names(element: usize, item: &Ident, number: &Option<Ident>) -> Result<RowNames, Memory>
    ensures { IfOk result (λ names. names ≡ row_names element item.now number.now) }
{
    let item = item.name.copy()?;
    let number = name_if_any(number)?;
    Ok(RowNames {
        element,
        item,
        ty: Ty::Void,
        is_assignable: false,
        number,
    })
}

/// Adds the names that an element puts around what stands in it.
fn push_row(
    element: usize,
    outline: Option<&ElementOutline>,
    out: &mut Items<RowNames>,
) -> Result<(), Memory>
    ensures { IfOk result (λ _. out.new ≡ out.old ++ row_in element (option_copied outline.entry)) }
{
    match outline {
        Some(outline) => match &outline.repeat {
            Repeat::For(item, number, _) => {
                out.push(row_names(element, item, number)?)?;
                Ok(())
            }
            _ => Ok(()),
        },
        None => Ok(()),
    }
}

/// The element around an element.
fn parent_in(outline: Option<&ElementOutline>) -> Option<usize>
    ensures { result ≡ parent_in (option_copied outline.entry) }
{
    match outline {
        Some(outline) => outline.parent,
        None => None,
    }
}

/// The names of the repeaters around an element, innermost first.
pub(crate) fn rows_around(
    alloc: Global,
    elements: &[ElementOutline],
    element: usize,
) -> Result<Items<RowNames>, Memory>
    ensures { IfOk result (λ rows. rows ≡ rows_around elements.now element) }
{
    let mut rows = Items::new(alloc);
    let mut around = Some(element);
    for _ in 0..elements.len() {
        let Some(number) = around else {
            return Ok(rows);
        };
        let outline = at(elements, number);
        push_row(number, outline, &mut rows)?;
        around = parent_in(outline);
    }
    Ok(rows)
}
