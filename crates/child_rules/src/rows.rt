ghost use Rattle.std.specs.Prelude.{◌≡◌, ◌++◌, IfOk, OnOk, slice_get};
ghost use Rattle.std.specs.Option.{option_copied, option_map};
ghost use Rattle.typed_tree.specs.Elements.{is_repeated, parent_of, repeated_in};
ghost use Rattle.child_rules.specs.Rows.{for_names, is_in_rows, names_at, names_by, rows_around, text_of};

use slint_base::{Memory, Name};
use sqlite_items::{Items, at};
use std::alloc::Global;
use syntax_tree::Ident;
use typed_tree::{ElementOutline, Repeat, RowNames};
use value_types::Ty;

/// The element around an element.
fn parent_of(elements: &[ElementOutline], element: usize) -> Option<usize>
    ensures { result ≡ parent_of elements.now element }
{
    match at(elements, element) {
        Some(element) => element.parent,
        None => None,
    }
}

/// Whether an element is there any number of times.
fn is_repeated(repeat: &Repeat) -> bool
    ensures { result ≡ is_repeated repeat.now }
{
    match repeat {
        Repeat::Once => false,
        Repeat::If(_) => true,
        Repeat::For(_, _, _) => true,
    }
}

/// The same of an element by its number.
fn repeated_at(elements: &[ElementOutline], element: usize) -> bool
    ensures { result ≡ repeated_in (slice_get elements.now element) }
{
    match at(elements, element) {
        Some(element) => is_repeated(&element.repeat),
        None => false,
    }
}

/// Whether an element is repeated, or lies in one that is.
pub(crate) fn is_in_rows(elements: &[ElementOutline], element: usize) -> bool
    ensures { result ≡ is_in_rows elements.now element }
{
    let mut around = Some(element);
    for _ in 0..elements.len() {
        let Some(outer) = around else {
            return false;
        };
        if repeated_at(elements, outer) {
            return true;
        }
        around = parent_of(elements, outer);
    }
    false
}

/// The same name once more, if there is one.
fn copy_if_any(name: Option<&Ident>) -> Result<Option<Name>, Memory>
    ensures { IfOk result (λ same. same ≡ option_map text_of (option_copied name.entry)) }
{
    match name {
        Some(name) => {
            let copied = name.name.copy()?;
            Ok(Some(copied))
        }
        None => Ok(None),
    }
}

/// The names of a `for`, as those of an element's rows.
fn row_names(element: usize, item: &Ident, number: Option<&Ident>) -> Result<RowNames, Memory>
    ensures { IfOk result (λ names. names ≡ for_names element item.now (option_copied number.entry)) }
{
    let item = item.name.copy()?;
    let number = copy_if_any(number)?;
    Ok(RowNames {
        element,
        item,
        ty: Ty::Void,
        is_assignable: false,
        number,
    })
}

/// Adds the names that an element's `for` puts around it.
fn push_names(rows: &mut Items<RowNames>, element: usize, repeat: &Repeat) -> Result<(), Memory>
    ensures { OnOk result (rows.new ≡ rows.old ++ names_by element repeat.now) }
{
    match repeat {
        Repeat::Once => Ok(()),
        Repeat::If(_) => Ok(()),
        Repeat::For(item, number, _) => {
            let names = row_names(element, item, number.as_ref())?;
            rows.push(names)?;
            Ok(())
        }
    }
}

/// The same of an element by its number.
fn push_names_at(
    rows: &mut Items<RowNames>,
    elements: &[ElementOutline],
    element: usize,
) -> Result<(), Memory>
    ensures { OnOk result (rows.new ≡ rows.old ++ names_at element (slice_get elements.now element)) }
{
    match at(elements, element) {
        Some(found) => push_names(rows, element, &found.repeat),
        None => Ok(()),
    }
}

/// The names of the repeaters around an element, innermost first.
pub(crate) fn rows_around(
    alloc: Global,
    elements: &[ElementOutline],
    element: usize,
) -> Result<Items<RowNames>, Memory>
    ensures { IfOk result (λ rows. rows ≡ rows_around elements.now element) }
{
    let mut rows = Items::new(alloc);
    let mut around = Some(element);
    for _ in 0..elements.len() {
        let Some(outer) = around else {
            return Ok(rows);
        };
        push_names_at(&mut rows, elements, outer)?;
        around = parent_of(elements, outer);
    }
    Ok(rows)
}
