ghost use Rattle.std.specs.Prelude.{◌≡◌, ◌∷◌, [], length, Some};
ghost use Rattle.std.specs.Option.{option_copied, option_map};
ghost use Rattle.name_lookup.specs.Names.{is_name};
ghost use Rattle.source_elements.specs.Views.{how_often};
ghost use Rattle.item_rules.specs.Rows.{is_row_name, own_rows, parent_in, row_names, rows_around, rows_of_element, rows_within, text_of};

use slint_base::Name;
use source_elements::{Repeating, Written};
use sqlite_items::at;
use syntax_tree::{For, Ident};
use typed_tree::Site;

/// Whether a name may be there and is this one.
fn is_name(other: Option<&Ident>, name: &Name) -> bool
    ensures { result ≡ is_name name.now (option_map text_of (option_copied other.entry)) }
{
    match other {
        Some(other) => other.name == *name,
        None => false,
    }
}

/// Whether a name is that of a row's number or of its item.
fn is_of_row(repeated: &For, element: usize, name: &Name) -> bool
    ensures { result ≡ is_row_name name.now (row_names element repeated.now ∷ []) }
{
    is_name(repeated.number.as_ref(), name) || repeated.item.name == *name
}

/// Whether a name is one that an element puts around what lies in it.
fn is_own_row(repeating: &Repeating<'_>, element: usize, name: &Name) -> bool
    ensures { result ≡ is_row_name name.now (own_rows element (how_often repeating.now)) }
{
    match repeating {
        Repeating::Once => false,
        Repeating::If(_) => false,
        Repeating::For(repeated) => is_of_row(repeated, element, name),
    }
}

/// The same of an element that may be there.
fn is_row_of(element: Option<&Written<'_>>, number: usize, name: &Name) -> bool
    ensures { result ≡ is_row_name name.now (rows_of_element number (option_copied element.entry)) }
{
    match element {
        Some(element) => is_own_row(element.repeating(), number, name),
        None => false,
    }
}

/// The number of the element around an element that may be there.
fn parent_in(element: Option<&Written<'_>>) -> Option<usize>
    ensures { result ≡ parent_in (option_copied element.entry) }
{
    match element {
        Some(element) => element.parent(),
        None => None,
    }
}

/// Whether a name is one of a repeater around an element.
fn is_around(elements: &[Written<'_>], element: usize, name: &Name) -> bool
    ensures { result ≡ is_row_name name.now (rows_within (length elements.now) elements.now (Some element)) }
{
    let mut around = Some(element);
    for _ in 0..elements.len() {
        let Some(number) = around else {
            return false;
        };
        let found = at(elements, number);
        if is_row_of(found, number, name) {
            return true;
        }
        around = parent_in(found);
    }
    false
}

/// Whether a name is one of a repeater around a body.
pub(crate) fn is_row_name(elements: &[Written<'_>], here: Site, name: &Name) -> bool
    ensures { result ≡ is_row_name name.now (rows_around elements.now here) }
{
    match here {
        Site::Element(_, element) => is_around(elements, element, name),
        Site::Global(_) => false,
    }
}
