//! Which facets of a value change when another takes its place.
ghost use Rattle.std.specs.Prelude.{◌≡◌, ◌≢◌, ◌↔◌, IsTrue, length, slice_get};
ghost use Rattle.std.specs.Option.{option_copied};
ghost use Rattle.property_cells.specs.Changes.{items_of, Differs, IsOfItem};

use value_types::{Facet, Value, same};

/// What changes of a cell's value.
#[derive(Clone, Copy)]
pub enum Change<'a> {
    /// A value takes the place of another; and whether the lists of keys differ.
    Replaced(&'a Value, &'a Value, bool),
    /// The item at a place, if it differs from the one before, and nothing else.
    Item(u32, bool),
}

// The item at a place, if there is one.
fn item(value: &Value, place: usize) -> Option<&Value>
    ensures { option_copied result ≡ slice_get (items_of value.now) place }
{
    match value {
        Value::Array(items) => items.get(place),
        Value::Keys(_, items) => items.get(place),
        _ => None,
    }
}

// How many items there are.
fn count(value: &Value) -> usize
    ensures { result ≡ length (items_of value.now) }
{
    match value {
        Value::Array(items) => items.len(),
        Value::Keys(_, items) => items.len(),
        _ => 0,
    }
}

// Whether the item at a place changes.
fn row_differs(old: &Value, new: &Value, place: usize) -> bool
    ensures { IsTrue result ↔ (slice_get (items_of old.now) place ≢ slice_get (items_of new.now) place) }
{
    match (item(old, place), item(new, place)) {
        (None, None) => false,
        (Some(old), Some(new)) => !same(old, new),
        _ => true,
    }
}

// Whether the facet changes where a value takes the place of another.
fn differs(old: &Value, new: &Value, new_keys: bool, facet: Facet) -> bool
    ensures { IsTrue result ↔ Differs old.now new.now new_keys facet }
{
    match facet {
        Facet::Whole => !same(old, new),
        Facet::Length => new_keys || count(old) != count(new),
        Facet::Row(place) => row_differs(old, new, place as usize),
    }
}

// Whether the facet changes where the item at a place does.
fn is_of_item(place: u32, facet: Facet) -> bool
    ensures { IsTrue result ↔ IsOfItem place facet }
{
    match facet {
        Facet::Whole => true,
        Facet::Length => false,
        Facet::Row(row) => row == place,
    }
}

impl Change<'_> {
    ghost use Rattle.property_cells.specs.Changed.{Changed};

    // Whether the facet changes.
    pub(crate) fn changes(&self, facet: Facet) -> bool
        ensures { IsTrue result ↔ Changed self.now facet }
    {
        match self {
            Change::Replaced(old, new, new_keys) => differs(old, new, *new_keys, facet),
            Change::Item(place, differs) => *differs && is_of_item(*place, facet),
        }
    }
}
