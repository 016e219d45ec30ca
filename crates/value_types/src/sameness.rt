ghost use Rattle.std.specs.Prelude.{◌≡◌, ◌↔◌, IsTrue};

use crate::{FieldValues, KeyList, PlaceList, RowPlace, Value, Values};
use sqlite_items::{Items, at};

/// Whether two lists of keys are the same.
fn same_keys(a: &KeyList, b: &KeyList) -> bool
    ensures { IsTrue result ↔ (a.now ≡ b.now) }
{
    a.as_slice() == b.as_slice()
}

/// Whether the places of two lists of rows are the same.
fn same_rows(a: &Items<RowPlace>, b: &Items<RowPlace>) -> bool
    ensures { IsTrue result ↔ (a.now ≡ b.now) }
{
    a.as_slice() == b.as_slice()
}

/// Whether the places along two axes are the same.
fn same_places(a: &PlaceList, b: &PlaceList) -> bool
    ensures { IsTrue result ↔ (a.now ≡ b.now) }
{
    if a.len() != b.len() {
        return false;
    }
    for (place, rows) in a.as_slice().iter().enumerate() {
        let Some(others) = at(b.as_slice(), place) else {
            return false;
        };
        if !same_rows(rows, others) {
            return false;
        }
    }
    true
}

/// Whether two values have the same kind and the same parts.
#[cycle(same)]
pub fn same(a: &Value, b: &Value) -> bool
    ensures { IsTrue result ↔ (a.now ≡ b.now) }
{
    match (a, b) {
        (Value::Void, Value::Void) => true,
        (Value::Int(a), Value::Int(b)) => *a == *b,
        (Value::Float(a), Value::Float(b)) => *a == *b,
        (Value::Percent(a), Value::Percent(b)) => *a == *b,
        (Value::Bool(a), Value::Bool(b)) => *a == *b,
        (Value::Str(a), Value::Str(b)) => *a == *b,
        (Value::Color(a), Value::Color(b)) => *a == *b,
        (Value::Length(a), Value::Length(b)) => *a == *b,
        (Value::Duration(a), Value::Duration(b)) => *a == *b,
        (Value::Angle(a), Value::Angle(b)) => *a == *b,
        (Value::Image(a), Value::Image(b)) => *a == *b,
        (Value::Enum(a, first), Value::Enum(b, second)) => *a == *b && *first == *second,
        (Value::Struct(a), Value::Struct(b)) => same_fields(a, b),
        (Value::Array(a), Value::Array(b)) => same_values(a, b),
        (Value::Keys(a, first), Value::Keys(b, second)) => same_keys(a, b)
            && same_values(first, second),
        (Value::Places(a), Value::Places(b)) => same_places(a, b),
        _ => false,
    }
}

/// Whether two lists of values are the same.
#[cycle(same)]
fn same_values(a: &Values, b: &Values) -> bool
    ensures { IsTrue result ↔ (a.now ≡ b.now) }
{
    if a.len() != b.len() {
        return false;
    }
    for (place, value) in a.as_slice().iter().enumerate() {
        let Some(other) = at(b.as_slice(), place) else {
            return false;
        };
        if !same(value, other) {
            return false;
        }
    }
    true
}

/// Whether two lists of fields are the same.
#[cycle(same)]
fn same_fields(a: &FieldValues, b: &FieldValues) -> bool
    ensures { IsTrue result ↔ (a.now ≡ b.now) }
{
    if a.len() != b.len() {
        return false;
    }
    for (place, field) in a.as_slice().iter().enumerate() {
        let Some(other) = at(b.as_slice(), place) else {
            return false;
        };
        if field.0 != other.0 {
            return false;
        }
        if !same(&field.1, &other.1) {
            return false;
        }
    }
    true
}
