ghost use Rattle.std.specs.Prelude.{◌≡◌, ◌||◌, map};
ghost use Rattle.std.specs.Option.{option_copied};
ghost use Rattle.value_types.specs.Conversions.{names_within};
ghost use Rattle.value_types.specs.declared.types.Ty.{out-Ty};
ghost use Rattle.type_rules.specs.Conversions.{all_shared_to, array_to, converts, empty_to, fields_to, number_to, percent_to, shared_to, struct_to, zero_to};

use crate::field_index::FieldIndex;
use crate::plain_types::{
    is_angle, is_bool, is_color, is_duration, is_enum, is_image, is_length, is_text, is_void,
};
use value_types::{Fields, Ty};

/// Whether each field of a struct type is one of another's, by its name.
fn names_within(fields: &Fields, others: &Fields) -> bool
    ensures { result ≡ names_within fields.now others.now }
{
    let index = FieldIndex::new(others);
    for field in fields.as_slice() {
        if !index.has(&field.0) {
            return false;
        }
    }
    true
}

/// Whether one of two struct types has all fields of the other.
fn is_wider_or_narrower(fields: &Fields, others: &Fields) -> bool
    ensures { result ≡ (names_within fields.now others.now || names_within others.now fields.now) }
{
    names_within(fields, others) || names_within(others, fields)
}

/// Whether a literal of zeros converts to a type.
fn zero_to(to: &Ty) -> bool
    ensures { result ≡ zero_to (out-Ty to.now) }
{
    matches!(
        to,
        Ty::Zero
            | Ty::Int
            | Ty::Float
            | Ty::Percent
            | Ty::Str
            | Ty::Length
            | Ty::Duration
            | Ty::Angle
    )
}

/// Whether an int, or a float, converts to a type.
fn number_to(to: &Ty) -> bool
    ensures { result ≡ number_to (out-Ty to.now) }
{
    matches!(to, Ty::Int | Ty::Float | Ty::Str)
}

/// Whether a percent converts to a type.
fn percent_to(to: &Ty) -> bool
    ensures { result ≡ percent_to (out-Ty to.now) }
{
    matches!(to, Ty::Percent | Ty::Float)
}

/// Whether `[]` converts to a type.
fn empty_to(to: &Ty) -> bool
    ensures { result ≡ empty_to (out-Ty to.now) }
{
    matches!(to, Ty::Empty | Ty::Array(_))
}

/// Whether a type converts to another one: to itself; a literal of zeros to each type of numbers and to a string; an int or a float to
/// either of them and to a string; a percent to a float; `[]` to each array; an array by its items; a struct to one with more fields or
/// to one with fewer, where the fields that both have convert.
pub fn converts(from: &Ty, to: &Ty) -> bool
    ensures { result ≡ converts from.now to.now }
{
    type_to(from, to)
}

/// Whether a type converts to another one.
#[cycle(converting)]
fn type_to(from: &Ty, to: &Ty) -> bool
    ensures { result ≡ converts from.now to.now }
{
    match from {
        Ty::Void => is_void(to),
        Ty::Zero => zero_to(to),
        Ty::Int => number_to(to),
        Ty::Float => number_to(to),
        Ty::Percent => percent_to(to),
        Ty::Bool => is_bool(to),
        Ty::Str => is_text(to),
        Ty::Color => is_color(to),
        Ty::Length => is_length(to),
        Ty::Duration => is_duration(to),
        Ty::Angle => is_angle(to),
        Ty::Image => is_image(to),
        Ty::Enum(number) => is_enum(*number, to),
        Ty::Struct(fields) => struct_to(fields, to),
        Ty::Array(item) => array_to(item.get(), to),
        Ty::Empty => empty_to(to),
    }
}

/// Whether an array converts to a type.
#[cycle(converting)]
fn array_to(item: &Ty, to: &Ty) -> bool
    ensures { result ≡ array_to (converts item.now) (out-Ty to.now) }
{
    match to {
        Ty::Array(other) => type_to(item, other.get()),
        _ => false,
    }
}

/// Whether a struct converts to a type.
#[cycle(converting)]
fn struct_to(fields: &Fields, to: &Ty) -> bool
    ensures { result ≡ struct_to (map (λ field. (field.0, converts field.1)) fields.now) (out-Ty to.now) }
{
    match to {
        Ty::Struct(others) => fields_to(fields, others),
        _ => false,
    }
}

/// Whether a struct of some fields converts to one of others.
#[cycle(converting)]
fn fields_to(fields: &Fields, others: &Fields) -> bool
    ensures { result ≡ fields_to (map (λ field. (field.0, converts field.1)) fields.now) others.now }
{
    if !is_wider_or_narrower(fields, others) {
        return false;
    }
    let shared = all_shared_to(fields, others);
    shared
}

/// Whether the fields that two structs both have convert.
#[cycle(converting)]
fn all_shared_to(fields: &Fields, others: &Fields) -> bool
    ensures { result ≡ all_shared_to (map (λ field. (field.0, converts field.1)) fields.now) others.now }
{
    let index = FieldIndex::new(others);
    for field in fields.as_slice() {
        if !shared_to(&field.1, index.find(&field.0)) {
            return false;
        }
    }
    true
}

/// Whether a field converts to the other struct's field of its name, if there is one.
#[cycle(converting)]
fn shared_to(field: &Ty, other: Option<&Ty>) -> bool
    ensures { result ≡ shared_to (option_copied other.entry) (converts field.now) }
{
    match other {
        Some(other) => type_to(field, other),
        None => true,
    }
}
