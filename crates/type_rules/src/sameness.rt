ghost use Rattle.std.specs.Prelude.{◌≡◌, ◌↔◌, IsTrue, map};
ghost use Rattle.value_types.specs.declared.types.Ty.{out-Ty};
ghost use Rattle.type_rules.specs.Conversions.{array_to, same_fields, same_type, struct_is};

use crate::plain_types::{
    is_angle, is_bool, is_color, is_duration, is_empty, is_enum, is_float, is_image, is_int,
    is_length, is_percent, is_text, is_void, is_zero,
};
use sqlite_items::at;
use value_types::{Fields, Ty};

/// Whether two types are the same.
pub fn same_type(a: &Ty, b: &Ty) -> bool
    ensures { result ≡ same_type a.now b.now }
{
    same(a, b)
}

/// Whether two types are the same.
#[cycle(same)]
fn same(a: &Ty, b: &Ty) -> bool
    ensures { result ≡ same_type a.now b.now }
{
    match a {
        Ty::Void => is_void(b),
        Ty::Zero => is_zero(b),
        Ty::Int => is_int(b),
        Ty::Float => is_float(b),
        Ty::Percent => is_percent(b),
        Ty::Bool => is_bool(b),
        Ty::Str => is_text(b),
        Ty::Color => is_color(b),
        Ty::Length => is_length(b),
        Ty::Duration => is_duration(b),
        Ty::Angle => is_angle(b),
        Ty::Image => is_image(b),
        Ty::Enum(number) => is_enum(*number, b),
        Ty::Struct(fields) => struct_is(fields, b),
        Ty::Array(item) => array_is(item.get(), b),
        Ty::Empty => is_empty(b),
    }
}

/// Whether an array is a type.
#[cycle(same)]
fn array_is(item: &Ty, other: &Ty) -> bool
    ensures { result ≡ array_to (same_type item.now) (out-Ty other.now) }
{
    match other {
        Ty::Array(others) => same(item, others.get()),
        _ => false,
    }
}

/// Whether a struct is a type.
#[cycle(same)]
fn struct_is(fields: &Fields, other: &Ty) -> bool
    ensures { result ≡ struct_is (map (λ field. (field.0, same_type field.1)) fields.now) (out-Ty other.now) }
{
    match other {
        Ty::Struct(others) => same_fields(fields, others),
        _ => false,
    }
}

/// Whether two lists of fields are the same.
#[cycle(same)]
fn same_fields(fields: &Fields, others: &Fields) -> bool
    ensures { result ≡ same_fields (map (λ field. (field.0, same_type field.1)) fields.now) others.now }
{
    if fields.len() != others.len() {
        return false;
    }
    for (place, field) in fields.as_slice().iter().enumerate() {
        let Some(other) = at(others.as_slice(), place) else {
            return false;
        };
        if field.0 != other.0 {
            return false;
        }
        if !same(&field.1, &other.1) {
            return false;
        }
    }
    true
}

/// Types are the same exactly where they are equal: the answer is whether two types are.
pub fn sameness_is_equality(a: &Ty, b: &Ty) -> bool
    ensures { IsTrue result ↔ (a.now ≡ b.now) }
{
    same_type(a, b)
}
