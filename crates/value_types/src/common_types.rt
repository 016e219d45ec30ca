ghost use Rattle.std.specs.Prelude.{◌≡◌, ◌<◌, IfOk, IfSome, length, map, slice_get, option_and_then};
ghost use Rattle.std.specs.List.{list_any};
ghost use Rattle.std.specs.Option.{option_map, option_copied};
ghost use Rattle.std.specs.Str.{bytes_eq};
ghost use Rattle.value_types.specs.declared.types.Ty.{out-Ty};
ghost use Rattle.value_types.specs.declared.types.Ty.TheVariants as ty_of;
ghost use Rattle.value_types.specs.Conversions.{all_of, field_named, names_within};
ghost use Rattle.value_types.specs.CommonTypes.{common, side, array_with, empty_with, struct_with, structs_with, named, sides, left_field, right_field};

use crate::scalar_types::{
    angle_with, bool_with, color_with, duration_with, enum_with, float_with, image_with, int_with,
    length_with, percent_with, text_with, void_with, zero_with,
};
use crate::{Fields, Ty};
use slint_base::{Memory, Name};
use sqlite_items::{Boxed, Items};
use std::alloc::Global;

/// The type that two types have in common, if there is one.
pub fn common_type(alloc: Global, a: &Ty, b: &Ty) -> Result<Option<Ty>, Memory>
    ensures { IfOk result (λ found. found ≡ common a.now b.now) }
{
    common(alloc, a, b)
}

/// The place of the field of a name, if there is one.
fn place_of(name: &Name, fields: &Fields) -> Option<usize>
    ensures within { IfSome result (λ place. place < length fields.now) }
    ensures field { field_named name.now fields.now ≡ option_and_then (λ place. option_map (λ field. field.1) (slice_get fields.now place)) result }
{
    for (place, field) in fields.as_slice().iter().enumerate() {
        if *name == field.0 {
            return Some(place);
        }
    }
    None
}

/// Whether a struct type has a field of a name.
fn has_field(name: &Name, fields: &Fields) -> bool
    ensures { result ≡ list_any (λ field. bytes_eq name.now field.0) fields.now }
{
    fields.as_slice().iter().any(|field| *name == field.0)
}

/// Whether each field of a struct type is one of another's.
fn fields_within(fields: &Fields, others: &Fields) -> bool
    ensures { result ≡ names_within fields.now others.now }
{
    fields
        .as_slice()
        .iter()
        .all(|field| has_field(&field.0, others))
}

/// What `[]` and another type have in common.
fn empty_with(alloc: Global, other: &Ty) -> Result<Option<Ty>, Memory>
    ensures { IfOk result (λ found. found ≡ empty_with (out-Ty other.now)) }
{
    match other {
        Ty::Empty => Ok(Some(Ty::Empty)),
        Ty::Array(item) => Ok(Some(Ty::Array(Boxed::new(alloc, item.get().copy(alloc)?)?))),
        _ => Ok(None),
    }
}

/// What two types have in common.
#[cycle(common)]
fn common(alloc: Global, a: &Ty, b: &Ty) -> Result<Option<Ty>, Memory>
    ensures { IfOk result (λ found. found ≡ common a.now b.now) }
{
    match a {
        Ty::Void => Ok(void_with(b)),
        Ty::Zero => Ok(zero_with(b)),
        Ty::Int => Ok(int_with(b)),
        Ty::Float => Ok(float_with(b)),
        Ty::Percent => Ok(percent_with(b)),
        Ty::Bool => Ok(bool_with(b)),
        Ty::Str => Ok(text_with(b)),
        Ty::Color => Ok(color_with(b)),
        Ty::Length => Ok(length_with(b)),
        Ty::Duration => Ok(duration_with(b)),
        Ty::Angle => Ok(angle_with(b)),
        Ty::Image => Ok(image_with(b)),
        Ty::Enum(number) => Ok(enum_with(*number, b)),
        Ty::Struct(fields) => struct_with(alloc, fields, b),
        Ty::Array(item) => array_with(alloc, item.get(), b),
        Ty::Empty => empty_with(alloc, b),
    }
}

/// What an array of a type and another type have in common.
#[cycle(common)]
fn array_with(alloc: Global, item: &Ty, other: &Ty) -> Result<Option<Ty>, Memory>
    ensures { IfOk result (λ found. found ≡ array_with (side item.now) (out-Ty other.now)) }
{
    match other {
        Ty::Array(others) => array_of(alloc, item, others.get()),
        Ty::Empty => Ok(Some(Ty::Array(Boxed::new(alloc, item.copy(alloc)?)?))),
        _ => Ok(None),
    }
}

/// The array of what the items of two arrays have in common.
#[cycle(common)]
fn array_of(alloc: Global, a: &Ty, b: &Ty) -> Result<Option<Ty>, Memory>
    ensures { IfOk result (λ found. found ≡ option_map ty_of.Array (common a.now b.now)) }
{
    match common(alloc, a, b)? {
        Some(item) => Ok(Some(Ty::Array(Boxed::new(alloc, item)?))),
        None => Ok(None),
    }
}

/// What a struct and another type have in common.
#[cycle(common)]
fn struct_with(alloc: Global, fields: &Fields, other: &Ty) -> Result<Option<Ty>, Memory>
    ensures { IfOk result (λ found. found ≡ struct_with (sides fields.now) (out-Ty other.now)) }
{
    match other {
        Ty::Struct(others) => structs_with(alloc, fields, others),
        _ => Ok(None),
    }
}

/// What two structs have in common.
#[cycle(common)]
fn structs_with(alloc: Global, fields: &Fields, others: &Fields) -> Result<Option<Ty>, Memory>
    ensures { IfOk result (λ found. found ≡ structs_with (sides fields.now) others.now) }
{
    if fields_within(others, fields) {
        let found = left_struct(alloc, fields, others)?;
        return Ok(found);
    }
    if fields_within(fields, others) {
        let found = right_struct(alloc, fields, others)?;
        return Ok(found);
    }
    Ok(None)
}

/// What a struct and one with fewer fields have in common.
#[cycle(common)]
fn left_struct(alloc: Global, fields: &Fields, others: &Fields) -> Result<Option<Ty>, Memory>
    ensures { IfOk result (λ found. found ≡ option_map ty_of.Struct (all_of (map (left_field others.now) (sides fields.now)))) }
{
    match left_fields(alloc, fields, others)? {
        Some(made) => Ok(Some(Ty::Struct(made))),
        None => Ok(None),
    }
}

/// What a struct and one with more fields have in common.
#[cycle(common)]
fn right_struct(alloc: Global, fields: &Fields, others: &Fields) -> Result<Option<Ty>, Memory>
    ensures { IfOk result (λ found. found ≡ option_map ty_of.Struct (all_of (map (right_field (sides fields.now)) others.now))) }
{
    match right_fields(alloc, fields, others)? {
        Some(made) => Ok(Some(Ty::Struct(made))),
        None => Ok(None),
    }
}

/// The field of a struct that has all fields of another: its type, or what it has in common with the other's field of its name.
#[cycle(common)]
fn left_type(alloc: Global, field: &Ty, name: &Name, others: &Fields) -> Result<Option<Ty>, Memory>
    ensures { IfOk result (λ found. named name.now found ≡ left_field others.now (name.now, side field.now)) }
{
    match place_of(name, others) {
        Some(place) => common(alloc, field, &others.as_slice()[place].1),
        None => Ok(Some(field.copy(alloc)?)),
    }
}

/// The fields of the first struct, those that the second has too with what the two have in common.
#[cycle(common)]
fn left_fields(alloc: Global, fields: &Fields, others: &Fields) -> Result<Option<Fields>, Memory>
    ensures { IfOk result (λ found. found ≡ all_of (map (left_field others.now) (sides fields.now))) }
{
    let mut made = Items::new(alloc);
    for field in fields.as_slice() {
        let Some(ty) = left_type(alloc, &field.1, &field.0, others)? else {
            return Ok(None);
        };
        made.push((field.0.copy()?, ty))?;
    }
    Ok(Some(made))
}

/// The same of a field of the second struct, whose fields are more.
#[cycle(common)]
fn right_type(alloc: Global, fields: &Fields, name: &Name, other: &Ty) -> Result<Option<Ty>, Memory>
    ensures { IfOk result (λ found. named name.now found ≡ right_field (sides fields.now) (name.now, other.now)) }
{
    match place_of(name, fields) {
        Some(place) => {
            let found = common(alloc, &fields.as_slice()[place].1, other)?;
            Ok(found)
        }
        None => Ok(Some(other.copy(alloc)?)),
    }
}

/// The fields of the second struct, those that the first has too with what the two have in common.
#[cycle(common)]
fn right_fields(alloc: Global, fields: &Fields, others: &Fields) -> Result<Option<Fields>, Memory>
    ensures { IfOk result (λ found. found ≡ all_of (map (right_field (sides fields.now)) others.now)) }
{
    let mut made = Items::new(alloc);
    for other in others.as_slice() {
        let Some(ty) = right_type(alloc, fields, &other.0, &other.1)? else {
            return Ok(None);
        };
        made.push((other.0.copy()?, ty))?;
    }
    Ok(Some(made))
}
