ghost use Rattle.std.specs.Prelude.{◌≡◌, ◌||◌, IfOk, map};
ghost use Rattle.std.specs.List.{list_any};
ghost use Rattle.std.specs.Option.{option_copied, option_map};
ghost use Rattle.std.specs.Str.{bytes_eq};
ghost use Rattle.value_types.specs.Conversions.{converted, field_named, field_from, field_in, names_within, all_of, fields_in, struct_in, array_in};
ghost use Rattle.value_types.specs.declared.types.Ty.{out-Ty};
ghost use Rattle.value_types.specs.declared.types.Ty.TheOpen as form;
ghost use Rattle.value_types.specs.declared.values.Value.TheVariants as value_of;

use crate::scalars::{
    angle_in, bool_in, color_in, duration_in, enum_in, float_in, image_in, int_in, length_in,
    percent_in, text_in, void_in,
};
use crate::{FieldValues, Fields, Ty, Value, Values, default_of};
use slint_base::{Memory, Name};
use sqlite_items::Items;
use std::alloc::Global;

/// The field of a name, if there is one.
fn field_named<'a>(name: &Name, fields: &'a FieldValues) -> Option<&'a Value>
    ensures { option_copied result ≡ field_named name.now fields.now }
{
    for field in fields.as_slice() {
        if *name == field.0 {
            return Some(&field.1);
        }
    }
    None
}

/// Whether one of the fields of a struct has a name.
fn has_value(name: &Name, fields: &FieldValues) -> bool
    ensures { result ≡ list_any (λ field. bytes_eq name.now field.0) fields.now }
{
    fields.as_slice().iter().any(|field| *name == field.0)
}

/// Whether one of the fields of a struct type has a name.
fn has_type(name: &Name, fields: &Fields) -> bool
    ensures { result ≡ list_any (λ field. bytes_eq name.now field.0) fields.now }
{
    fields.as_slice().iter().any(|field| *name == field.0)
}

/// Whether each field of a struct is one of a type's.
fn values_within(fields: &FieldValues, wanted: &Fields) -> bool
    ensures { result ≡ names_within fields.now wanted.now }
{
    fields
        .as_slice()
        .iter()
        .all(|field| has_type(&field.0, wanted))
}

/// Whether each field of a struct type is one of a struct's.
fn types_within(wanted: &Fields, fields: &FieldValues) -> bool
    ensures { result ≡ names_within wanted.now fields.now }
{
    wanted
        .as_slice()
        .iter()
        .all(|field| has_value(&field.0, fields))
}

/// Whether a struct has all fields of a type, or a type all fields of a struct.
fn is_wider_or_narrower(fields: &FieldValues, wanted: &Fields) -> bool
    ensures { result ≡ (names_within fields.now wanted.now || names_within wanted.now fields.now) }
{
    values_within(fields, wanted) || types_within(wanted, fields)
}

/// An array as `[]`, where it has no items.
fn empty_in(alloc: Global, items: &Values) -> Option<Value>
    ensures { result ≡ array_in (map converted items.now) form.Empty }
{
    match items.as_slice() {
        [] => Some(Value::Array(Items::new(alloc))),
        [_, ..] => None,
    }
}

/// The value that a value is converted to in a type, or none where there is no conversion. An int 0 is converted like a literal of
/// zeros, and an array without items like `[]`.
pub fn convert(alloc: Global, value: &Value, to: &Ty) -> Result<Option<Value>, Memory>
    ensures { IfOk result (λ made. made ≡ converted value.now to.now) }
{
    value_in(alloc, to, value)
}

/// A value in a type.
#[cycle(converting)]
fn value_in(alloc: Global, to: &Ty, value: &Value) -> Result<Option<Value>, Memory>
    ensures { IfOk result (λ made. made ≡ converted value.now to.now) }
{
    match value {
        Value::Void => Ok(void_in(to)),
        Value::Int(number) => int_in(alloc, *number, to),
        Value::Float(number) => float_in(alloc, *number, to),
        Value::Percent(number) => Ok(percent_in(*number, to)),
        Value::Bool(truth) => Ok(bool_in(*truth, to)),
        Value::Str(text) => text_in(text, to),
        Value::Color(color) => Ok(color_in(*color, to)),
        Value::Length(number) => Ok(length_in(*number, to)),
        Value::Duration(number) => Ok(duration_in(*number, to)),
        Value::Angle(number) => Ok(angle_in(*number, to)),
        Value::Image(path) => image_in(path, to),
        Value::Enum(number, value) => Ok(enum_in(*number, *value, to)),
        Value::Struct(fields) => struct_in(alloc, to, fields),
        Value::Array(items) => array_in(alloc, to, items),
        Value::Keys(_, _) => Ok(None),
        Value::Places(_) => Ok(None),
    }
}

/// An array in a type.
#[cycle(converting)]
fn array_in(alloc: Global, to: &Ty, items: &Values) -> Result<Option<Value>, Memory>
    ensures { IfOk result (λ made. made ≡ array_in (map converted items.now) (out-Ty to.now)) }
{
    match to {
        Ty::Array(item) => array_of(alloc, item.get(), items),
        Ty::Empty => Ok(empty_in(alloc, items)),
        _ => Ok(None),
    }
}

/// An array as an array of items of a type.
#[cycle(converting)]
fn array_of(alloc: Global, item: &Ty, items: &Values) -> Result<Option<Value>, Memory>
    ensures { IfOk result (λ made. made ≡ option_map value_of.Array (all_of (map (λ convert. convert item.now) (map converted items.now)))) }
{
    match items_in(alloc, item, items)? {
        Some(made) => Ok(Some(Value::Array(made))),
        None => Ok(None),
    }
}

/// An array's items in a type, if there is a conversion of each.
#[cycle(converting)]
fn items_in(alloc: Global, to: &Ty, items: &Values) -> Result<Option<Values>, Memory>
    ensures { IfOk result (λ made. made ≡ all_of (map (λ convert. convert to.now) (map converted items.now))) }
{
    let mut made = Items::new(alloc);
    for item in items.as_slice() {
        let Some(value) = value_in(alloc, to, item)? else {
            return Ok(None);
        };
        made.push(value)?;
    }
    Ok(Some(made))
}

/// A struct in a type.
#[cycle(converting)]
fn struct_in(alloc: Global, to: &Ty, fields: &FieldValues) -> Result<Option<Value>, Memory>
    ensures { IfOk result (λ made. made ≡ struct_in (map (λ field. (field.0, converted field.1)) fields.now) (out-Ty to.now)) }
{
    match to {
        Ty::Struct(wanted) => struct_of(alloc, wanted, fields),
        _ => Ok(None),
    }
}

/// A struct as a struct of wanted fields.
#[cycle(converting)]
fn struct_of(alloc: Global, wanted: &Fields, fields: &FieldValues) -> Result<Option<Value>, Memory>
    ensures { IfOk result (λ made. made ≡ fields_in (map (λ field. (field.0, converted field.1)) fields.now) wanted.now) }
{
    if !is_wider_or_narrower(fields, wanted) {
        return Ok(None);
    }
    match fields_in(alloc, wanted, fields)? {
        Some(made) => Ok(Some(Value::Struct(made))),
        None => Ok(None),
    }
}

/// The fields of a struct type: those of a struct, converted, and defaults for those that it lacks.
#[cycle(converting)]
fn fields_in(
    alloc: Global,
    to: &Fields,
    fields: &FieldValues,
) -> Result<Option<FieldValues>, Memory>
    ensures { IfOk result (λ made. made ≡ all_of (map (λ wanted. field_in (map (λ field. (field.0, converted field.1)) fields.now) wanted) to.now)) }
{
    let mut made = Items::new(alloc);
    for wanted in to.as_slice() {
        let Some(value) = field_in(alloc, &wanted.1, field_named(&wanted.0, fields))? else {
            return Ok(None);
        };
        made.push((wanted.0.copy()?, value))?;
    }
    Ok(Some(made))
}

/// A field's value in a type, and the type's default where there is no such field.
#[cycle(converting)]
fn field_in(alloc: Global, to: &Ty, value: Option<&Value>) -> Result<Option<Value>, Memory>
    ensures { IfOk result (λ made. made ≡ field_from (option_map converted (option_copied value.entry)) to.now) }
{
    match value {
        Some(value) => value_in(alloc, to, value),
        None => Ok(Some(default_of(alloc, to)?)),
    }
}
