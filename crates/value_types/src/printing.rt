ghost use Rattle.std.specs.Prelude.{◌≡◌, ◌∷◌, ◌++◌, ◌<◌, IfOk, OnOk, map, string_bytes, slice_get, codes};
ghost use Rattle.std.specs.Char.{digit_char};
ghost use Rattle.std.specs.Fmt.{signed_decimal};
ghost use Rattle.slint_literals.specs.Printed.{printed_text, printed_string};
ghost use Rattle.value_types.specs.Printed.{two_digits, printed_color, printed_bool, printed_enum, value_name, printed_array, printed_field, printed_struct, printed_image, printed_millionths, printed_thousandths, listed, printed};

use crate::decimals::{push_int, push_millionths, push_thousandths};
use crate::{EnumNames, Enums, FieldValues, Value, Values};
use slint_base::{Memory, Name, Text};
use slint_literals::print_text;
use sqlite_items::at;
use std::alloc::Global;

/// Appends a truth value.
fn push_bool(text: &mut String, truth: bool) -> Result<(), Memory>
    ensures { OnOk result (string_bytes text.new ≡ string_bytes text.old ++ printed_bool truth) }
{
    if truth {
        text.push_str("true")?;
    } else {
        text.push_str("false")?;
    }
    Ok(())
}

/// The character that writes a digit below 16.
fn digit_char(digit: u32) -> char
    requires { digit < 16 }
    ensures { result ≡ digit_char digit }
{
    if digit < 10 {
        char::from(b'0' + digit as u8)
    } else {
        char::from(b'a' + (digit as u8 - 10))
    }
}

/// Appends a byte as two hexadecimal digits.
fn push_two_digits(text: &mut String, byte: u32) -> Result<(), Memory>
    requires { byte < 256 }
    ensures { OnOk result (string_bytes text.new ≡ string_bytes text.old ++ two_digits byte) }
{
    text.push(digit_char(byte / 16))?;
    text.push(digit_char(byte % 16))?;
    Ok(())
}

/// Appends a colour as `#rrggbbaa`.
fn push_color(text: &mut String, color: u32) -> Result<(), Memory>
    ensures { OnOk result (string_bytes text.new ≡ string_bytes text.old ++ printed_color color) }
{
    text.push('#')?;
    push_two_digits(text, color / 0x100_0000)?;
    push_two_digits(text, color / 0x1_0000 % 256)?;
    push_two_digits(text, color / 0x100 % 256)?;
    push_two_digits(text, color % 256)?;
    Ok(())
}

/// Appends a text as it stands inside a printed string.
fn push_inside(alloc: Global, text: &mut String, inside: &str) -> Result<(), Memory>
    ensures { OnOk result (string_bytes text.new ≡ string_bytes text.old ++ printed_text inside.now) }
{
    let mut bytes = Vec::new(alloc);
    print_text(&mut bytes, inside)?;
    match std::str::from_utf8(bytes.as_slice()) {
        Ok(printed) => text.push_str(printed)?,
        Err(_) => unreachable!(),
    }
    Ok(())
}

/// Appends a text as a string in quotes.
fn push_string(alloc: Global, text: &mut String, string: &Text) -> Result<(), Memory>
    ensures { OnOk result (string_bytes text.new ≡ string_bytes text.old ++ printed_string string.now) }
{
    text.push('"')?;
    push_inside(alloc, text, string.as_str())?;
    text.push('"')?;
    Ok(())
}

/// Appends an image as `@image-url(..)` round its path as a string.
fn push_image(alloc: Global, text: &mut String, path: &Text) -> Result<(), Memory>
    ensures { OnOk result (string_bytes text.new ≡ string_bytes text.old ++ printed_image path.now) }
{
    text.push_str("@image-url(")?;
    push_string(alloc, text, path)?;
    text.push_str(")")?;
    Ok(())
}

/// Appends the name of an enum and of one of its values, joined by a point.
fn push_enum(text: &mut String, enums: &Enums, number: u32, value: u32) -> Result<(), Memory>
    ensures { OnOk result (string_bytes text.new ≡ string_bytes text.old ++ printed_enum enums.now number value) }
{
    match at(enums.as_slice(), number as usize) {
        Some(names) => push_value_name(text, names, value),
        None => Ok(()),
    }
}

/// Appends the name of an enum and of one of its values.
fn push_value_name(text: &mut String, names: &EnumNames, value: u32) -> Result<(), Memory>
    ensures { OnOk result (string_bytes text.new ≡ string_bytes text.old ++ value_name names.now (slice_get names.now.values value)) }
{
    match at(names.values.as_slice(), value as usize) {
        Some(name) => push_joined(text, &names.name, name),
        None => Ok(()),
    }
}

/// Appends two names, joined by a point.
fn push_joined(text: &mut String, first: &Name, second: &Name) -> Result<(), Memory>
    ensures { OnOk result (string_bytes text.new ≡ string_bytes text.old ++ (first.now ++ 46 ∷ second.now)) }
{
    text.push_str(first.as_str())?;
    text.push('.')?;
    text.push_str(second.as_str())?;
    Ok(())
}

/// Appends a percent.
fn push_percent(text: &mut String, number: i64) -> Result<(), Memory>
    ensures { OnOk result (string_bytes text.new ≡ string_bytes text.old ++ (printed_millionths number ++ codes "%")) }
{
    push_millionths(text, number)?;
    text.push_str("%")?;
    Ok(())
}

/// Appends a length.
fn push_length(text: &mut String, number: i64) -> Result<(), Memory>
    ensures { OnOk result (string_bytes text.new ≡ string_bytes text.old ++ (printed_thousandths number ++ codes "px")) }
{
    push_thousandths(text, number)?;
    text.push_str("px")?;
    Ok(())
}

/// Appends a duration.
fn push_duration(text: &mut String, number: i64) -> Result<(), Memory>
    ensures { OnOk result (string_bytes text.new ≡ string_bytes text.old ++ (signed_decimal number ++ codes "ms")) }
{
    push_int(text, number)?;
    text.push_str("ms")?;
    Ok(())
}

/// Appends an angle.
fn push_angle(text: &mut String, number: i64) -> Result<(), Memory>
    ensures { OnOk result (string_bytes text.new ≡ string_bytes text.old ++ (printed_thousandths number ++ codes "deg")) }
{
    push_thousandths(text, number)?;
    text.push_str("deg")?;
    Ok(())
}

/// Appends a value as it is printed.
#[cycle(printing)]
fn push_value(alloc: Global, text: &mut String, value: &Value, enums: &Enums) -> Result<(), Memory>
    ensures { OnOk result (string_bytes text.new ≡ string_bytes text.old ++ printed enums.now value.now) }
{
    match value {
        Value::Void => Ok(()),
        Value::Int(number) => push_int(text, i64::from(*number)),
        Value::Float(number) => push_millionths(text, *number),
        Value::Percent(number) => push_percent(text, *number),
        Value::Bool(truth) => push_bool(text, *truth),
        Value::Str(string) => push_string(alloc, text, string),
        Value::Color(color) => push_color(text, *color),
        Value::Length(number) => push_length(text, *number),
        Value::Duration(number) => push_duration(text, *number),
        Value::Angle(number) => push_angle(text, *number),
        Value::Image(path) => push_image(alloc, text, path),
        Value::Enum(number, value) => push_enum(text, enums, *number, *value),
        Value::Struct(fields) => push_struct(alloc, text, fields, enums),
        Value::Array(items) => push_array(alloc, text, items, enums),
        Value::Keys(_, _) => Ok(()),
        Value::Places(_) => Ok(()),
    }
}

/// Appends the items of an array as `[a, b]`.
#[cycle(printing)]
fn push_array(alloc: Global, text: &mut String, items: &Values, enums: &Enums) -> Result<(), Memory>
    ensures { OnOk result (string_bytes text.new ≡ string_bytes text.old ++ printed_array (map (printed enums.now) items.now)) }
{
    text.push('[')?;
    push_items(alloc, text, items, enums)?;
    text.push(']')?;
    Ok(())
}

/// Appends values with `, ` between them.
#[cycle(printing)]
fn push_items(alloc: Global, text: &mut String, items: &Values, enums: &Enums) -> Result<(), Memory>
    ensures { OnOk result (string_bytes text.new ≡ string_bytes text.old ++ listed (map (printed enums.now) items.now)) }
{
    let mut is_first = true;
    for item in items.as_slice() {
        if !is_first {
            text.push_str(", ")?;
        }
        is_first = false;
        push_value(alloc, text, item, enums)?;
    }
    Ok(())
}

/// Appends the fields of a struct as `{ a: 1, b: 2 }`.
#[cycle(printing)]
fn push_struct(
    alloc: Global,
    text: &mut String,
    fields: &FieldValues,
    enums: &Enums,
) -> Result<(), Memory>
    ensures { OnOk result (string_bytes text.new ≡ string_bytes text.old ++ printed_struct (map (λ field. (field.0, printed enums.now field.1)) fields.now)) }
{
    match fields.as_slice() {
        [] => Ok(text.push_str("{ }")?),
        [_, ..] => {
            text.push_str("{ ")?;
            push_fields(alloc, text, fields, enums)?;
            Ok(text.push_str(" }")?)
        }
    }
}

/// Appends fields with `, ` between them.
#[cycle(printing)]
fn push_fields(
    alloc: Global,
    text: &mut String,
    fields: &FieldValues,
    enums: &Enums,
) -> Result<(), Memory>
    ensures { OnOk result (string_bytes text.new ≡ string_bytes text.old ++ listed (map printed_field (map (λ field. (field.0, printed enums.now field.1)) fields.now))) }
{
    let mut is_first = true;
    for field in fields.as_slice() {
        if !is_first {
            text.push_str(", ")?;
        }
        is_first = false;
        push_field(alloc, text, &field.0, &field.1, enums)?;
    }
    Ok(())
}

/// Appends a field as `name: value`.
#[cycle(printing)]
fn push_field(
    alloc: Global,
    text: &mut String,
    name: &Name,
    value: &Value,
    enums: &Enums,
) -> Result<(), Memory>
    ensures { OnOk result (string_bytes text.new ≡ string_bytes text.old ++ printed_field (name.now, printed enums.now value.now)) }
{
    text.push_str(name.as_str())?;
    text.push_str(": ")?;
    push_value(alloc, text, value, enums)?;
    Ok(())
}

/// A value as it is printed. What gives no value, the rows of a repeater and the places along an axis are printed as nothing, and so
/// is a value of an enum that isn't among the enums.
pub fn print_value(alloc: Global, value: &Value, enums: &Enums) -> Result<Text, Memory>
    ensures { IfOk result (λ text. text ≡ printed enums.now value.now) }
{
    let mut text = String::new(alloc);
    push_value(alloc, &mut text, value, enums)?;
    Ok(Text::from_string(text))
}
