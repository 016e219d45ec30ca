ghost use Rattle.std.specs.Prelude.{◌≡◌, ◌+◌, ◌<◌, [], suc, is_some, unwrap_or, length, IfOk, IsSome, IsTrue, codes, position, slice_get};
ghost use Rattle.std.specs.Option.{option_copied, option_map};
ghost use Rattle.std.specs.Str.{bytes_eq};
ghost use Rattle.value_types.specs.declared.types.Ty.{out-Ty};
ghost use Rattle.value_types.specs.declared.values.Value.TheVariants as value_of;
ghost use Rattle.value_reading.specs.ColourNames.{color_named};
ghost use Rattle.value_reading.specs.Grammar.{ReadsAs};
ghost use Rattle.value_reading.specs.Reading.{beside, is_mark_at, is_word_of, negative_read, path_read, image_read, mark_read, second_read, word_read, plain_read, read_form, array_read, struct_read, items_read, fields_read, field_read, word_of, read_to, value_of_parts};
ghost use Rattle.value_reading.specs.Words.{number_as, negative_as, truth_named, value_at, value_named, word_in, named_in, pair_in, filled};
ghost use Rattle.value_types.specs.Conversions.{field_named};
ghost use Rattle.value_types.specs.Defaults.{default_value};

use crate::color_names::color_spelled;
use crate::parts::{Part, split_parts};
use slint_base::{End, Memory, Name, int_sub, sat_sub};
use slint_literals::Number;
use sqlite_items::{Items, at};
use std::alloc::Global;
use value_types::{EnumNames, Enums, FieldValues, Fields, Ty, Value, Values, convert, default_of};

/// A value that is read, and the place behind its parts.
#[derive(Drop)]
pub struct Reading {
    pub value: Value,
    pub next: usize,
}

/// The items of an array, and the place behind its parts.
#[derive(Drop)]
pub struct ItemsRead {
    pub values: Values,
    pub next: usize,
}

/// Values beside the words that name them.
pub type WordValues = Items<(Items<u8>, Value)>;

/// The fields of a struct in the order in which they are written, and the place behind its parts.
#[derive(Drop)]
pub struct FieldsRead {
    pub fields: WordValues,
    pub next: usize,
}

/// A written number as a value.
fn number_as(number: Number) -> Value
    ensures { result ≡ number_as number }
{
    match number {
        Number::Zero => Value::Int(0),
        Number::Int(number) => Value::Int(number),
        Number::Float(number) => Value::Float(number),
        Number::Percent(number) => Value::Percent(number),
        Number::Length(number) => Value::Length(number),
        Number::Duration(number) => Value::Duration(number),
        Number::Angle(number) => Value::Angle(number),
    }
}

/// A written number behind a `-`.
fn negative_as(number: Number) -> Value
    ensures { result ≡ negative_as number }
{
    match number {
        Number::Zero => Value::Int(0),
        Number::Int(number) => Value::Int(int_sub(0, number)),
        Number::Float(number) => Value::Float(sat_sub(0, number)),
        Number::Percent(number) => Value::Percent(sat_sub(0, number)),
        Number::Length(number) => Value::Length(sat_sub(0, number)),
        Number::Duration(number) => Value::Duration(sat_sub(0, number)),
        Number::Angle(number) => Value::Angle(sat_sub(0, number)),
    }
}

/// A truth value by its word.
fn truth_named(word: &[u8]) -> Option<Value>
    ensures { result ≡ truth_named word.now }
{
    if word == b"true".as_slice() {
        Some(Value::Bool(true))
    } else if word == b"false".as_slice() {
        Some(Value::Bool(false))
    } else {
        None
    }
}

/// Whether a name is spelled by a word.
fn is_spelled(name: &Name, word: &[u8]) -> bool
    ensures { result ≡ bytes_eq name.now word.now }
{
    name.as_str().as_bytes() == word
}

/// The place of a name that a word spells, if there is one.
fn place_named(word: &[u8], names: &Items<Name>) -> Option<usize>
    ensures { result ≡ position (λ name. bytes_eq name word.now) names.now }
{
    names
        .as_slice()
        .iter()
        .position(|name| is_spelled(name, word))
}

/// A value of an enum by its place.
fn value_at(number: u32, place: usize) -> Option<Value>
    ensures { result ≡ value_at number place }
{
    if place < 4_294_967_296 {
        Some(Value::Enum(number, place as u32))
    } else {
        None
    }
}

/// A value of an enum by its name.
fn value_named(number: u32, word: &[u8], names: Option<&EnumNames>) -> Option<Value>
    ensures { result ≡ value_named number word.now (option_copied names.entry) }
{
    match place_named(word, &names?.values) {
        Some(place) => value_at(number, place),
        None => None,
    }
}

/// What a word reads as, by the type.
fn word_in(enums: &Enums, word: &[u8], ty: &Ty) -> Option<Value>
    ensures { result ≡ word_in enums.now word.now (out-Ty ty.now) }
{
    match ty {
        Ty::Bool => truth_named(word),
        Ty::Color => color_word(word),
        Ty::Enum(number) => value_named(*number, word, at(enums.as_slice(), *number as usize)),
        _ => None,
    }
}

/// A colour by its word.
fn color_word(word: &[u8]) -> Option<Value>
    ensures { result ≡ option_map value_of.Color (color_named word.now) }
{
    match color_spelled(word) {
        Some(color) => Some(Value::Color(color)),
        None => None,
    }
}

/// A value of an enum of a name.
fn named_in(first: &[u8], second: &[u8], number: u32, names: Option<&EnumNames>) -> Option<Value>
    ensures { result ≡ named_in first.now second.now number (option_copied names.entry) }
{
    match names {
        Some(enum_names) => {
            if is_spelled(&enum_names.name, first) {
                value_named(number, second, Some(enum_names))
            } else {
                None
            }
        }
        None => None,
    }
}

/// What two words with a point between them read as.
fn pair_in(enums: &Enums, first: &[u8], second: &[u8], ty: &Ty) -> Option<Value>
    ensures { result ≡ pair_in enums.now first.now second.now (out-Ty ty.now) }
{
    match ty {
        Ty::Enum(number) => named_in(
            first,
            second,
            *number,
            at(enums.as_slice(), *number as usize),
        ),
        _ => None,
    }
}

/// A value that is read, and the place behind it.
fn beside(next: usize, found: Option<Value>) -> Option<Reading>
    ensures { result ≡ beside next found }
{
    match found {
        Some(value) => Some(Reading { value, next }),
        None => None,
    }
}

/// Whether a mark stands at a place.
fn is_mark_at(parts: &[Part], place: usize, mark: u8) -> bool
    ensures value { result ≡ is_mark_at parts.now place mark }
    ensures within { IsTrue result → place < length parts.now }
{
    match parts.get(place) {
        Some(Part::Mark(found)) => *found == mark,
        _ => false,
    }
}

/// Whether a word stands at a place.
fn is_image_word(parts: &[Part], place: usize) -> bool
    ensures { result ≡ is_word_of (codes "image-url") (slice_get parts.now place) }
{
    match at(parts, place) {
        Some(Part::Word(word)) => word.as_slice() == b"image-url".as_slice(),
        _ => false,
    }
}

/// A number behind a `-`.
fn negative_read(
    alloc: Global,
    parts: &[Part],
    place: usize,
    ty: &Ty,
) -> Result<Option<Reading>, Memory>
    requires { place < length parts.now }
    ensures { IfOk result (λ found. found ≡ negative_read ty.now place (slice_get parts.now (place + 1))) }
{
    match at(parts, place + 1) {
        Some(Part::Number(number)) => {
            let value = convert(alloc, &negative_as(*number), ty)?;
            Ok(beside(place + 2, value))
        }
        _ => Ok(None),
    }
}

/// The path of an image, with the place behind the image.
fn path_read(
    alloc: Global,
    parts: &[Part],
    place: usize,
    ty: &Ty,
) -> Result<Option<Reading>, Memory>
    requires { place < length parts.now }
    ensures { IfOk result (λ found. found ≡ path_read ty.now place (slice_get parts.now (place + 3))) }
{
    match at(parts, place + 3) {
        Some(Part::Str(path)) => {
            let value = convert(alloc, &Value::Image(path.copy()?), ty)?;
            Ok(beside(place + 5, value))
        }
        _ => Ok(None),
    }
}

/// An image: `@`, the word `image-url`, and a string in parentheses.
fn image_read(
    alloc: Global,
    parts: &[Part],
    place: usize,
    ty: &Ty,
) -> Result<Option<Reading>, Memory>
    requires { place < length parts.now }
    ensures { IfOk result (λ found. found ≡ image_read ty.now parts.now place) }
{
    if is_image_word(parts, place + 1)
        && is_mark_at(parts, place + 2, b'(')
        && is_mark_at(parts, place + 4, b')')
    {
        let found = path_read(alloc, parts, place, ty)?;
        return Ok(found);
    }
    Ok(None)
}

/// A mark with what is behind it.
fn mark_read(
    alloc: Global,
    parts: &[Part],
    place: usize,
    mark: u8,
    ty: &Ty,
) -> Result<Option<Reading>, Memory>
    requires { place < length parts.now }
    ensures { IfOk result (λ found. found ≡ mark_read ty.now parts.now place mark) }
{
    match mark {
        b'-' => negative_read(alloc, parts, place, ty),
        b'@' => image_read(alloc, parts, place, ty),
        _ => Ok(None),
    }
}

/// The second of two words with a point between them.
fn second_read(parts: &[Part], place: usize, word: &[u8], ty: &Ty, enums: &Enums) -> Option<Reading>
    requires { place < length parts.now }
    ensures { result ≡ second_read enums.now ty.now place word.now (slice_get parts.now (place + 2)) }
{
    match at(parts, place + 2) {
        Some(Part::Word(second)) => beside(place + 3, pair_in(enums, word, second.as_slice(), ty)),
        _ => None,
    }
}

/// A word alone, or two with a point between them.
fn word_read(parts: &[Part], place: usize, word: &[u8], ty: &Ty, enums: &Enums) -> Option<Reading>
    requires { place < length parts.now }
    ensures { result ≡ word_read enums.now ty.now parts.now place word.now }
{
    if is_mark_at(parts, place + 1, b'.') {
        second_read(parts, place, word, ty, enums)
    } else {
        beside(place + 1, word_in(enums, word, ty))
    }
}

/// A value that is neither an array nor a struct.
fn plain_read(
    alloc: Global,
    parts: &[Part],
    place: usize,
    ty: &Ty,
    enums: &Enums,
) -> Result<Option<Reading>, Memory>
    ensures { IfOk result (λ found. found ≡ plain_read enums.now ty.now parts.now place) }
{
    match at(parts, place) {
        Some(Part::Number(number)) => {
            let value = convert(alloc, &number_as(*number), ty)?;
            Ok(beside(place + 1, value))
        }
        Some(Part::Color(color)) => {
            let value = convert(alloc, &Value::Color(*color), ty)?;
            Ok(beside(place + 1, value))
        }
        Some(Part::Str(text)) => {
            let value = convert(alloc, &Value::Str(text.copy()?), ty)?;
            Ok(beside(place + 1, value))
        }
        Some(Part::Word(word)) => Ok(word_read(parts, place, word.as_slice(), ty, enums)),
        Some(Part::Mark(mark)) => mark_read(alloc, parts, place, *mark, ty),
        None => Ok(None),
    }
}

/// A value of a type at a place, to so many levels of arrays and structs.
#[cycle(reading)]
fn read(
    alloc: Global,
    parts: &[Part],
    place: usize,
    ty: &Ty,
    enums: &Enums,
    depth: usize,
) -> Result<Option<Reading>, Memory>
    ensures { IfOk result (λ found. found ≡ read_to enums.now parts.now depth ty.now place) }
{
    if depth == 0 {
        return Ok(None);
    }
    let found = read_form(alloc, parts, place, ty, enums, depth - 1)?;
    Ok(found)
}

/// A value of a type, by how those of its parts are read.
#[cycle(reading)]
fn read_form(
    alloc: Global,
    parts: &[Part],
    place: usize,
    ty: &Ty,
    enums: &Enums,
    depth: usize,
) -> Result<Option<Reading>, Memory>
    ensures { IfOk result (λ found. found ≡ read_form enums.now (read_to enums.now parts.now depth) ty.now parts.now place (out-Ty ty.now)) }
{
    match ty {
        Ty::Array(item) => array_read(alloc, parts, place, item.get(), enums, depth),
        Ty::Struct(fields) => struct_read(alloc, parts, place, fields, enums, depth),
        _ => plain_read(alloc, parts, place, ty, enums),
    }
}

/// An array of items of a type.
#[cycle(reading)]
fn array_read(
    alloc: Global,
    parts: &[Part],
    place: usize,
    item: &Ty,
    enums: &Enums,
    depth: usize,
) -> Result<Option<Reading>, Memory>
    ensures { IfOk result (λ found. found ≡ array_read (read_to enums.now parts.now depth item.now) parts.now place) }
{
    if !is_mark_at(parts, place, b'[') {
        return Ok(None);
    }
    match items_read(alloc, parts, place + 1, item, enums, depth)? {
        Some(found) => Ok(Some(Reading {
            value: Value::Array(found.values),
            next: found.next,
        })),
        None => Ok(None),
    }
}

/// The items of an array up to its `]`.
#[cycle(reading)]
fn items_read(
    alloc: Global,
    parts: &[Part],
    first: usize,
    item: &Ty,
    enums: &Enums,
    depth: usize,
) -> Result<Option<ItemsRead>, Memory>
    ensures { IfOk result (λ found. found ≡ items_read (read_to enums.now parts.now depth item.now) parts.now (suc (length parts.now)) [] first) }
{
    let mut values = Items::new(alloc);
    let mut place = first;
    let mut left = parts.len() + 1;
    while left > 0 {
        left -= 1;
        if is_mark_at(parts, place, b']') {
            return Ok(Some(ItemsRead {
                values,
                next: place + 1,
            }));
        }
        let Some(found) = read(alloc, parts, place, item, enums, depth)? else {
            return Ok(None);
        };
        values.push(found.value)?;
        if is_mark_at(parts, found.next, b']') {
            return Ok(Some(ItemsRead {
                values,
                next: found.next + 1,
            }));
        }
        if !is_mark_at(parts, found.next, b',') {
            return Ok(None);
        }
        place = found.next + 1;
    }
    Ok(None)
}

/// The word at a place, if one stands there.
fn word_at(parts: &[Part], place: usize) -> Option<&Items<u8>>
    ensures value { option_copied result ≡ word_of (slice_get parts.now place) }
    ensures within { IsSome result → place < length parts.now }
{
    match parts.get(place) {
        Some(Part::Word(word)) => Some(word),
        _ => None,
    }
}

/// Whether a word spells a name.
fn spells(word: &[u8], name: &Name) -> bool
    ensures { result ≡ bytes_eq word.now name.now }
{
    word == name.as_str().as_bytes()
}

/// The type of the field that a word names, if there is one.
fn type_named<'a>(word: &[u8], fields: &'a Fields) -> Option<&'a Ty>
    ensures { option_copied result ≡ field_named word.now fields.now }
{
    for field in fields.as_slice() {
        if spells(word, &field.0) {
            return Some(&field.1);
        }
    }
    None
}

/// Whether a field was read that a word names.
fn was_read(word: &[u8], found: &WordValues) -> bool
    ensures { result ≡ is_some (field_named word.now found.now) }
{
    for field in found.as_slice() {
        if word == field.0.as_slice() {
            return true;
        }
    }
    false
}

/// The value that was read of a field, if there is one.
fn value_read<'a>(name: &Name, found: &'a WordValues) -> Option<&'a Value>
    ensures { option_copied result ≡ field_named name.now found.now }
{
    for field in found.as_slice() {
        if is_spelled(name, field.0.as_slice()) {
            return Some(&field.1);
        }
    }
    None
}

/// A field's value: what was read, or else the default of its type.
fn filled_value(alloc: Global, ty: &Ty, found: Option<&Value>) -> Result<Value, Memory>
    ensures { IfOk result (λ value. value ≡ unwrap_or (option_copied found.entry) (default_value ty.now)) }
{
    match found {
        Some(value) => value.copy(alloc),
        None => default_of(alloc, ty),
    }
}

/// The fields of a type: those that were read, and defaults for the others.
fn filled(alloc: Global, fields: &Fields, found: &WordValues) -> Result<FieldValues, Memory>
    ensures { IfOk result (λ made. made ≡ filled fields.now found.now) }
{
    let mut made = Items::new(alloc);
    for field in fields.as_slice() {
        let value = filled_value(alloc, &field.1, value_read(&field.0, found))?;
        made.push((field.0.copy()?, value))?;
    }
    Ok(made)
}

/// A struct of the fields of a type.
#[cycle(reading)]
fn struct_read(
    alloc: Global,
    parts: &[Part],
    place: usize,
    fields: &Fields,
    enums: &Enums,
    depth: usize,
) -> Result<Option<Reading>, Memory>
    ensures { IfOk result (λ found. found ≡ struct_read (read_to enums.now parts.now depth) fields.now parts.now place) }
{
    if !is_mark_at(parts, place, b'{') {
        return Ok(None);
    }
    match fields_read(alloc, parts, place + 1, fields, enums, depth)? {
        Some(found) => {
            let filled = filled(alloc, fields, &found.fields)?;
            Ok(Some(Reading {
                value: Value::Struct(filled),
                next: found.next,
            }))
        }
        None => Ok(None),
    }
}

/// The fields of a struct up to its `}`, in the order in which they are written.
#[cycle(reading)]
fn fields_read(
    alloc: Global,
    parts: &[Part],
    first: usize,
    fields: &Fields,
    enums: &Enums,
    depth: usize,
) -> Result<Option<FieldsRead>, Memory>
    ensures { IfOk result (λ found. found ≡ fields_read (read_to enums.now parts.now depth) fields.now parts.now (suc (length parts.now)) [] first) }
{
    let mut made = Items::new(alloc);
    let mut place = first;
    let mut left = parts.len() + 1;
    while left > 0 {
        left -= 1;
        if is_mark_at(parts, place, b'}') {
            return Ok(Some(FieldsRead {
                fields: made,
                next: place + 1,
            }));
        }
        let Some(word) = word_at(parts, place) else {
            return Ok(None);
        };
        let Some(found) = field_read(
            alloc,
            parts,
            place,
            word.as_slice(),
            fields,
            &made,
            enums,
            depth,
        )?
        else {
            return Ok(None);
        };
        made.push((Items::from_slice(alloc, word.as_slice())?, found.value))?;
        if is_mark_at(parts, found.next, b'}') {
            return Ok(Some(FieldsRead {
                fields: made,
                next: found.next + 1,
            }));
        }
        if !is_mark_at(parts, found.next, b',') {
            return Ok(None);
        }
        place = found.next + 1;
    }
    Ok(None)
}

/// The value of a field at the place of its name, which stands among those of the type and not before.
#[cycle(reading)]
fn field_read(
    alloc: Global,
    parts: &[Part],
    place: usize,
    word: &[u8],
    fields: &Fields,
    before: &WordValues,
    enums: &Enums,
    depth: usize,
) -> Result<Option<Reading>, Memory>
    requires { place < length parts.now }
    ensures { IfOk result (λ found. found ≡ field_read (read_to enums.now parts.now depth) fields.now parts.now before.now place word.now) }
{
    if was_read(word, before) {
        return Ok(None);
    }
    if !is_mark_at(parts, place + 1, b':') {
        return Ok(None);
    }
    match type_named(word, fields) {
        Some(ty) => {
            let found = read(alloc, parts, place + 2, ty, enums, depth)?;
            Ok(found)
        }
        None => Ok(None),
    }
}

/// A value's text can't be read by its type.
#[derive(Clone, Copy, Debug, PartialEq, Eq)]
pub struct BadValue;

/// The value that the parts of a text are, by a type.
fn whole_value(
    alloc: Global,
    parts: &[Part],
    ty: &Ty,
    enums: &Enums,
) -> Result<Option<Value>, Memory>
    ensures { IfOk result (λ found. found ≡ value_of_parts enums.now ty.now parts.now) }
{
    match read(alloc, parts, 0, ty, enums, parts.len() + 1)? {
        Some(found) => Ok(if found.next == parts.len() {
            Some(found.value)
        } else {
            None
        }),
        None => Ok(None),
    }
}

/// The value that a text is read as by a type: numbers with their units and an optional `-` before them, `true`, `false`, strings, colours
/// and their names, `E.v` or `v` for a value of an enum, `@image-url("..")`, `[a, b]` and `{ a: 1, b: 2 }`, with spaces between the parts
/// where they may stand. What is written is converted to the type, and fields that aren't written get their defaults.
///
/// # Errors
/// `BadValue` exactly where the text is no written form of a value of the type.
pub fn read_value(alloc: Global, text: &str, ty: &Ty, enums: &Enums) -> Result<Value, End<BadValue>>
    ensures { ReadsAs enums.now ty.now text.now result }
{
    let Some(parts) = split_parts(alloc, text.as_bytes())? else {
        return Err(End::Fault(BadValue));
    };
    match whole_value(alloc, parts.as_slice(), ty, enums)? {
        Some(value) => Ok(value),
        None => Err(End::Fault(BadValue)),
    }
}
