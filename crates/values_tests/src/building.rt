use slint_base::{End, Memory, Name, Text};
use sqlite_items::{Boxed, Items};
use std::alloc::Global;
use value_reading::{BadValue, read_value};
use value_types::{EnumNames, Enums, Ty, Value, print_value};

/// A type without parts, by its name.
fn plain_type(name: &str) -> Ty {
    match name {
        "zero" => Ty::Zero,
        "int" => Ty::Int,
        "float" => Ty::Float,
        "percent" => Ty::Percent,
        "bool" => Ty::Bool,
        "string" => Ty::Str,
        "color" => Ty::Color,
        "length" => Ty::Length,
        "duration" => Ty::Duration,
        "angle" => Ty::Angle,
        "image" => Ty::Image,
        "enum" => Ty::Enum(0),
        "empty" => Ty::Empty,
        _ => Ty::Void,
    }
}

/// The array type of a type.
fn array(alloc: Global, item: Ty) -> Result<Ty, Memory> {
    Ok(Ty::Array(Boxed::new(alloc, item)?))
}

/// The struct type of two fields, `a` and `b`.
fn pair(alloc: Global, a: Ty, b: Ty) -> Result<Ty, Memory> {
    let mut fields = Items::new(alloc);
    fields.push((Name::normal(alloc, "a")?, a))?;
    fields.push((Name::normal(alloc, "b")?, b))?;
    Ok(Ty::Struct(fields))
}

/// A type by its text, as the rows write it.
pub fn type_named(alloc: Global, name: &str) -> Result<Ty, Memory> {
    match name {
        "[int]" => array(alloc, Ty::Int),
        "[float]" => array(alloc, Ty::Float),
        "[[length]]" => array(alloc, array(alloc, Ty::Length)?),
        "{a: int, b: string}" => pair(alloc, Ty::Int, Ty::Str),
        _ => Ok(plain_type(name)),
    }
}

/// One enum, `E`, of the values `one` and `two`.
pub fn enums(alloc: Global) -> Result<Enums, Memory> {
    let mut values = Items::new(alloc);
    values.push(Name::normal(alloc, "one")?)?;
    values.push(Name::normal(alloc, "two")?)?;
    let mut made = Items::new(alloc);
    made.push(EnumNames {
        name: Name::normal(alloc, "E")?,
        values,
    })?;
    Ok(made)
}

/// The value that a text is read as by a type, if it is one.
pub fn read(alloc: Global, text: &str, ty: &Ty) -> Result<Option<Value>, Memory> {
    match read_value(alloc, text, ty, &enums(alloc)?) {
        Ok(value) => Ok(Some(value)),
        Err(End::Fault(BadValue)) => Ok(None),
        Err(End::Memory) => Err(Memory),
    }
}

/// A value as it is printed, and another text for none.
pub fn shown(alloc: Global, value: &Option<Value>, none: &str) -> Result<Text, Memory> {
    match value {
        Some(value) => print_value(alloc, value, &enums(alloc)?),
        None => Text::from_str(alloc, none),
    }
}
