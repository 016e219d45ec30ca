ghost use Rattle.std.specs.Prelude.{◌≡◌, IfOk};

use slint_base::{Memory, Name, Text};
use sqlite_items::Items;
use std::alloc::Global;

/// A value of the language.
#[derive(Drop)]
pub enum Value {
    /// What a call without a result gives.
    Void,
    Int(i32),
    /// In millionths.
    Float(i64),
    /// In millionths of one per cent.
    Percent(i64),
    Bool(bool),
    Str(Text),
    /// Red, green, blue and alpha, a byte each from the highest byte on.
    Color(u32),
    /// In thousandths of a px.
    Length(i64),
    /// In milliseconds.
    Duration(i64),
    /// In thousandths of a degree.
    Angle(i64),
    /// The image at a path.
    Image(Text),
    /// A value of an enum: the enum's number, and the value's number in it.
    Enum(u32, u32),
    /// A struct, by the values of its fields.
    Struct(FieldValues),
    /// An array, by its items.
    Array(Values),
    /// The rows of a repeater: their keys, and their items where the model is no plain path of an array property.
    Keys(KeyList, Values),
    /// The places along an axis of a layout: for each child those of its rows.
    Places(PlaceList),
}

/// The fields of a struct, in byte order of their names.
pub type FieldValues = Items<(Name, Value)>;

/// Values in order.
pub type Values = Items<Value>;

/// The keys of a repeater's rows, in order.
pub type KeyList = Items<u64>;

/// The place of a row along an axis, in thousandths of a px.
#[derive(Clone, Copy, Debug, PartialEq, Eq)]
pub struct RowPlace {
    pub offset: i64,
    pub size: i64,
}

/// For each child of a layout in order the places of its rows.
pub type PlaceList = Items<Items<RowPlace>>;

impl Value {
    /// The same value once more.
    #[cycle(copy_value)]
    pub fn copy(&self, alloc: Global) -> Result<Value, Memory>
        ensures { IfOk result (λ value. value ≡ self.now) }
    {
        Ok(match self {
            Value::Void => Value::Void,
            Value::Int(number) => Value::Int(*number),
            Value::Float(number) => Value::Float(*number),
            Value::Percent(number) => Value::Percent(*number),
            Value::Bool(truth) => Value::Bool(*truth),
            Value::Str(text) => Value::Str(text.copy()?),
            Value::Color(color) => Value::Color(*color),
            Value::Length(number) => Value::Length(*number),
            Value::Duration(number) => Value::Duration(*number),
            Value::Angle(number) => Value::Angle(*number),
            Value::Image(path) => Value::Image(path.copy()?),
            Value::Enum(number, value) => Value::Enum(*number, *value),
            Value::Struct(fields) => Value::Struct(copy_field_values(alloc, fields)?),
            Value::Array(items) => Value::Array(copy_values(alloc, items)?),
            Value::Keys(keys, items) => Value::Keys(
                copy_keys(alloc, keys)?,
                copy_values(alloc, items)?,
            ),
            Value::Places(places) => Value::Places(copy_places(alloc, places)?),
        })
    }
}

/// The same fields once more.
#[cycle(copy_value)]
fn copy_field_values(alloc: Global, fields: &FieldValues) -> Result<FieldValues, Memory>
    ensures { IfOk result (λ made. made ≡ fields.now) }
{
    let mut made = Items::new(alloc);
    for field in fields.as_slice() {
        let value = field.1.copy(alloc)?;
        made.push((field.0.copy()?, value))?;
    }
    Ok(made)
}

/// The same values once more.
#[cycle(copy_value)]
fn copy_values(alloc: Global, values: &Values) -> Result<Values, Memory>
    ensures { IfOk result (λ made. made ≡ values.now) }
{
    let mut made = Items::new(alloc);
    for value in values.as_slice() {
        made.push(value.copy(alloc)?)?;
    }
    Ok(made)
}

/// The same keys once more.
fn copy_keys(alloc: Global, keys: &KeyList) -> Result<KeyList, Memory>
    ensures { IfOk result (λ made. made ≡ keys.now) }
{
    let made = Items::from_slice(alloc, keys.as_slice())?;
    Ok(made)
}

/// The same places once more.
fn copy_places(alloc: Global, places: &PlaceList) -> Result<PlaceList, Memory>
    ensures { IfOk result (λ made. made ≡ places.now) }
{
    let mut made = Items::new(alloc);
    for rows in places.as_slice() {
        made.push(Items::from_slice(alloc, rows.as_slice())?)?;
    }
    Ok(made)
}
