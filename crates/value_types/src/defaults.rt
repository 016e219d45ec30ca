ghost use Rattle.std.specs.Prelude.{◌≡◌, IfOk, map};
ghost use Rattle.value_types.specs.Defaults.{default_value};

use crate::{FieldValues, Fields, Ty, Value};
use slint_base::{Memory, Text};
use sqlite_items::Items;
use std::alloc::Global;

/// The value that a property of a type has before anything is assigned to it.
#[cycle(default_of)]
pub fn default_of(alloc: Global, ty: &Ty) -> Result<Value, Memory>
    ensures { IfOk result (λ value. value ≡ default_value ty.now) }
{
    match ty {
        Ty::Void => Ok(Value::Void),
        Ty::Zero => Ok(Value::Int(0)),
        Ty::Int => Ok(Value::Int(0)),
        Ty::Float => Ok(Value::Float(0)),
        Ty::Percent => Ok(Value::Percent(0)),
        Ty::Bool => Ok(Value::Bool(false)),
        Ty::Str => Ok(Value::Str(Text::from_str(alloc, "")?)),
        Ty::Color => Ok(Value::Color(0)),
        Ty::Length => Ok(Value::Length(0)),
        Ty::Duration => Ok(Value::Duration(0)),
        Ty::Angle => Ok(Value::Angle(0)),
        Ty::Image => Ok(Value::Image(Text::from_str(alloc, "")?)),
        Ty::Enum(number) => Ok(Value::Enum(*number, 0)),
        Ty::Struct(fields) => Ok(Value::Struct(default_fields(alloc, fields)?)),
        Ty::Array(_) => Ok(Value::Array(Items::new(alloc))),
        Ty::Empty => Ok(Value::Array(Items::new(alloc))),
    }
}

/// The defaults of a struct's fields.
#[cycle(default_of)]
fn default_fields(alloc: Global, fields: &Fields) -> Result<FieldValues, Memory>
    ensures { IfOk result (λ made. made ≡ map (λ field. (field.0, default_value field.1)) fields.now) }
{
    let mut made = Items::new(alloc);
    for field in fields.as_slice() {
        let value = default_of(alloc, &field.1)?;
        made.push((field.0.copy()?, value))?;
    }
    Ok(made)
}
