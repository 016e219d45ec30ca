ghost use Rattle.std.specs.Prelude.{◌≡◌, IfOk};

use slint_base::{Memory, Name};
use sqlite_items::{Boxed, Items};
use std::alloc::Global;

/// A type of the language.
#[derive(Drop)]
pub enum Ty {
    /// The type of what gives no value.
    Void,
    /// The type of a literal of zeros alone.
    Zero,
    Int,
    Float,
    Percent,
    Bool,
    Str,
    Color,
    Length,
    Duration,
    Angle,
    Image,
    /// An enum, by its number.
    Enum(u32),
    /// A struct, by its fields.
    Struct(Fields),
    /// An array, by the type of its items.
    Array(Boxed<Ty>),
    /// The type of `[]`.
    Empty,
}

/// The fields of a struct type, in byte order of their names.
pub type Fields = Items<(Name, Ty)>;

impl Ty {
    /// The same type once more.
    #[cycle(copy_type)]
    pub fn copy(&self, alloc: Global) -> Result<Ty, Memory>
        ensures { IfOk result (λ ty. ty ≡ self.now) }
    {
        Ok(match self {
            Ty::Void => Ty::Void,
            Ty::Zero => Ty::Zero,
            Ty::Int => Ty::Int,
            Ty::Float => Ty::Float,
            Ty::Percent => Ty::Percent,
            Ty::Bool => Ty::Bool,
            Ty::Str => Ty::Str,
            Ty::Color => Ty::Color,
            Ty::Length => Ty::Length,
            Ty::Duration => Ty::Duration,
            Ty::Angle => Ty::Angle,
            Ty::Image => Ty::Image,
            Ty::Enum(number) => Ty::Enum(*number),
            Ty::Struct(fields) => Ty::Struct(copy_fields(alloc, fields)?),
            Ty::Array(item) => Ty::Array(Boxed::new(alloc, item.get().copy(alloc)?)?),
            Ty::Empty => Ty::Empty,
        })
    }
}

/// The same fields once more.
#[cycle(copy_type)]
fn copy_fields(alloc: Global, fields: &Fields) -> Result<Fields, Memory>
    ensures { IfOk result (λ made. made ≡ fields.now) }
{
    let mut made = Items::new(alloc);
    for field in fields.as_slice() {
        let ty = field.1.copy(alloc)?;
        made.push((field.0.copy()?, ty))?;
    }
    Ok(made)
}
