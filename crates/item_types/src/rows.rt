ghost use Rattle.std.specs.Prelude.{◌≡◌, IfOk, map, option_map};
ghost use Rattle.value_types.specs.declared.types.Ty.{out-Ty};
ghost use Rattle.value_types.specs.declared.types.Ty.TheVariants as ty_of;
ghost use Rattle.expr_rules.specs.Own.{as_type};
ghost use Rattle.item_types.specs.Rows.{named_type, row_names, row_type};

use slint_base::{Memory, Name};
use sqlite_items::{Boxed, Items};
use std::alloc::Global;
use syntax_tree::{For, Ident};
use type_rules::same_type;
use typed_tree::{ExprKind, RowNames, TypedExpr, TypedFor};
use value_types::{Fields, Ty};

/// A type with a name: in it zeros count as int, and `[]` as an array of ints.
#[cycle(named_type)]
pub(crate) fn named_type(alloc: Global, ty: &Ty) -> Result<Ty, Memory>
    ensures { IfOk result (λ made. made ≡ named_type ty.now) }
{
    match ty {
        Ty::Void => Ok(Ty::Void),
        Ty::Zero => Ok(Ty::Int),
        Ty::Int => Ok(Ty::Int),
        Ty::Float => Ok(Ty::Float),
        Ty::Percent => Ok(Ty::Percent),
        Ty::Bool => Ok(Ty::Bool),
        Ty::Str => Ok(Ty::Str),
        Ty::Color => Ok(Ty::Color),
        Ty::Length => Ok(Ty::Length),
        Ty::Duration => Ok(Ty::Duration),
        Ty::Angle => Ok(Ty::Angle),
        Ty::Image => Ok(Ty::Image),
        Ty::Enum(number) => Ok(Ty::Enum(*number)),
        Ty::Struct(fields) => Ok(Ty::Struct(named_fields(alloc, fields)?)),
        Ty::Array(item) => Ok(Ty::Array(Boxed::new(alloc, named_type(alloc, item.get())?)?)),
        Ty::Empty => Ok(Ty::Array(Boxed::new(alloc, Ty::Int)?)),
    }
}

/// The fields of a struct, each with a type that has a name.
#[cycle(named_type)]
fn named_fields(alloc: Global, fields: &Fields) -> Result<Fields, Memory>
    ensures { IfOk result (λ made. made ≡ map (λ field. (field.0, named_type field.1)) fields.now) }
{
    let mut made = Items::new(alloc);
    for field in fields.as_slice() {
        let ty = named_type(alloc, &field.1)?;
        made.push((field.0.copy()?, ty))?;
    }
    Ok(made)
}

/// The type of a row's item, where a model has the type of an array.
pub(crate) fn row_type(alloc: Global, ty: &Ty) -> Result<Option<Ty>, Memory>
    ensures { IfOk result (λ made. made ≡ row_type (out-Ty ty.now)) }
{
    match ty {
        Ty::Array(item) => {
            let ty = named_type(alloc, item.get())?;
            Ok(Some(ty))
        }
        Ty::Empty => Ok(Some(Ty::Int)),
        _ => Ok(None),
    }
}

/// A value converted to a type, where it hasn't that type already.
fn as_type(alloc: Global, ty: Ty, e: TypedExpr) -> Result<TypedExpr, Memory>
    ensures { IfOk result (λ made. made ≡ as_type ty e) }
{
    if same_type(&e.ty, &ty) {
        return Ok(e);
    }
    let span = e.span;
    let made = TypedExpr::new(alloc, ExprKind::Convert(e), ty, span)?;
    Ok(made)
}

/// An array converted to one of items of a type, where it isn't that already.
pub(crate) fn as_array(alloc: Global, item: &Ty, e: TypedExpr) -> Result<TypedExpr, Memory>
    ensures { IfOk result (λ made. made ≡ as_type (ty_of.Array item.now) e) }
{
    let item = item.copy(alloc)?;
    let ty = Ty::Array(Boxed::new(alloc, item)?);
    as_type(alloc, ty, e)
}

/// The same name once more, if there is one.
fn name_if_any(number: &Option<Ident>) -> Result<Option<Name>, Memory>
    ensures { IfOk result (λ name. name ≡ option_map (λ x. x.name) number.now) }
{
    match number {
        Some(number) => Ok(Some(number.name.copy()?)),
        None => Ok(None),
    }
}

/// The names that a `for` puts around its element, which has this number. `rows` is what its model came to.
pub fn row_names(
    alloc: Global,
    element: usize,
    repeater: &For,
    rows: &TypedFor,
) -> Result<RowNames, Memory>
    ensures { IfOk result (λ names. names ≡ row_names element repeater.now rows.now) }
{
    let ty = rows.item.copy(alloc)?;
    let item = repeater.item.name.copy()?;
    let number = name_if_any(&repeater.number)?;
    Ok(RowNames {
        element,
        item,
        ty,
        is_assignable: rows.target.is_some(),
        number,
    })
}
