ghost use Rattle.std.specs.Prelude.{◌≡◌, IfOk};
ghost use Rattle.std.specs.Option.{option_copied, option_map};
ghost use Rattle.element_tables.specs.Rows.{in_byte_order, named};
ghost use Rattle.element_tables.specs.Types.{types};
ghost use Rattle.typed_tree.specs.BuiltIns.{built_in_ty};
ghost use Rattle.value_types.specs.declared.types.Ty.TheVariants as ty_of;
ghost use Rattle.source_scopes.specs.Entries.{entry_named};
ghost use Rattle.source_scopes.specs.Structs.{type_at, type_in, type_known};
ghost use Rattle.source_scopes.specs.Tables.{entries_in};
ghost use Rattle.source_scopes.specs.Types.{fields_by, type_by, type_meant};

use crate::entries::Entries;
use crate::{Entry, Meaning};
use element_tables::type_named;
use slint_base::{Memory, Name};
use sqlite_items::{Boxed, Items, at};
use std::alloc::Global;
use syntax_tree::{Field, TypeName};
use typed_tree::built_in_type;
use value_types::{Fields, Ty};

/// The type that is written. None where a name in it is no type, or a struct without one.
#[cycle(written)]
pub(crate) fn written(
    alloc: Global,
    scope: Option<&Entries>,
    types: &[Option<Ty>],
    ty: &TypeName,
) -> Result<Option<Ty>, Memory>
    ensures { IfOk result (λ made. made ≡ type_by (type_known types.now (entries_in (option_copied scope.entry))) ty.now) }
{
    match ty {
        TypeName::Named(ident) => type_of_name(alloc, scope, types, &ident.name),
        TypeName::Array(item, _) => {
            let item = written(alloc, scope, types, item.get())?;
            array_of(alloc, item)
        }
        TypeName::Struct(fields, _) => {
            let made = written_fields(alloc, scope, types, fields.as_slice())?;
            Ok(made)
        }
    }
}

/// The struct of fields as they are written. None where one has no type.
#[cycle(written)]
pub(crate) fn written_fields(
    alloc: Global,
    scope: Option<&Entries>,
    types: &[Option<Ty>],
    fields: &[Field],
) -> Result<Option<Ty>, Memory>
    ensures { IfOk result (λ made. made ≡ fields_by (type_known types.now (entries_in (option_copied scope.entry))) fields.now) }
{
    let mut made = Vec::new(alloc);
    for field in fields {
        match written(alloc, scope, types, &field.ty)? {
            Some(ty) => made.push((field.name.name.copy()?, ty))?,
            None => return Ok(None),
        }
    }
    let made = in_byte_order(made)?;
    Ok(Some(Ty::Struct(made)))
}

/// The array of items of a type, where there is one.
fn array_of(alloc: Global, item: Option<Ty>) -> Result<Option<Ty>, Memory>
    ensures { IfOk result (λ made. made ≡ option_map ty_of.Array item) }
{
    match item {
        Some(item) => Ok(Some(Ty::Array(Boxed::new(alloc, item)?))),
        None => Ok(None),
    }
}

/// Fields in byte order of their names; those of one name stay in their order.
fn in_byte_order(mut fields: Vec<(Name, Ty)>) -> Result<Fields, Memory>
    ensures { IfOk result (λ made. made ≡ in_byte_order fields.items) }
{
    fields.sort_by(|a, b| a.0.cmp(&b.0))?;
    Ok(Items::from_vec(fields))
}

/// The type that a name is.
fn type_of_name(
    alloc: Global,
    scope: Option<&Entries>,
    types: &[Option<Ty>],
    name: &Name,
) -> Result<Option<Ty>, Memory>
    ensures { IfOk result (λ made. made ≡ type_known types.now (entries_in (option_copied scope.entry)) name.now) }
{
    match find_in(scope, name) {
        Some(entry) => type_meant(alloc, types, entry.meaning),
        None => built_in_named(alloc, name),
    }
}

/// The entry of a name in a scope.
pub(crate) fn find_in<'a>(scope: Option<&'a Entries>, name: &Name) -> Option<&'a Entry>
    ensures { option_copied result ≡ entry_named name.now (entries_in (option_copied scope.entry)) }
{
    match scope {
        Some(entries) => entries.find(name),
        None => None,
    }
}

/// The type that a meaning is.
fn type_meant(
    alloc: Global,
    types: &[Option<Ty>],
    meaning: Option<Meaning>,
) -> Result<Option<Ty>, Memory>
    ensures { IfOk result (λ made. made ≡ type_meant (type_at types.now) meaning) }
{
    match meaning {
        Some(Meaning::Enum(number)) => Ok(Some(Ty::Enum(number))),
        Some(Meaning::Struct(number)) => copy_of(alloc, at(types, number)),
        _ => Ok(None),
    }
}

/// A type once more, where it is there.
pub(crate) fn copy_of(alloc: Global, ty: Option<&Option<Ty>>) -> Result<Option<Ty>, Memory>
    ensures { IfOk result (λ made. made ≡ type_in (option_copied ty.entry)) }
{
    match ty {
        Some(Some(ty)) => Ok(Some(ty.copy(alloc)?)),
        _ => Ok(None),
    }
}

/// The built-in type of a name.
fn built_in_named(alloc: Global, name: &Name) -> Result<Option<Ty>, Memory>
    ensures { IfOk result (λ made. made ≡ option_map built_in_ty (named name.now types)) }
{
    match type_named(name.as_str()) {
        Some(ty) => Ok(Some(built_in_type(alloc, ty)?)),
        None => Ok(None),
    }
}
