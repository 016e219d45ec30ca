ghost use Rattle.std.specs.Prelude.{◌≡◌, IfOk};
ghost use Rattle.std.specs.List.{filter_map, flat_map};
ghost use Rattle.std.specs.Option.{option_copied};
ghost use Rattle.fault_order.specs.Order.{first_of};
ghost use Rattle.item_rules.specs.Twice.{twice_in};
ghost use Rattle.item_rules.specs.Types.{field_faults, field_name, field_told, fields_faults, if_written, name_told, type_faults};

use crate::twice::note_if_any;
use fault_order::earlier;
use name_index::NameIndex;
use slint_base::{Fault, Memory};
use std::alloc::Global;
use syntax_tree::{Field, Ident, TypeName};

/// The first fault in a type: a struct has two fields of one name.
#[cycle(types)]
pub fn type_fault(alloc: Global, ty: &TypeName) -> Result<Option<Fault>, Memory>
    ensures { IfOk result (λ fault. fault ≡ first_of (type_faults ty.now)) }
{
    match ty {
        TypeName::Named(_) => Ok(None),
        TypeName::Array(inner, _) => type_fault(alloc, inner.get()),
        TypeName::Struct(fields, _) => fields_fault(alloc, fields.as_slice()),
    }
}

/// The first fault in the fields of a struct, or in the parameters of a function, which are written alike.
#[cycle(types)]
pub(crate) fn fields_fault(alloc: Global, fields: &[Field]) -> Result<Option<Fault>, Memory>
    ensures { IfOk result (λ fault. fault ≡ first_of (fields_faults fields.now)) }
{
    let twice = twice_fields(alloc, fields)?;
    let inner = types_fault(alloc, fields)?;
    Ok(earlier(twice, inner))
}

/// The first fault in the types of fields.
#[cycle(types)]
fn types_fault(alloc: Global, fields: &[Field]) -> Result<Option<Fault>, Memory>
    ensures { IfOk result (λ fault. fault ≡ first_of (flat_map field_faults fields.now)) }
{
    let mut first = None;
    for field in fields {
        first = earlier(first, field_fault(alloc, field)?);
    }
    Ok(first)
}

/// The first fault in the type of a field.
#[cycle(types)]
fn field_fault(alloc: Global, field: &Field) -> Result<Option<Fault>, Memory>
    ensures { IfOk result (λ fault. fault ≡ first_of (field_faults field.now)) }
{
    type_fault(alloc, &field.ty)
}

/// The name of a field.
fn name_of(field: &Field) -> &Ident
    ensures { result.now ≡ name_told (field_told field.now) }
{
    &field.name
}

/// The first of the fields that have the name of another one before them.
fn twice_fields(alloc: Global, fields: &[Field]) -> Result<Option<Fault>, Memory>
    ensures { IfOk result (λ fault. fault ≡ first_of (twice_in (filter_map field_name fields.now))) }
{
    let mut seen = NameIndex::new(alloc);
    let mut fault = None;
    for field in fields {
        fault = note_if_any(&mut seen, fault, Some(name_of(field)))?;
    }
    Ok(fault)
}

/// The first fault in a type that may be written.
pub(crate) fn type_fault_if_any(
    alloc: Global,
    ty: Option<&TypeName>,
) -> Result<Option<Fault>, Memory>
    ensures { IfOk result (λ fault. fault ≡ first_of (if_written type_faults (option_copied ty.entry))) }
{
    match ty {
        Some(ty) => type_fault(alloc, ty),
        None => Ok(None),
    }
}
