ghost use Rattle.std.specs.Prelude.{◌≡◌, ◌<◌, [], ◌∷◌, ◌++◌, IfOk, MatchOption, Ok, length, map};
ghost use Rattle.std.specs.Option.{option_copied};
ghost use Rattle.value_types.specs.declared.types.Ty.{out-Ty};
ghost use Rattle.value_types.specs.declared.types.Ty.TheVariants as ty_of;
ghost use Rattle.element_tables.specs.Rows.{in_byte_order};
ghost use Rattle.typed_tree.specs.declared.expressions.ExprKind.TheVariants as exprs;
ghost use Rattle.typed_tree.specs.Typed.{typed_field};
ghost use Rattle.expr_rules.specs.declared.judged.Judged.{Judged as Part};
ghost use Rattle.expr_rules.specs.Denotations.{given, made};
ghost use Rattle.expr_rules.specs.Own.{all_given, array, array_at, array_form, array_of, common_of, field_type, fields_of, struct_at, struct_form, struct_type};

use crate::Judged;
use crate::fitting::{all_given, as_types, common_of, given};
use crate::making::made;
use crate::parts::reversed;
use slint_base::{Fault, Memory, Name, Rule, Span};
use sqlite_items::{Boxed, Items};
use std::alloc::Global;
use syntax_tree::FieldValue;
use typed_tree::{ExprKind, TypedExpr, TypedField};
use value_types::{Fields, Ty};

/// Items of a type.
fn array_as(
    alloc: Global,
    es: Items<TypedExpr>,
    item: Ty,
    span: Span,
) -> Result<Result<Judged, Fault>, Memory>
    ensures { IfOk result (λ judged. judged ≡ Ok (made (exprs.Array es) (ty_of.Array item) span)) }
{
    let ty = Ty::Array(Boxed::new(alloc, item)?);
    made(alloc, ExprKind::Array(es), ty, span)
}

/// Items converted to what they have in common, if they have.
fn array_of(
    alloc: Global,
    span: Span,
    es: Items<TypedExpr>,
) -> Result<Result<Judged, Fault>, Memory>
    ensures { IfOk result (λ judged. judged ≡ array_of span es (common_of es)) }
{
    match common_of(alloc, es.as_slice())? {
        Some(ty) => {
            let es = as_types(alloc, &ty, es)?;
            array_as(alloc, es, ty, span)
        }
        None => Ok(Err(Fault {
            rule: Rule::TypeMismatch,
            span,
        })),
    }
}

/// Items where a type is wanted: of an array they have its items' type already.
fn array_wanted(
    alloc: Global,
    ty: &Ty,
    span: Span,
    es: Items<TypedExpr>,
) -> Result<Result<Judged, Fault>, Memory>
    ensures { IfOk result (λ judged. judged ≡ array_form (out-Ty ty.now) span es) }
{
    match ty {
        Ty::Array(item) => array_as(alloc, es, item.get().copy(alloc)?, span),
        Ty::Void => made(alloc, ExprKind::Array(es), Ty::Void, span),
        _ => array_of(alloc, span, es),
    }
}

/// One or more items at a place.
fn array_at(
    alloc: Global,
    place: Option<&Ty>,
    span: Span,
    es: Items<TypedExpr>,
) -> Result<Result<Judged, Fault>, Memory>
    ensures { IfOk result (λ judged. judged ≡ array_at (option_copied place.entry) span es) }
{
    match place {
        Some(ty) => array_wanted(alloc, ty, span, es),
        None => array_of(alloc, span, es),
    }
}

/// An array by what its items came to.
pub(crate) fn own_array(
    alloc: Global,
    place: Option<&Ty>,
    span: Span,
    parts: Items<Judged>,
) -> Result<Result<Judged, Fault>, Memory>
    ensures { IfOk result (λ judged. judged ≡ array (option_copied place.entry) span (all_given parts)) }
{
    let es = all_given(alloc, parts)?;
    if es.is_empty() {
        return made(alloc, ExprKind::Array(es), Ty::Empty, span);
    }
    array_at(alloc, place, span, es)
}

/// A field of a struct literal, by what its value came to.
fn typed_field(alloc: Global, name: &Name, part: Judged) -> Result<TypedField, Memory>
    ensures { IfOk result (λ field. field ≡ typed_field name.now (given part)) }
{
    let value = given(alloc, part)?;
    let name = name.copy()?;
    Ok(TypedField { name, value })
}

/// Takes the last two parts, the last of which is a field's name and the other its value; gives the value.
fn take_value(left: &mut Items<Judged>) -> Option<Judged>
    ensures { MatchOption result (length left.old < 2) (λ x. (name : Part) × (left.old ≡ left.new ++ x ∷ name ∷ [])) }
{
    let Some(_name) = left.pop() else {
        return None;
    };
    left.pop()
}

/// The fields of a struct literal: each has come to two things, its name and its value.
fn fields_of(
    alloc: Global,
    fields: &[FieldValue],
    parts: Items<Judged>,
) -> Result<Items<TypedField>, Memory>
    ensures { IfOk result (λ made. made ≡ fields_of fields.now parts) }
{
    let mut left = reversed(alloc, parts)?;
    let mut made = Items::new(alloc);
    for field in fields {
        let Some(part) = take_value(&mut left) else {
            return Ok(made);
        };
        made.push(typed_field(alloc, &field.name.name, part)?)?;
    }
    Ok(made)
}

/// Fields in byte order of their names; those of one name stay in their order.
fn in_byte_order(mut fields: Vec<(Name, Ty)>) -> Result<Fields, Memory>
    ensures { IfOk result (λ made. made ≡ in_byte_order fields.items) }
{
    fields.sort_by(|a, b| a.0.cmp(&b.0))?;
    Ok(Items::from_vec(fields))
}

/// The names and the types of fields.
fn field_types(alloc: Global, fields: &[TypedField]) -> Result<Vec<(Name, Ty)>, Memory>
    ensures { IfOk result (λ types. types.items ≡ map field_type fields.now) }
{
    let mut types = Vec::new(alloc);
    for field in fields {
        let ty = field.value.ty.copy(alloc)?;
        types.push((field.name.copy()?, ty))?;
    }
    Ok(types)
}

/// The type of a struct of these fields.
fn struct_type(alloc: Global, fields: &[TypedField]) -> Result<Ty, Memory>
    ensures { IfOk result (λ ty. ty ≡ struct_type fields.now) }
{
    let types = field_types(alloc, fields)?;
    let fields = in_byte_order(types)?;
    Ok(Ty::Struct(fields))
}

/// The type of a struct literal of these fields where a type is wanted.
fn struct_wanted(alloc: Global, ty: &Ty, fields: &[TypedField]) -> Result<Ty, Memory>
    ensures { IfOk result (λ made. made ≡ struct_form (out-Ty ty.now) fields.now) }
{
    match ty {
        Ty::Void => Ok(Ty::Void),
        _ => struct_type(alloc, fields),
    }
}

/// The type of a struct literal of these fields at a place.
fn struct_at(alloc: Global, place: Option<&Ty>, fields: &[TypedField]) -> Result<Ty, Memory>
    ensures { IfOk result (λ made. made ≡ struct_at (option_copied place.entry) fields.now) }
{
    match place {
        Some(ty) => struct_wanted(alloc, ty, fields),
        None => struct_type(alloc, fields),
    }
}

/// A struct literal by its fields, and what their names and values came to.
pub(crate) fn own_struct(
    alloc: Global,
    place: Option<&Ty>,
    fields: &[FieldValue],
    parts: Items<Judged>,
    span: Span,
) -> Result<Result<Judged, Fault>, Memory>
    ensures { IfOk result (λ judged. judged ≡ Ok (made (exprs.Struct (fields_of fields.now parts)) (struct_at (option_copied place.entry) (fields_of fields.now parts)) span)) }
{
    let fields = fields_of(alloc, fields, parts)?;
    let ty = struct_at(alloc, place, fields.as_slice())?;
    made(alloc, ExprKind::Struct(fields), ty, span)
}
