ghost use Rattle.std.specs.Prelude.{◌≡◌, IfOk};
ghost use Rattle.element_tables.specs.declared.functions.Namespace.TheVariants as namespace;
ghost use Rattle.std.specs.Option.{option_copied};
ghost use Rattle.typed_tree.specs.declared.expressions.ExprKind.{out-ExprKind};
ghost use Rattle.typed_tree.specs.declared.expressions.StepKind.TheVariants as step;
ghost use Rattle.typed_tree.specs.Typed.{part_of, typed_step};
ghost use Rattle.value_types.specs.declared.types.Ty.{out-Ty};
ghost use Rattle.value_types.specs.Conversions.{field_named};
ghost use Rattle.name_lookup.specs.Asking.{asked_member, field_of, property_asked, property_of, value_member};
ghost use Rattle.name_lookup.specs.Names.{asking, built_in_member, of_namespace, of_value};

use crate::far::{colour, math};
use crate::values::found_value;
use crate::{Lookup, Meaning};
use element_tables::{
    Namespace, ValueMember, ValueMemberKind, array_member_named, key_named, string_member_named,
};
use slint_base::{Memory, Name, Span, Text};
use std::alloc::Global;
use typed_tree::{ExprKind, MemberRef, StepKind, TypedExpr, TypedStep, built_in_type};
use value_types::{Fields, Ty, Value};

/// The text of a key.
fn key(alloc: Global, name: &Name, span: Span) -> Result<Lookup, Memory>
    ensures { IfOk result (λ lookup. lookup ≡ of_namespace namespace.Key name.now span) }
{
    let Some(character) = key_named(name.as_str()) else {
        return Ok(None);
    };
    let mut text = String::new(alloc);
    text.push(character)?;
    let kind = ExprKind::Literal(Value::Str(Text::from_string(text)));
    let lookup = found_value(alloc, kind, Ty::Str, span)?;
    Ok(lookup)
}

/// A member of `Math`, `Colors` or `Key`.
pub(crate) fn of_namespace(
    alloc: Global,
    of: Namespace,
    name: &Name,
    span: Span,
) -> Result<Lookup, Memory>
    ensures { IfOk result (λ lookup. lookup ≡ of_namespace of name.now span) }
{
    match of {
        Namespace::Math => Ok(math(name)),
        Namespace::Colors => colour(alloc, name, span),
        Namespace::Key => key(alloc, name, span),
    }
}

/// The type of the field that has a name.
fn field_named<'a>(name: &Name, fields: &'a Fields) -> Option<&'a Ty>
    ensures { option_copied result ≡ field_named name.now fields.now }
{
    for field in fields.as_slice() {
        if *name == field.0 {
            return Some(&field.1);
        }
    }
    None
}

/// The type of the field that a struct has under a name.
fn field_of<'a>(ty: &'a Ty, name: &Name) -> Option<&'a Ty>
    ensures { option_copied result ≡ field_of (out-Ty ty.now) name.now }
{
    match ty {
        Ty::Struct(fields) => field_named(name, fields),
        _ => None,
    }
}

/// The built-in member that a text or an array has under a name.
fn value_member(ty: &Ty, name: &Name) -> Option<ValueMember>
    ensures { result ≡ value_member (out-Ty ty.now) name.now }
{
    match ty {
        Ty::Str => string_member_named(name.as_str()),
        Ty::Array(_) => array_member_named(name.as_str()),
        Ty::Empty => array_member_named(name.as_str()),
        _ => None,
    }
}

/// The property that is read where an expression is all of one.
fn property_of(kind: &ExprKind) -> Option<MemberRef>
    ensures { result ≡ property_of (out-ExprKind kind.now) }
{
    match kind {
        ExprKind::Property(member) => Some(*member),
        _ => None,
    }
}

/// The property of which only the length is read.
fn property_asked(is_plain: bool, ask: ValueMemberKind, kind: &ExprKind) -> Option<MemberRef>
    ensures { result ≡ property_asked is_plain ask (out-ExprKind kind.now) }
{
    match ask {
        ValueMemberKind::Length if is_plain => property_of(kind),
        _ => None,
    }
}

/// A built-in member of a value, as an expression. The length of a property that is written as a plain path is read without the rest
/// of it.
fn asking(is_plain: bool, ask: ValueMemberKind, of: TypedExpr) -> ExprKind
    ensures { result ≡ asking is_plain ask of }
{
    match property_asked(is_plain, ask, of.kind.get()) {
        Some(member) => ExprKind::PropertyLength(member),
        None => ExprKind::Ask(ask, of),
    }
}

/// A built-in member of a value: called, or as it is.
fn built_in_member(
    alloc: Global,
    is_plain: bool,
    of: TypedExpr,
    span: Span,
    member: ValueMember,
) -> Result<Meaning, Memory>
    ensures { IfOk result (λ meaning. meaning ≡ built_in_member is_plain of span member) }
{
    if member.is_called {
        return Ok(Meaning::Method(member, of));
    }
    let ty = built_in_type(alloc, member.result)?;
    let kind = asking(is_plain, member.kind, of);
    let value = TypedExpr::new(alloc, kind, ty, span)?;
    Ok(Meaning::Value(value))
}

/// A field of a struct, whose type is known.
fn field_part(
    alloc: Global,
    of: TypedExpr,
    name: &Name,
    ty: Ty,
    span: Span,
) -> Result<TypedExpr, Memory>
    ensures { IfOk result (λ part. part ≡ part_of of (typed_step (step.ToField name.now) ty) span) }
{
    let kind = StepKind::ToField(name.copy()?);
    let part = of.part(alloc, TypedStep { kind, ty }, span)?;
    Ok(part)
}

/// A built-in member of a value.
fn asked_member(
    alloc: Global,
    is_plain: bool,
    of: TypedExpr,
    name: &Name,
    span: Span,
) -> Result<Lookup, Memory>
    ensures { IfOk result (λ lookup. lookup ≡ asked_member is_plain of name.now span) }
{
    match value_member(&of.ty, name) {
        Some(member) => {
            let meaning = built_in_member(alloc, is_plain, of, span, member)?;
            Ok(Some(Ok(meaning)))
        }
        None => Ok(None),
    }
}

/// What stands behind the point of a value.
pub(crate) fn of_value(
    alloc: Global,
    is_plain: bool,
    of: TypedExpr,
    name: &Name,
    span: Span,
) -> Result<Lookup, Memory>
    ensures { IfOk result (λ lookup. lookup ≡ of_value is_plain of name.now span) }
{
    match field_of(&of.ty, name) {
        Some(ty) => {
            let ty = ty.copy(alloc)?;
            let part = field_part(alloc, of, name, ty, span)?;
            Ok(Some(Ok(Meaning::Value(part))))
        }
        None => asked_member(alloc, is_plain, of, name, span),
    }
}
