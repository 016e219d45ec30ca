ghost use Rattle.std.specs.Prelude.{◌≡◌, IfOk};
ghost use Rattle.std.specs.Option.{option_copied};
ghost use Rattle.name_lookup.specs.Names.{built_in_name, colour, declared_meaning, enum_value, far_name, file_name, math, wanted_value};

use crate::values::found_value;
use crate::{Lookup, Meaning};
use element_tables::{enum_named, function_named, namespace_named};
use slint_base::{Memory, Name, Span};
use std::alloc::Global;
use typed_tree::{Declared, ExprKind, Names, Scope, built_in_enum};
use value_reading::color_named;
use value_types::{Ty, Value};

/// A built-in enum, `Math`, `Colors` or `Key`.
fn built_in_name(name: &Name) -> Lookup
    ensures { result ≡ built_in_name name.now }
{
    if let Some(of) = enum_named(name.as_str()) {
        return Some(Ok(Meaning::Enum(built_in_enum(of))));
    }
    match namespace_named(name.as_str()) {
        Some(of) => Some(Ok(Meaning::Namespace(of))),
        None => None,
    }
}

/// What a name of a file's scope stands for in an expression.
fn declared_meaning(declared: &Declared) -> Lookup
    ensures { result ≡ declared_meaning declared.now }
{
    match declared {
        Declared::Global(global) => Some(Ok(Meaning::Global(*global))),
        Declared::Enum(number) => Some(Ok(Meaning::Enum(*number))),
        Declared::Component(_) => None,
        Declared::Struct(_) => None,
    }
}

/// A colour by its name.
pub(crate) fn colour(alloc: Global, name: &Name, span: Span) -> Result<Lookup, Memory>
    ensures { IfOk result (λ lookup. lookup ≡ colour name.now span) }
{
    match color_named(name.as_str()) {
        Some(color) => {
            let kind = ExprKind::Literal(Value::Color(color));
            let lookup = found_value(alloc, kind, Ty::Color, span)?;
            Ok(lookup)
        }
        None => Ok(None),
    }
}

/// A built-in function.
pub(crate) fn math(name: &Name) -> Lookup
    ensures { result ≡ math name.now }
{
    match function_named(name.as_str()) {
        Some(function) => Some(Ok(Meaning::Math(function))),
        None => None,
    }
}

/// A global or an enum of the file, or a built-in name that the file doesn't declare.
fn file_name(scope: &Scope<'_>, name: &Name) -> Lookup
    ensures { result ≡ file_name scope.now name.now }
{
    let file = scope.names().file_of(scope.site());
    match scope.names().declared(file, name) {
        Some(declared) => declared_meaning(declared),
        None => built_in_name(name),
    }
}

/// A value of an enum.
pub(crate) fn enum_value(
    alloc: Global,
    names: &Names,
    number: u32,
    name: &Name,
    span: Span,
) -> Result<Lookup, Memory>
    ensures { IfOk result (λ lookup. lookup ≡ enum_value names.now number name.now span) }
{
    match names.enum_value(number, name) {
        Some(value) => {
            let kind = ExprKind::Literal(Value::Enum(number, value));
            let lookup = found_value(alloc, kind, Ty::Enum(number), span)?;
            Ok(lookup)
        }
        None => Ok(None),
    }
}

/// A value of the enum that is wanted.
fn wanted_value(
    alloc: Global,
    names: &Names,
    place: Option<&Ty>,
    name: &Name,
    span: Span,
) -> Result<Lookup, Memory>
    ensures { IfOk result (λ lookup. lookup ≡ wanted_value names.now (option_copied place.entry) name.now span) }
{
    match place {
        Some(Ty::Enum(number)) => enum_value(alloc, names, *number, name, span),
        _ => Ok(None),
    }
}

/// What a name stands for, of what comes behind members.
pub(crate) fn far_name(
    alloc: Global,
    scope: &Scope<'_>,
    place: Option<&Ty>,
    name: &Name,
    span: Span,
) -> Result<Lookup, Memory>
    ensures { IfOk result (λ lookup. lookup ≡ far_name scope.now (option_copied place.entry) name.now span) }
{
    if let Some(found) = file_name(scope, name) {
        return Ok(Some(found));
    }
    if let Some(found) = wanted_value(alloc, scope.names(), place, name, span)? {
        return Ok(Some(found));
    }
    if let Some(found) = colour(alloc, name, span)? {
        return Ok(Some(found));
    }
    Ok(math(name))
}
