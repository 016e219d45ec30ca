ghost use Rattle.std.specs.Prelude.{◌≡◌, IfOk};
ghost use Rattle.name_lookup.specs.Leads.{own_member};
ghost use Rattle.item_types.specs.Judging.{Tells};
ghost use Rattle.item_types.specs.Items.{binding_judging, bound, changed_judging, changed_run, function_judging, function_body};
ghost use Rattle.item_types.specs.Members.{function_found, property_found};

use crate::members::{function_found, property_found};
use crate::parameters::{function_locals, with_parameters};
use crate::values::{judge_block, judge_bound_value, judge_value, value_span};
use name_lookup::own_member;
use slint_base::{Fault, Memory};
use std::alloc::Global;
use syntax_tree::{Changed, Function, Ident, Value};
use typed_tree::{
    MemberRef, Scope, Signature, TypedBinding, TypedChanged, TypedFunction, TypedItem,
};
use value_types::Ty;

/// The property of the body that a name stands for, with its type.
fn own_property(
    alloc: Global,
    scope: &Scope<'_>,
    name: &Ident,
) -> Result<Result<(MemberRef, Ty), Fault>, Memory>
    ensures { IfOk result (λ found. found ≡ property_found name.now.span (own_member scope.now name.now.name)) }
{
    let found = own_member(alloc, scope, &name.name)?;
    Ok(property_found(name.span, found))
}

/// The binding of a property to a value.
fn bound(
    alloc: Global,
    scope: &Scope<'_>,
    value: &Value,
    property: (MemberRef, Ty),
) -> Result<Result<TypedItem, Fault>, Memory>
    ensures { IfOk result (λ verdict. Tells (bound scope.now value.now property) verdict) }
{
    let verdict = judge_bound_value(alloc, scope, property.0, &property.1, value)?;
    match verdict {
        Ok(bound) => Ok(Ok(TypedItem::Binding(TypedBinding {
            property: property.0,
            value: bound.0,
            is_share: bound.1,
            span: value_span(value),
        }))),
        Err(fault) => Ok(Err(fault)),
    }
}

/// A binding, or the value of a declared property.
pub(crate) fn judge_binding(
    alloc: Global,
    scope: &Scope<'_>,
    name: &Ident,
    value: &Value,
) -> Result<Result<TypedItem, Fault>, Memory>
    ensures { IfOk result (λ verdict. Tells (binding_judging scope.now name.now value.now) verdict) }
{
    let found = own_property(alloc, scope, name)?;
    match found {
        Ok(property) => bound(alloc, scope, value, property),
        Err(fault) => Ok(Err(fault)),
    }
}

/// What runs when a property has changed.
fn changed_run(
    alloc: Global,
    scope: &Scope<'_>,
    run: &Value,
    property: (MemberRef, Ty),
) -> Result<Result<TypedItem, Fault>, Memory>
    ensures { IfOk result (λ verdict. Tells (changed_run scope.now run.now property) verdict) }
{
    let verdict = judge_value(alloc, scope, &Ty::Void, run)?;
    match verdict {
        Ok(run) => Ok(Ok(TypedItem::Changed(TypedChanged {
            property: property.0,
            run,
        }))),
        Err(fault) => Ok(Err(fault)),
    }
}

/// What watches a property.
pub(crate) fn judge_changed(
    alloc: Global,
    scope: &Scope<'_>,
    changed: &Changed,
) -> Result<Result<TypedItem, Fault>, Memory>
    ensures { IfOk result (λ verdict. Tells (changed_judging scope.now changed.now) verdict) }
{
    let found = own_property(alloc, scope, &changed.name)?;
    match found {
        Ok(property) => changed_run(alloc, scope, &changed.run, property),
        Err(fault) => Ok(Err(fault)),
    }
}

/// The body of a function, with its number and what it takes and gives.
fn function_body(
    alloc: Global,
    scope: &Scope<'_>,
    function: &Function,
    found: (usize, Signature),
) -> Result<Result<TypedItem, Fault>, Memory>
    ensures { IfOk result (λ verdict. Tells (function_body scope.now function.now found) verdict) }
{
    let fields = function.parameters.as_slice();
    let types = found.1.parameters.as_slice();
    let locals = function_locals(alloc, fields, types)?;
    let given = locals.as_slice();
    let inside = with_parameters(scope, given);
    let verdict = judge_block(alloc, &inside, &found.1.result, &function.body)?;
    match verdict {
        Ok(body) => Ok(Ok(TypedItem::Function(TypedFunction {
            number: found.0,
            body,
        }))),
        Err(fault) => Ok(Err(fault)),
    }
}

/// A function.
pub(crate) fn judge_function(
    alloc: Global,
    scope: &Scope<'_>,
    function: &Function,
) -> Result<Result<TypedItem, Fault>, Memory>
    ensures { IfOk result (λ verdict. Tells (function_judging scope.now function.now) verdict) }
{
    let member = own_member(alloc, scope, &function.name.name)?;
    let found = function_found(function.name.span, member);
    match found {
        Ok(numbered) => function_body(alloc, scope, function, numbered),
        Err(fault) => Ok(Err(fault)),
    }
}
