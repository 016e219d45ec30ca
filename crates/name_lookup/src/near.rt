ghost use Rattle.std.specs.Prelude.{◌≡◌, IfOk};
ghost use Rattle.typed_tree.specs.declared.expressions.ExprKind.TheVariants as exprs;
ghost use Rattle.value_types.specs.declared.types.Ty.TheVariants as ty;
ghost use Rattle.value_types.specs.declared.values.Value.TheVariants as value;
ghost use Rattle.name_lookup.specs.Names.{a_value, found, id_here, is_name, near_name, parameter_among, parent_word, root_of, row_among, self_of, word};

use crate::values::found_value;
use crate::{Lookup, Meaning};
use slint_base::{Memory, Name, Rule, Span};
use std::alloc::Global;
use typed_tree::{ExprKind, Local, RowNames, Scope, Site};
use value_types::{Ty, Value};

/// A parameter of the function or handler at hand.
fn parameter(alloc: Global, parameters: &[Local], name: &Name, span: Span) -> Result<Lookup, Memory>
    ensures { IfOk result (λ lookup. lookup ≡ parameter_among 0 name.now parameters.now span) }
{
    for (number, parameter) in parameters.iter().enumerate() {
        if parameter.name == *name {
            let ty = parameter.ty.copy(alloc)?;
            let lookup = found_value(alloc, ExprKind::Parameter(number), ty, span)?;
            return Ok(lookup);
        }
    }
    Ok(None)
}

/// Whether a name is there and is this one.
fn is_name(other: &Option<Name>, name: &Name) -> bool
    ensures { result ≡ is_name name.now other.now }
{
    match other {
        Some(other) => other == name,
        None => false,
    }
}

/// The number or the item of a row at hand, of the innermost repeater that has the name.
fn row_name(alloc: Global, rows: &[RowNames], name: &Name, span: Span) -> Result<Lookup, Memory>
    ensures { IfOk result (λ lookup. lookup ≡ row_among name.now rows.now span) }
{
    for row in rows {
        if is_name(&row.number, name) {
            let lookup = found_value(alloc, ExprKind::RowNumber(row.element), Ty::Int, span)?;
            return Ok(lookup);
        }
        if row.item == *name {
            let ty = row.ty.copy(alloc)?;
            let lookup = found_value(alloc, ExprKind::RowItem(row.element), ty, span)?;
            return Ok(lookup);
        }
    }
    Ok(None)
}

/// `true` or `false`.
fn truth(alloc: Global, is_true: bool, span: Span) -> Result<Lookup, Memory>
    ensures { IfOk result (λ lookup. lookup ≡ found (a_value (exprs.Literal (value.Bool is_true)) ty.Bool span)) }
{
    let kind = ExprKind::Literal(Value::Bool(is_true));
    let lookup = found_value(alloc, kind, Ty::Bool, span)?;
    Ok(lookup)
}

/// The element or the global in whose body a name stands.
fn self_of(site: Site) -> Meaning
    ensures { result ≡ self_of site }
{
    match site {
        Site::Element(_, element) => Meaning::Element(element),
        Site::Global(global) => Meaning::Global(global),
    }
}

/// The root element of the component in which a name stands, or the global.
fn root_of(site: Site) -> Meaning
    ensures { result ≡ root_of site }
{
    match site {
        Site::Element(_, _) => Meaning::Element(0),
        Site::Global(global) => Meaning::Global(global),
    }
}

/// What the word `parent` stands for.
fn parent_word(scope: &Scope<'_>) -> Lookup
    ensures { result ≡ parent_word scope.now.outline scope.now.site }
{
    let parent = match scope.site() {
        Site::Element(component, element) => scope.names().parent_element(component, element),
        Site::Global(_) => None,
    };
    match parent {
        Some(element) => Some(Ok(Meaning::Element(element))),
        None => Some(Err(Rule::UnknownName)),
    }
}

/// What a word stands for that is always there.
fn word(alloc: Global, scope: &Scope<'_>, name: &Name, span: Span) -> Result<Lookup, Memory>
    ensures { IfOk result (λ lookup. lookup ≡ word scope.now name.now span) }
{
    let name = name.as_str();
    if name == "true" {
        return truth(alloc, true, span);
    }
    if name == "false" {
        return truth(alloc, false, span);
    }
    if name == "root" {
        return Ok(Some(Ok(root_of(scope.site()))));
    }
    if name == "self" {
        return Ok(Some(Ok(self_of(scope.site()))));
    }
    if name == "parent" {
        return Ok(parent_word(scope));
    }
    Ok(None)
}

/// An element whose id is seen.
fn id_here(scope: &Scope<'_>, name: &Name) -> Lookup
    ensures { result ≡ id_here scope.now.outline scope.now.site name.now }
{
    match scope.names().id(scope.site(), name) {
        Some(element) => Some(Ok(Meaning::Element(element))),
        None => None,
    }
}

/// What a name stands for, of what comes before members.
pub(crate) fn near_name(
    alloc: Global,
    scope: &Scope<'_>,
    name: &Name,
    span: Span,
) -> Result<Lookup, Memory>
    ensures { IfOk result (λ lookup. lookup ≡ near_name scope.now name.now span) }
{
    if let Some(found) = parameter(alloc, scope.parameters(), name, span)? {
        return Ok(Some(found));
    }
    if let Some(found) = word(alloc, scope, name, span)? {
        return Ok(Some(found));
    }
    if let Some(found) = row_name(alloc, scope.rows(), name, span)? {
        return Ok(Some(found));
    }
    Ok(id_here(scope, name))
}
