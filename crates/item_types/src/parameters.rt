ghost use Rattle.std.specs.Prelude.{◌≡◌, IfOk};
ghost use Rattle.item_types.specs.Members.{field_names, locals, names_or_none, with_parameters};

use slint_base::{Memory, Name};
use sqlite_items::{Items, at};
use std::alloc::Global;
use syntax_tree::{Field, Ident};
use typed_tree::{Local, Scope};
use value_types::Ty;

/// A parameter of a name and a type.
fn local(alloc: Global, name: &Name, ty: &Ty) -> Result<Local, Memory>
    ensures { IfOk result (λ made. made ≡ record { name = name.now; ty = ty.now }) }
{
    let ty = ty.copy(alloc)?;
    let name = name.copy()?;
    Ok(Local { name, ty })
}

/// The parameters of a function: the names of its fields, with the types that it takes.
pub(crate) fn function_locals(
    alloc: Global,
    fields: &[Field],
    types: &[Ty],
) -> Result<Items<Local>, Memory>
    ensures { IfOk result (λ made. made ≡ locals (field_names fields.now) types.now) }
{
    let mut made = Items::new(alloc);
    for (place, field) in fields.iter().enumerate() {
        let Some(ty) = at(types, place) else {
            return Ok(made);
        };
        let parameter = local(alloc, &field.name.name, ty)?;
        made.push(parameter)?;
    }
    Ok(made)
}

/// The parameters of a handler: names, with the types that the callback takes.
pub(crate) fn handler_locals(
    alloc: Global,
    names: &[Ident],
    types: &[Ty],
) -> Result<Items<Local>, Memory>
    ensures { IfOk result (λ made. made ≡ locals names.now types.now) }
{
    let mut made = Items::new(alloc);
    for (place, name) in names.iter().enumerate() {
        let Some(ty) = at(types, place) else {
            return Ok(made);
        };
        let parameter = local(alloc, &name.name, ty)?;
        made.push(parameter)?;
    }
    Ok(made)
}

/// A scope with other parameters.
pub(crate) fn with_parameters<'a, 'b: 'a>(scope: &Scope<'b>, parameters: &'a [Local]) -> Scope<'a>
    ensures { result ≡ with_parameters scope.now parameters.now }
{
    Scope::new(scope.names(), scope.site(), parameters, scope.rows())
}

/// The parameters that a handler names, none where it has no parentheses.
pub(crate) fn names_or_none(names: &Option<Items<Ident>>) -> &[Ident]
    ensures { result.now ≡ names_or_none names.now }
{
    match names {
        Some(names) => names.as_slice(),
        None => &[],
    }
}
