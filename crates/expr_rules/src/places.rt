ghost use Rattle.std.specs.Prelude.{◌≡◌, IfOk, Some, map};
ghost use Rattle.std.specs.Option.{option_copied, option_map};
ghost use Rattle.typed_tree.specs.Typed.{expr_ty};
ghost use Rattle.expr_rules.specs.Denotations.{denoted};
ghost use Rattle.expr_rules.specs.Own.{as_judged, at_place, fitted};
ghost use Rattle.expr_rules.specs.Targets.{argument_places, assigned_place, built_in_places, target_of};

use crate::fitting::{as_judged, as_value, fitted};
use crate::making::denoted;
use crate::targets::target_base;
use crate::{Denoted, Judged};
use element_tables::Arguments;
use name_lookup::Meaning;
use slint_base::{Fault, Memory, Span};
use sqlite_items::Items;
use std::alloc::Global;
use typed_tree::{Scope, TypedExpr};
use value_types::Ty;

/// What an expression stands for, as a value that has the type wanted at its place. `span` is the expression's stretch.
pub fn at_place(
    alloc: Global,
    place: Option<&Ty>,
    span: Span,
    part: Judged,
) -> Result<Result<Judged, Fault>, Memory>
    ensures { IfOk result (λ judged. judged ≡ at_place (option_copied place.entry) span part) }
{
    let Denoted { meaning, name, .. } = denoted(alloc, part)?;
    match as_value(span, name, meaning) {
        Ok(e) => value_at(alloc, place, span, e),
        Err(fault) => Ok(Err(fault)),
    }
}

/// A value that has the type wanted at its place.
fn value_at(
    alloc: Global,
    place: Option<&Ty>,
    span: Span,
    e: TypedExpr,
) -> Result<Result<Judged, Fault>, Memory>
    ensures { IfOk result (λ judged. judged ≡ as_judged (fitted (option_copied place.entry) span e)) }
{
    let made = fitted(alloc, place, span, e)?;
    as_judged(alloc, made)
}

/// The same types once more.
fn copy_types(alloc: Global, tys: &[Ty]) -> Result<Items<Ty>, Memory>
    ensures { IfOk result (λ made. made ≡ tys.now) }
{
    let mut made = Items::new(alloc);
    for ty in tys {
        made.push(ty.copy(alloc)?)?;
    }
    Ok(made)
}

/// The types that are wanted of the arguments of a built-in function, as far as it says them.
fn built_in_places(alloc: Global, arguments: Arguments) -> Result<Items<Ty>, Memory>
    ensures { IfOk result (λ tys. map (λ t. Some t) tys ≡ built_in_places arguments) }
{
    let mut made = Items::new(alloc);
    match arguments {
        Arguments::Alike(_) => Ok(made),
        Arguments::Rounded => {
            made.push(Ty::Float)?;
            Ok(made)
        }
    }
}

/// The types that are wanted of the arguments of what a name stands for.
fn places_of(alloc: Global, called: &Meaning) -> Result<Items<Ty>, Memory>
    ensures { IfOk result (λ tys. map (λ t. Some t) tys ≡ argument_places called.now) }
{
    match called {
        Meaning::Callable(_, signature) => {
            let tys = copy_types(alloc, signature.parameters.as_slice())?;
            Ok(tys)
        }
        Meaning::Math(function) => {
            let tys = built_in_places(alloc, function.arguments)?;
            Ok(tys)
        }
        _ => Ok(Items::new(alloc)),
    }
}

/// The types that are wanted of the arguments of what is called, in their order; further arguments may have any.
pub fn argument_places(alloc: Global, called: &Judged) -> Result<Items<Ty>, Memory>
    ensures { IfOk result (λ tys. map (λ t. Some t) tys ≡ argument_places (denoted called.now).meaning) }
{
    match called {
        Judged::Denoted(denoted) => {
            let tys = places_of(alloc, &denoted.get().meaning)?;
            Ok(tys)
        }
        _ => Ok(Items::new(alloc)),
    }
}

/// The type of what can be assigned, `None` where it can't.
fn target_place(alloc: Global, scope: &Scope<'_>, e: &TypedExpr) -> Result<Option<Ty>, Memory>
    ensures { IfOk result (λ place. place ≡ option_map (λ target. expr_ty e.now) (target_of scope.now e.now)) }
{
    match target_base(scope, e) {
        Some(_) => {
            let ty = e.ty.copy(alloc)?;
            Ok(Some(ty))
        }
        None => Ok(None),
    }
}

/// The type that is wanted of the right side of `=`, by what the left side stands for; what can't be assigned wants nothing.
pub fn assigned_place(alloc: Global, scope: &Scope<'_>, left: &Judged) -> Result<Option<Ty>, Memory>
    ensures { IfOk result (λ place. place ≡ assigned_place scope.now (denoted left.now).meaning) }
{
    let Judged::Denoted(denoted) = left else {
        return Ok(None);
    };
    match &denoted.get().meaning {
        Meaning::Value(e) => {
            let place = target_place(alloc, scope, e)?;
            Ok(place)
        }
        _ => Ok(None),
    }
}
