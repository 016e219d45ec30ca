ghost use Rattle.std.specs.Prelude.{◌≡◌, IfOk, true};
ghost use Rattle.std.specs.Option.{option_copied};
ghost use Rattle.expr_rules.specs.Own.{found_at, name_at};

use crate::Judged;
use crate::making::standing;
use name_lookup::{Meaning, look_up};
use slint_base::{Fault, Memory, Rule, Span};
use std::alloc::Global;
use syntax_tree::Ident;
use typed_tree::Scope;
use value_types::Ty;

/// What a name stands for, where it was looked up with this outcome.
fn found_at(
    alloc: Global,
    span: Span,
    found: Option<Result<Meaning, Rule>>,
) -> Result<Result<Judged, Fault>, Memory>
    ensures { IfOk result (λ judged. judged ≡ found_at span span true found) }
{
    match found {
        Some(Ok(meaning)) => {
            let named = standing(alloc, meaning, span, true)?;
            Ok(Ok(named))
        }
        Some(Err(rule)) => Ok(Err(Fault { rule, span })),
        None => Ok(Err(Fault {
            rule: Rule::UnknownName,
            span,
        })),
    }
}

/// A name: what it stands for at its place.
pub(crate) fn own_name(
    alloc: Global,
    scope: &Scope<'_>,
    place: Option<&Ty>,
    ident: &Ident,
) -> Result<Result<Judged, Fault>, Memory>
    ensures { IfOk result (λ judged. judged ≡ name_at scope.now (option_copied place.entry) ident.now) }
{
    let found = look_up(alloc, scope, place, &ident.name, ident.span)?;
    found_at(alloc, ident.span, found)
}
