ghost use Rattle.std.specs.Prelude.{◌≡◌, IfOk};
ghost use Rattle.expr_rules.specs.Own.{found_behind, has_members, member, name_behind, name_of_part};
ghost use Rattle.name_lookup.specs.Names.{behind_point};
ghost use Rattle.expr_rules.specs.OwnSteps.{found_as};

use crate::making::standing;
use crate::{Denoted, Judged};
use name_lookup::{Meaning, behind_point};
use slint_base::{Fault, Memory, Rule, Span};
use std::alloc::Global;
use syntax_tree::Ident;
use typed_tree::Scope;

/// Whether something may stand behind a point: a callback or function isn't anything before it is called.
fn has_members(meaning: &Meaning) -> bool
    ensures { result ≡ has_members meaning.now }
{
    !matches!(
        meaning,
        Meaning::Callable(_, _) | Meaning::Math(_) | Meaning::Method(_, _)
    )
}

/// Where a misuse of what stands behind a point is told: a part of a value goes back to the member that the value does, anything else
/// has a name of its own here.
fn name_behind(meaning: &Meaning, old: Span, new: Span) -> Span
    ensures { result ≡ name_behind meaning.now old new }
{
    match meaning {
        Meaning::Value(_) => old,
        _ => new,
    }
}

/// The same once it is found: a method's name is its own.
fn name_of_part(meaning: &Meaning, old: Span, new: Span) -> Span
    ensures { result ≡ name_of_part meaning.now old new }
{
    match meaning {
        Meaning::Method(_, _) => new,
        _ => old,
    }
}

/// What was found behind a point. `owner` is the name of the member that it goes back to, and `name` its own.
fn found_as(
    alloc: Global,
    owner: Span,
    name: Span,
    is_plain: bool,
    found: Option<Result<Meaning, Rule>>,
) -> Result<Result<Judged, Fault>, Memory>
    ensures { IfOk result (λ judged. judged ≡ found_as owner name is_plain found) }
{
    match found {
        None => Ok(Err(Fault {
            rule: Rule::UnknownName,
            span: name,
        })),
        Some(Err(rule)) => Ok(Err(Fault { rule, span: name })),
        Some(Ok(meaning)) => {
            let told_at = name_of_part(&meaning, owner, name);
            let judged = standing(alloc, meaning, told_at, is_plain)?;
            Ok(Ok(judged))
        }
    }
}

/// The member of a name behind a point, of what may stand there.
fn found_member(
    alloc: Global,
    scope: &Scope<'_>,
    before: Denoted,
    ident: &Ident,
    span: Span,
) -> Result<Result<Judged, Fault>, Memory>
    ensures { IfOk result (λ judged. judged ≡ found_behind before ident.now.span (behind_point scope.now before.is_plain before.meaning ident.now.name span)) }
{
    let Denoted {
        meaning,
        name,
        is_plain,
    } = before;
    let owner = name_behind(&meaning, name, ident.span);
    let found = behind_point(alloc, scope, is_plain, meaning, &ident.name, span)?;
    let judged = found_as(alloc, owner, ident.span, is_plain, found)?;
    Ok(judged)
}

/// The member of a name behind a point. `span` is the stretch of the whole.
pub(crate) fn member(
    alloc: Global,
    scope: &Scope<'_>,
    before: Denoted,
    ident: &Ident,
    span: Span,
) -> Result<Result<Judged, Fault>, Memory>
    ensures { IfOk result (λ judged. judged ≡ member scope.now before ident.now span) }
{
    if !has_members(&before.meaning) {
        return Ok(Err(Fault {
            rule: Rule::NotCallable,
            span: before.name,
        }));
    }
    let judged = found_member(alloc, scope, before, ident, span)?;
    Ok(judged)
}
