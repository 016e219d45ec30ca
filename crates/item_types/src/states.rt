ghost use Rattle.std.specs.Prelude.{◌≡◌, IfOk};
ghost use Rattle.value_types.specs.declared.types.Ty.TheVariants as ty_of;
ghost use Rattle.name_lookup.specs.Leads.{lead_of};
ghost use Rattle.item_types.specs.Judging.{Tells, added, each, optional};
ghost use Rattle.item_types.specs.Items.{change_judging, change_of, change_to, state_judging, state_told, states_judging};
ghost use Rattle.item_types.specs.Members.{property_led};
ghost use Rattle.item_types.specs.Values.{expression_judging};

use crate::links::earlier_fault;
use crate::members::{is_grid_number, path_span, property_led};
use crate::values::{judge_expr, judge_value, value_span};
use name_lookup::lead_of;
use slint_base::{Fault, Memory, Rule};
use sqlite_items::Items;
use std::alloc::Global;
use syntax_tree::{Change, Expr, Path, State, States};
use typed_tree::{
    MemberRef, Scope, TypedChange, TypedExpr, TypedItem, TypedState, TypedStates, TypedValue,
};
use value_types::Ty;

/// The property to which a path leads, with its type.
fn property_at(
    alloc: Global,
    scope: &Scope<'_>,
    path: &Path,
) -> Result<Result<(MemberRef, Ty), Fault>, Memory>
    ensures { IfOk result (λ found. found ≡ property_led path.now (lead_of scope.now path.now)) }
{
    let lead = lead_of(alloc, scope, path)?;
    Ok(property_led(path, lead))
}

/// A change of a property to a value, which isn't a grid cell's number.
fn change_of(member: MemberRef, change: &Change, value: TypedValue) -> Result<TypedChange, Fault>
    ensures { result ≡ change_of member change.now value }
{
    let span = value_span(&change.value);
    if is_grid_number(member) {
        return Err(Fault {
            rule: Rule::NotConstant,
            span,
        });
    }
    Ok(TypedChange {
        property: member,
        path: path_span(&change.path),
        value,
        span,
    })
}

/// A change of a property.
fn change_to(
    alloc: Global,
    scope: &Scope<'_>,
    change: &Change,
    property: (MemberRef, Ty),
) -> Result<Result<TypedChange, Fault>, Memory>
    ensures { IfOk result (λ verdict. Tells (change_to scope.now change.now property) verdict) }
{
    let verdict = judge_value(alloc, scope, &property.1, &change.value)?;
    match verdict {
        Ok(value) => Ok(change_of(property.0, change, value)),
        Err(fault) => Ok(Err(fault)),
    }
}

/// What a state changes.
fn judge_change(
    alloc: Global,
    scope: &Scope<'_>,
    change: &Change,
) -> Result<Result<TypedChange, Fault>, Memory>
    ensures { IfOk result (λ verdict. Tells (change_judging scope.now change.now) verdict) }
{
    let found = property_at(alloc, scope, &change.path)?;
    match found {
        Ok(property) => change_to(alloc, scope, change, property),
        Err(fault) => Ok(Err(fault)),
    }
}

/// What is told of one more change is put behind what is told of those before it. Of two faults the first one is kept.
fn add_change(
    seen: Result<Items<TypedChange>, Fault>,
    verdict: Result<TypedChange, Fault>,
) -> Result<Result<Items<TypedChange>, Fault>, Memory>
    ensures { IfOk result (λ all. all ≡ added seen verdict) }
{
    match seen {
        Ok(mut all) => match verdict {
            Ok(one) => {
                all.push(one)?;
                Ok(Ok(all))
            }
            Err(fault) => Ok(Err(fault)),
        },
        Err(fault) => match verdict {
            Ok(_) => Ok(Err(fault)),
            Err(other) => Ok(Err(earlier_fault(fault, other))),
        },
    }
}

/// All that a state changes.
fn judge_changes(
    alloc: Global,
    scope: &Scope<'_>,
    changes: &[Change],
) -> Result<Result<Items<TypedChange>, Fault>, Memory>
    ensures { IfOk result (λ verdict. Tells (each (change_judging scope.now) changes.now) verdict) }
{
    let mut seen = Ok(Items::new(alloc));
    for change in changes {
        let verdict = judge_change(alloc, scope, change)?;
        seen = add_change(seen, verdict)?;
    }
    Ok(seen)
}

/// The condition of a state, if it has one.
fn judge_condition(
    alloc: Global,
    scope: &Scope<'_>,
    when: &Option<Expr>,
) -> Result<Result<Option<TypedExpr>, Fault>, Memory>
    ensures { IfOk result (λ verdict. Tells (optional (expression_judging scope.now ty_of.Bool) when.now) verdict) }
{
    let Some(e) = when else {
        return Ok(Ok(None));
    };
    let verdict = judge_expr(alloc, scope, &Ty::Bool, e)?;
    match verdict {
        Ok(e) => Ok(Ok(Some(e))),
        Err(fault) => Ok(Err(fault)),
    }
}

/// A state of a condition and changes, or the fault that is told first.
fn state_of(
    when: Result<Option<TypedExpr>, Fault>,
    changes: Result<Items<TypedChange>, Fault>,
) -> Result<TypedState, Fault>
    ensures { result ≡ state_told when changes }
{
    match when {
        Ok(when) => match changes {
            Ok(changes) => Ok(TypedState { when, changes }),
            Err(fault) => Err(fault),
        },
        Err(fault) => match changes {
            Ok(_) => Err(fault),
            Err(other) => Err(earlier_fault(fault, other)),
        },
    }
}

/// A state.
fn judge_state(
    alloc: Global,
    scope: &Scope<'_>,
    state: &State,
) -> Result<Result<TypedState, Fault>, Memory>
    ensures { IfOk result (λ verdict. Tells (state_judging scope.now state.now) verdict) }
{
    let when = judge_condition(alloc, scope, &state.when)?;
    let listed = state.changes.as_slice();
    let changes = judge_changes(alloc, scope, listed)?;
    Ok(state_of(when, changes))
}

/// What is told of one more state is put behind what is told of those before it. Of two faults the first one is kept.
fn add_state(
    seen: Result<Items<TypedState>, Fault>,
    verdict: Result<TypedState, Fault>,
) -> Result<Result<Items<TypedState>, Fault>, Memory>
    ensures { IfOk result (λ all. all ≡ added seen verdict) }
{
    match seen {
        Ok(mut all) => match verdict {
            Ok(one) => {
                all.push(one)?;
                Ok(Ok(all))
            }
            Err(fault) => Ok(Err(fault)),
        },
        Err(fault) => match verdict {
            Ok(_) => Ok(Err(fault)),
            Err(other) => Ok(Err(earlier_fault(fault, other))),
        },
    }
}

/// All states of a list.
fn judge_all(
    alloc: Global,
    scope: &Scope<'_>,
    states: &[State],
) -> Result<Result<Items<TypedState>, Fault>, Memory>
    ensures { IfOk result (λ verdict. Tells (each (state_judging scope.now) states.now) verdict) }
{
    let mut seen = Ok(Items::new(alloc));
    for state in states {
        let verdict = judge_state(alloc, scope, state)?;
        seen = add_state(seen, verdict)?;
    }
    Ok(seen)
}

/// A list of states.
pub(crate) fn judge_states(
    alloc: Global,
    scope: &Scope<'_>,
    list: &States,
) -> Result<Result<TypedItem, Fault>, Memory>
    ensures { IfOk result (λ verdict. Tells (states_judging scope.now list.now) verdict) }
{
    let listed = list.states.as_slice();
    let verdict = judge_all(alloc, scope, listed)?;
    match verdict {
        Ok(states) => Ok(Ok(TypedItem::States(TypedStates {
            states,
            word: list.word,
        }))),
        Err(fault) => Ok(Err(fault)),
    }
}
