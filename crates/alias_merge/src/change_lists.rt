ghost use Rattle.std.specs.Prelude.{◌≡◌, ◌++◌, IfOk, OnOk, slice_get};
ghost use Rattle.std.specs.Option.{option_to_list};
ghost use Rattle.alias_merge.specs.Changes.{InOrder};
ghost use Rattle.alias_merge.specs.ChangeLists.{change_at, changes_in, changes_in_list, changes_in_state, changes_in_states, list_of, lists, lists_at, states_of};

use crate::{Change, Holding, MemberNumbers, StateList};
use expanded_tree::{Expanded, Holder};
use slint_base::Memory;
use sqlite_items::{Items, at};
use std::alloc::Global;
use typed_tree::{TypedChange, TypedItem, TypedState};

/// The lists of states of an expanded tree, in instance order.
pub fn state_lists(alloc: Global, expanded: &Expanded) -> Result<Items<StateList>, Memory>
    ensures { IfOk result (λ found. found ≡ lists expanded.now) }
{
    let holders = expanded.holders(alloc)?;
    let mut found = Items::new(alloc);
    let holders = holders.as_slice();
    for holder in holders {
        add_lists(expanded, *holder, &mut found)?;
    }
    Ok(found)
}

/// Adds the lists of states of a holder.
fn add_lists(
    expanded: &Expanded,
    holder: Holder,
    found: &mut Items<StateList>,
) -> Result<(), Memory>
    ensures { OnOk result (found.new ≡ found.old ++ lists_at expanded.now holder) }
{
    let holding = Holding::of(expanded, holder);
    let items = expanded.items(holder);
    for (number, item) in items.iter().enumerate() {
        add_list(found, list_of(&holding, number, item))?;
    }
    Ok(())
}

/// Adds what there is.
fn add_list(found: &mut Items<StateList>, list: Option<StateList>) -> Result<(), Memory>
    ensures { OnOk result (found.new ≡ found.old ++ option_to_list list) }
{
    if let Some(list) = list {
        found.push(list)?;
    }
    Ok(())
}

/// An item as a list of states, if it is one.
fn list_of(holding: &Holding, number: usize, item: &TypedItem) -> Option<StateList>
    ensures { result ≡ list_of holding.now number item.now }
{
    match item {
        TypedItem::States(states) => Some(StateList {
            holder: holding.holder,
            item: number,
            word: states.word,
            repeaters: holding.repeaters,
        }),
        _ => None,
    }
}

/// What lists of states change: list by list, state by state, and in each state in the order of the text. What no number stands for is left out.
pub fn state_changes(
    alloc: Global,
    expanded: &Expanded,
    numbers: &MemberNumbers,
    lists: &[StateList],
) -> Result<Items<Change>, Memory>
    ensures all { IfOk result (λ found. found ≡ changes_in expanded.now numbers.now lists.now) }
    ensures in_order { IfOk result (λ found. InOrder found) }
{
    let mut found = Items::new(alloc);
    for (number, list) in lists.iter().enumerate() {
        add_list_changes(expanded, numbers, number, list, &mut found)?;
    }
    Ok(found)
}

/// Adds what a list of states changes.
fn add_list_changes(
    expanded: &Expanded,
    numbers: &MemberNumbers,
    list_number: usize,
    list: &StateList,
    found: &mut Items<Change>,
) -> Result<(), Memory>
    ensures { OnOk result (found.new ≡ found.old ++ changes_in_list expanded.now numbers.now list_number list.now) }
{
    let body = Holding::of(expanded, list.holder).body;
    add_states_changes(
        expanded,
        numbers,
        body,
        list_number,
        states_of(expanded, list),
        found,
    )?;
    Ok(())
}

/// The states of a list.
fn states_of<'a>(expanded: &Expanded<'a>, list: &StateList) -> &'a [TypedState]
    ensures { result.now ≡ states_of expanded.now list.now }
{
    match at(expanded.items(list.holder), list.item) {
        Some(item) => match item {
            TypedItem::States(states) => states.states.as_slice(),
            _ => &[],
        },
        None => &[],
    }
}

/// Adds what the states of a list change.
fn add_states_changes(
    expanded: &Expanded,
    numbers: &MemberNumbers,
    body: usize,
    list_number: usize,
    states: &[TypedState],
    found: &mut Items<Change>,
) -> Result<(), Memory>
    ensures { OnOk result (found.new ≡ found.old ++ changes_in_states expanded.now numbers.now body list_number states.now) }
{
    for (number, state) in states.iter().enumerate() {
        add_state_changes(expanded, numbers, body, list_number, number, state, found)?;
    }
    Ok(())
}

/// Adds what a state changes.
fn add_state_changes(
    expanded: &Expanded,
    numbers: &MemberNumbers,
    body: usize,
    list_number: usize,
    state_number: usize,
    state: &TypedState,
    found: &mut Items<Change>,
) -> Result<(), Memory>
    ensures { OnOk result (found.new ≡ found.old ++ changes_in_state expanded.now numbers.now body list_number state_number state.now) }
{
    let changes = state.changes.as_slice();
    for (number, change) in changes.iter().enumerate() {
        let member = numbers.number(expanded.member_at(body, change.property));
        add_change(
            found,
            change_at(list_number, state_number, number, change, member),
        )?;
    }
    Ok(())
}

/// Adds what there is.
fn add_change(found: &mut Items<Change>, change: Option<Change>) -> Result<(), Memory>
    ensures { OnOk result (found.new ≡ found.old ++ option_to_list change) }
{
    if let Some(change) = change {
        found.push(change)?;
    }
    Ok(())
}

/// A change of a property that has a number.
fn change_at(
    list_number: usize,
    state_number: usize,
    number: usize,
    change: &TypedChange,
    member: Option<usize>,
) -> Option<Change>
    ensures { result ≡ change_at list_number state_number number change.now member }
{
    match member {
        Some(member) => Some(Change {
            list: list_number,
            state: state_number,
            change: number,
            member,
            path: change.path,
        }),
        None => None,
    }
}
