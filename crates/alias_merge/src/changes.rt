ghost use Rattle.std.specs.Prelude.{◌≡◌, IfOk, None, Some, replicate, slice_get};
ghost use Rattle.fault_order.specs.Order.{first_of};
ghost use Rattle.alias_merge.specs.Changes.{HasSmallLabels, InOrder, change_faults, changed_by, fault_if, stands_outside};
ghost use Rattle.alias_merge.specs.ChangesSteps.{breaks_seen, is_seen_by, keep_first, see, seen_at};
ghost use Rattle.alias_merge.specs.ChoosingSteps.{put};

use crate::Home;
use expanded_tree::Holder;
use fault_order::earlier;
use slint_base::{Fault, Memory, Rule, Span};
use sqlite_items::{Items, at};
use std::alloc::Global;

/// A list of states, by where it is written.
#[derive(Clone, Copy)]
pub struct StateList {
    pub holder: Holder,
    /// Its place among the holder's items.
    pub item: usize,
    /// The stretch of the word `states`.
    pub word: Span,
    /// How many repeaters are around the holder's element, its own included.
    pub repeaters: usize,
}

/// What a state changes.
#[derive(Clone, Copy)]
pub struct Change {
    /// The state's list, by its number in instance order.
    pub list: usize,
    /// The state's place in the list.
    pub state: usize,
    /// The change's place in the state.
    pub change: usize,
    /// The property that is changed, by its number.
    pub member: usize,
    /// The stretch of the path that names it.
    pub path: Span,
}

/// What the changes of a class so far come to.
#[derive(Clone, Copy)]
pub(crate) struct Seen {
    /// The list of the first one.
    pub(crate) first: usize,
    /// The list and the state of the last one.
    pub(crate) list: usize,
    pub(crate) state: usize,
}

/// The first fault of changes by the order of faults: a class is changed once in a state and by one list, and by no list in more repeaters
/// than the class. The cost is in proportion to members and changes.
pub fn first_change_fault(
    alloc: Global,
    labels: &[usize],
    homes: &[Option<Home>],
    lists: &[StateList],
    changes: &[Change],
) -> Result<Option<Fault>, Memory>
    ensures { IfOk result (λ fault. HasSmallLabels labels.now → InOrder changes.now
        → fault ≡ first_of (change_faults labels.now homes.now lists.now changes.now)) }
{
    let mut seen = nothing_seen(alloc, labels.len())?;
    let mut first = None;
    for change in changes {
        let class = at(labels, change.member).copied();
        let fault = fault_of(homes, lists, seen.as_slice(), class, change);
        first = earlier(first, fault);
        note_change(&mut seen, class, change);
    }
    Ok(first)
}

/// For each class of linked members, by its label, the first list that changes it, if one does.
pub fn changed_by(
    alloc: Global,
    labels: &[usize],
    changes: &[Change],
) -> Result<Items<Option<usize>>, Memory>
    ensures { IfOk result (λ lists. lists ≡ changed_by labels.now changes.now) }
{
    let mut lists = no_lists(alloc, labels.len())?;
    for change in changes {
        let class = at(labels, change.member).copied();
        note_list(&mut lists, class, change);
    }
    Ok(lists)
}

/// So many classes that aren't changed.
fn no_lists(alloc: Global, count: usize) -> Result<Items<Option<usize>>, Memory>
    ensures { IfOk result (λ lists. lists ≡ replicate count None) }
{
    let lists = vec![in alloc; None; count]?;
    Ok(Items::from_vec(lists))
}

/// The list of a change is the first one of its class, if there is none before.
fn note_list(lists: &mut Items<Option<usize>>, class: Option<usize>, change: &Change)
    ensures { lists.new ≡ put keep_first class change.now lists.old }
{
    let Some(label) = class else {
        return;
    };
    let Some(list) = at(lists.as_slice(), label).copied() else {
        return;
    };
    lists.set(label, Some(list.unwrap_or(change.list)));
}

/// So many classes without changes.
fn nothing_seen(alloc: Global, count: usize) -> Result<Items<Option<Seen>>, Memory>
    ensures { IfOk result (λ seen. seen ≡ replicate count None) }
{
    let seen = vec![in alloc; None; count]?;
    Ok(Items::from_vec(seen))
}

/// A change counts for its class.
fn note_change(seen: &mut Items<Option<Seen>>, class: Option<usize>, change: &Change)
    ensures { seen.new ≡ put see class change.now seen.old }
{
    let Some(label) = class else {
        return;
    };
    let Some(before) = at(seen.as_slice(), label).copied() else {
        return;
    };
    seen.set(label, Some(see(before, change)));
}

/// What the changes so far come to with one more.
fn see(seen: Option<Seen>, change: &Change) -> Seen
    ensures { Some result ≡ see seen change.now }
{
    match seen {
        Some(seen) => Seen {
            first: seen.first,
            list: change.list,
            state: change.state,
        },
        None => Seen {
            first: change.list,
            list: change.list,
            state: change.state,
        },
    }
}

/// The fault of a change, if it has one.
fn fault_of(
    homes: &[Option<Home>],
    lists: &[StateList],
    seen: &[Option<Seen>],
    class: Option<usize>,
    change: &Change,
) -> Option<Fault>
    ensures { result ≡ first_of (fault_if (breaks_seen homes.now lists.now seen.now change.now class) change.now) }
{
    if breaks_seen(homes, lists, seen, class, change) {
        Some(Fault {
            rule: Rule::TwoStateLists,
            span: change.path,
        })
    } else {
        None
    }
}

/// Whether the class of a change was changed by another list or in the same state, or the change's list stands in more repeaters.
fn breaks_seen(
    homes: &[Option<Home>],
    lists: &[StateList],
    seen: &[Option<Seen>],
    class: Option<usize>,
    change: &Change,
) -> bool
    ensures { result ≡ breaks_seen homes.now lists.now seen.now change.now class }
{
    let Some(label) = class else {
        return false;
    };
    is_seen_by(seen_at(seen, label), change) || stands_outside(homes, lists, label, change)
}

/// What the changes of a class so far come to.
fn seen_at(seen: &[Option<Seen>], label: usize) -> Option<Seen>
    ensures { result ≡ seen_at seen.now label }
{
    match at(seen, label) {
        Some(seen) => *seen,
        None => None,
    }
}

/// Whether a class was changed by another list than a change's, or in its state.
fn is_seen_by(seen: Option<Seen>, change: &Change) -> bool
    ensures { result ≡ is_seen_by change.now seen }
{
    match seen {
        Some(seen) => {
            seen.first < change.list || (seen.list == change.list && seen.state == change.state)
        }
        None => false,
    }
}

/// Whether the list of a change stands in more repeaters than a class has rows in.
fn stands_outside(
    homes: &[Option<Home>],
    lists: &[StateList],
    label: usize,
    change: &Change,
) -> bool
    ensures { result ≡ stands_outside (slice_get lists.now change.now.list) (slice_get homes.now label) }
{
    let Some(list) = at(lists, change.list) else {
        return false;
    };
    match at(homes, label) {
        Some(home) => match home {
            Some(home) => home.repeaters < list.repeaters,
            None => false,
        },
        None => false,
    }
}
