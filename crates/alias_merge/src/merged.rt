ghost use Rattle.std.specs.Prelude.{◌≡◌, IfOk};
ghost use Rattle.fault_order.specs.Order.{FirstIfAny, NoFault, first_of};
ghost use Rattle.alias_merge.specs.Candidates.{bindings, defaults, handlers};
ghost use Rattle.alias_merge.specs.ChangeLists.{changes, lists};
ghost use Rattle.alias_merge.specs.Changes.{change_faults, changed_by};
ghost use Rattle.alias_merge.specs.Choosing.{AreChoices};
ghost use Rattle.alias_merge.specs.Links.{LinkFault, link_edges, links};
ghost use Rattle.alias_merge.specs.Merged.{AreClasses, AreGroups, Merges};
ghost use Rattle.alias_merge.specs.Numbers.{numbers_of};

use crate::circle_faults::drawn;
use crate::{
    Candidate, Home, MemberNumbers, Spanned, bindings, changed_by, choose, class_homes,
    class_labels, defaults, first_change_fault, first_on_circle, handlers, member_links,
    member_rows, state_changes, state_lists,
};
use expanded_tree::Expanded;
use finite_graphs::Graph;
use slint_base::{End, Fault, Memory, Rule};
use sqlite_items::Items;
use std::alloc::Global;
use std::marker::Model;

/// The classes of linked members of an expanded tree, by their labels: the number of the least member of each. A member without links is a
/// class of its own. Contracts see the record of what is told of them.
#[derive(Drop)]
pub struct Classes {
    labels: Items<usize>,
    homes: Items<Option<Home>>,
    bindings: Items<Option<Candidate>>,
    defaults: Items<Option<Candidate>>,
    handlers: Items<Option<Candidate>>,
    changed: Items<Option<usize>>,
}

impl Model for Classes {
    ghost use Rattle.alias_merge.specs.ClassesValues.{ClassesValue};

    ghost Value = { ClassesValue };

    ghost view = { λ c. record { labels = c.labels; homes = c.homes; bindings = c.bindings; defaults = c.defaults; handlers = c.handlers; changed = c.changed } };
}

impl Classes {
    /// The label of each member's class, by the member's number.
    pub fn labels(&self) -> &[usize]
        ensures { result.now ≡ self.now.labels }
    {
        self.labels.as_slice()
    }

    /// Where each class has its rows.
    pub fn homes(&self) -> &[Option<Home>]
        ensures { result.now ≡ self.now.homes }
    {
        self.homes.as_slice()
    }

    /// The binding that is chosen for each class.
    pub fn bindings(&self) -> &[Option<Candidate>]
        ensures { result.now ≡ self.now.bindings }
    {
        self.bindings.as_slice()
    }

    /// The built-in default that is chosen for each class.
    pub fn defaults(&self) -> &[Option<Candidate>]
        ensures { result.now ≡ self.now.defaults }
    {
        self.defaults.as_slice()
    }

    /// The handler that is chosen for each class.
    pub fn handlers(&self) -> &[Option<Candidate>]
        ensures { result.now ≡ self.now.handlers }
    {
        self.handlers.as_slice()
    }

    /// The list of states that changes each class.
    pub fn changed(&self) -> &[Option<usize>]
        ensures { result.now ≡ self.now.changed }
    {
        self.changed.as_slice()
    }
}

/// The labels of classes, and their homes.
#[derive(Drop)]
pub(crate) struct Groups {
    pub labels: Items<usize>,
    pub homes: Items<Option<Home>>,
}

/// What states change: the first fault of that, and the list that changes each class.
#[derive(Drop)]
pub(crate) struct Changed {
    pub fault: Option<Fault>,
    pub lists: Items<Option<usize>>,
}

/// The classes of linked members of an expanded tree. Members are of one class if links join them, whichever way these lead. Of each class
/// that binding holds which is written in the outermost body, and of those in one body that which no other one stands ahead of over links;
/// handlers and the defaults of built-in properties are chosen alike. The cost is in proportion to the tree.
///
/// # Errors
///
/// The first fault: links in a circle (rule 60), at the right side of a link; then a class that two lists of states change, or one state
/// twice, or that lies outside of the list's repeaters (rule 61), at the path of the change. `Memory`.
pub fn merge(alloc: Global, expanded: &Expanded) -> Result<Classes, End<Fault>>
    ensures { Merges expanded.now result }
{
    let numbers = MemberNumbers::new(alloc, expanded)?;
    let all = member_links(alloc, expanded, &numbers)?;
    match link_fault(alloc, expanded, &numbers, all.as_slice())? {
        Some(fault) => Err(End::Fault(fault)),
        None => merge_linked(alloc, expanded, &numbers, all.as_slice()),
    }
}

/// The first fault of links in a circle.
fn link_fault(
    alloc: Global,
    expanded: &Expanded,
    numbers: &MemberNumbers,
    all: &[Spanned],
) -> Result<Option<Fault>, Memory>
    requires numbers { numbers.now ≡ numbers_of expanded.now }
    requires all { all.now ≡ links expanded.now }
    ensures { IfOk result (λ fault. FirstIfAny (LinkFault expanded.now) fault) }
{
    first_on_circle(alloc, Rule::AliasLoop, numbers.count, all)
}

/// The classes, where no links lie in a circle.
fn merge_linked(
    alloc: Global,
    expanded: &Expanded,
    numbers: &MemberNumbers,
    all: &[Spanned],
) -> Result<Classes, End<Fault>>
    requires numbers { numbers.now ≡ numbers_of expanded.now }
    requires all { all.now ≡ links expanded.now }
    requires no_loop { NoFault (LinkFault expanded.now) }
    ensures { Merges expanded.now result }
{
    let groups = find_groups(alloc, expanded, numbers, all)?;
    let changed = find_changed(alloc, expanded, numbers, &groups)?;
    match changed.fault {
        Some(fault) => Err(End::Fault(fault)),
        None => {
            let classes = with_choices(alloc, expanded, numbers, all, groups, changed.lists)?;
            Ok(classes)
        }
    }
}

/// The labels of classes, and their homes.
fn find_groups(
    alloc: Global,
    expanded: &Expanded,
    numbers: &MemberNumbers,
    all: &[Spanned],
) -> Result<Groups, Memory>
    requires numbers { numbers.now ≡ numbers_of expanded.now }
    requires all { all.now ≡ links expanded.now }
    ensures { IfOk result (λ groups. AreGroups expanded.now groups.labels groups.homes) }
{
    let labels = class_labels(alloc, numbers.count, all)?;
    let rows = member_rows(alloc, expanded)?;
    let homes = class_homes(alloc, labels.as_slice(), rows.as_slice())?;
    Ok(Groups { labels, homes })
}

/// What states change.
fn find_changed(
    alloc: Global,
    expanded: &Expanded,
    numbers: &MemberNumbers,
    groups: &Groups,
) -> Result<Changed, Memory>
    requires numbers { numbers.now ≡ numbers_of expanded.now }
    requires groups { AreGroups expanded.now groups.now.labels groups.now.homes }
    ensures fault { IfOk result (λ changed. changed.fault ≡ first_of (change_faults groups.now.labels groups.now.homes (lists expanded.now) (changes expanded.now))) }
    ensures lists { IfOk result (λ changed. changed.lists ≡ changed_by groups.now.labels (changes expanded.now)) }
{
    let lists = state_lists(alloc, expanded)?;
    let changes = state_changes(alloc, expanded, numbers, lists.as_slice())?;
    let labels = groups.labels.as_slice();
    let fault = first_change_fault(
        alloc,
        labels,
        groups.homes.as_slice(),
        lists.as_slice(),
        changes.as_slice(),
    )?;
    let by_list = changed_by(alloc, labels, changes.as_slice())?;
    Ok(Changed {
        fault,
        lists: by_list,
    })
}

/// The classes by their labels and homes, and the lists that change them.
fn with_choices(
    alloc: Global,
    expanded: &Expanded,
    numbers: &MemberNumbers,
    all: &[Spanned],
    groups: Groups,
    changed: Items<Option<usize>>,
) -> Result<Classes, Memory>
    requires numbers { numbers.now ≡ numbers_of expanded.now }
    requires all { all.now ≡ links expanded.now }
    requires no_loop { NoFault (LinkFault expanded.now) }
    requires groups { AreGroups expanded.now groups.labels groups.homes }
    requires changed { changed ≡ changed_by groups.labels (changes expanded.now) }
    ensures classes { IfOk result (λ classes. AreClasses expanded.now classes) }
    ensures labels { IfOk result (λ classes. classes.labels ≡ groups.labels) }
    ensures homes { IfOk result (λ classes. classes.homes ≡ groups.homes) }
{
    let chosen = choose_all(alloc, expanded, numbers, all, &groups)?;
    Ok(Classes {
        labels: groups.labels,
        homes: groups.homes,
        bindings: chosen.bindings,
        defaults: chosen.defaults,
        handlers: chosen.handlers,
        changed,
    })
}

/// What is chosen for each class.
#[derive(Drop)]
pub(crate) struct Chosen {
    pub bindings: Items<Option<Candidate>>,
    pub defaults: Items<Option<Candidate>>,
    pub handlers: Items<Option<Candidate>>,
}

/// What is chosen for each class.
fn choose_all(
    alloc: Global,
    expanded: &Expanded,
    numbers: &MemberNumbers,
    all: &[Spanned],
    groups: &Groups,
) -> Result<Chosen, Memory>
    requires numbers { numbers.now ≡ numbers_of expanded.now }
    requires all { all.now ≡ links expanded.now }
    requires no_loop { NoFault (LinkFault expanded.now) }
    requires groups { AreGroups expanded.now groups.now.labels groups.now.homes }
    ensures bindings { IfOk result (λ chosen. AreChoices (link_edges expanded.now) groups.now.labels groups.now.homes (bindings expanded.now) chosen.bindings) }
    ensures defaults { IfOk result (λ chosen. AreChoices (link_edges expanded.now) groups.now.labels groups.now.homes (defaults expanded.now) chosen.defaults) }
    ensures handlers { IfOk result (λ chosen. AreChoices (link_edges expanded.now) groups.now.labels groups.now.homes (handlers expanded.now) chosen.handlers) }
{
    let graph = drawn(alloc, numbers.count, all)?;
    let found = bindings(alloc, expanded, numbers)?;
    let bound = choose_of(alloc, expanded, &graph, groups, found.as_slice())?;
    let found = defaults(alloc, expanded, numbers)?;
    let given = choose_of(alloc, expanded, &graph, groups, found.as_slice())?;
    let found = handlers(alloc, expanded, numbers)?;
    let handled = choose_of(alloc, expanded, &graph, groups, found.as_slice())?;
    Ok(Chosen {
        bindings: bound,
        defaults: given,
        handlers: handled,
    })
}

/// What is chosen of candidates.
fn choose_of(
    alloc: Global,
    expanded: &Expanded,
    graph: &Graph,
    groups: &Groups,
    candidates: &[Candidate],
) -> Result<Items<Option<Candidate>>, Memory>
    requires graph { graph.now.edges ≡ link_edges expanded.now }
    requires no_loop { NoFault (LinkFault expanded.now) }
    requires groups { AreGroups expanded.now groups.now.labels groups.now.homes }
    ensures { IfOk result (λ chosen. AreChoices (link_edges expanded.now) groups.now.labels groups.now.homes candidates.now chosen) }
{
    let labels = groups.labels.as_slice();
    let homes = groups.homes.as_slice();
    let chosen = choose(alloc, graph, labels, homes, candidates)?;
    Ok(chosen)
}
