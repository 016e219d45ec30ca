ghost use Rattle.std.specs.Prelude.{◌≡◌, IfOk, OnOk, Some, None, false, length, map, replicate, slice_get};
ghost use Rattle.finite_graphs.specs.Graphs.{EdgesWithin};
ghost use Rattle.alias_merge.specs.Choosing.{AreChoices, class_of, HasNoCircle, is_sooner, KeepsLabels, lesser, stands_within};
ghost use Rattle.alias_merge.specs.ChoosingSteps.{AreAhead, chosen_of, depth_at, depths_of, free_of, is_marked, is_shallow, marks_of, put, shallow_of, sooner, start_of, starts_of, turn, with_mark};

use crate::{Candidate, Home};
use finite_graphs::{Edge, Graph, reached_from};
use slint_base::{Memory, Span};
use sqlite_items::{Items, at};
use std::alloc::Global;

/// What is chosen for each class of linked members, by the class's label; `None` where it has no candidates. The links are a graph of the
/// members' numbers, from left sides to right sides. Candidates in more repeaters than their class are passed over; of the others those of
/// least depth are looked at, and of these one from which no other of them is reached over links; the first of them by file and start byte,
/// and then by their order in the list. The cost is in proportion to members, links and candidates.
pub fn choose(
    alloc: Global,
    links: &Graph,
    labels: &[usize],
    homes: &[Option<Home>],
    candidates: &[Candidate],
) -> Result<Items<Option<Candidate>>, Memory>
    ensures { IfOk result (λ chosen. KeepsLabels links.now.edges labels.now → HasNoCircle links.now.edges
        → AreChoices links.now.edges labels.now homes.now candidates.now chosen) }
{
    let depths = depths(alloc, labels, homes, candidates)?;
    let shallow = shallow(alloc, labels, homes, depths.as_slice(), candidates)?;
    let marks = marks(alloc, links.nodes(), shallow.as_slice())?;
    let ahead = ahead(alloc, links, marks.as_slice())?;
    let free = free(alloc, ahead.as_slice(), shallow.as_slice())?;
    let chosen = chosen(alloc, labels, homes, free.as_slice())?;
    Ok(chosen)
}

/// The label of a candidate's class, if the candidate stands in no more repeaters than the class.
fn class_of(labels: &[usize], homes: &[Option<Home>], candidate: &Candidate) -> Option<usize>
    ensures { result ≡ class_of labels.now homes.now candidate.now }
{
    let Some(label) = at(labels, candidate.member) else {
        return None;
    };
    if stands_within(homes, *label, candidate) {
        Some(*label)
    } else {
        None
    }
}

/// Whether a class has rows in at least so many repeaters.
fn stands_within(homes: &[Option<Home>], label: usize, candidate: &Candidate) -> bool
    ensures { result ≡ stands_within candidate.now (slice_get homes.now label) }
{
    match at(homes, label) {
        Some(home) => match home {
            Some(home) => candidate.repeaters <= home.repeaters,
            None => false,
        },
        None => false,
    }
}

/// The least depth of the candidates of each class.
fn depths(
    alloc: Global,
    labels: &[usize],
    homes: &[Option<Home>],
    candidates: &[Candidate],
) -> Result<Items<Option<usize>>, Memory>
    ensures { IfOk result (λ depths. depths ≡ depths_of labels.now homes.now candidates.now) }
{
    let mut depths = no_depths(alloc, labels.len())?;
    for candidate in candidates {
        let class = class_of(labels, homes, candidate);
        note_depth(&mut depths, class, candidate);
    }
    Ok(depths)
}

/// So many classes without candidates.
fn no_depths(alloc: Global, count: usize) -> Result<Items<Option<usize>>, Memory>
    ensures { IfOk result (λ depths. depths ≡ replicate count None) }
{
    let depths = vec![in alloc; None; count]?;
    Ok(Items::from_vec(depths))
}

/// The depth of a candidate counts for its class.
fn note_depth(depths: &mut Items<Option<usize>>, class: Option<usize>, candidate: &Candidate)
    ensures { depths.new ≡ put lesser class candidate.now depths.old }
{
    let Some(label) = class else {
        return;
    };
    let Some(depth) = at(depths.as_slice(), label).copied() else {
        return;
    };
    depths.set(label, Some(lesser(depth, candidate)));
}

/// The lesser of a depth and that of a candidate.
fn lesser(depth: Option<usize>, candidate: &Candidate) -> usize
    ensures { Some result ≡ lesser depth candidate.now }
{
    match depth {
        Some(depth) => depth.min(candidate.depth),
        None => candidate.depth,
    }
}

/// The candidates that have the least depth of their class.
fn shallow(
    alloc: Global,
    labels: &[usize],
    homes: &[Option<Home>],
    depths: &[Option<usize>],
    candidates: &[Candidate],
) -> Result<Items<Candidate>, Memory>
    ensures { IfOk result (λ shallow. shallow ≡ shallow_of labels.now homes.now depths.now candidates.now) }
{
    let mut shallow = Items::new(alloc);
    for candidate in candidates {
        if is_shallow(labels, homes, depths, candidate) {
            shallow.push(*candidate)?;
        }
    }
    Ok(shallow)
}

/// Whether a candidate has the least depth of its class.
fn is_shallow(
    labels: &[usize],
    homes: &[Option<Home>],
    depths: &[Option<usize>],
    candidate: &Candidate,
) -> bool
    ensures { result ≡ is_shallow labels.now homes.now depths.now candidate.now }
{
    match depth_at(depths, class_of(labels, homes, candidate)) {
        Some(depth) => depth == candidate.depth,
        None => false,
    }
}

/// The least depth of a class.
fn depth_at(depths: &[Option<usize>], class: Option<usize>) -> Option<usize>
    ensures { result ≡ depth_at depths.now class }
{
    let Some(label) = class else {
        return None;
    };
    match at(depths, label) {
        Some(depth) => *depth,
        None => None,
    }
}

/// A mark for each member that is one of a candidate.
fn marks(alloc: Global, members: usize, candidates: &[Candidate]) -> Result<Items<bool>, Memory>
    ensures { IfOk result (λ marks. marks ≡ marks_of members candidates.now) }
{
    let mut marks = no_marks(alloc, members)?;
    for candidate in candidates {
        mark(&mut marks, Some(candidate.member));
    }
    Ok(marks)
}

/// So many marks that are not set.
fn no_marks(alloc: Global, count: usize) -> Result<Items<bool>, Memory>
    ensures { IfOk result (λ marks. marks ≡ replicate count false) }
{
    let marks = vec![in alloc; false; count]?;
    Ok(Items::from_vec(marks))
}

/// Sets the mark of a member, if there is one of its number.
fn mark(marks: &mut Items<bool>, member: Option<usize>)
    ensures { marks.new ≡ with_mark marks.old member }
{
    if let Some(member) = member
        && member < marks.len()
    {
        marks.set(member, true);
    }
}

/// Whether the mark of a member is set.
fn is_marked(marks: &[bool], member: usize) -> bool
    ensures { result ≡ is_marked marks.now member }
{
    match at(marks, member) {
        Some(mark) => *mark,
        None => false,
    }
}

/// A mark for each member from which a marked one is reached over at least one link.
fn ahead(alloc: Global, links: &Graph, marks: &[bool]) -> Result<Items<bool>, Memory>
    requires { length marks.now ≡ links.now.nodes }
    ensures ahead { IfOk result (λ ahead. AreAhead links.now.edges marks.now ahead) }
    ensures within { OnOk result (EdgesWithin links.now.nodes links.now.edges) }
{
    let starts = starts(alloc, links, marks)?;
    let turned = turned(alloc, links)?;
    let ahead = reached_from(alloc, &turned, starts.as_slice())?;
    Ok(ahead)
}

/// A mark for the left side of each link whose right side is marked.
fn starts(alloc: Global, links: &Graph, marks: &[bool]) -> Result<Items<bool>, Memory>
    ensures { IfOk result (λ starts. starts ≡ starts_of links.now.nodes marks.now links.now.edges) }
{
    let mut starts = no_marks(alloc, links.nodes())?;
    for link in links.edges() {
        mark(&mut starts, start_of(marks, link));
    }
    Ok(starts)
}

/// The left side of a link, if its right side is marked.
fn start_of(marks: &[bool], link: &Edge) -> Option<usize>
    ensures { result ≡ start_of marks.now link.now }
{
    if is_marked(marks, link.to) {
        Some(link.from)
    } else {
        None
    }
}

/// The links from right sides to left sides.
fn turned(alloc: Global, links: &Graph) -> Result<Graph, Memory>
    ensures turned { IfOk result (λ turned. turned ≡ record { nodes = links.now.nodes; edges = map turn links.now.edges }) }
    ensures within { OnOk result (EdgesWithin links.now.nodes links.now.edges) }
{
    let mut turned = Graph::new(alloc, links.nodes());
    for link in links.edges() {
        turned.push(link.to, link.from)?;
    }
    Ok(turned)
}

/// The candidates whose members aren't marked.
fn free(alloc: Global, ahead: &[bool], candidates: &[Candidate]) -> Result<Items<Candidate>, Memory>
    ensures { IfOk result (λ free. free ≡ free_of ahead.now candidates.now) }
{
    let mut free = Items::new(alloc);
    for candidate in candidates {
        if !is_marked(ahead, candidate.member) {
            free.push(*candidate)?;
        }
    }
    Ok(free)
}

/// The first candidate of each class in the text.
fn chosen(
    alloc: Global,
    labels: &[usize],
    homes: &[Option<Home>],
    candidates: &[Candidate],
) -> Result<Items<Option<Candidate>>, Memory>
    ensures { IfOk result (λ chosen. chosen ≡ chosen_of labels.now homes.now candidates.now) }
{
    let mut chosen = nothing_chosen(alloc, labels.len())?;
    for candidate in candidates {
        let class = class_of(labels, homes, candidate);
        note_choice(&mut chosen, class, candidate);
    }
    Ok(chosen)
}

/// So many classes for which nothing is chosen.
fn nothing_chosen(alloc: Global, count: usize) -> Result<Items<Option<Candidate>>, Memory>
    ensures { IfOk result (λ chosen. chosen ≡ replicate count None) }
{
    let chosen = vec![in alloc; None; count]?;
    Ok(Items::from_vec(chosen))
}

/// A candidate is chosen for its class, if it stands before the one chosen so far.
fn note_choice(chosen: &mut Items<Option<Candidate>>, class: Option<usize>, candidate: &Candidate)
    ensures { chosen.new ≡ put sooner class candidate.now chosen.old }
{
    let Some(label) = class else {
        return;
    };
    let Some(before) = at(chosen.as_slice(), label).copied() else {
        return;
    };
    chosen.set(label, Some(sooner(before, candidate)));
}

/// Of two candidates the one that stands before in the text, else the first.
fn sooner(before: Option<Candidate>, candidate: &Candidate) -> Candidate
    ensures { Some result ≡ sooner before candidate.now }
{
    match before {
        Some(before) => {
            if is_sooner(candidate.span, before.span) {
                *candidate
            } else {
                before
            }
        }
        None => *candidate,
    }
}

/// Whether a place in the text stands before another one.
fn is_sooner(a: Span, b: Span) -> bool
    ensures { result ≡ is_sooner a b }
{
    a.file < b.file || (a.file == b.file && a.start < b.start)
}
