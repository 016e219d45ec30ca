ghost use Rattle.std.specs.Prelude.{◌≡◌, ◌<◌, ◌≤◌, ◌++◌, IfOk, OnOk, None, length, map, replicate, slice_get, unwrap_or};
ghost use Rattle.alias_merge.specs.CircleFaults.{EndsWithin};
ghost use Rattle.alias_merge.specs.Labels.{AreBelow, AreFirsts, AreLabels, both_ways, first_by, joined, with_first};

use crate::Spanned;
use finite_graphs::{Graph, components};
use slint_base::Memory;
use sqlite_items::{Items, at};
use std::alloc::Global;

/// The label of each of so many members: the least member to which it is joined by links, whichever way they lead. The cost is in proportion
/// to members and links.
pub fn class_labels(
    alloc: Global,
    members: usize,
    links: &[Spanned],
) -> Result<Items<usize>, Memory>
    requires { EndsWithin members links.now }
    ensures { IfOk result (λ labels. AreLabels links.now members labels) }
{
    let graph = drawn_both_ways(alloc, members, links)?;
    let groups = components(alloc, &graph)?;
    let limit = limit_of(groups.as_slice())?;
    let firsts = firsts(alloc, limit, groups.as_slice())?;
    let labels = labels_by(alloc, firsts.as_slice(), groups.as_slice())?;
    Ok(labels)
}

/// The graph of links, each both ways.
fn drawn_both_ways(alloc: Global, members: usize, links: &[Spanned]) -> Result<Graph, Memory>
    requires { EndsWithin members links.now }
    ensures { IfOk result (λ graph. graph ≡ record { nodes = members; edges = joined links.now }) }
{
    let mut graph = Graph::new(alloc, members);
    for link in links {
        add_both_ways(&mut graph, link)?;
    }
    Ok(graph)
}

/// Adds a link both ways.
fn add_both_ways(graph: &mut Graph, link: &Spanned) -> Result<(), Memory>
    requires from { link.now.from < graph.old.nodes }
    requires to { link.now.to < graph.old.nodes }
    ensures { OnOk result (graph.new ≡ record graph.old { edges = graph.old.edges ++ both_ways link.now }) }
{
    graph.push(link.from, link.to)?;
    graph.push(link.to, link.from)
}

/// A number that is greater than all groups.
fn limit_of(groups: &[usize]) -> Result<usize, Memory>
    ensures { IfOk result (λ limit. AreBelow limit groups.now) }
{
    let mut limit: usize = 0;
    for group in groups {
        limit = above(limit, *group)?;
    }
    Ok(limit)
}

/// A number that is at least a limit, and greater than a group.
fn above(limit: usize, group: usize) -> Result<usize, Memory>
    ensures { IfOk result (λ more. (limit ≤ more) × (group < more)) }
{
    if group < limit {
        return Ok(limit);
    }
    group.checked_add(1).ok_or(Memory)
}

/// The first member of each group.
fn firsts(alloc: Global, limit: usize, groups: &[usize]) -> Result<Items<Option<usize>>, Memory>
    requires { AreBelow limit groups.now }
    ensures { IfOk result (λ firsts. AreFirsts limit groups.now (length groups.now) firsts) }
{
    let mut firsts = no_firsts(alloc, limit)?;
    for (member, group) in groups.iter().enumerate() {
        note_first(&mut firsts, *group, member);
    }
    Ok(firsts)
}

/// So many groups whose first members aren't known.
fn no_firsts(alloc: Global, count: usize) -> Result<Items<Option<usize>>, Memory>
    ensures { IfOk result (λ firsts. firsts ≡ replicate count None) }
{
    let firsts = vec![in alloc; None; count]?;
    Ok(Items::from_vec(firsts))
}

/// A member is the first of its group, if that has none so far.
fn note_first(firsts: &mut Items<Option<usize>>, group: usize, member: usize)
    ensures { firsts.new ≡ with_first firsts.old group member (slice_get firsts.old group) }
{
    if let Some(first) = at(firsts.as_slice(), group).copied()
        && first.is_none()
    {
        firsts.set(group, Some(member));
    }
}

/// The label of each member: the first one of its group.
fn labels_by(
    alloc: Global,
    firsts: &[Option<usize>],
    groups: &[usize],
) -> Result<Items<usize>, Memory>
    ensures { IfOk result (λ labels. labels ≡ map (first_by firsts.now) groups.now) }
{
    let mut labels = Items::new(alloc);
    for group in groups {
        labels.push(first_by(firsts, *group))?;
    }
    Ok(labels)
}

/// The first member of a group.
fn first_by(firsts: &[Option<usize>], group: usize) -> usize
    ensures { result ≡ first_by firsts.now group }
{
    match at(firsts, group) {
        Some(first) => first_or_zero(*first),
        None => 0,
    }
}

/// A member that may be there.
fn first_or_zero(first: Option<usize>) -> usize
    ensures { result ≡ unwrap_or first 0 }
{
    match first {
        Some(first) => first,
        None => 0,
    }
}
