ghost use Rattle.std.specs.Prelude.{◌≡◌, ◌+◌, ◌++◌, ◌∷◌, [], IfOk, drop, length, map};
ghost use Rattle.source_outline.specs.Following.{below, next_by, nexts_of, number_behind, number_found, number_of, size_of_comp, size_of_global, starts_from, starts_of};

use crate::Follower;
use slint_base::Memory;
use sqlite_items::{Items, at};
use std::alloc::Global;
use typed_tree::{ElementMember, Found, MemberRef, Outline};

/// How many members each component declares, and then each global.
fn sizes_of(alloc: Global, outline: &Outline) -> Result<Items<usize>, Memory>
    ensures { IfOk result (λ sizes. sizes ≡ map size_of_comp outline.now.comps ++ map size_of_global outline.now.globals) }
{
    let mut sizes = Items::new(alloc);
    for comp in outline.comps.as_slice() {
        sizes.push(comp.members.len())?;
    }
    for global in outline.globals.as_slice() {
        sizes.push(global.members.len())?;
    }
    Ok(sizes)
}

/// The sum of two sizes.
fn sum(a: usize, b: usize) -> Result<usize, Memory>
    ensures { IfOk result (λ sum. sum ≡ a + b) }
{
    match a.checked_add(b) {
        Some(sum) => Ok(sum),
        None => Err(Memory),
    }
}

/// Where each part starts, by the parts' sizes.
fn starts_from(alloc: Global, sizes: &[usize]) -> Result<Items<usize>, Memory>
    ensures { IfOk result (λ starts. starts ≡ starts_from 0 sizes.now) }
{
    let mut starts = Items::new(alloc);
    let mut start = 0;
    for size in sizes {
        starts.push(start)?;
        start = sum(start, *size)?;
    }
    Ok(starts)
}

/// The numbers of the first members of components, and then of globals.
fn starts_of(alloc: Global, outline: &Outline) -> Result<Items<usize>, Memory>
    ensures { IfOk result (λ starts. starts ≡ starts_of outline.now) }
{
    let sizes = sizes_of(alloc, outline)?;
    let starts = starts_from(alloc, sizes.as_slice())?;
    Ok(starts)
}

/// Of so many members the one that stands at a place behind a start.
fn number_behind(count: usize, place: usize, start: Option<usize>) -> Option<usize>
    ensures { result ≡ number_behind count place start }
{
    match start {
        Some(start) => below(count, start, place),
        None => None,
    }
}

/// The sum of two numbers, if it is below a count.
fn below(count: usize, start: usize, place: usize) -> Option<usize>
    ensures { result ≡ below count (start + place) }
{
    if start < count && place < count - start {
        Some(start + place)
    } else {
        None
    }
}

/// Of so many members the one that a reference names.
fn number_of(comps: &[usize], globals: &[usize], count: usize, member: MemberRef) -> Option<usize>
    ensures { result ≡ number_of comps.now globals.now count member }
{
    match member {
        MemberRef::Element(_, ElementMember::BuiltIn(_)) => None,
        MemberRef::Element(_, ElementMember::Declared(component, place)) => {
            number_behind(count, place, at(comps, component).copied())
        }
        MemberRef::Global(global, place) => {
            number_behind(count, place, at(globals, global).copied())
        }
    }
}

/// Of so many members the one that is found for a member.
fn number_found(
    comps: &[usize],
    globals: &[usize],
    count: usize,
    found: &Option<Found>,
) -> Option<usize>
    ensures { result ≡ number_found comps.now globals.now count found.now }
{
    match found {
        Some(found) => number_of(comps, globals, count, found.member),
        None => None,
    }
}

/// Of each member the number of the one that it follows.
pub(crate) fn nexts_of(
    alloc: Global,
    outline: &Outline,
    followers: &[Follower],
) -> Result<Items<Option<usize>>, Memory>
    ensures { IfOk result (λ nexts. nexts ≡ nexts_of outline.now followers.now) }
{
    let starts = starts_of(alloc, outline)?;
    let comps = starts.as_slice();
    let globals = dropped(comps, outline.comps.len());
    let mut nexts = Items::new(alloc);
    for follower in followers {
        nexts.push(number_found(comps, globals, followers.len(), &follower.found))?;
    }
    Ok(nexts)
}

/// What is left of a list behind its first items.
pub(crate) fn dropped<T>(items: &[T], count: usize) -> &[T]
    ensures { result.now ≡ drop count items.now }
{
    if count <= items.len() {
        items.split_at(count).1
    } else {
        &[]
    }
}
