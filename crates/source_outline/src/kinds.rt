ghost use Rattle.std.specs.Prelude.{◌≡◌, IfOk, slice_get};
ghost use Rattle.std.specs.Option.{option_and_then, option_copied, option_map};
ghost use Rattle.source_outline.specs.Ends.{ends_of};
ghost use Rattle.source_outline.specs.Following.{kind_by, kind_found, kind_there, kinds_from, kinds_of, taken, taken_if};

use crate::Follower;
use crate::ends::ends_of;
use slint_base::Memory;
use sqlite_items::{Items, at};
use std::alloc::Global;
use typed_tree::{Found, MemberKind};

/// A kind that is left out, taken over from another member, but for its own mark or `pure`.
fn taken(alloc: Global, own: &MemberKind, other: &MemberKind) -> Result<MemberKind, Memory>
    ensures { IfOk result (λ kind. kind ≡ taken own.now other.now) }
{
    match (own, other) {
        (MemberKind::Property(mark, _), MemberKind::Property(_, ty)) => {
            let ty = ty.copy(alloc)?;
            Ok(MemberKind::Property(*mark, ty))
        }
        (MemberKind::Callback(is_pure, _), MemberKind::Callback(_, signature)) => {
            let signature = signature.copy(alloc)?;
            Ok(MemberKind::Callback(*is_pure, signature))
        }
        _ => own.copy(alloc),
    }
}

/// The same, where a member is found.
fn taken_from(alloc: Global, own: &MemberKind, found: &Option<Found>) -> Result<MemberKind, Memory>
    ensures { IfOk result (λ kind. kind ≡ taken_if own.now (option_map kind_found found.now)) }
{
    match found {
        Some(found) => taken(alloc, own, &found.kind),
        None => own.copy(alloc),
    }
}

/// The same, of the member at which a chain ends.
fn taken_at(alloc: Global, own: &MemberKind, end: Option<&Follower>) -> Result<MemberKind, Memory>
    ensures { IfOk result (λ kind. kind ≡ taken_if own.now (option_map kind_there (option_copied end.entry))) }
{
    match end {
        Some(end) => {
            let there = taken_from(alloc, &end.kind, &end.found)?;
            let kind = taken(alloc, own, &there)?;
            Ok(kind)
        }
        None => own.copy(alloc),
    }
}

/// The member at which a chain ends.
fn end_at(followers: &[Follower], end: Option<usize>) -> Option<&Follower>
    ensures { option_copied result ≡ option_and_then (slice_get followers.now) end }
{
    match end {
        Some(end) => at(followers, end),
        None => None,
    }
}

/// The kind of a member, by the end of its chain.
fn kind_by(
    alloc: Global,
    followers: &[Follower],
    end: Option<usize>,
    follower: &Follower,
) -> Result<MemberKind, Memory>
    ensures { IfOk result (λ kind. kind ≡ kind_by followers.now end follower.now) }
{
    let end = end_at(followers, end);
    let kind = taken_at(alloc, &follower.kind, end)?;
    Ok(kind)
}

/// The kinds of all members, by the ends of their chains.
fn kinds_from(
    alloc: Global,
    followers: &[Follower],
    ends: &[usize],
) -> Result<Items<MemberKind>, Memory>
    ensures { IfOk result (λ kinds. kinds ≡ kinds_from followers.now ends.now 0 followers.now) }
{
    let mut kinds = Items::new(alloc);
    for (number, follower) in followers.iter().enumerate() {
        let end = at(ends, number).copied();
        kinds.push(kind_by(alloc, followers, end, follower)?)?;
    }
    Ok(kinds)
}

/// The kinds of all members, where these are the numbers of the members that they follow.
pub(crate) fn kinds_of(
    alloc: Global,
    followers: &[Follower],
    nexts: &[Option<usize>],
) -> Result<Items<MemberKind>, Memory>
    ensures { IfOk result (λ kinds. kinds ≡ kinds_of followers.now nexts.now) }
{
    let ends = ends_of(alloc, nexts)?;
    let kinds = kinds_from(alloc, followers, ends.as_slice())?;
    Ok(kinds)
}
