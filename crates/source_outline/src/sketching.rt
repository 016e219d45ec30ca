ghost use Rattle.std.specs.Prelude.{◌≡◌, IfOk};
ghost use Rattle.std.specs.Option.{option_copied};
ghost use Rattle.fault_order.specs.Order.{FirstIfAny, first_of};
ghost use Rattle.source_outline.specs.Following.{EndlessIn, IsSketch, kinds_of, refilled};
ghost use Rattle.source_outline.specs.Marked.{marked_from, told_if};

use crate::Follower;
use crate::ends::link_graph;
use crate::followers::followers_in;
use crate::kinds::kinds_of;
use crate::numbers::nexts_of;
use crate::outlines::sketch_roughly;
use crate::refilling::refilled;
use fault_order::earlier;
use finite_graphs::find_circles;
use slint_base::{Fault, Memory, Rule};
use source_scopes::Scopes;
use sqlite_items::at;
use std::alloc::Global;
use typed_tree::{Names, Outline};

/// What a source is sketched as.
#[derive(Drop)]
pub enum Sketch {
    /// Its outline. No link leads on without an end.
    Whole(Outline),
    /// The first of the links for which kinds are left out and that lead in a circle (rule 45).
    Endless(Fault),
}

/// The fault of a member that is marked.
fn told_if(mark: Option<&bool>, follower: &Follower) -> Option<Fault>
    ensures { result ≡ told_if (option_copied mark.entry) follower.now }
{
    match mark {
        Some(true) => Some(Fault {
            rule: Rule::AliasTypes,
            span: follower.span,
        }),
        _ => None,
    }
}

/// The first fault of marked members.
fn first_marked(followers: &[Follower], marks: &[bool]) -> Option<Fault>
    ensures { result ≡ first_of (marked_from marks.now 0 followers.now) }
{
    let mut first = None;
    for (number, follower) in followers.iter().enumerate() {
        first = earlier(first, told_if(at(marks, number), follower));
    }
    first
}

/// The first link for which a kind is left out and that leads in a circle.
fn first_endless_link(
    alloc: Global,
    followers: &[Follower],
    nexts: &[Option<usize>],
) -> Result<Option<Fault>, Memory>
    ensures { IfOk result (λ fault. FirstIfAny (EndlessIn followers.now nexts.now) fault) }
{
    let graph = link_graph(alloc, nexts)?;
    let circles = find_circles(alloc, &graph)?;
    Ok(first_marked(followers, circles.nodes.as_slice()))
}

/// A rough outline with the kinds that its members have by their chains.
fn filled(
    alloc: Global,
    rough: Outline,
    followers: &[Follower],
    nexts: &[Option<usize>],
) -> Result<Outline, Memory>
    ensures { IfOk result (λ outline. outline ≡ refilled (kinds_of followers.now nexts.now) rough) }
{
    let kinds = kinds_of(alloc, followers, nexts)?;
    let outline = refilled(alloc, kinds.as_slice(), rough)?;
    Ok(outline)
}

/// The outline of a source, in which kinds that are left out are taken over along links; or the first link of those that lead in a circle.
pub fn sketch_source(alloc: Global, scopes: &Scopes<'_>) -> Result<Sketch, Memory>
    ensures { IfOk result (λ sketch. IsSketch scopes.now sketch) }
{
    let rough = sketch_roughly(alloc, scopes)?;
    let names = Names::new(alloc, rough)?;
    let followers = followers_in(alloc, &names, scopes)?;
    let followers = followers.as_slice();
    let nexts = nexts_of(alloc, names.outline(), followers)?;
    let nexts = nexts.as_slice();
    match first_endless_link(alloc, followers, nexts)? {
        Some(fault) => Ok(Sketch::Endless(fault)),
        None => {
            let outline = filled(alloc, names.into_outline(), followers, nexts)?;
            Ok(Sketch::Whole(outline))
        }
    }
}
