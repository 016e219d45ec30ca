ghost use Rattle.std.specs.Prelude.{◌≡◌, IfOk, drop, length, reverse};
ghost use Rattle.std.specs.Option.{option_copied};
ghost use Rattle.source_outline.specs.Following.{behind_comps, comp_with, comps_with, global_with, globals_with, refilled, with_kind, with_kinds};

use crate::numbers::dropped;
use slint_base::Memory;
use sqlite_items::{Items, at};
use std::alloc::Global;
use typed_tree::{ComponentOutline, GlobalOutline, Member, MemberKind, Outline};

/// The same items, last first.
fn reversed<T: Drop>(alloc: Global, mut items: Items<T>) -> Result<Items<T>, Memory>
    ensures { IfOk result (λ made. made ≡ reverse items) }
{
    let mut made = Items::new(alloc);
    while let Some(item) = items.pop() {
        made.push(item)?;
    }
    Ok(made)
}

/// A member with another kind, if there is one.
fn with_kind(alloc: Global, member: Member, kind: Option<&MemberKind>) -> Result<Member, Memory>
    ensures { IfOk result (λ made. made ≡ with_kind member (option_copied kind.entry)) }
{
    match kind {
        Some(kind) => {
            let Member {
                name,
                element,
                kind: _,
                span,
            } = member;
            let kind = kind.copy(alloc)?;
            Ok(Member {
                name,
                element,
                kind,
                span,
            })
        }
        None => Ok(member),
    }
}

/// Members with other kinds.
fn with_kinds(
    alloc: Global,
    kinds: &[MemberKind],
    members: Items<Member>,
) -> Result<Items<Member>, Memory>
    ensures { IfOk result (λ made. made ≡ with_kinds kinds.now 0 members) }
{
    let mut left = reversed(alloc, members)?;
    let mut made = Items::new(alloc);
    while let Some(member) = left.pop() {
        let kind = at(kinds, made.len());
        made.push(with_kind(alloc, member, kind)?)?;
    }
    Ok(made)
}

/// A component whose members have other kinds.
fn comp_with(
    alloc: Global,
    kinds: &[MemberKind],
    comp: ComponentOutline,
) -> Result<ComponentOutline, Memory>
    ensures { IfOk result (λ made. made ≡ comp_with kinds.now comp) }
{
    let ComponentOutline {
        name,
        file,
        members,
        elements,
        slot,
    } = comp;
    let members = with_kinds(alloc, kinds, members)?;
    Ok(ComponentOutline {
        name,
        file,
        members,
        elements,
        slot,
    })
}

/// A global whose members have other kinds.
fn global_with(
    alloc: Global,
    kinds: &[MemberKind],
    global: GlobalOutline,
) -> Result<GlobalOutline, Memory>
    ensures { IfOk result (λ made. made ≡ global_with kinds.now global) }
{
    let GlobalOutline {
        name,
        file,
        members,
    } = global;
    let members = with_kinds(alloc, kinds, members)?;
    Ok(GlobalOutline {
        name,
        file,
        members,
    })
}

/// Components whose members have other kinds.
fn comps_with(
    alloc: Global,
    kinds: &[MemberKind],
    comps: Items<ComponentOutline>,
) -> Result<Items<ComponentOutline>, Memory>
    ensures { IfOk result (λ made. made ≡ comps_with kinds.now comps) }
{
    let mut left = reversed(alloc, comps)?;
    let mut rest = kinds;
    let mut made = Items::new(alloc);
    while let Some(comp) = left.pop() {
        let count = comp.members.len();
        made.push(comp_with(alloc, rest, comp)?)?;
        rest = dropped(rest, count);
    }
    Ok(made)
}

/// Globals whose members have other kinds.
fn globals_with(
    alloc: Global,
    kinds: &[MemberKind],
    globals: Items<GlobalOutline>,
) -> Result<Items<GlobalOutline>, Memory>
    ensures { IfOk result (λ made. made ≡ globals_with kinds.now globals) }
{
    let mut left = reversed(alloc, globals)?;
    let mut rest = kinds;
    let mut made = Items::new(alloc);
    while let Some(global) = left.pop() {
        let count = global.members.len();
        made.push(global_with(alloc, rest, global)?)?;
        rest = dropped(rest, count);
    }
    Ok(made)
}

/// The kinds that are left behind those of components.
fn behind_comps<'a>(kinds: &'a [MemberKind], comps: &[ComponentOutline]) -> &'a [MemberKind]
    ensures { result.now ≡ behind_comps kinds.now comps.now }
{
    let mut rest = kinds;
    for comp in comps {
        rest = dropped(rest, comp.members.len());
    }
    rest
}

/// An outline with other kinds, in the order of its members.
pub(crate) fn refilled(
    alloc: Global,
    kinds: &[MemberKind],
    outline: Outline,
) -> Result<Outline, Memory>
    ensures { IfOk result (λ made. made ≡ refilled kinds.now outline) }
{
    let Outline {
        files,
        comps,
        globals,
        enums,
    } = outline;
    let rest = behind_comps(kinds, comps.as_slice());
    let comps = comps_with(alloc, kinds, comps)?;
    let globals = globals_with(alloc, rest, globals)?;
    Ok(Outline {
        files,
        comps,
        globals,
        enums,
    })
}
