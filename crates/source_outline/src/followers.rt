ghost use Rattle.std.specs.Prelude.{◌≡◌, [], ◌++◌, IfOk, map};
ghost use Rattle.std.specs.Option.{option_copied};
ghost use Rattle.name_lookup.specs.Leads.{body_scope, lead_of};
ghost use Rattle.source_scopes.specs.Shown.{shown_component, shown_global};
ghost use Rattle.source_outline.specs.Following.{component_follower, component_follower_at, component_followers, follower, followers_in, followers_of_comp, followers_of_comps, followers_of_global, followers_of_globals, found_by, found_of, global_follower_at, global_followers, suits};

use crate::links::{element_links, push_links};
use crate::members::push_if;
use crate::rows::rows_around;
use name_lookup::{Lead, lead_of};
use slint_base::{Memory, Span};
use source_elements::written_in;
use source_scopes::{FileComponent, FileGlobal, Scopes};
use sqlite_items::{Items, at};
use std::alloc::Global;
use syntax_tree::Path;
use typed_tree::{
    ComponentOutline, ElementOutline, Found, GlobalOutline, Member, MemberKind, Names, RowNames,
    Scope, Site,
};

/// A declared member, and the member that it is linked to where its own kind is left out.
#[derive(Drop)]
pub struct Follower {
    pub kind: MemberKind,
    /// The stretch of the whole item.
    pub span: Span,
    pub found: Option<Found>,
}

/// Whether both are properties, or both callbacks.
fn suits(kind: &MemberKind, other: &MemberKind) -> bool
    ensures { result ≡ suits kind.now other.now }
{
    match kind {
        MemberKind::Property(_, _) => matches!(other, MemberKind::Property(_, _)),
        MemberKind::Callback(_, _) => matches!(other, MemberKind::Callback(_, _)),
        MemberKind::Function(_, _, _) => false,
    }
}

/// The member that a link leads to, a property from a property and a callback from a callback.
fn found_of(kind: &MemberKind, lead: Lead) -> Option<Found>
    ensures { result ≡ found_of kind.now lead }
{
    match lead {
        Lead::To(found) => {
            if suits(kind, &found.kind) {
                Some(found)
            } else {
                None
            }
        }
        Lead::Lost(_) => None,
    }
}

/// The member that a link leads to, if there is one.
fn found_by(
    alloc: Global,
    names: &Names,
    site: Site,
    rows: &[RowNames],
    kind: &MemberKind,
    path: &Path,
) -> Result<Option<Found>, Memory>
    ensures { IfOk result (λ found. found ≡ found_of kind.now (lead_of (body_scope names.now site rows.now) path.now)) }
{
    let scope = Scope::new(names, site, &[], rows);
    let lead = lead_of(alloc, &scope, path)?;
    Ok(found_of(kind, lead))
}

/// A declared member, with what is found for it.
fn with_found(alloc: Global, member: &Member, found: Option<Found>) -> Result<Follower, Memory>
    ensures { IfOk result (λ made. made ≡ record { kind = member.now.kind; span = member.now.span; found = found }) }
{
    let kind = member.kind.copy(alloc)?;
    Ok(Follower {
        kind,
        span: member.span,
        found,
    })
}

/// The member that a member of a component is linked to where its own kind is left out.
fn component_found(
    alloc: Global,
    names: &Names,
    component: usize,
    elements: &[ElementOutline],
    member: &Member,
    link: Option<&Path>,
) -> Result<Option<Found>, Memory>
    ensures { IfOk result (λ found. found ≡ (component_follower names.now component elements.now member.now (option_copied link.entry)).found) }
{
    match link {
        Some(path) => {
            let rows = rows_around(alloc, elements, member.element)?;
            let site = Site::Element(component, member.element);
            found_by(alloc, names, site, rows.as_slice(), &member.kind, path)
        }
        None => Ok(None),
    }
}

/// A member of a component, if it is there.
fn component_follower_at(
    alloc: Global,
    names: &Names,
    component: usize,
    elements: &[ElementOutline],
    link: Option<&Path>,
    member: Option<&Member>,
) -> Result<Option<Follower>, Memory>
    ensures { IfOk result (λ made. made ≡ component_follower_at names.now component elements.now (option_copied link.entry) (option_copied member.entry)) }
{
    match member {
        Some(member) => {
            let found = component_found(alloc, names, component, elements, member, link)?;
            let made = with_found(alloc, member, found)?;
            Ok(Some(made))
        }
        None => Ok(None),
    }
}

/// Adds the members of a component, each with the link that stands at its place.
fn push_component_followers(
    alloc: Global,
    names: &Names,
    component: usize,
    outline: &ComponentOutline,
    links: &[Option<&Path>],
    out: &mut Items<Follower>,
) -> Result<(), Memory>
    ensures { IfOk result (λ _. out.new ≡ out.old ++ component_followers names.now component outline.now 0 (map option_copied links.now)) }
{
    let elements = outline.elements.as_slice();
    let members = outline.members.as_slice();
    for (number, link) in links.iter().enumerate() {
        let member = at(members, number);
        let made = component_follower_at(alloc, names, component, elements, *link, member)?;
        push_if(out, made)?;
    }
    Ok(())
}

/// Adds the members of a component, if it is there.
fn push_component(
    alloc: Global,
    names: &Names,
    component: usize,
    written: &FileComponent<'_>,
    outline: Option<&ComponentOutline>,
    out: &mut Items<Follower>,
) -> Result<(), Memory>
    ensures { IfOk result (λ _. out.new ≡ out.old ++ followers_of_comp names.now component (shown_component written.now) (option_copied outline.entry)) }
{
    match outline {
        Some(outline) => {
            let elements = written_in(alloc, written.component)?;
            let links = element_links(alloc, elements.as_slice())?;
            push_component_followers(alloc, names, component, outline, links.as_slice(), out)
        }
        None => Ok(()),
    }
}

/// Adds the members of all components.
fn push_components(
    alloc: Global,
    names: &Names,
    components: &[FileComponent<'_>],
    out: &mut Items<Follower>,
) -> Result<(), Memory>
    ensures { IfOk result (λ _. out.new ≡ out.old ++ followers_of_comps names.now 0 (map shown_component components.now)) }
{
    let comps = names.outline().comps.as_slice();
    for (number, written) in components.iter().enumerate() {
        push_component(alloc, names, number, written, at(comps, number), out)?;
    }
    Ok(())
}

/// The member that a member of a global is linked to where its own kind is left out.
fn global_found(
    alloc: Global,
    names: &Names,
    global: usize,
    member: &Member,
    link: Option<&Path>,
) -> Result<Option<Found>, Memory>
    ensures { IfOk result (λ found. found ≡ (follower names.now (Site.Global global) [] member.now (option_copied link.entry)).found) }
{
    match link {
        Some(path) => found_by(alloc, names, Site::Global(global), &[], &member.kind, path),
        None => Ok(None),
    }
}

/// A member of a global, if it is there.
fn global_follower_at(
    alloc: Global,
    names: &Names,
    global: usize,
    link: Option<&Path>,
    member: Option<&Member>,
) -> Result<Option<Follower>, Memory>
    ensures { IfOk result (λ made. made ≡ global_follower_at names.now global (option_copied link.entry) (option_copied member.entry)) }
{
    match member {
        Some(member) => {
            let found = global_found(alloc, names, global, member, link)?;
            let made = with_found(alloc, member, found)?;
            Ok(Some(made))
        }
        None => Ok(None),
    }
}

/// Adds the members of a global, each with the link that stands at its place.
fn push_global_followers(
    alloc: Global,
    names: &Names,
    global: usize,
    members: &[Member],
    links: &[Option<&Path>],
    out: &mut Items<Follower>,
) -> Result<(), Memory>
    ensures { IfOk result (λ _. out.new ≡ out.old ++ global_followers names.now global members.now 0 (map option_copied links.now)) }
{
    for (number, link) in links.iter().enumerate() {
        let member = at(members, number);
        let made = global_follower_at(alloc, names, global, *link, member)?;
        push_if(out, made)?;
    }
    Ok(())
}

/// Adds the members of a global, if it is there.
fn push_global(
    alloc: Global,
    names: &Names,
    global: usize,
    written: &FileGlobal<'_>,
    outline: Option<&GlobalOutline>,
    out: &mut Items<Follower>,
) -> Result<(), Memory>
    ensures { IfOk result (λ _. out.new ≡ out.old ++ followers_of_global names.now global (shown_global written.now) (option_copied outline.entry)) }
{
    match outline {
        Some(outline) => {
            let mut links = Items::new(alloc);
            push_links(written.global.items.as_slice(), &mut links)?;
            let members = outline.members.as_slice();
            push_global_followers(alloc, names, global, members, links.as_slice(), out)
        }
        None => Ok(()),
    }
}

/// Adds the members of all globals.
fn push_globals(
    alloc: Global,
    names: &Names,
    globals: &[FileGlobal<'_>],
    out: &mut Items<Follower>,
) -> Result<(), Memory>
    ensures { IfOk result (λ _. out.new ≡ out.old ++ followers_of_globals names.now 0 (map shown_global globals.now)) }
{
    let outlines = names.outline().globals.as_slice();
    for (number, written) in globals.iter().enumerate() {
        push_global(alloc, names, number, written, at(outlines, number), out)?;
    }
    Ok(())
}

/// All declared members of a source, where these are the names of its rough outline: those of its components, and then those of its globals.
pub(crate) fn followers_in(
    alloc: Global,
    names: &Names,
    scopes: &Scopes<'_>,
) -> Result<Items<Follower>, Memory>
    ensures { IfOk result (λ made. made ≡ followers_in names.now scopes.now) }
{
    let mut out = Items::new(alloc);
    let components = scopes.components(alloc)?;
    push_components(alloc, names, components.as_slice(), &mut out)?;
    let globals = scopes.globals(alloc)?;
    push_globals(alloc, names, globals.as_slice(), &mut out)?;
    Ok(out)
}
