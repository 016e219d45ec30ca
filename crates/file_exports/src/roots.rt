ghost use Rattle.std.specs.Prelude.{◌≡◌, ℕ, List, ◌==◌, ◌||◌, Some, IfOk, if◌then◌else◌};
ghost use Rattle.std.specs.HashSet.{contains_text};
ghost use Rattle.std.specs.Option.{option_copied};
ghost use Rattle.file_exports.specs.Roots.{first_place, has_name, is_component, is_component_named, is_exported, last_place, listed_among, or_else, root_place};

use crate::names::listed_names;
use slint_base::{Memory, Name};
use std::alloc::Global;
use std::collections::HashSet;
use syntax_tree::{Decl, FileItem};

/// The place of the source's root among the items of its main file, from 0 on: the component of that name where one is asked for, the
/// first where the name is there twice; else the last component that is exported, by a mark or in a list, else the last component. `None`
/// where there is no such component.
pub fn root_place(
    alloc: Global,
    items: &[FileItem],
    named: Option<&Name>,
) -> Result<Option<usize>, Memory>
    ensures { IfOk result (λ place. place ≡ root_place (option_copied named.entry) items.now) }
{
    match named {
        Some(name) => Ok(place_named(items, name)),
        None => {
            let listed = listed_names(alloc, items)?;
            Ok(last_root(items, &listed))
        }
    }
}

/// The place of the first component of that name.
fn place_named(items: &[FileItem], name: &Name) -> Option<usize>
    ensures { result ≡ first_place (is_component_named name.now) items.now }
{
    for (place, item) in items.iter().enumerate() {
        if is_component_named(item, name) {
            return Some(place);
        }
    }
    None
}

/// The place of the last component that is exported, else of the last component, where these names are listed for export.
fn last_root(items: &[FileItem], listed: &HashSet<String>) -> Option<usize>
    requires { (name : List ℕ) → contains_text listed.now name ≡ has_name (listed_among items.now) name }
    ensures { result ≡ or_else (last_place (is_exported (listed_among items.now)) items.now) (last_place is_component items.now) }
{
    let mut exported = None;
    let mut component = None;
    for (place, item) in items.iter().enumerate() {
        exported = later(exported, place, is_exported(item, listed));
        component = later(component, place, is_component(item));
    }
    exported.or(component)
}

/// The last place so far, where the next place may be one too.
fn later(last: Option<usize>, place: usize, is_one: bool) -> Option<usize>
    ensures { result ≡ (if is_one then Some place else last) }
{
    if is_one { Some(place) } else { last }
}

/// Whether an item is a component of that name.
fn is_component_named(item: &FileItem, name: &Name) -> bool
    ensures { result ≡ is_component_named name.now item.now }
{
    match item {
        FileItem::Decl(_, Decl::Component(component)) => component.name.name.as_str()
            == name.as_str(),
        _ => false,
    }
}

/// Whether an item is a component.
fn is_component(item: &FileItem) -> bool
    ensures { result ≡ is_component item.now }
{
    matches!(item, FileItem::Decl(_, Decl::Component(_)))
}

/// Whether an item is a component that is marked for export, or that is among the names that are listed for it.
fn is_exported(item: &FileItem, listed: &HashSet<String>) -> bool
    ensures { (names : List (List ℕ)) → ((name : List ℕ) → contains_text listed.now name ≡ has_name names name) → result ≡ is_exported names item.now }
{
    match item {
        FileItem::Decl(marked, Decl::Component(component)) => *marked
            || listed.contains(component.name.name.as_str()),
        _ => false,
    }
}
