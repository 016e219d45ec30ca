ghost use Rattle.std.specs.Prelude.{◌≡◌, ℕ, List, [], ◌∷◌, IfOk, OnOk, map};
ghost use Rattle.std.specs.HashSet.{contains_text};
ghost use Rattle.file_exports.specs.Imports.{declared_name, exported_among, exported_by, outer_name};
ghost use Rattle.file_exports.specs.Names.{AddsNames};
ghost use Rattle.file_exports.specs.Roots.{has_name, inner_name, listed_among, listed_by};

use slint_base::{Memory, Name};
use std::alloc::Global;
use std::collections::HashSet;
use syntax_tree::{Alias, Decl, FileItem};

/// The names that a file marks or lists for export, as other files know them. What it takes over from other files isn't among them.
pub fn exported_names(alloc: Global, items: &[FileItem]) -> Result<HashSet<String>, Memory>
    ensures { IfOk result (λ names. (name : List ℕ) → contains_text names name ≡ has_name (exported_among items.now) name) }
{
    let mut names = HashSet::new(alloc);
    for item in items {
        add_exported(alloc, &mut names, item)?;
    }
    Ok(names)
}

/// Adds the names that an item of a file exports by itself.
fn add_exported(alloc: Global, names: &mut HashSet<String>, item: &FileItem) -> Result<(), Memory>
    ensures { OnOk result (AddsNames names.old names.new (exported_by item.now)) }
{
    match item {
        FileItem::Export(list) => add_outer(alloc, names, list.names.as_slice()),
        FileItem::Decl(true, decl) => add_name(alloc, names, declared_name(decl)),
        _ => Ok(()),
    }
}

/// Adds the names by which others know what a list exports.
fn add_outer(alloc: Global, names: &mut HashSet<String>, list: &[Alias]) -> Result<(), Memory>
    ensures { OnOk result (AddsNames names.old names.new (map outer_name list.now)) }
{
    for alias in list {
        add_name(alloc, names, outer_name(alias))?;
    }
    Ok(())
}

/// The names that a file lists for export, as the file itself knows them.
pub(crate) fn listed_names(alloc: Global, items: &[FileItem]) -> Result<HashSet<String>, Memory>
    ensures { IfOk result (λ names. (name : List ℕ) → contains_text names name ≡ has_name (listed_among items.now) name) }
{
    let mut names = HashSet::new(alloc);
    for item in items {
        add_listed(alloc, &mut names, item)?;
    }
    Ok(names)
}

/// Adds the names that an item of a file lists for export.
fn add_listed(alloc: Global, names: &mut HashSet<String>, item: &FileItem) -> Result<(), Memory>
    ensures { OnOk result (AddsNames names.old names.new (listed_by item.now)) }
{
    match item {
        FileItem::Export(list) => add_inner(alloc, names, list.names.as_slice()),
        _ => Ok(()),
    }
}

/// Adds the names by which the file itself knows what a list exports.
fn add_inner(alloc: Global, names: &mut HashSet<String>, list: &[Alias]) -> Result<(), Memory>
    ensures { OnOk result (AddsNames names.old names.new (map inner_name list.now)) }
{
    for alias in list {
        add_name(alloc, names, &alias.name.name)?;
    }
    Ok(())
}

/// Adds a name.
fn add_name(alloc: Global, names: &mut HashSet<String>, name: &Name) -> Result<(), Memory>
    ensures { OnOk result (AddsNames names.old names.new (name.now ∷ [])) }
{
    let added = String::from_str(alloc, name.as_str())?;
    names.insert(added)?;
    Ok(())
}

/// The name by which others know what is exported.
fn outer_name(alias: &Alias) -> &Name
    ensures { result.now ≡ outer_name alias.now }
{
    match &alias.alias {
        Some(outer) => &outer.name,
        None => &alias.name.name,
    }
}

/// The name that a declaration declares.
fn declared_name(decl: &Decl) -> &Name
    ensures { result.now ≡ declared_name decl.now }
{
    match decl {
        Decl::Component(component) => &component.name.name,
        Decl::Global(global) => &global.name.name,
        Decl::Struct(declared) => &declared.name.name,
        Decl::Enum(declared) => &declared.name.name,
    }
}
