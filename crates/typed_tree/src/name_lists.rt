ghost use Rattle.std.specs.Prelude.{◌≡◌, [], IfOk, map};
ghost use Rattle.typed_tree.specs.Indexes.{AreNames, id_text, ids_of, member_names, names_of_file};

use crate::{
    ComponentOutline, ElementOutline, FileName, FileOutline, GlobalOutline, Member, Outline,
};
use name_index::NameIndex;
use slint_base::{Memory, Name};
use sqlite_items::Items;
use std::alloc::Global;
use syntax_tree::Ident;
use value_types::EnumNames;

/// The names that files, globals, enums and components declare, found by indexes: each list in the order of the outline.
#[derive(Drop)]
pub(crate) struct NameLists {
    /// Of each file the names of its scope.
    pub files: Items<NameIndex>,
    /// Of each global its members.
    pub globals: Items<NameIndex>,
    /// Of each enum its values.
    pub values: Items<NameIndex>,
    /// Of each component the ids of its elements, empty where there is none.
    pub ids: Items<NameIndex>,
}

/// The names that an outline declares.
pub(crate) fn name_lists(alloc: Global, outline: &Outline) -> Result<NameLists, Memory>
    ensures { IfOk result (λ lists. AreNames outline.now lists) }
{
    let files = file_names(alloc, outline.files.as_slice())?;
    let globals = global_names(alloc, outline.globals.as_slice())?;
    let values = value_names(alloc, outline.enums.as_slice())?;
    let ids = component_ids(alloc, outline.comps.as_slice())?;
    Ok(NameLists {
        files,
        globals,
        values,
        ids,
    })
}

/// Of each file the names of its scope.
fn file_names(alloc: Global, files: &[FileOutline]) -> Result<Items<NameIndex>, Memory>
    ensures { IfOk result (λ lists. lists ≡ map names_of_file files.now) }
{
    let mut lists = Items::new(alloc);
    for file in files {
        lists.push(names_of_file(alloc, file.names.as_slice())?)?;
    }
    Ok(lists)
}

/// The names of a file's scope.
fn names_of_file(alloc: Global, names: &[FileName]) -> Result<NameIndex, Memory>
    ensures { IfOk result (λ list. list ≡ map (λ n. n.name) names.now) }
{
    let mut list = NameIndex::new(alloc);
    for declared in names {
        list.push(&declared.name)?;
    }
    Ok(list)
}

/// Of each global its members.
fn global_names(alloc: Global, globals: &[GlobalOutline]) -> Result<Items<NameIndex>, Memory>
    ensures { IfOk result (λ lists. lists ≡ map (λ g. member_names g.members) globals.now) }
{
    let mut lists = Items::new(alloc);
    for global in globals {
        lists.push(member_names(alloc, global.members.as_slice())?)?;
    }
    Ok(lists)
}

/// The names of members.
pub(crate) fn member_names(alloc: Global, members: &[Member]) -> Result<NameIndex, Memory>
    ensures { IfOk result (λ list. list ≡ member_names members.now) }
{
    let mut list = NameIndex::new(alloc);
    for member in members {
        list.push(&member.name.name)?;
    }
    Ok(list)
}

/// Of each enum its values.
fn value_names(alloc: Global, enums: &[EnumNames]) -> Result<Items<NameIndex>, Memory>
    ensures { IfOk result (λ lists. lists ≡ map (λ names. names.values) enums.now) }
{
    let mut lists = Items::new(alloc);
    for names in enums {
        lists.push(values_of_enum(alloc, names.values.as_slice())?)?;
    }
    Ok(lists)
}

/// The values of an enum.
fn values_of_enum(alloc: Global, values: &[Name]) -> Result<NameIndex, Memory>
    ensures { IfOk result (λ list. list ≡ values.now) }
{
    let mut list = NameIndex::new(alloc);
    for value in values {
        list.push(value)?;
    }
    Ok(list)
}

/// Of each component the ids of its elements.
fn component_ids(alloc: Global, comps: &[ComponentOutline]) -> Result<Items<NameIndex>, Memory>
    ensures { IfOk result (λ lists. lists ≡ map (λ comp. ids_of comp.elements) comps.now) }
{
    let mut lists = Items::new(alloc);
    for comp in comps {
        lists.push(element_ids(alloc, comp.elements.as_slice())?)?;
    }
    Ok(lists)
}

/// The ids of elements.
fn element_ids(alloc: Global, elements: &[ElementOutline]) -> Result<NameIndex, Memory>
    ensures { IfOk result (λ list. list ≡ ids_of elements.now) }
{
    let empty = Name::normal(alloc, "")?;
    let mut list = NameIndex::new(alloc);
    for element in elements {
        list.push(id_or(&element.id, &empty))?;
    }
    Ok(list)
}

/// An id, or an empty name where there is none.
fn id_or<'a>(id: &'a Option<Ident>, empty: &'a Name) -> &'a Name
    requires { empty.now ≡ [] }
    ensures { result.now ≡ id_text id.now }
{
    match id {
        Some(id) => &id.name,
        None => empty,
    }
}
