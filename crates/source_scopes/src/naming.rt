ghost use Rattle.std.specs.Prelude.{◌≡◌, ◌++◌, [], IfOk, OnOk, map, slice_get};
ghost use Rattle.std.specs.List.{filter_map};
ghost use Rattle.std.specs.Option.{option_and_then, option_copied, option_map};
ghost use Rattle.file_exports.specs.Imports.{onto_some};
ghost use Rattle.typed_tree.specs.declared.outlines.Declared.TheVariants as declared_of;
ghost use Rattle.typed_tree.specs.Files.{declared_among};
ghost use Rattle.source_scopes.specs.Names.{declared_as, named_as};
ghost use Rattle.source_scopes.specs.Naming.{declared_in, name_of_file_name};
ghost use Rattle.source_scopes.specs.Structs.{type_at};

use crate::written::copy_of;
use crate::{Entry, Meaning};
use name_index::NameIndex;
use slint_base::{Memory, Name};
use sqlite_items::{Items, at};
use std::alloc::Global;
use std::marker::Model;
use typed_tree::{Declared, FileName};
use value_types::Ty;

/// The names of a file's scope that stand for something, of which one is found by an index. Contracts see them as a list.
#[derive(Drop)]
pub(crate) struct FileNames {
    names: Items<FileName>,
    index: NameIndex,
}

impl Model for FileNames {
    ghost use Rattle.std.specs.Coded.{codes};
    ghost use Rattle.std.specs.Prelude.{◌≡◌, List, map};
    ghost use Rattle.typed_tree.specs.declared.outlines.FileName.{FileName as FileNameValue};
    ghost use Rattle.source_scopes.specs.Naming.{name_of_file_name};
    ghost use Rattle.value_types.specs.contracts.types.Ty as ty_rows;

    ghost Value = { List FileNameValue };

    ghost coded = { Prim.hlevel (codes, ty_rows.the_row.coded) };

    ghost view = { λ ns. ns.names };

    ghost invariant = { λ ns. ns.index ≡ map name_of_file_name ns.names };
}

impl FileNames {
    /// The names of these entries, by a table of the types of structs.
    pub fn new(alloc: Global, entries: &[Entry], types: &[Option<Ty>]) -> Result<FileNames, Memory>
        ensures { IfOk result (λ names. names ≡ filter_map (named_as (type_at types.now)) entries.now) }
    {
        let names = names_of(alloc, entries, types)?;
        let index = index_of(alloc, names.as_slice())?;
        Ok(FileNames { names, index })
    }

    /// What the first of a name stands for.
    pub fn declared(&self, name: &Name) -> Option<&Declared>
        ensures { option_copied result ≡ declared_among name.now self.now }
    {
        match self.index.first(name) {
            Some(place) => declared_at(self.names.as_slice(), place),
            None => None,
        }
    }

    /// All names in their order.
    pub fn as_slice(&self) -> &[FileName]
        ensures { result.now ≡ self.now }
    {
        self.names.as_slice()
    }
}

/// The names of these entries that stand for something.
fn names_of(
    alloc: Global,
    entries: &[Entry],
    types: &[Option<Ty>],
) -> Result<Items<FileName>, Memory>
    ensures { IfOk result (λ names. names ≡ filter_map (named_as (type_at types.now)) entries.now) }
{
    let mut names = Items::new(alloc);
    for entry in entries {
        let name = named_as(alloc, entry, types)?;
        push_name(&mut names, name)?;
    }
    Ok(names)
}

/// Puts a name behind others, where there is one.
fn push_name(names: &mut Items<FileName>, name: Option<FileName>) -> Result<(), Memory>
    ensures { OnOk result (names.new ≡ names.old ++ onto_some name []) }
{
    if let Some(name) = name {
        names.push(name)?;
    }
    Ok(())
}

/// The index of names.
fn index_of(alloc: Global, names: &[FileName]) -> Result<NameIndex, Memory>
    ensures { IfOk result (λ index. index ≡ map name_of_file_name names.now) }
{
    let mut index = NameIndex::new(alloc);
    for name in names {
        index.push(&name.name)?;
    }
    Ok(index)
}

/// What the name of a place stands for.
fn declared_at(names: &[FileName], place: usize) -> Option<&Declared>
    ensures { option_copied result ≡ declared_in (slice_get names.now place) }
{
    match at(names, place) {
        Some(name) => Some(&name.declared),
        None => None,
    }
}

/// The name of an entry, where it stands for something.
fn named_as(alloc: Global, entry: &Entry, types: &[Option<Ty>]) -> Result<Option<FileName>, Memory>
    ensures { IfOk result (λ name. name ≡ named_as (type_at types.now) entry.now) }
{
    match declared_if(alloc, entry.meaning, types)? {
        Some(declared) => {
            let name = entry.name.copy()?;
            Ok(Some(FileName { name, declared }))
        }
        None => Ok(None),
    }
}

/// What a meaning is, where there is one.
pub(crate) fn declared_if(
    alloc: Global,
    meaning: Option<Meaning>,
    types: &[Option<Ty>],
) -> Result<Option<Declared>, Memory>
    ensures { IfOk result (λ made. made ≡ option_and_then (declared_as (type_at types.now)) meaning) }
{
    match meaning {
        Some(meaning) => declared_as(alloc, meaning, types),
        None => Ok(None),
    }
}

/// What a meaning is: a struct is short for its type.
fn declared_as(
    alloc: Global,
    meaning: Meaning,
    types: &[Option<Ty>],
) -> Result<Option<Declared>, Memory>
    ensures { IfOk result (λ made. made ≡ declared_as (type_at types.now) meaning) }
{
    match meaning {
        Meaning::Component(number) => Ok(Some(Declared::Component(number))),
        Meaning::Global(number) => Ok(Some(Declared::Global(number))),
        Meaning::Enum(number) => Ok(Some(Declared::Enum(number))),
        Meaning::Struct(number) => {
            let ty = copy_of(alloc, at(types, number))?;
            Ok(struct_of(ty))
        }
    }
}

/// A struct of that type, where there is one.
fn struct_of(ty: Option<Ty>) -> Option<Declared>
    ensures { result ≡ option_map declared_of.Struct ty }
{
    match ty {
        Some(ty) => Some(Declared::Struct(ty)),
        None => None,
    }
}

/// The same name and what it stands for once more.
pub(crate) fn copy_name(alloc: Global, name: &FileName) -> Result<FileName, Memory>
    ensures { IfOk result (λ same. same ≡ name.now) }
{
    let declared = copy_declared(alloc, &name.declared)?;
    let name = name.name.copy()?;
    Ok(FileName { name, declared })
}

/// The same once more.
fn copy_declared(alloc: Global, declared: &Declared) -> Result<Declared, Memory>
    ensures { IfOk result (λ same. same ≡ declared.now) }
{
    match declared {
        Declared::Component(number) => Ok(Declared::Component(*number)),
        Declared::Global(number) => Ok(Declared::Global(*number)),
        Declared::Enum(number) => Ok(Declared::Enum(*number)),
        Declared::Struct(ty) => {
            let ty = ty.copy(alloc)?;
            Ok(Declared::Struct(ty))
        }
    }
}
