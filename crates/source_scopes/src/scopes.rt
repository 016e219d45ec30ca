ghost use Rattle.std.specs.Prelude.{◌≡◌, IfOk, length, map, take};
ghost use Rattle.std.specs.Option.{option_copied, option_map};
ghost use Rattle.element_tables.specs.Members.{elements};
ghost use Rattle.element_tables.specs.Rows.{named};
ghost use Rattle.import_resolver.specs.Loaded.{rows_of};
ghost use Rattle.typed_tree.specs.declared.outlines.ElementType.TheVariants as element_of;
ghost use Rattle.source_scopes.specs.Declarations.{components_of, enums_of, globals_of, structs_of};
ghost use Rattle.source_scopes.specs.Entries.{entry_of, exports_of, meaning_in, meaning_of_entry};
ghost use Rattle.source_scopes.specs.Indexed.{AreFileNames};
ghost use Rattle.source_scopes.specs.Names.{declared_named, element_meant, element_named, exported_named, file_names, is_type_name, means_type, root_among, root_component};
ghost use Rattle.source_scopes.specs.Shown.{shown_component, shown_global, shown_struct};
ghost use Rattle.source_scopes.specs.Structs.{AreStructTypes};
ghost use Rattle.source_scopes.specs.Tables.{AreAll, entries_in};
ghost use Rattle.source_scopes.specs.Types.{type_written};

use crate::declarations::{
    FileComponent, FileGlobal, FileStruct, components_of, enums_of, globals_of, structs_of,
};
use crate::entries::Entries;
use crate::files::{file_at, file_count};
use crate::naming::{FileNames, copy_name, declared_if};
use crate::numbers::{counted_all, no_declarations};
use crate::structs::struct_types;
use crate::tables::{FileTable, exports_in, scope_in, tables_of};
use crate::written::{find_in, written};
use crate::{Entry, Meaning};
use element_tables::{element_named, type_named};
use file_exports::root_place;
use import_resolver::Loaded;
use slint_base::{Memory, Name};
use sqlite_items::{Items, at};
use std::alloc::Global;
use std::marker::Model;
use syntax_tree::{FileItem, TypeName};
use typed_tree::{Declared, ElementType, FileName};
use value_types::{Enums, Ty};

/// The files of a source with what their names stand for. Contracts see the files alone.
#[derive(Drop)]
pub struct Scopes<'a> {
    loaded: &'a Loaded,
    tables: Items<Option<FileTable>>,
    types: Items<Option<Ty>>,
    names: Items<FileNames>,
}

impl<'a> Model for Scopes<'a> {
    ghost use Rattle.std.specs.Coded.{codes};
    ghost use Rattle.std.specs.Prelude.{List};
    ghost use Rattle.import_resolver.specs.Loaded.{FileRow, rows_of};
    ghost use Rattle.source_scopes.specs.Indexed.{IsIndexed};
    ghost use Rattle.syntax_tree.specs.contracts.items.Item as item_rows;
    ghost use Rattle.syntax_tree.specs.contracts.statements.Stmt as stmt_rows;
    ghost use Rattle.syntax_tree.specs.contracts.expressions.Expr as expr_rows;
    ghost use Rattle.syntax_tree.specs.contracts.types.TypeName as type_rows;

    ghost Value = { List FileRow };

    ghost coded = { Prim.hlevel (codes, item_rows.the_row.coded, stmt_rows.the_row.coded, expr_rows.the_row.coded, type_rows.the_row.coded) };

    ghost view = { λ s. rows_of s.loaded.now };

    ghost invariant = { λ s. IsIndexed (rows_of s.loaded.now) s.tables s.types s.names };
}

impl<'a> Scopes<'a> {
    /// What the names of a source's files stand for.
    pub fn new(alloc: Global, loaded: &'a Loaded) -> Result<Scopes<'a>, Memory>
        ensures { IfOk result (λ scopes. scopes ≡ rows_of loaded.now) }
    {
        let tables = tables_of(alloc, loaded)?;
        let types = struct_types(alloc, loaded, tables.as_slice())?;
        let names = names_of_files(alloc, loaded, tables.as_slice(), types.as_slice())?;
        Ok(Scopes {
            loaded,
            tables,
            types,
            names,
        })
    }

    /// The files.
    pub fn loaded(&self) -> &'a Loaded
        ensures { rows_of result.now ≡ self.now }
    {
        self.loaded
    }

    /// How many files there are.
    pub fn file_count(&self) -> usize
        ensures { result ≡ length self.now }
    {
        file_count(self.loaded)
    }

    /// What a name of a file's scope stands for, where it stands for something: the first where there are two of that name.
    pub fn declared(&self, file: usize, name: &Name) -> Option<&Declared>
        ensures { option_copied result ≡ declared_named self.now file name.now }
    {
        match at(self.names.as_slice(), file) {
            Some(names) => names.declared(name),
            None => None,
        }
    }

    /// The entry of a name in a file's scope: the first where there are two of that name.
    pub fn entry(&self, file: usize, name: &Name) -> Option<&Entry>
        ensures { option_copied result ≡ entry_of self.now file name.now }
    {
        find_in(scope_in(self.tables.as_slice(), file), name)
    }

    /// What a name of a file's scope stands for, by the number of its declaration. `None` where the scope has no such name, `Some(None)`
    /// where it is imported and stands for nothing.
    pub fn meaning(&self, file: usize, name: &Name) -> Option<Option<Meaning>>
        ensures { result ≡ option_map meaning_of_entry (entry_of self.now file name.now) }
    {
        match self.entry(file, name) {
            Some(entry) => Some(entry.meaning),
            None => None,
        }
    }

    /// What a file exports: the names that it marks or lists for export or takes over from other files, each once, in the order of the text.
    pub fn exports(&self, file: usize) -> &[Entry]
        ensures { result.now ≡ exports_of self.now file }
    {
        match exports_in(self.tables.as_slice(), file) {
            Some(entries) => entries.as_slice(),
            None => &[],
        }
    }

    /// What another file gets that imports a name from this one.
    pub fn exported(
        &self,
        alloc: Global,
        file: usize,
        name: &Name,
    ) -> Result<Option<Declared>, Memory>
        ensures { IfOk result (λ declared. declared ≡ exported_named self.now file name.now) }
    {
        declared_if(alloc, self.export(file, name), self.types.as_slice())
    }

    /// The element that a name stands for in a file: a component of its scope, or behind the scope a built-in element.
    pub fn element(&self, file: usize, name: &Name) -> Option<ElementType>
        ensures { result ≡ element_named self.now file name.now }
    {
        match self.entry(file, name) {
            Some(entry) => element_meant(entry.meaning),
            None => built_in_element(name),
        }
    }

    /// Whether a name stands for a type in a file: for an enum or a struct of its scope, or behind the scope for a built-in type.
    pub fn is_type_name(&self, file: usize, name: &Name) -> bool
        ensures { result ≡ is_type_name self.now file name.now }
    {
        match self.entry(file, name) {
            Some(entry) => means_type(entry.meaning),
            None => type_named(name.as_str()).is_some(),
        }
    }

    /// The type that is written in a file. `None` where a name in it is no type, or leads into a circle of structs.
    pub fn written_type(
        &self,
        alloc: Global,
        file: usize,
        ty: &TypeName,
    ) -> Result<Option<Ty>, Memory>
        ensures { IfOk result (λ made. made ≡ type_written self.now file ty.now) }
    {
        let scope = scope_in(self.tables.as_slice(), file);
        let made = written(alloc, scope, self.types.as_slice(), ty)?;
        Ok(made)
    }

    /// The names of a file's scope that stand for something, in the order of the text.
    pub fn file_names(&self, alloc: Global, file: usize) -> Result<Items<FileName>, Memory>
        ensures { IfOk result (λ names. names ≡ file_names self.now file) }
    {
        match at(self.names.as_slice(), file) {
            Some(names) => copy_names(alloc, names.as_slice()),
            None => Ok(Items::new(alloc)),
        }
    }

    /// The enums by their numbers, the built-in ones first.
    pub fn enums(&self, alloc: Global) -> Result<Enums, Memory>
        ensures { IfOk result (λ enums. enums ≡ enums_of self.now) }
    {
        enums_of(alloc, self.loaded)
    }

    /// The components by their numbers.
    pub fn components(&self, alloc: Global) -> Result<Items<FileComponent<'a>>, Memory>
        ensures { IfOk result (λ made. map shown_component made ≡ components_of self.now) }
    {
        components_of(alloc, self.loaded)
    }

    /// The globals by their numbers.
    pub fn globals(&self, alloc: Global) -> Result<Items<FileGlobal<'a>>, Memory>
        ensures { IfOk result (λ made. map shown_global made ≡ globals_of self.now) }
    {
        globals_of(alloc, self.loaded)
    }

    /// The structs by their numbers.
    pub fn structs(&self, alloc: Global) -> Result<Items<FileStruct<'a>>, Memory>
        ensures { IfOk result (λ made. map shown_struct made ≡ structs_of self.now) }
    {
        structs_of(alloc, self.loaded)
    }

    /// The number of the root component: of the name that is asked for, or the last one of the main file that is exported there, or its last one.
    pub fn root(&self, alloc: Global, named: Option<&Name>) -> Result<Option<usize>, Memory>
        ensures { IfOk result (λ root. root ≡ root_component self.now (option_copied named.entry)) }
    {
        match file_at(self.loaded, 0) {
            Some(file) => root_among(alloc, file.tree.items.as_slice(), named),
            None => Ok(None),
        }
    }

    /// What a name stands for that a file exports.
    fn export(&self, file: usize, name: &Name) -> Option<Meaning>
        ensures { result ≡ meaning_in (exports_of self.now file) name.now }
    {
        match exports_in(self.tables.as_slice(), file) {
            Some(entries) => entries.meaning(name),
            None => None,
        }
    }
}

/// Of each file the names of its scope.
fn names_of_files(
    alloc: Global,
    loaded: &Loaded,
    tables: &[Option<FileTable>],
    types: &[Option<Ty>],
) -> Result<Items<FileNames>, Memory>
    requires tables { AreAll (rows_of loaded.now) tables.now }
    requires types { AreStructTypes (rows_of loaded.now) types.now }
    ensures { IfOk result (AreFileNames (rows_of loaded.now)) }
{
    let mut names = Items::new(alloc);
    for file in 0..file_count(loaded) {
        let entries = slice_in(scope_in(tables, file));
        names.push(FileNames::new(alloc, entries, types)?)?;
    }
    Ok(names)
}

/// All entries, where they are there.
fn slice_in(entries: Option<&Entries>) -> &[Entry]
    ensures { result.now ≡ entries_in (option_copied entries.entry) }
{
    match entries {
        Some(entries) => entries.as_slice(),
        None => &[],
    }
}

/// The same names once more.
fn copy_names(alloc: Global, names: &[FileName]) -> Result<Items<FileName>, Memory>
    ensures { IfOk result (λ same. same ≡ names.now) }
{
    let mut same = Items::new(alloc);
    for name in names {
        same.push(copy_name(alloc, name)?)?;
    }
    Ok(same)
}

/// The element that a meaning is.
fn element_meant(meaning: Option<Meaning>) -> Option<ElementType>
    ensures { result ≡ element_meant meaning }
{
    match meaning {
        Some(Meaning::Component(number)) => Some(ElementType::Component(number)),
        _ => None,
    }
}

/// The built-in element of a name.
fn built_in_element(name: &Name) -> Option<ElementType>
    ensures { result ≡ option_map element_of.BuiltIn (named name.now elements) }
{
    match element_named(name.as_str()) {
        Some(kind) => Some(ElementType::BuiltIn(kind)),
        None => None,
    }
}

/// Whether a meaning is a type.
fn means_type(meaning: Option<Meaning>) -> bool
    ensures { result ≡ means_type meaning }
{
    matches!(meaning, Some(Meaning::Enum(_) | Meaning::Struct(_)))
}

/// The number of the root component among the items of the main file.
fn root_among(
    alloc: Global,
    items: &[FileItem],
    named: Option<&Name>,
) -> Result<Option<usize>, Memory>
    ensures { IfOk result (λ root. root ≡ root_among items.now (option_copied named.entry)) }
{
    match root_place(alloc, items, named)? {
        Some(place) => {
            let before = counted_all(no_declarations(), front(items, place))?;
            Ok(Some(before.comps))
        }
        None => Ok(None),
    }
}

/// The first of some items.
fn front(items: &[FileItem], count: usize) -> &[FileItem]
    ensures { result.now ≡ take count items.now }
{
    if count <= items.len() {
        &items[..count]
    } else {
        items
    }
}
