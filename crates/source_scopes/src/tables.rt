ghost use Rattle.std.specs.Prelude.{◌≡◌, ◌++◌, [], ℕ, suc, IfOk, IsTrue, List, length, map, replicate, None, slice_get};
ghost use Rattle.std.specs.Option.{is_some, option_copied};
ghost use Rattle.file_exports.specs.Imports.{declared_name, import_of, outer_name};
ghost use Rattle.import_resolver.specs.Loaded.{rows_of};
ghost use Rattle.source_scopes.specs.declared.meanings.Entry.{Entry as EntryValue};
ghost use Rattle.source_scopes.specs.Entries.{exported_by, exports_among, exports_by, if_marked, imported, imports_behind, own_entry, renamed, scope_among, scope_by, with_entries};
ghost use Rattle.source_scopes.specs.Tables.{AllDone, AreAll, AreStarts, AreTables, AsExported, IsTableOf, entries_in, exports_in, scope_in};

use crate::entries::Entries;
use crate::files::{file_at, file_count, file_order, starts_of};
use crate::numbers::{counted, meaning_of};
use crate::{Counts, Entry};
use import_resolver::{Loaded, SourceFile};
use slint_base::{Memory, Name};
use sqlite_items::{Items, at};
use std::alloc::Global;
use syntax_tree::{Alias, Decl, FileItem};

/// The names of a file: what its scope holds, and what it exports.
#[derive(Drop)]
pub(crate) struct FileTable {
    pub scope: Entries,
    pub exports: Entries,
}

/// Of each file its names. A file's names are made once those of all files that it imports are there.
pub(crate) fn tables_of(alloc: Global, loaded: &Loaded) -> Result<Items<Option<FileTable>>, Memory>
    ensures { IfOk result (AreAll (rows_of loaded.now)) }
{
    let starts = starts_of(alloc, loaded)?;
    let order = file_order(alloc, loaded)?;
    if order.len() > file_count(loaded) {
        return Err(Memory);
    }
    let tables = tables_in_order(alloc, loaded, starts.as_slice(), order.as_slice())?;
    if !all_done(tables.as_slice()) {
        return Err(Memory);
    }
    Ok(tables)
}

/// No file's names.
fn none_yet(alloc: Global, count: usize) -> Result<Items<Option<FileTable>>, Memory>
    ensures { IfOk result (λ tables. tables ≡ replicate count None) }
{
    let mut tables = Items::new(alloc);
    for _ in 0..count {
        tables.push(None)?;
    }
    Ok(tables)
}

/// The names of files, made in this order.
fn tables_in_order(
    alloc: Global,
    loaded: &Loaded,
    starts: &[Counts],
    order: &[usize],
) -> Result<Items<Option<FileTable>>, Memory>
    requires { AreStarts (rows_of loaded.now) (length (rows_of loaded.now)) starts.now }
    ensures { IfOk result (AreTables (rows_of loaded.now) (length order.now)) }
{
    let mut tables = none_yet(alloc, file_count(loaded))?;
    for number in order {
        tables = with_table(alloc, loaded, starts, tables, *number)?;
    }
    Ok(tables)
}

/// Whether the names of all files are there.
fn all_done(tables: &[Option<FileTable>]) -> bool
    ensures { IsTrue result → AllDone tables.now }
{
    for table in tables {
        if table.is_none() {
            return false;
        }
    }
    true
}

/// These names of files, and those of one more.
fn with_table(
    alloc: Global,
    loaded: &Loaded,
    starts: &[Counts],
    mut tables: Items<Option<FileTable>>,
    number: usize,
) -> Result<Items<Option<FileTable>>, Memory>
    requires { AreStarts (rows_of loaded.now) (length (rows_of loaded.now)) starts.now }
    ensures { (done : ℕ) → AreTables (rows_of loaded.now) done tables → IfOk result (AreTables (rows_of loaded.now) (suc done)) }
{
    let Some(counts) = at(starts, number) else {
        return Err(Memory);
    };
    let Some(file) = file_at(loaded, number) else {
        return Err(Memory);
    };
    let table = table_of(alloc, file, *counts, tables.as_slice())?;
    if number >= tables.len() {
        return Err(Memory);
    }
    tables.set(number, Some(table));
    Ok(tables)
}

/// The names of a file, where so much is declared before it.
fn table_of(
    alloc: Global,
    file: &SourceFile,
    counts: Counts,
    done: &[Option<FileTable>],
) -> Result<FileTable, Memory>
    ensures { (exports : ℕ → List EntryValue) → AsExported exports done.now → IfOk result (IsTableOf exports counts file.now.tree.items file.now.imports.items) }
{
    let scope = scope_entries(alloc, file, counts, done)?;
    let exports = export_entries(alloc, file, counts, done, &scope)?;
    Ok(FileTable { scope, exports })
}

/// The names of a file's scope.
fn scope_entries(
    alloc: Global,
    file: &SourceFile,
    counts: Counts,
    done: &[Option<FileTable>],
) -> Result<Entries, Memory>
    ensures { (exports : ℕ → List EntryValue) → AsExported exports done.now
        → IfOk result (λ es. es ≡ scope_among exports counts file.now.tree.items file.now.imports.items) }
{
    let mut entries = Entries::new(alloc);
    let mut before = counts;
    let mut left = file.imports.as_slice();
    for item in file.tree.items.as_slice() {
        entries = with_scope(entries, before, item, done, left)?;
        left = imports_behind(item, left);
        before = counted(before, item)?;
    }
    Ok(entries)
}

/// The names that a file exports, out of its scope.
fn export_entries(
    alloc: Global,
    file: &SourceFile,
    counts: Counts,
    done: &[Option<FileTable>],
    scope: &Entries,
) -> Result<Entries, Memory>
    ensures { (exports : ℕ → List EntryValue) → AsExported exports done.now
        → IfOk result (λ es. es ≡ exports_among exports scope.now [] counts file.now.tree.items file.now.imports.items) }
{
    let mut entries = Entries::new(alloc);
    let mut before = counts;
    let mut left = file.imports.as_slice();
    for item in file.tree.items.as_slice() {
        entries = with_exports(entries, before, item, done, left, scope)?;
        left = imports_behind(item, left);
        before = counted(before, item)?;
    }
    Ok(entries)
}

/// These names, and behind them those that an item puts into the scope.
fn with_scope(
    entries: Entries,
    counts: Counts,
    item: &FileItem,
    done: &[Option<FileTable>],
    left: &[u32],
) -> Result<Entries, Memory>
    ensures { (exports : ℕ → List EntryValue) → AsExported exports done.now
        → IfOk result (λ more. more ≡ entries ++ scope_by exports counts item.now left.now) }
{
    match item {
        FileItem::Decl(_, decl) => {
            let own = own_entry(counts, decl)?;
            entries.with(own)
        }
        FileItem::Import(import) => {
            let from = exports_at(done, left.first())?;
            with_imported(entries, &import.names, from)
        }
        _ => Ok(entries),
    }
}

/// These names, and behind them those that an import takes from another file.
fn with_imported(
    entries: Entries,
    names: &Option<Items<Alias>>,
    from: Option<&Entries>,
) -> Result<Entries, Memory>
    ensures { IfOk result (λ more. more ≡ entries ++ imported (entries_in (option_copied from.entry)) names.now) }
{
    match names {
        Some(names) => with_renamed(entries, names.as_slice(), from),
        None => Ok(entries),
    }
}

/// These names, and behind them those of some entries, under the names that they get.
fn with_renamed(
    entries: Entries,
    names: &[Alias],
    from: Option<&Entries>,
) -> Result<Entries, Memory>
    ensures { IfOk result (λ more. more ≡ entries ++ map (renamed (entries_in (option_copied from.entry))) names.now) }
{
    let mut more = entries;
    for alias in names {
        more = more.with(renamed(from, alias)?)?;
    }
    Ok(more)
}

/// These names, and behind them those that an item exports, unless they are among them.
fn with_exports(
    entries: Entries,
    counts: Counts,
    item: &FileItem,
    done: &[Option<FileTable>],
    left: &[u32],
    scope: &Entries,
) -> Result<Entries, Memory>
    ensures { (exports : ℕ → List EntryValue) → AsExported exports done.now
        → IfOk result (λ more. more ≡ with_entries entries (exports_by exports scope.now counts item.now left.now)) }
{
    match item {
        FileItem::Decl(marked, decl) => with_marked(entries, *marked, counts, decl),
        FileItem::Export(list) => with_listed(entries, list.names.as_slice(), scope),
        FileItem::ExportAll(_) => {
            let from = exports_at(done, left.first())?;
            with_taken(entries, from)
        }
        _ => Ok(entries),
    }
}

/// These names, and that of a declaration that is marked for export.
fn with_marked(
    entries: Entries,
    marked: bool,
    counts: Counts,
    decl: &Decl,
) -> Result<Entries, Memory>
    ensures { IfOk result (λ more. more ≡ with_entries entries (if_marked marked (own_entry counts decl.now))) }
{
    if !marked {
        return Ok(entries);
    }
    let own = own_entry(counts, decl)?;
    entries.with_new(own)
}

/// These names, and those that a list exports out of a scope.
fn with_listed(entries: Entries, names: &[Alias], scope: &Entries) -> Result<Entries, Memory>
    ensures { IfOk result (λ more. more ≡ with_entries entries (map (renamed scope.now) names.now)) }
{
    let mut more = entries;
    for alias in names {
        more = more.with_new(renamed(Some(scope), alias)?)?;
    }
    Ok(more)
}

/// These names, and those that another file exports.
fn with_taken(entries: Entries, from: Option<&Entries>) -> Result<Entries, Memory>
    ensures { IfOk result (λ more. more ≡ with_entries entries (entries_in (option_copied from.entry))) }
{
    match from {
        Some(from) => with_copies(entries, from.as_slice()),
        None => Ok(entries),
    }
}

/// These names, and others unless they are among them.
fn with_copies(entries: Entries, others: &[Entry]) -> Result<Entries, Memory>
    ensures { IfOk result (λ more. more ≡ with_entries entries others.now) }
{
    let mut more = entries;
    for entry in others {
        more = more.with_new(entry.copy()?)?;
    }
    Ok(more)
}

/// What a file exports, by its number; nothing where there is none.
fn exports_at<'a>(
    done: &'a [Option<FileTable>],
    number: Option<&u32>,
) -> Result<Option<&'a Entries>, Memory>
    ensures { (exports : ℕ → List EntryValue) → AsExported exports done.now
        → IfOk result (λ es. entries_in (option_copied es) ≡ exported_by exports (option_copied number.entry)) }
{
    let Some(number) = number else {
        return Ok(None);
    };
    match at(done, *number as usize) {
        Some(Some(table)) => Ok(Some(&table.exports)),
        Some(None) => Err(Memory),
        None => Ok(None),
    }
}

/// The imports behind an item.
fn imports_behind<'a>(item: &FileItem, left: &'a [u32]) -> &'a [u32]
    ensures { result.now ≡ imports_behind item.now left.now }
{
    match left.split_first() {
        Some((_, rest)) if is_read(item) => rest,
        _ => left,
    }
}

/// Whether an item is an import that is read.
fn is_read(item: &FileItem) -> bool
    ensures { result ≡ is_some (import_of item.now) }
{
    match item {
        FileItem::Import(import) => import.names.is_some(),
        FileItem::ExportAll(_) => true,
        _ => false,
    }
}

/// A declaration under its name.
fn own_entry(counts: Counts, decl: &Decl) -> Result<Entry, Memory>
    ensures { IfOk result (λ entry. entry ≡ own_entry counts decl.now) }
{
    let name = declared_name(decl).copy()?;
    Ok(Entry {
        name,
        meaning: Some(meaning_of(counts, decl)),
    })
}

/// A name of some entries, under the name that it gets.
fn renamed(from: Option<&Entries>, alias: &Alias) -> Result<Entry, Memory>
    ensures { IfOk result (λ entry. entry ≡ renamed (entries_in (option_copied from.entry)) alias.now) }
{
    let name = outer_name(alias).copy()?;
    let meaning = match from {
        Some(from) => from.meaning(&alias.name.name),
        None => None,
    };
    Ok(Entry { name, meaning })
}

/// The name that a declaration declares.
fn declared_name(decl: &Decl) -> &Name
    ensures { result.now ≡ declared_name decl.now }
{
    match decl {
        Decl::Component(component) => &component.name.name,
        Decl::Global(global) => &global.name.name,
        Decl::Struct(decl) => &decl.name.name,
        Decl::Enum(decl) => &decl.name.name,
    }
}

/// The name that what is listed gets.
fn outer_name(alias: &Alias) -> &Name
    ensures { result.now ≡ outer_name alias.now }
{
    match &alias.alias {
        Some(alias) => &alias.name,
        None => &alias.name.name,
    }
}

/// The names of a file's scope.
pub(crate) fn scope_in(tables: &[Option<FileTable>], number: usize) -> Option<&Entries>
    ensures { entries_in (option_copied result) ≡ scope_in (slice_get tables.now number) }
{
    match at(tables, number) {
        Some(Some(table)) => Some(&table.scope),
        _ => None,
    }
}

/// What a file exports.
pub(crate) fn exports_in(tables: &[Option<FileTable>], number: usize) -> Option<&Entries>
    ensures { entries_in (option_copied result) ≡ exports_in (slice_get tables.now number) }
{
    match at(tables, number) {
        Some(Some(table)) => Some(&table.exports),
        _ => None,
    }
}
