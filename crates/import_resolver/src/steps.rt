ghost use Rattle.std.specs.Prelude.{◌≡◌, ◌<◌, ◌≤◌, IfOk, Some, false, length, map, slice_get};
ghost use Rattle.std.specs.Option.{option_copied, option_map};
ghost use Rattle.slint_base.specs.Refusals.{refusal_of};
ghost use Rattle.syntax_tree.specs.declared.files.FileItem.{FileItem as ItsItem};
ghost use Rattle.io_edge.specs.Counts.{IsQuiet};
ghost use Rattle.io_edge.specs.Files.{most_read};
ghost use Rattle.file_exports.specs.Imports.{Import as ItsImport, import_of};
ghost use Rattle.file_exports.specs.Roots.{has_name};
ghost use Rattle.import_paths.specs.Paths.{IsBelow, folder_of};
ghost use Rattle.import_resolver.specs.declared.tables.SeenFile.{SeenFile as ItsFile};
ghost use Rattle.import_resolver.specs.Ends.{IsRefusal, LoadCount};
ghost use Rattle.import_resolver.specs.Loads.{is_done};
ghost use Rattle.import_resolver.specs.Tables.{AsksAs, AsksFor, AtEach, IsSeenAs, IsShort, NextAs, ReadsFile, SiteWithin, asked_of, done_of_file, names_of, path_of};

use crate::LoadEnd;
use crate::tables::{SeenFile, Site, Table};
use file_exports::exported_names;
use import_paths::file_meant;
use io_edge::{Files, FilesEnd, Found};
use slint_base::{End, Fault, Memory, Refusal, Rule, Text};
use source_lines::line_starts;
use source_reader::{fronts_read, read_tree, reading_rules};
use std::alloc::Global;
use syntax_tree::{File, FileItem, Quoted};

/// The most files of a source.
const MOST_FILES: usize = 64;

/// A file that is to be loaded, and where it is asked for.
#[derive(Drop)]
pub(crate) struct ToLoad {
    pub(crate) name: String,
    pub(crate) site: Site,
}

/// What an item of a file asks for: nothing where it is no import that is read.
///
/// # Errors
///
/// `Refused` where the path leads outside or to a file that is being loaded; `Memory`.
pub(crate) fn import_target(
    alloc: Global,
    main: &str,
    table: &Table,
    importer: u32,
    item: usize,
) -> Result<Option<ToLoad>, LoadEnd>
    requires below { AtEach table.now.files (λ k file. IsBelow (folder_of main.now) file.name) }
    requires short { AtEach table.now.files (λ k file. IsShort file) }
    requires there { importer < length table.now.files }
    ensures { (file : ItsFile) (its_item : ItsItem) → slice_get table.now.files importer ≡ Some file → slice_get file.tree.items item ≡ Some its_item
        → AsksAs main.now table.now importer file (import_of its_item) result }
{
    let file = &table.files.as_slice()[importer as usize];
    let Some(item) = file.tree.items.get(item) else {
        return Ok(None);
    };
    match path_of(item) {
        Some(path) => path_target(alloc, main, table, importer, path),
        None => Ok(None),
    }
}

/// The path of the import that an item is, where it is one that is read.
pub(crate) fn path_of(item: &FileItem) -> Option<&Quoted>
    ensures { option_copied result ≡ option_map path_of (import_of item.now) }
{
    match item {
        FileItem::Import(import) => match &import.names {
            Some(_) => Some(&import.path),
            None => None,
        },
        FileItem::ExportAll(all) => Some(&all.path),
        _ => None,
    }
}

/// What a path in a file asks for.
fn path_target(
    alloc: Global,
    main: &str,
    table: &Table,
    importer: u32,
    path: &Quoted,
) -> Result<Option<ToLoad>, LoadEnd>
    requires below { AtEach table.now.files (λ k file. IsBelow (folder_of main.now) file.name) }
    requires short { AtEach table.now.files (λ k file. IsShort file) }
    requires there { importer < length table.now.files }
    ensures { (file : ItsFile) (import : ItsImport) → slice_get table.now.files importer ≡ Some file → import.path ≡ path.now → AsksFor main.now table.now importer file import result }
{
    let site = Site::Import(importer, path.span);
    let file = &table.files.as_slice()[importer as usize];
    let Some(name) = file_meant(alloc, main, file.name.as_str(), path.text.as_str())? else {
        return Err(table.refused(alloc, main, Rule::PathOutside, site));
    };
    if table.is_loading(name.as_str()) {
        return Err(table.refused(alloc, main, Rule::ImportLoop, site));
    }
    Ok(Some(ToLoad { name, site }))
}

/// The file that is asked for and isn't in the table yet.
///
/// # Errors
///
/// `Refused` where it is one too many, missing, or broken itself; `ReadFault` where it couldn't be read; `Memory`.
pub(crate) fn next_file<F: Files>(
    alloc: Global,
    files: &mut F,
    main: &str,
    table: &Table,
    name: &str,
    site: Site,
) -> Result<SeenFile, LoadEnd>
    requires within { SiteWithin table.now site }
    requires short { AtEach table.now.files (λ k file. IsShort file) }
    requires fresh { is_done (map done_of_file table.now.done) name.now ≡ false }
    requires new { has_name (names_of table.now.files) name.now ≡ false }
    requires few { length table.now.files ≤ 64 }
    ensures next { NextAs main.now (F.held files.old) table.now (asked_of main.now table.now site) name.now result }
    ensures counted { LoadCount result (F.faults files.old) (F.faults files.new) (F.misses files.old) (F.misses files.new) }
    ensures same_map { F.held files.new ≡ F.held files.old }
    ensures steady { F.is_steady files.old → IsQuiet (F.is_steady files.new) (F.faults files.old) (F.faults files.new) }
{
    fronts_read();
    reading_rules();
    if table.files.len() >= MOST_FILES {
        return Err(table.refused(alloc, main, Rule::TooManyFiles, site));
    }
    let number = table.files.len() as u32;
    match files.read(alloc, name) {
        Ok(Found::Bytes(bytes)) => read_file(alloc, number, name, bytes.as_slice()),
        Ok(Found::Missing) => Err(table.refused(alloc, main, Rule::FileMissing, site)),
        Err(FilesEnd::Failed) => Err(LoadEnd::ReadFault),
        Err(FilesEnd::Memory) => Err(LoadEnd::Memory),
    }
}

/// The file of that number and name, of these bytes.
fn read_file(alloc: Global, number: u32, name: &str, bytes: &[u8]) -> Result<SeenFile, LoadEnd>
    requires { length bytes.now ≤ most_read }
    ensures { ReadsFile number name.now bytes.now result }
{
    match read_tree(alloc, number, bytes) {
        Ok(tree) => Ok(seen_file(alloc, name, bytes, tree)?),
        Err(End::Fault(fault)) => Err(fault_end(alloc, name, bytes, fault)),
        Err(End::Memory) => Err(LoadEnd::Memory),
    }
}

/// A file of that name, of these bytes and their tree.
fn seen_file(alloc: Global, name: &str, bytes: &[u8], tree: File) -> Result<SeenFile, Memory>
    requires { length bytes.now ≤ most_read }
    ensures { IfOk result (IsSeenAs name.now bytes.now tree) }
{
    let name = Text::from_str(alloc, name)?;
    let starts = line_starts(alloc, bytes)?;
    let own = exported_names(alloc, tree.items.as_slice())?;
    Ok(SeenFile {
        name,
        tree,
        starts,
        own,
    })
}

/// The end of a load for a fault of a file of that name and these bytes.
fn fault_end(alloc: Global, name: &str, bytes: &[u8], fault: Fault) -> LoadEnd
    requires { length bytes.now ≤ most_read }
    ensures { IsRefusal (refusal_of name.now bytes.now fault) result }
{
    match Refusal::of_fault(alloc, name, bytes, fault) {
        Ok(refusal) => LoadEnd::Refused(refusal),
        Err(Memory) => LoadEnd::Memory,
    }
}
