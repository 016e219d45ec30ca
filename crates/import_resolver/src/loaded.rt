ghost use Rattle.std.specs.Prelude.{◌≡◌, ◌≤◌, [], ◌∷◌, ◌++◌, IfOk, MatchOption, OnOk, Some, false, length, map, take, true};
ghost use Rattle.std.specs.List.{position};
ghost use Rattle.std.specs.Str.{bytes_eq};
ghost use Rattle.file_exports.specs.Imports.{imports_among, onto_some};
ghost use Rattle.file_exports.specs.Roots.{has_name};
ghost use Rattle.import_paths.specs.Paths.{IsBelow, folder_of};
ghost use Rattle.import_resolver.specs.Loaded.{number_meant, rows_of, rows_seen};
ghost use Rattle.import_resolver.specs.Numbers.{AllMeant, AreNumbers, IsMeant, row_name, row_with};
ghost use Rattle.import_resolver.specs.Tables.{AtEach, names_of, seen_of_file};

use crate::steps::path_of;
use crate::tables::{SeenFile, Table};
use import_paths::file_meant;
use indexmap::IndexMap;
use slint_base::{Memory, Text};
use sqlite_items::Items;
use std::alloc::Global;
use syntax_tree::{File, FileItem};

/// A file of a source.
#[derive(Drop)]
pub struct SourceFile {
    pub tree: File,
    /// The first byte of each line.
    pub line_starts: Vec<u32>,
    /// The number of the file that each import means, in the order of the text; an import without braces isn't read and isn't here.
    pub imports: Vec<u32>,
}

/// The files of a source under their names, in the order in which they were first met; a file's number is its place. The first is the main file.
#[derive(Drop)]
pub struct Loaded {
    pub files: IndexMap<String, SourceFile>,
}

impl Loaded {
    /// The files of a table whose load went to its end.
    pub(crate) fn of_table(alloc: Global, main: &str, table: Table) -> Result<Loaded, Memory>
        requires few { length table.files ≤ 64 }
        requires below { AtEach table.files (λ k file. IsBelow (folder_of main.now) file.name) }
        requires once { AtEach table.files (λ k file. has_name (names_of (take k table.files)) file.name ≡ false) }
        requires meant { AtEach table.files (λ k file. AllMeant main.now (names_of table.files) file.name (imports_among file.tree.items)) }
        ensures { IfOk result (λ loaded. rows_of loaded ≡ rows_seen main.now (map seen_of_file table.files)) }
    {
        let Table { mut files, .. } = table;
        let listed = file_names(alloc, files.as_slice())?;
        let names = listed.as_slice();
        let mut loaded = Loaded {
            files: IndexMap::new(alloc),
        };
        while let Some(file) = take_first(&mut files) {
            let imports = import_numbers(alloc, main, names, &file)?;
            loaded.add(alloc, file, imports)?;
        }
        Ok(loaded)
    }

    /// Puts a file behind those that are there, under its name, which none of them has.
    fn add(&mut self, alloc: Global, file: SeenFile, imports: Vec<u32>) -> Result<(), Memory>
        requires { has_name (map row_name (rows_of self.old)) file.name ≡ false }
        ensures { OnOk result (rows_of self.new ≡ rows_of self.old ++ row_with file imports.items ∷ []) }
    {
        let name = String::from_str(alloc, file.name.as_str())?;
        let SeenFile { tree, starts, .. } = file;
        let source = SourceFile {
            tree,
            line_starts: starts,
            imports,
        };
        self.files.insert(name, source)?;
        Ok(())
    }
}

/// The names of files.
fn file_names(alloc: Global, files: &[SeenFile]) -> Result<Items<Text>, Memory>
    ensures { IfOk result (λ names. names ≡ names_of files.now) }
{
    let mut names = Items::new(alloc);
    for file in files {
        names.push(file.name.copy()?)?;
    }
    Ok(names)
}

/// Takes the first file away, where there is one.
fn take_first(files: &mut Items<SeenFile>) -> Option<SeenFile>
    ensures { MatchOption result ((files.old ≡ []) × (files.new ≡ [])) (λ first. files.old ≡ first ∷ files.new) }
{
    if files.is_empty() {
        return None;
    }
    Some(files.remove(0))
}

/// The numbers of the files that the imports of a file mean, in the order of the text; a file's number is the place of its name.
fn import_numbers(
    alloc: Global,
    main: &str,
    names: &[Text],
    file: &SeenFile,
) -> Result<Vec<u32>, Memory>
    requires few { length names.now ≤ 64 }
    requires below { IsBelow (folder_of main.now) file.now.name }
    requires meant { AllMeant main.now names.now file.now.name (imports_among file.now.tree.items) }
    ensures { IfOk result (λ numbers. AreNumbers main.now names.now file.now.name (imports_among file.now.tree.items) numbers.items) }
{
    let mut numbers = Vec::new(alloc);
    for item in file.tree.items.as_slice() {
        let number = item_number(alloc, main, names, file.name.as_str(), item)?;
        push_number(&mut numbers, number)?;
    }
    Ok(numbers)
}

/// The number of the file that an item of a file imports, where it is an import that is read.
fn item_number(
    alloc: Global,
    main: &str,
    names: &[Text],
    importer: &str,
    item: &FileItem,
) -> Result<Option<u32>, Memory>
    requires few { length names.now ≤ 64 }
    requires below { IsBelow (folder_of main.now) importer.now }
    requires meant { AllMeant main.now names.now importer.now (imports_among (item.now ∷ [])) }
    ensures { IfOk result (λ number. AreNumbers main.now names.now importer.now (imports_among (item.now ∷ [])) (onto_some number [])) }
{
    match path_of(item) {
        Some(path) => {
            let number = number_meant(alloc, main, names, importer, path.text.as_str())?;
            Ok(Some(number))
        }
        None => Ok(None),
    }
}

/// Puts a number behind others, where there is one.
fn push_number(numbers: &mut Vec<u32>, number: Option<u32>) -> Result<(), Memory>
    ensures { OnOk result (numbers.new.items ≡ numbers.old.items ++ onto_some number []) }
{
    if let Some(number) = number {
        numbers.push(number)?;
    }
    Ok(())
}

/// The number of the file that a path in a file means.
fn number_meant(
    alloc: Global,
    main: &str,
    names: &[Text],
    importer: &str,
    path: &str,
) -> Result<u32, Memory>
    requires few { length names.now ≤ 64 }
    requires below { IsBelow (folder_of main.now) importer.now }
    requires meant { IsMeant main.now names.now importer.now path.now }
    ensures { IfOk result (λ number. number ≡ number_meant main.now names.now importer.now path.now) }
{
    match file_meant(alloc, main, importer, path)? {
        Some(name) => Ok(number_named(names, name.as_str())),
        None => unreachable!(),
    }
}

/// The place of a name among those that there are.
fn number_named(names: &[Text], name: &str) -> u32
    requires few { length names.now ≤ 64 }
    requires there { has_name names.now name.now ≡ true }
    ensures { position (λ other. bytes_eq other name.now) names.now ≡ Some result }
{
    match place_named(names, name) {
        Some(place) => place as u32,
        None => unreachable!(),
    }
}

/// The first place of a name.
fn place_named(names: &[Text], name: &str) -> Option<usize>
    ensures { result ≡ position (λ other. bytes_eq other name.now) names.now }
{
    names.iter().position(|other| other.as_str() == name)
}
