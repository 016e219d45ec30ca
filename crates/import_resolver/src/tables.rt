ghost use Rattle.std.specs.Prelude.{◌≡◌, ◌-◌, ◌<◌, [], ◌∷◌, ◌++◌, IfOk, OnOk, Some, length, map, slice_get, take};
ghost use Rattle.std.specs.Option.{option_map};
ghost use Rattle.syntax_tree.specs.declared.files.FileItem.{FileItem as ItsItem};
ghost use Rattle.file_exports.specs.Imports.{Import as ItsImport, import_of, taken_over, wanted};
ghost use Rattle.file_exports.specs.Roots.{has_name};
ghost use Rattle.import_paths.specs.Paths.{IsBelow, folder_of};
ghost use Rattle.import_resolver.specs.declared.tables.SeenFile.{SeenFile as ItsFile};
ghost use Rattle.import_resolver.specs.Ends.{IsRefusal};
ghost use Rattle.import_resolver.specs.Loads.{asked_at, asked_first, closed, exports_itself, first_missing, is_done, is_exported, reached_by, reached_named, refused, with_number, with_numbers};
ghost use Rattle.import_resolver.specs.Tables.{AtEach, IsShort, OwnsExports, SiteWithin, asked_of, done_of_file, missing_of, reached_onto, seen_of_file, span_of, state_of};

use crate::LoadEnd;
use import_paths::file_meant;
use slint_base::{Memory, Place, Refusal, Rule, Span, Text};
use source_lines::place_by;
use sqlite_items::Items;
use std::alloc::Global;
use std::collections::HashSet;
use syntax_tree::{Alias, File, FileItem};

/// A file that was read; its number is that of its place among those that were.
#[derive(Drop)]
pub(crate) struct SeenFile {
    pub(crate) name: Text,
    pub(crate) tree: File,
    /// The first byte of each line.
    pub(crate) starts: Vec<u32>,
    /// The names that the file exports by itself.
    pub(crate) own: HashSet<String>,
}

/// A file that is loaded whole, with the numbers of the files whose own exports are its exports: itself, and those that `export *` leads to.
#[derive(Drop)]
pub(crate) struct DoneFile {
    pub(crate) name: Text,
    pub(crate) reached: Vec<u32>,
}

/// What a load has come to.
#[derive(Drop)]
pub(crate) struct Table {
    /// In the order in which they were first met.
    pub(crate) files: Items<SeenFile>,
    /// In the order in which they were done.
    pub(crate) done: Items<DoneFile>,
    /// The names of the files that are being loaded, each imported by the one before it.
    pub(crate) loading: Items<Text>,
}

/// Where a file is asked for.
#[derive(Clone, Copy)]
pub(crate) enum Site {
    /// By the words of the run.
    Main,
    /// By a stretch of the file of that number.
    Import(u32, Span),
}

impl SeenFile {
    /// The refusal of a source for a rule that is broken at a stretch of this file.
    fn refusal(&self, rule: Rule, span: Span) -> Result<Refusal, Memory>
        requires { IsShort self.now }
        ensures { IfOk result (λ refusal. refusal ≡ refused rule (asked_at (seen_of_file self.now) span)) }
    {
        Ok(Refusal {
            rule,
            file: self.name.copy()?,
            from: place_by(self.starts.as_slice(), span.start),
            to: place_by(self.starts.as_slice(), span.end),
        })
    }
}

/// The refusal of a source for a rule that is broken where its main file is asked for.
fn main_refusal(alloc: Global, main: &str, rule: Rule) -> Result<Refusal, Memory>
    ensures { IfOk result (λ refusal. refusal ≡ refused rule (asked_first main.now)) }
{
    let start = Place { line: 1, column: 1 };
    Ok(Refusal {
        rule,
        file: Text::from_str(alloc, main)?,
        from: start,
        to: start,
    })
}

impl Table {
    /// A table of no files.
    pub(crate) fn new(alloc: Global) -> Table
        ensures files { result.files ≡ [] }
        ensures done { result.done ≡ [] }
        ensures loading { result.loading ≡ [] }
    {
        Table {
            files: Items::new(alloc),
            done: Items::new(alloc),
            loading: Items::new(alloc),
        }
    }

    /// Whether the file of that name is loaded whole.
    pub(crate) fn is_done(&self, name: &str) -> bool
        ensures { result ≡ is_done (map done_of_file self.now.done) name.now }
    {
        self.done
            .as_slice()
            .iter()
            .any(|file| file.name.as_str() == name)
    }

    /// Whether the file of that name is being loaded.
    pub(crate) fn is_loading(&self, name: &str) -> bool
        ensures { result ≡ has_name self.now.loading name.now }
    {
        self.loading
            .as_slice()
            .iter()
            .any(|other| other.as_str() == name)
    }

    /// The refusal of a source for a rule that is broken where a file is asked for.
    pub(crate) fn refused(&self, alloc: Global, main: &str, rule: Rule, site: Site) -> LoadEnd
        requires within { SiteWithin self.now site }
        requires short { AtEach self.now.files (λ k file. IsShort file) }
        ensures { IsRefusal (refused rule (asked_of main.now self.now site)) result }
    {
        match self.refusal(alloc, main, rule, site) {
            Ok(refusal) => LoadEnd::Refused(refusal),
            Err(_) => LoadEnd::Memory,
        }
    }

    fn refusal(&self, alloc: Global, main: &str, rule: Rule, site: Site) -> Result<Refusal, Memory>
        requires within { SiteWithin self.now site }
        requires short { AtEach self.now.files (λ k file. IsShort file) }
        ensures { IfOk result (λ refusal. refusal ≡ refused rule (asked_of main.now self.now site)) }
    {
        match site {
            Site::Main => main_refusal(alloc, main, rule),
            Site::Import(importer, span) => {
                self.files.as_slice()[importer as usize].refusal(rule, span)
            }
        }
    }

    /// Begins the load of a file that was read.
    pub(crate) fn begin(&mut self, file: SeenFile) -> Result<(), Memory>
        ensures files { OnOk result (self.new.files ≡ self.old.files ++ file ∷ []) }
        ensures done { OnOk result (self.new.done ≡ self.old.done) }
        ensures loading { OnOk result (self.new.loading ≡ self.old.loading ++ file.name ∷ []) }
    {
        self.loading.push(file.name.copy()?)?;
        self.files.push(file)?;
        Ok(())
    }

    /// Ends the load of the file of that number, which was begun last of those that are being loaded.
    pub(crate) fn close(&mut self, alloc: Global, main: &str, number: u32) -> Result<(), Memory>
        requires within { number < length self.old.files }
        requires below { AtEach self.old.files (λ k file. IsBelow (folder_of main.now) file.name) }
        ensures files { OnOk result (self.new.files ≡ self.old.files) }
        ensures loading { OnOk result (self.new.loading ≡ take (length self.old.loading - 1) self.old.loading) }
        ensures closed { (file : ItsFile) → slice_get self.old.files number ≡ Some file → OnOk result (state_of self.new ≡ closed main.now number (seen_of_file file) (state_of self.old)) }
    {
        let done = self.done_file(alloc, main, number)?;
        self.done.push(done)?;
        self.loading.pop();
        Ok(())
    }

    /// The file of that number as it is once it is loaded whole.
    fn done_file(&self, alloc: Global, main: &str, number: u32) -> Result<DoneFile, Memory>
        requires within { number < length self.now.files }
        requires below { AtEach self.now.files (λ k file. IsBelow (folder_of main.now) file.name) }
        ensures { (file : ItsFile) → slice_get self.now.files number ≡ Some file
            → IfOk result (λ done. done_of_file done ≡ record { name = file.name; reached = reached_by main.now (map done_of_file self.now.done) number (seen_of_file file) }) }
    {
        let file = &self.files.as_slice()[number as usize];
        let reached = self.reached_by(alloc, main, number, file)?;
        let name = file.name.copy()?;
        Ok(DoneFile { name, reached })
    }

    /// The numbers of the files whose own exports are those of a file of that number.
    fn reached_by(
        &self,
        alloc: Global,
        main: &str,
        number: u32,
        file: &SeenFile,
    ) -> Result<Vec<u32>, Memory>
        requires { IsBelow (folder_of main.now) file.now.name }
        ensures { IfOk result (λ reached. reached.items ≡ reached_by main.now (map done_of_file self.now.done) number (seen_of_file file.now)) }
    {
        let mut reached = Vec::new(alloc);
        reached.push(number)?;
        for item in file.tree.items.as_slice() {
            self.reach(alloc, main, file.name.as_str(), item, &mut reached)?;
        }
        Ok(reached)
    }

    /// Adds the numbers that are reached by way of an item of a file, where it takes over the exports of another file.
    fn reach(
        &self,
        alloc: Global,
        main: &str,
        importer: &str,
        item: &FileItem,
        reached: &mut Vec<u32>,
    ) -> Result<(), Memory>
        requires { IsBelow (folder_of main.now) importer.now }
        ensures { OnOk result (reached.new.items ≡ reached_onto main.now (map done_of_file self.now.done) importer.now reached.old.items (taken_over item.now)) }
    {
        let FileItem::ExportAll(all) = item else {
            return Ok(());
        };
        let Some(name) = file_meant(alloc, main, importer, all.path.text.as_str())? else {
            return Ok(());
        };
        add_numbers(reached, self.reached_named(name.as_str()))
    }

    /// The numbers that the file of that name reaches: none where it isn't loaded whole.
    fn reached_named(&self, name: &str) -> &[u32]
        ensures { result.now ≡ reached_named (map done_of_file self.now.done) name.now }
    {
        for file in self.done.as_slice() {
            if file.name.as_str() == name {
                return file.reached.as_slice();
            }
        }
        &[]
    }

    /// The first of the names of an import that the file of this name doesn't export; the import is an item of a file, each by its number.
    pub(crate) fn missing_name(&self, name: &str, importer: u32, item: usize) -> Option<Span>
        requires owned { AtEach self.now.files (λ k file. OwnsExports file) }
        ensures { (file : ItsFile) (its_item : ItsItem) (import : ItsImport) → slice_get self.now.files importer ≡ Some file → slice_get file.tree.items item ≡ Some its_item
            → import_of its_item ≡ Some import → result ≡ option_map span_of (missing_of self.now name.now import) }
    {
        let file = self.files.get(importer as usize)?;
        let item = file.tree.items.get(item)?;
        self.first_missing(self.reached_named(name), names_of_import(item))
    }

    /// The first of these names that none of the files of these numbers exports.
    fn first_missing(&self, reached: &[u32], names: &[Alias]) -> Option<Span>
        requires owned { AtEach self.now.files (λ k file. OwnsExports file) }
        ensures { result ≡ option_map span_of (first_missing (map seen_of_file self.now.files) reached.now (map wanted names.now)) }
    {
        for alias in names {
            if !self.is_exported(reached, alias.name.name.as_str()) {
                return Some(alias.name.span);
            }
        }
        None
    }

    /// Whether one of the files of these numbers exports a name by itself.
    fn is_exported(&self, reached: &[u32], name: &str) -> bool
        requires owned { AtEach self.now.files (λ k file. OwnsExports file) }
        ensures { result ≡ is_exported (map seen_of_file self.now.files) reached.now name.now }
    {
        for number in reached {
            if self.exports_itself(*number, name) {
                return true;
            }
        }
        false
    }

    /// Whether the file of that number exports a name by itself.
    fn exports_itself(&self, number: u32, name: &str) -> bool
        requires owned { AtEach self.now.files (λ k file. OwnsExports file) }
        ensures { result ≡ exports_itself (slice_get (map seen_of_file self.now.files) number) name.now }
    {
        match self.files.get(number as usize) {
            Some(file) => file.own.contains(name),
            None => false,
        }
    }
}

/// Adds numbers, each unless it is there.
fn add_numbers(numbers: &mut Vec<u32>, more: &[u32]) -> Result<(), Memory>
    ensures { OnOk result (numbers.new.items ≡ with_numbers numbers.old.items more.now) }
{
    for number in more {
        add_number(numbers, *number)?;
    }
    Ok(())
}

/// Adds a number, unless it is there.
fn add_number(numbers: &mut Vec<u32>, number: u32) -> Result<(), Memory>
    ensures { OnOk result (numbers.new.items ≡ with_number numbers.old.items number) }
{
    if numbers.as_slice().contains(&number) {
        return Ok(());
    }
    numbers.push(number)?;
    Ok(())
}

/// The names of the import that an item is; none where it is none that is read.
fn names_of_import(item: &FileItem) -> &[Alias]
    ensures { (import : ItsImport) → import_of item.now ≡ Some import → map wanted result.now ≡ import.names }
{
    match item {
        FileItem::Import(import) => match &import.names {
            Some(names) => names.as_slice(),
            None => &[],
        },
        _ => &[],
    }
}
