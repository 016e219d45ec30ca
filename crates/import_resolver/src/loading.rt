ghost use Rattle.std.specs.Prelude.{◌≡◌, ◌<◌, ◌∷◌, [], false, length, slice_get, Some};
ghost use Rattle.syntax_tree.specs.declared.files.FileItem.{FileItem as ItsItem};
ghost use Rattle.io_edge.specs.Counts.{IsQuiet};
ghost use Rattle.file_exports.specs.Imports.{imports_among};
ghost use Rattle.file_exports.specs.Roots.{has_name};
ghost use Rattle.import_paths.specs.Paths.{IsBelow, folder_of};
ghost use Rattle.import_resolver.specs.declared.tables.SeenFile.{SeenFile as ItsFile};
ghost use Rattle.import_resolver.specs.Ends.{LoadCount};
ghost use Rattle.import_resolver.specs.Loaded.{LoadsSome};
ghost use Rattle.import_resolver.specs.Loads.{Every, Whole};
ghost use Rattle.import_resolver.specs.Tables.{Ended, IsRight, SiteWithin, asked_of, seen_of_file};

use crate::LoadEnd;
use crate::loaded::Loaded;
use crate::steps::{import_target, next_file};
use crate::tables::{Site, Table};
use io_edge::Files;
use slint_base::Rule;
use std::alloc::Global;

/// Loads a source: its main file and, depth first and in the order of the text, all files that are imported.
///
/// # Errors
///
/// `Refused` with the first fault that is met: for a file its length, its tokens, its grammar, then its imports; for an import its path, a loop,
/// the number of files, the missing file, that file's own load, then its names. `ReadFault` where a file couldn't be read; `Memory`.
pub fn load<F: Files>(alloc: Global, files: &mut F, name: &str) -> Result<Loaded, LoadEnd>
    ensures loads { LoadsSome (F.held files.old) name.now result }
    ensures counted { LoadCount result (F.faults files.old) (F.faults files.new) (F.misses files.old) (F.misses files.new) }
    ensures same_map { F.held files.new ≡ F.held files.old }
    ensures steady { F.is_steady files.old → IsQuiet (F.is_steady files.new) (F.faults files.old) (F.faults files.new) }
{
    let mut table = Table::new(alloc);
    load_whole(alloc, files, name, &mut table, name, Site::Main)?;
    Ok(Loaded::of_table(alloc, name, table)?)
}

/// Loads a file that is asked for, unless it is loaded already.
#[cycle(loading)]
fn load_whole<F: Files>(
    alloc: Global,
    files: &mut F,
    main: &str,
    table: &mut Table,
    name: &str,
    site: Site,
) -> Result<(), LoadEnd>
    requires right { IsRight main.now table.old }
    requires below { IsBelow (folder_of main.now) name.now }
    requires unopened { has_name table.old.loading name.now ≡ false }
    requires asked { SiteWithin table.old site }
    ensures ended { Ended main.now (F.held files.old) table.old (Whole (asked_of main.now table.old site) name.now) result table.new }
    ensures counted { LoadCount result (F.faults files.old) (F.faults files.new) (F.misses files.old) (F.misses files.new) }
    ensures same_map { F.held files.new ≡ F.held files.old }
    ensures steady { F.is_steady files.old → IsQuiet (F.is_steady files.new) (F.faults files.old) (F.faults files.new) }
{
    if table.is_done(name) {
        return Ok(());
    }
    let file = next_file(alloc, files, main, table, name, site)?;
    let number = table.files.len() as u32;
    table.begin(file)?;
    load_every(alloc, files, main, table, number)?;
    table.close(alloc, main, number)?;
    Ok(())
}

/// How many items the file of that number has.
fn item_count(table: &Table, number: u32) -> usize
    requires { number < length table.now.files }
    ensures { (file : ItsFile) → slice_get table.now.files number ≡ Some file → result ≡ length file.tree.items }
{
    table.files.as_slice()[number as usize].tree.items.len()
}

/// Loads what a file imports, in the order of the text.
#[cycle(loading)]
fn load_every<F: Files>(
    alloc: Global,
    files: &mut F,
    main: &str,
    table: &mut Table,
    importer: u32,
) -> Result<(), LoadEnd>
    requires right { IsRight main.now table.old }
    requires there { importer < length table.old.files }
    ensures ended { (file : ItsFile) → slice_get table.old.files importer ≡ Some file
        → Ended main.now (F.held files.old) table.old (Every (seen_of_file file) (imports_among file.tree.items)) result table.new }
    ensures counted { LoadCount result (F.faults files.old) (F.faults files.new) (F.misses files.old) (F.misses files.new) }
    ensures same_map { F.held files.new ≡ F.held files.old }
    ensures steady { F.is_steady files.old → IsQuiet (F.is_steady files.new) (F.faults files.old) (F.faults files.new) }
{
    let count = item_count(table, importer);
    for item in 0..count {
        load_item(alloc, files, main, table, importer, item)?;
    }
    Ok(())
}

/// Loads the file that an item of a file imports, and looks for the names that it is to export.
#[cycle(loading)]
fn load_item<F: Files>(
    alloc: Global,
    files: &mut F,
    main: &str,
    table: &mut Table,
    importer: u32,
    item: usize,
) -> Result<(), LoadEnd>
    requires right { IsRight main.now table.old }
    requires there { importer < length table.old.files }
    requires its { (file : ItsFile) → slice_get table.old.files importer ≡ Some file → item < length file.tree.items }
    ensures ended { (file : ItsFile) (its_item : ItsItem) → slice_get table.old.files importer ≡ Some file → slice_get file.tree.items item ≡ Some its_item
        → Ended main.now (F.held files.old) table.old (Every (seen_of_file file) (imports_among (its_item ∷ []))) result table.new }
    ensures counted { LoadCount result (F.faults files.old) (F.faults files.new) (F.misses files.old) (F.misses files.new) }
    ensures same_map { F.held files.new ≡ F.held files.old }
    ensures steady { F.is_steady files.old → IsQuiet (F.is_steady files.new) (F.faults files.old) (F.faults files.new) }
{
    let asked = import_target(alloc, main, table, importer, item)?;
    let target = match asked {
        Some(target) => target,
        None => return Ok(()),
    };
    load_whole(alloc, files, main, table, target.name.as_str(), target.site)?;
    match table.missing_name(target.name.as_str(), importer, item) {
        Some(span) => Err(table.refused(
            alloc,
            main,
            Rule::NotExported,
            Site::Import(importer, span),
        )),
        None => Ok(()),
    }
}
