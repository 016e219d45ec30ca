ghost use Rattle.std.specs.Prelude.{◌≡◌, ◌∷◌, ◌++◌, [], IfOk, OnOk, is_some, map, slice_get};
ghost use Rattle.std.specs.List.{flat_map};
ghost use Rattle.file_exports.specs.Imports.{import_of};
ghost use Rattle.fault_order.specs.Order.{first_of};
ghost use Rattle.source_scopes.specs.Entries.{exported_by, exports_of, imports_behind};
ghost use Rattle.declaration_rules.specs.Exports.{alone, alone_given, alone_if, clashes, groups_among, groups_by, taken_at};
ghost use Rattle.declaration_rules.specs.Repeats.{name_of, repeat_in};

use crate::repeats::repeat_in;
use crate::words::{Word, declared_word, given, push_word};
use fault_order::earlier;
use name_index::NameIndex;
use slint_base::{Fault, Memory, Span};
use source_scopes::{Entry, Scopes};
use sqlite_items::Items;
use std::alloc::Global;
use syntax_tree::{Alias, ExportAll, FileItem, Ident};

/// Names that a file exports at once: one that is marked or listed, or all that are taken over from another file.
type Group<'a> = Items<Word<'a>>;

/// Adds a name that is exported by itself.
fn push_alone<'a>(alloc: Global, out: &mut Items<Group<'a>>, ident: &'a Ident) -> Result<(), Memory>
    ensures { OnOk result (out.new ≡ out.old ++ alone ident.now ∷ []) }
{
    let mut group = Items::new(alloc);
    push_word(&mut group, ident)?;
    out.push(group)?;
    Ok(())
}

/// Adds a name, where it is marked for export.
fn push_marked<'a>(
    alloc: Global,
    out: &mut Items<Group<'a>>,
    is_marked: bool,
    ident: &'a Ident,
) -> Result<(), Memory>
    ensures { OnOk result (out.new ≡ out.old ++ alone_if is_marked ident.now) }
{
    if is_marked {
        return push_alone(alloc, out, ident);
    }
    Ok(())
}

/// Adds the names that a list exports.
fn push_list<'a>(
    alloc: Global,
    out: &mut Items<Group<'a>>,
    names: &'a [Alias],
) -> Result<(), Memory>
    ensures { OnOk result (out.new ≡ out.old ++ map alone_given names.now) }
{
    for alias in names {
        push_alone(alloc, out, given(alias))?;
    }
    Ok(())
}

/// The names of another file's exports, at the stretch where they are taken over.
fn taken_over<'a>(alloc: Global, span: Span, exports: &'a [Entry]) -> Result<Group<'a>, Memory>
    ensures { IfOk result (λ group. group ≡ map (taken_at span) exports.now) }
{
    let mut group = Items::new(alloc);
    for entry in exports {
        group.push(Word::new(&entry.name, span))?;
    }
    Ok(group)
}

/// What the file exports that an import means.
fn exports_meant<'a>(scopes: &'a Scopes<'_>, number: Option<u32>) -> &'a [Entry]
    ensures { result.now ≡ exported_by (exports_of scopes.now) number }
{
    match number {
        Some(number) => scopes.exports(number as usize),
        None => &[],
    }
}

/// Adds the names that are taken over from another file, where the first of these numbers is that file's.
fn push_taken_over<'a>(
    alloc: Global,
    scopes: &'a Scopes<'_>,
    out: &mut Items<Group<'a>>,
    all: &ExportAll,
    numbers: &[u32],
) -> Result<(), Memory>
    ensures { OnOk result (out.new ≡ out.old ++ map (taken_at all.now.path.span) (exported_by (exports_of scopes.now) (slice_get numbers.now 0)) ∷ []) }
{
    let exports = exports_meant(scopes, numbers.first().copied());
    let group = taken_over(alloc, all.path.span, exports)?;
    out.push(group)?;
    Ok(())
}

/// Adds what an item exports, where these are the files that are imported from it on.
fn push_groups<'a>(
    alloc: Global,
    scopes: &'a Scopes<'_>,
    out: &mut Items<Group<'a>>,
    item: &'a FileItem,
    numbers: &[u32],
) -> Result<(), Memory>
    ensures { OnOk result (out.new ≡ out.old ++ groups_by (exports_of scopes.now) item.now numbers.now) }
{
    match item {
        FileItem::Decl(is_marked, decl) => {
            push_marked(alloc, out, *is_marked, declared_word(decl))
        }
        FileItem::Export(list) => push_list(alloc, out, list.names.as_slice()),
        FileItem::ExportAll(all) => push_taken_over(alloc, scopes, out, all, numbers),
        FileItem::Import(_) => Ok(()),
    }
}

/// Whether an item is an import that is read.
fn is_import(item: &FileItem) -> bool
    ensures { result ≡ is_some (import_of item.now) }
{
    match item {
        FileItem::Import(import) => import.names.is_some(),
        FileItem::ExportAll(_) => true,
        FileItem::Export(_) => false,
        FileItem::Decl(_, _) => false,
    }
}

/// The files that are imported behind an item.
fn imports_behind<'a>(item: &FileItem, numbers: &'a [u32]) -> &'a [u32]
    ensures { result.now ≡ imports_behind item.now numbers.now }
{
    if !is_import(item) {
        return numbers;
    }
    match numbers.split_first() {
        Some((_, rest)) => rest,
        None => numbers,
    }
}

/// All that a file exports, in the order of the text.
fn groups<'a>(
    alloc: Global,
    scopes: &'a Scopes<'_>,
    items: &'a [FileItem],
    imports: &[u32],
) -> Result<Items<Group<'a>>, Memory>
    ensures { IfOk result (λ groups. groups ≡ groups_among (exports_of scopes.now) items.now imports.now) }
{
    let mut groups = Items::new(alloc);
    let mut numbers = imports;
    for item in items {
        push_groups(alloc, scopes, &mut groups, item, numbers)?;
        numbers = imports_behind(item, numbers);
    }
    Ok(groups)
}

/// The first of words whose name is among names.
fn first_among(names: &NameIndex, words: &[Word<'_>]) -> Option<Fault>
    ensures { result ≡ first_of (flat_map (repeat_in names.now) words.now) }
{
    let mut first = None;
    for word in words {
        first = earlier(first, repeat_in(names, word));
    }
    first
}

/// Adds the names of words.
fn push_names(names: &mut NameIndex, words: &[Word<'_>]) -> Result<(), Memory>
    ensures { OnOk result (names.new ≡ names.old ++ map name_of words.now) }
{
    for word in words {
        names.push(word.name())?;
    }
    Ok(())
}

/// The first name of a group that an earlier group has.
fn clashes(alloc: Global, groups: &[Group<'_>]) -> Result<Option<Fault>, Memory>
    ensures { IfOk result (λ fault. fault ≡ first_of (clashes groups.now)) }
{
    let mut names = NameIndex::new(alloc);
    let mut first = None;
    for group in groups {
        first = earlier(first, first_among(&names, group.as_slice()));
        push_names(&mut names, group.as_slice())?;
    }
    Ok(first)
}

/// The first name that a file exports twice.
pub(crate) fn exported_twice(
    alloc: Global,
    scopes: &Scopes<'_>,
    items: &[FileItem],
    imports: &[u32],
) -> Result<Option<Fault>, Memory>
    ensures { IfOk result (λ fault. fault ≡ first_of (clashes (groups_among (exports_of scopes.now) items.now imports.now))) }
{
    let groups = groups(alloc, scopes, items, imports)?;
    let fault = clashes(alloc, groups.as_slice())?;
    Ok(fault)
}
