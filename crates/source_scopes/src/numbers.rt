ghost use Rattle.std.specs.Prelude.{◌≡◌, ◌+◌, IfOk};
ghost use Rattle.source_scopes.specs.Declarations.{counted, counted_all, counted_decl, meaning_of, no_declarations};

use crate::{Counts, Meaning};
use slint_base::Memory;
use syntax_tree::{Decl, FileItem};

/// What is there before the first file: the built-in enums.
pub(crate) fn no_declarations() -> Counts
    ensures { result ≡ no_declarations }
{
    Counts {
        comps: 0,
        globals: 0,
        enums: 7,
        structs: 0,
    }
}

/// One more than a number.
fn one_more(count: usize) -> Result<usize, Memory>
    ensures { IfOk result (λ more. more ≡ count + 1) }
{
    match count.checked_add(1) {
        Some(more) => Ok(more),
        None => Err(Memory),
    }
}

/// One more than the number of an enum.
fn one_enum_more(count: u32) -> Result<u32, Memory>
    ensures { IfOk result (λ more. more ≡ count + 1) }
{
    match count.checked_add(1) {
        Some(more) => Ok(more),
        None => Err(Memory),
    }
}

/// One declaration more of its kind.
fn counted_decl(counts: Counts, decl: &Decl) -> Result<Counts, Memory>
    ensures { IfOk result (λ more. more ≡ counted_decl counts decl.now) }
{
    let mut more = counts;
    match decl {
        Decl::Component(_) => more.comps = one_more(counts.comps)?,
        Decl::Global(_) => more.globals = one_more(counts.globals)?,
        Decl::Enum(_) => more.enums = one_enum_more(counts.enums)?,
        Decl::Struct(_) => more.structs = one_more(counts.structs)?,
    }
    Ok(more)
}

/// What is declared up to an item, and with it.
pub(crate) fn counted(counts: Counts, item: &FileItem) -> Result<Counts, Memory>
    ensures { IfOk result (λ more. more ≡ counted counts item.now) }
{
    match item {
        FileItem::Decl(_, decl) => counted_decl(counts, decl),
        _ => Ok(counts),
    }
}

/// What is declared up to some items, and with them.
pub(crate) fn counted_all(counts: Counts, items: &[FileItem]) -> Result<Counts, Memory>
    ensures { IfOk result (λ more. more ≡ counted_all counts items.now) }
{
    let mut so_far = counts;
    for item in items {
        so_far = counted(so_far, item)?;
    }
    Ok(so_far)
}

/// What a declaration's name stands for, after so many declarations.
pub(crate) fn meaning_of(counts: Counts, decl: &Decl) -> Meaning
    ensures { result ≡ meaning_of counts decl.now }
{
    match decl {
        Decl::Component(_) => Meaning::Component(counts.comps),
        Decl::Global(_) => Meaning::Global(counts.globals),
        Decl::Enum(_) => Meaning::Enum(counts.enums),
        Decl::Struct(_) => Meaning::Struct(counts.structs),
    }
}
