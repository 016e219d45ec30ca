ghost use Rattle.std.specs.Prelude.{◌≡◌, IfOk, map};
ghost use Rattle.std.specs.List.{flat_map};
ghost use Rattle.fault_order.specs.Order.{first_of};
ghost use Rattle.declaration_rules.specs.Repeats.{broken_if, field_name, inner_of, name_of, repeat_in, repeated, repeated_in_decl, repeated_in_fields, repeated_in_item, repeated_in_type};

use crate::words::{Word, push_word};
use fault_order::earlier;
use name_index::NameIndex;
use slint_base::{Fault, Memory, Rule, Span};
use sqlite_items::Items;
use std::alloc::Global;
use syntax_tree::{Decl, Field, FileItem, Ident, TypeName};

/// The fault of a rule at a stretch, where it is broken there.
pub(crate) fn broken_if(is_broken: bool, rule: Rule, span: Span) -> Option<Fault>
    ensures { result ≡ first_of (broken_if is_broken rule span) }
{
    if is_broken {
        Some(Fault { rule, span })
    } else {
        None
    }
}

/// The fault of a word whose name is among names.
pub(crate) fn repeat_in(names: &NameIndex, word: &Word<'_>) -> Option<Fault>
    ensures { result ≡ first_of (repeat_in names.now word.now) }
{
    broken_if(names.contains(word.name()), Rule::NameTwice, word.span())
}

/// Of words the first one whose name an earlier one has, by the order in which faults are told.
pub(crate) fn repeated(alloc: Global, words: &[Word<'_>]) -> Result<Option<Fault>, Memory>
    ensures { IfOk result (λ fault. fault ≡ first_of (repeated words.now)) }
{
    let mut names = NameIndex::new(alloc);
    let mut first = None;
    for word in words {
        first = earlier(first, repeat_in(&names, word));
        names.push(word.name())?;
    }
    Ok(first)
}

/// The names of words, with an index.
pub(crate) fn index_of(alloc: Global, words: &[Word<'_>]) -> Result<NameIndex, Memory>
    ensures { IfOk result (λ names. names ≡ map name_of words.now) }
{
    let mut names = NameIndex::new(alloc);
    for word in words {
        names.push(word.name())?;
    }
    Ok(names)
}

/// The words that are written in a row.
fn words_of<'a>(alloc: Global, idents: &'a [Ident]) -> Result<Items<Word<'a>>, Memory>
    ensures { IfOk result (λ words. words ≡ idents.now) }
{
    let mut words = Items::new(alloc);
    for ident in idents {
        push_word(&mut words, ident)?;
    }
    Ok(words)
}

/// The first of words that are written in a row whose name an earlier one has.
fn repeated_in_row(alloc: Global, idents: &[Ident]) -> Result<Option<Fault>, Memory>
    ensures { IfOk result (λ fault. fault ≡ first_of (repeated idents.now)) }
{
    let words = words_of(alloc, idents)?;
    let fault = repeated(alloc, words.as_slice())?;
    Ok(fault)
}

/// The names of fields.
fn field_words<'a>(alloc: Global, fields: &'a [Field]) -> Result<Items<Word<'a>>, Memory>
    ensures { IfOk result (λ words. words ≡ map field_name fields.now) }
{
    let mut words = Items::new(alloc);
    for field in fields {
        push_word(&mut words, &field.name)?;
    }
    Ok(words)
}

/// The first of fields whose name an earlier one has, what their types are written with aside.
fn repeated_fields(alloc: Global, fields: &[Field]) -> Result<Option<Fault>, Memory>
    ensures { IfOk result (λ fault. fault ≡ first_of (repeated (map field_name fields.now))) }
{
    let words = field_words(alloc, fields)?;
    let fault = repeated(alloc, words.as_slice())?;
    Ok(fault)
}

/// The first field of a struct type inside a type whose name an earlier field of that struct type has.
#[cycle(repeated_fields)]
fn repeated_in_type(alloc: Global, ty: &TypeName) -> Result<Option<Fault>, Memory>
    ensures { IfOk result (λ fault. fault ≡ first_of (repeated_in_type ty.now)) }
{
    match ty {
        TypeName::Named(_) => Ok(None),
        TypeName::Array(item, _) => repeated_in_type(alloc, item.get()),
        TypeName::Struct(fields, _) => repeated_in_fields(alloc, fields.as_slice()),
    }
}

/// The same of the fields of one struct, and of the struct types inside it.
#[cycle(repeated_fields)]
fn repeated_in_fields(alloc: Global, fields: &[Field]) -> Result<Option<Fault>, Memory>
    ensures { IfOk result (λ fault. fault ≡ first_of (repeated_in_fields fields.now)) }
{
    let mut first = repeated_fields(alloc, fields)?;
    for field in fields {
        let inner = repeated_inside(alloc, field)?;
        first = earlier(first, inner);
    }
    Ok(first)
}

/// The same of the struct types inside the type of a field.
#[cycle(repeated_fields)]
fn repeated_inside(alloc: Global, field: &Field) -> Result<Option<Fault>, Memory>
    ensures { IfOk result (λ fault. fault ≡ first_of (inner_of field.now)) }
{
    repeated_in_type(alloc, &field.ty)
}

/// The first field of a struct, or value of an enum, whose name an earlier one has.
fn repeated_in_decl(alloc: Global, decl: &Decl) -> Result<Option<Fault>, Memory>
    ensures { IfOk result (λ fault. fault ≡ first_of (repeated_in_decl decl.now)) }
{
    match decl {
        Decl::Struct(declared) => repeated_in_fields(alloc, declared.fields.as_slice()),
        Decl::Enum(declared) => repeated_in_row(alloc, declared.values.as_slice()),
        Decl::Component(_) => Ok(None),
        Decl::Global(_) => Ok(None),
    }
}

/// The same of an item of a file.
fn repeated_in_item(alloc: Global, item: &FileItem) -> Result<Option<Fault>, Memory>
    ensures { IfOk result (λ fault. fault ≡ first_of (repeated_in_item item.now)) }
{
    match item {
        FileItem::Decl(_, decl) => repeated_in_decl(alloc, decl),
        _ => Ok(None),
    }
}

/// The same of all items of a file.
pub(crate) fn repeated_in_items(alloc: Global, items: &[FileItem]) -> Result<Option<Fault>, Memory>
    ensures { IfOk result (λ fault. fault ≡ first_of (flat_map repeated_in_item items.now)) }
{
    let mut first = None;
    for item in items {
        let fault = repeated_in_item(alloc, item)?;
        first = earlier(first, fault);
    }
    Ok(first)
}
