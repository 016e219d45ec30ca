ghost use Rattle.std.specs.Prelude.{◌≡◌, ◌∷◌, ◌++◌, [], IfOk, OnOk, map};
ghost use Rattle.std.specs.List.{flat_map};
ghost use Rattle.std.specs.Option.{option_copied};
ghost use Rattle.declaration_rules.specs.Words.{declared_word, element_words, element_words_of, given, given_in, if_declared, listed, listed_words, listed_words_of, one_if_some, scope_words, scope_words_of, word_of_written, words_of_component};

use slint_base::{Memory, Name, Span};
use source_elements::{Written, written_in};
use sqlite_items::Items;
use std::alloc::Global;
use std::marker::Model;
use syntax_tree::{Alias, Component, Decl, FileItem, Ident};

/// A name, and the stretch where it is written or taken over. Contracts see it as an identifier.
#[derive(Drop)]
pub(crate) struct Word<'a> {
    name: &'a Name,
    span: Span,
}

impl<'a> Model for Word<'a> {
    ghost use Rattle.syntax_tree.specs.declared.words.Ident.{Ident as ItsIdent};

    ghost Value = { ItsIdent };

    ghost view = { λ w. record { name = w.name.now; span = w.span } };
}

impl<'a> Word<'a> {
    /// A name at a stretch.
    pub(crate) fn new(name: &'a Name, span: Span) -> Word<'a>
        ensures { result ≡ record { name = name.now; span = span } }
    {
        Word { name, span }
    }

    /// The name.
    pub(crate) fn name(&self) -> &'a Name
        ensures { result.now ≡ self.now.name }
    {
        self.name
    }

    /// The stretch.
    pub(crate) fn span(&self) -> Span
        ensures { result ≡ self.now.span }
    {
        self.span
    }
}

/// Adds a word.
pub(crate) fn push_word<'a>(out: &mut Items<Word<'a>>, ident: &'a Ident) -> Result<(), Memory>
    ensures { OnOk result (out.new ≡ out.old ++ ident.now ∷ []) }
{
    out.push(Word::new(&ident.name, ident.span))?;
    Ok(())
}

/// The name that an import or an export gets.
pub(crate) fn given(alias: &Alias) -> &Ident
    ensures { result.now ≡ given alias.now }
{
    match &alias.alias {
        Some(alias) => alias,
        None => &alias.name,
    }
}

/// The name that a declaration declares.
pub(crate) fn declared_word(decl: &Decl) -> &Ident
    ensures { result.now ≡ declared_word decl.now }
{
    match decl {
        Decl::Component(component) => &component.name,
        Decl::Global(global) => &global.name,
        Decl::Struct(declared) => &declared.name,
        Decl::Enum(declared) => &declared.name,
    }
}

/// Adds the names that an import gives to what it takes.
fn push_given<'a>(out: &mut Items<Word<'a>>, names: &'a [Alias]) -> Result<(), Memory>
    ensures { OnOk result (out.new ≡ out.old ++ map given names.now) }
{
    for alias in names {
        push_word(out, given(alias))?;
    }
    Ok(())
}

/// Adds the names that an item of a file puts into its scope.
fn push_scope_words<'a>(out: &mut Items<Word<'a>>, item: &'a FileItem) -> Result<(), Memory>
    ensures { OnOk result (out.new ≡ out.old ++ scope_words_of item.now) }
{
    match item {
        FileItem::Import(import) => push_imported(out, &import.names),
        FileItem::Decl(_, decl) => push_word(out, declared_word(decl)),
        FileItem::Export(_) => Ok(()),
        FileItem::ExportAll(_) => Ok(()),
    }
}

/// Adds the names of an import, where it has braces.
fn push_imported<'a>(
    out: &mut Items<Word<'a>>,
    names: &'a Option<Items<Alias>>,
) -> Result<(), Memory>
    ensures { OnOk result (out.new ≡ out.old ++ given_in names.now) }
{
    match names {
        Some(names) => push_given(out, names.as_slice()),
        None => Ok(()),
    }
}

/// The names of a file's scope, declared and imported, in the order of the text.
pub(crate) fn scope_words<'a>(
    alloc: Global,
    items: &'a [FileItem],
) -> Result<Items<Word<'a>>, Memory>
    ensures { IfOk result (λ words. words ≡ scope_words items.now) }
{
    let mut words = Items::new(alloc);
    for item in items {
        push_scope_words(&mut words, item)?;
    }
    Ok(words)
}

/// Adds the names of a list of exports, as the file knows them itself.
fn push_listed<'a>(out: &mut Items<Word<'a>>, names: &'a [Alias]) -> Result<(), Memory>
    ensures { OnOk result (out.new ≡ out.old ++ map listed names.now) }
{
    for alias in names {
        push_word(out, &alias.name)?;
    }
    Ok(())
}

/// Adds the names that an item of a file lists for export.
fn push_listed_words<'a>(out: &mut Items<Word<'a>>, item: &'a FileItem) -> Result<(), Memory>
    ensures { OnOk result (out.new ≡ out.old ++ listed_words_of item.now) }
{
    match item {
        FileItem::Export(list) => push_listed(out, list.names.as_slice()),
        FileItem::Import(_) => Ok(()),
        FileItem::ExportAll(_) => Ok(()),
        FileItem::Decl(_, _) => Ok(()),
    }
}

/// The names that a file lists for export, as it knows them itself.
pub(crate) fn listed_words<'a>(
    alloc: Global,
    items: &'a [FileItem],
) -> Result<Items<Word<'a>>, Memory>
    ensures { IfOk result (λ words. words ≡ listed_words items.now) }
{
    let mut words = Items::new(alloc);
    for item in items {
        push_listed_words(&mut words, item)?;
    }
    Ok(words)
}

/// Adds a word, where there is one.
fn push_if_some<'a>(out: &mut Items<Word<'a>>, word: Option<&'a Ident>) -> Result<(), Memory>
    ensures { OnOk result (out.new ≡ out.old ++ one_if_some (option_copied word.entry)) }
{
    match word {
        Some(word) => push_word(out, word),
        None => Ok(()),
    }
}

/// Adds the names of the elements that a component is written with: its base, where it has one, and the types of the elements inside.
pub(crate) fn push_elements<'a>(
    alloc: Global,
    out: &mut Items<Word<'a>>,
    component: &'a Component,
) -> Result<(), Memory>
    ensures { OnOk result (out.new ≡ out.old ++ words_of_component component.now) }
{
    let elements = written_in(alloc, component)?;
    push_type_names(out, elements.as_slice())
}

/// Adds the names of the types that elements have.
fn push_type_names<'a>(out: &mut Items<Word<'a>>, elements: &[Written<'a>]) -> Result<(), Memory>
    ensures { OnOk result (out.new ≡ out.old ++ flat_map word_of_written elements.now) }
{
    for element in elements {
        push_if_some(out, element.type_name())?;
    }
    Ok(())
}

/// Adds the names of the elements that an item of a file is written with.
fn push_element_words<'a>(
    alloc: Global,
    out: &mut Items<Word<'a>>,
    item: &'a FileItem,
) -> Result<(), Memory>
    ensures { OnOk result (out.new ≡ out.old ++ if_declared element_words_of item.now) }
{
    match item {
        FileItem::Decl(_, Decl::Component(component)) => push_elements(alloc, out, component),
        _ => Ok(()),
    }
}

/// The names of the elements that a file's declarations are written with.
pub(crate) fn element_words<'a>(
    alloc: Global,
    items: &'a [FileItem],
) -> Result<Items<Word<'a>>, Memory>
    ensures { IfOk result (λ words. words ≡ element_words items.now) }
{
    let mut words = Items::new(alloc);
    for item in items {
        push_element_words(alloc, &mut words, item)?;
    }
    Ok(words)
}
