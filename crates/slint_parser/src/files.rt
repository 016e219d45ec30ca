//! A whole file: its imports, exports and declarations.

ghost use Rattle.std.specs.Prelude.{◌≡◌, ◌↔◌, IsTrue, drop};
ghost use Rattle.slint_grammar.specs.Parts as part;
ghost use Rattle.slint_grammar.specs.Grammar.{Alt as alts};
ghost use Rattle.slint_grammar.specs.Faults.{Parses};
ghost use Rattle.slint_parser.specs.Readings.{seen, Reads, ReadsBy};
ghost use Rattle.slint_parser.specs.Files.{ReadsFile, ReadsMore, StopFault};

use crate::bodies::body;
use crate::cursor::Cursor;
use crate::globals::global_body;
use crate::statements::may_semicolon;
use crate::stops::{Seen, Stop};
use crate::types::fields;
use slint_base::{End, Fault, Rule, Span};
use slint_grammar::Word;
use slint_lexer::{Symbol, Token};
use sqlite_items::{Items, at};
use std::alloc::Global as Allocator;
use syntax_tree::{
    Alias, Component, Decl, EnumDecl, ExportAll, ExportList, File, FileItem, Global, Ident, Import,
    StructDecl,
};

/// The tokens of a whole file, whose number is `file` and whose length in bytes `len`, as its tree.
///
/// # Errors
///
/// The fault of the first token that can't stand where it does, or of the end; or want of memory.
pub fn parse(alloc: Allocator, file: u32, len: u32, tokens: &[Token]) -> Result<File, End<Fault>>
    ensures { Parses file len tokens.now result }
{
    let mut cursor = Cursor::new(tokens);
    match file_items(alloc, &mut cursor) {
        Ok(items) => Ok(File { items }),
        Err(End::Memory) => Err(End::Memory),
        Err(End::Fault(stop)) => Err(End::Fault(fault_at(file, len, tokens, stop))),
    }
}

/// The fault of tokens that stop there.
fn fault_at(file: u32, len: u32, tokens: &[Token], stop: Stop) -> Fault
    ensures { StopFault file len tokens.now stop result }
{
    let end = Span {
        file,
        start: len,
        end: len,
    };
    let Stop::At(rule, left) = stop else {
        return Fault {
            rule: Rule::Syntax,
            span: end,
        };
    };
    match at(tokens, tokens.len().saturating_sub(left)) {
        Some(token) => Fault {
            rule,
            span: token.span,
        },
        None => Fault { rule, span: end },
    }
}

fn file_items(alloc: Allocator, cursor: &mut Cursor<'_>) -> Result<Items<FileItem>, End<Stop>>
    ensures { ReadsFile cursor.old result }
{
    let mut all = Items::new(alloc);
    'items: loop {
        if cursor.shows(Seen::End) {
            return Ok(all);
        }
        all.push(file_item(alloc, cursor)?)?;
    }
}

fn file_item(alloc: Allocator, cursor: &mut Cursor<'_>) -> Result<FileItem, End<Stop>>
    ensures { Reads part.FileItem 0 cursor.old result cursor.new }
{
    if cursor.shows(Seen::Word(Word::Import)) {
        return import(alloc, cursor);
    }
    if cursor.shows(Seen::Word(Word::Export)) {
        return export(alloc, cursor);
    }
    Ok(FileItem::Decl(false, decl(alloc, cursor)?))
}

fn export(alloc: Allocator, cursor: &mut Cursor<'_>) -> Result<FileItem, End<Stop>>
    requires { seen cursor.old ≡ Seen.Word Word.Export }
    ensures { Reads part.FileItem 0 cursor.old result cursor.new }
{
    if shows_next(cursor, Seen::Symbol(Symbol::OpenBrace)) {
        return export_list(alloc, cursor);
    }
    if shows_next(cursor, Seen::Symbol(Symbol::Star)) {
        return export_all(cursor);
    }
    exported(alloc, cursor)
}

/// Whether the token behind the next one is seen as this.
pub fn shows_next(cursor: &Cursor<'_>, wanted: Seen) -> bool
    ensures { IsTrue result ↔ (seen (drop 1 cursor.now) ≡ wanted) }
{
    cursor.ahead(1) == wanted
}

fn import(alloc: Allocator, cursor: &mut Cursor<'_>) -> Result<FileItem, End<Stop>>
    ensures { ReadsBy alts.import_item 0 cursor.old result cursor.new }
{
    cursor.word(Word::Import, 0)?;
    let names = import_names(alloc, cursor)?;
    let path = cursor.text(0)?;
    cursor.symbol(Symbol::Semicolon, 0)?;
    Ok(FileItem::Import(Import { names, path }))
}

fn import_names(
    alloc: Allocator,
    cursor: &mut Cursor<'_>,
) -> Result<Option<Items<Alias>>, End<Stop>>
    ensures { Reads part.ImportNames 0 cursor.old result cursor.new }
{
    if cursor.sees(Symbol::OpenBrace) {
        return some_names(alloc, cursor);
    }
    Ok(None)
}

fn some_names(alloc: Allocator, cursor: &mut Cursor<'_>) -> Result<Option<Items<Alias>>, End<Stop>>
    ensures { ReadsBy alts.import_names 0 cursor.old result cursor.new }
{
    cursor.symbol(Symbol::OpenBrace, 0)?;
    let (names, _) = aliases(alloc, cursor)?;
    cursor.word(Word::From, 0)?;
    Ok(Some(names))
}

fn export_list(alloc: Allocator, cursor: &mut Cursor<'_>) -> Result<FileItem, End<Stop>>
    ensures { ReadsBy alts.export_list 0 cursor.old result cursor.new }
{
    cursor.word(Word::Export, 0)?;
    cursor.symbol(Symbol::OpenBrace, 0)?;
    let (names, _) = aliases(alloc, cursor)?;
    let _semicolon = may_semicolon(cursor, 0)?;
    Ok(FileItem::Export(ExportList { names }))
}

fn export_all(cursor: &mut Cursor<'_>) -> Result<FileItem, End<Stop>>
    ensures { ReadsBy alts.export_all 0 cursor.old result cursor.new }
{
    cursor.word(Word::Export, 0)?;
    cursor.symbol(Symbol::Star, 0)?;
    cursor.word(Word::From, 0)?;
    let path = cursor.text(0)?;
    cursor.symbol(Symbol::Semicolon, 0)?;
    Ok(FileItem::ExportAll(ExportAll { path }))
}

fn exported(alloc: Allocator, cursor: &mut Cursor<'_>) -> Result<FileItem, End<Stop>>
    ensures { ReadsBy alts.exported 0 cursor.old result cursor.new }
{
    cursor.word(Word::Export, 0)?;
    Ok(FileItem::Decl(true, decl(alloc, cursor)?))
}

/// Names with what they are called, up to the closing brace.
fn aliases(alloc: Allocator, cursor: &mut Cursor<'_>) -> Result<(Items<Alias>, Span), End<Stop>>
    ensures { Reads (part.Listing part.Aliases) 0 cursor.old result cursor.new }
{
    let mut all = Items::new(alloc);
    if let Some(end) = cursor.closes(Symbol::CloseBrace, 0)? {
        return Ok((all, end));
    }
    'items: loop {
        all.push(alias(cursor)?)?;
        if let Some(end) = cursor.behind_item(Symbol::CloseBrace, 0)? {
            return Ok((all, end));
        }
    }
}

fn alias(cursor: &mut Cursor<'_>) -> Result<Alias, End<Stop>>
    ensures { Reads part.Alias 0 cursor.old result cursor.new }
{
    let name = cursor.name(0)?;
    let alias = new_name(cursor)?;
    Ok(Alias { name, alias })
}

fn new_name(cursor: &mut Cursor<'_>) -> Result<Option<Ident>, End<Stop>>
    ensures { Reads part.NewName 0 cursor.old result cursor.new }
{
    if cursor.shows(Seen::Word(Word::As)) {
        cursor.word(Word::As, 0)?;
        return Ok(Some(cursor.name(0)?));
    }
    Ok(None)
}

fn decl(alloc: Allocator, cursor: &mut Cursor<'_>) -> Result<Decl, End<Stop>>
    ensures { Reads part.Decl 0 cursor.old result cursor.new }
{
    if cursor.shows(Seen::Word(Word::Component)) {
        return component(alloc, cursor);
    }
    if cursor.shows(Seen::Word(Word::Global)) {
        return global(alloc, cursor);
    }
    if cursor.shows(Seen::Word(Word::Struct)) {
        return struct_decl(alloc, cursor);
    }
    enum_decl(alloc, cursor)
}

fn component(alloc: Allocator, cursor: &mut Cursor<'_>) -> Result<Decl, End<Stop>>
    ensures { ReadsBy alts.component 0 cursor.old result cursor.new }
{
    cursor.word(Word::Component, 0)?;
    let name = cursor.name(0)?;
    let base = base(cursor)?;
    let body = body(alloc, cursor, 1)?;
    Ok(Decl::Component(Component { name, base, body }))
}

fn base(cursor: &mut Cursor<'_>) -> Result<Option<Ident>, End<Stop>>
    ensures { Reads part.Base 0 cursor.old result cursor.new }
{
    if cursor.shows(Seen::Word(Word::Inherits)) {
        cursor.word(Word::Inherits, 0)?;
        return Ok(Some(cursor.name(0)?));
    }
    Ok(None)
}

fn global(alloc: Allocator, cursor: &mut Cursor<'_>) -> Result<Decl, End<Stop>>
    ensures { ReadsBy alts.global 0 cursor.old result cursor.new }
{
    cursor.word(Word::Global, 0)?;
    let name = cursor.name(0)?;
    let items = global_body(alloc, cursor, 0)?;
    Ok(Decl::Global(Global { name, items }))
}

fn struct_decl(alloc: Allocator, cursor: &mut Cursor<'_>) -> Result<Decl, End<Stop>>
    ensures { ReadsBy alts.struct_decl 0 cursor.old result cursor.new }
{
    cursor.word(Word::Struct, 0)?;
    let name = cursor.name(0)?;
    cursor.symbol(Symbol::OpenBrace, 0)?;
    let (fields, _) = fields(alloc, cursor, 0, Symbol::CloseBrace)?;
    Ok(Decl::Struct(StructDecl { name, fields }))
}

fn enum_decl(alloc: Allocator, cursor: &mut Cursor<'_>) -> Result<Decl, End<Stop>>
    ensures { ReadsBy alts.enum_decl 0 cursor.old result cursor.new }
{
    cursor.word(Word::Enum, 0)?;
    let name = cursor.name(0)?;
    cursor.symbol(Symbol::OpenBrace, 0)?;
    let first = cursor.name(0)?;
    let (values, _) = more_values(alloc, cursor, first)?;
    Ok(Decl::Enum(EnumDecl { name, values }))
}

/// A first value of an enum and those behind it, up to the closing brace.
fn more_values(
    alloc: Allocator,
    cursor: &mut Cursor<'_>,
    first: Ident,
) -> Result<(Items<Ident>, Span), End<Stop>>
    ensures { ReadsMore first cursor.old result cursor.new }
{
    let mut all = Items::new(alloc);
    all.push(first)?;
    'items: loop {
        if let Some(end) = cursor.behind_item(Symbol::CloseBrace, 0)? {
            return Ok((all, end));
        }
        all.push(cursor.name(0)?)?;
    }
}
