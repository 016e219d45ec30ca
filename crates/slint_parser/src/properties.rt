//! Declared properties.

ghost use Rattle.slint_grammar.specs.Parts as part;
ghost use Rattle.slint_grammar.specs.Grammar.{Alt as alts};
ghost use Rattle.slint_parser.specs.Readings.{Reads, ReadsBy};
ghost use Rattle.slint_parser.specs.Members.{ReadsMark, ReadsTyped, ReadsUntyped};

use crate::cursor::Cursor;
use crate::joined::join;
use crate::paths::path;
use crate::stops::{Seen, Stop};
use crate::types::type_name;
use crate::values::value;
use slint_base::{End, Span};
use slint_grammar::Word;
use slint_lexer::Symbol;
use std::alloc::Global;
use syntax_tree::{Mark, PropValue, Property};

/// The mark of a property, and the stretch of its first word.
fn property_head(cursor: &mut Cursor<'_>, depth: usize) -> Result<(Mark, Span), End<Stop>>
    ensures { Reads part.PropertyHead depth cursor.old result cursor.new }
{
    if cursor.shows(Seen::Word(Word::Private)) {
        return marked(cursor, depth, Mark::Private, Word::Private);
    }
    if cursor.shows(Seen::Word(Word::In)) {
        return marked(cursor, depth, Mark::In, Word::In);
    }
    if cursor.shows(Seen::Word(Word::Out)) {
        return marked(cursor, depth, Mark::Out, Word::Out);
    }
    if cursor.shows(Seen::Word(Word::InOut)) {
        return marked(cursor, depth, Mark::InOut, Word::InOut);
    }
    no_mark(cursor, depth)
}

fn no_mark(cursor: &mut Cursor<'_>, depth: usize) -> Result<(Mark, Span), End<Stop>>
    ensures { ReadsBy alts.no_mark depth cursor.old result cursor.new }
{
    Ok((Mark::None, cursor.word(Word::Property, depth)?))
}

fn marked(
    cursor: &mut Cursor<'_>,
    depth: usize,
    mark: Mark,
    word: Word,
) -> Result<(Mark, Span), End<Stop>>
    ensures { ReadsMark mark word depth cursor.old result cursor.new }
{
    let span = cursor.word(word, depth)?;
    cursor.word(Word::Property, depth)?;
    Ok((mark, span))
}

/// A declared property. Only one that is linked can leave its type out.
pub fn property(alloc: Global, cursor: &mut Cursor<'_>, depth: usize) -> Result<Property, End<Stop>>
    ensures { Reads part.Property depth cursor.old result cursor.new }
{
    let (mark, head) = property_head(cursor, depth)?;
    if cursor.sees(Symbol::Less) {
        return typed_property(alloc, cursor, depth, mark, head);
    }
    untyped_property(alloc, cursor, depth, mark, head)
}

fn typed_property(
    alloc: Global,
    cursor: &mut Cursor<'_>,
    depth: usize,
    mark: Mark,
    head: Span,
) -> Result<Property, End<Stop>>
    ensures { ReadsTyped mark head depth cursor.old result cursor.new }
{
    cursor.symbol(Symbol::Less, depth)?;
    let ty = type_name(alloc, cursor, depth + 1)?;
    cursor.symbol(Symbol::Greater, depth)?;
    let name = cursor.name(depth)?;
    let (value, end) = property_end(alloc, cursor, depth)?;
    let span = join(head, end);
    Ok(Property {
        mark,
        ty: Some(ty),
        name,
        value,
        span,
    })
}

fn untyped_property(
    alloc: Global,
    cursor: &mut Cursor<'_>,
    depth: usize,
    mark: Mark,
    head: Span,
) -> Result<Property, End<Stop>>
    ensures { ReadsUntyped mark head depth cursor.old result cursor.new }
{
    let name = cursor.name(depth)?;
    cursor.symbol(Symbol::TwoWay, depth)?;
    let path = path(alloc, cursor, depth)?;
    let end = cursor.symbol(Symbol::Semicolon, depth)?;
    let span = join(head, end);
    Ok(Property {
        mark,
        ty: None,
        name,
        value: PropValue::Link(path),
        span,
    })
}

fn property_end(
    alloc: Global,
    cursor: &mut Cursor<'_>,
    depth: usize,
) -> Result<(PropValue, Span), End<Stop>>
    ensures { Reads part.PropertyEnd depth cursor.old result cursor.new }
{
    if cursor.sees(Symbol::Colon) {
        return bound_value(alloc, cursor, depth);
    }
    if cursor.sees(Symbol::TwoWay) {
        return linked_value(alloc, cursor, depth);
    }
    no_value(cursor, depth)
}

fn bound_value(
    alloc: Global,
    cursor: &mut Cursor<'_>,
    depth: usize,
) -> Result<(PropValue, Span), End<Stop>>
    ensures { ReadsBy alts.bound_value depth cursor.old result cursor.new }
{
    cursor.symbol(Symbol::Colon, depth)?;
    let (value, end) = value(alloc, cursor, depth)?;
    Ok((PropValue::Value(value), end))
}

fn linked_value(
    alloc: Global,
    cursor: &mut Cursor<'_>,
    depth: usize,
) -> Result<(PropValue, Span), End<Stop>>
    ensures { ReadsBy alts.linked_value depth cursor.old result cursor.new }
{
    cursor.symbol(Symbol::TwoWay, depth)?;
    let path = path(alloc, cursor, depth)?;
    let end = cursor.symbol(Symbol::Semicolon, depth)?;
    Ok((PropValue::Link(path), end))
}

fn no_value(cursor: &mut Cursor<'_>, depth: usize) -> Result<(PropValue, Span), End<Stop>>
    ensures { ReadsBy alts.no_value depth cursor.old result cursor.new }
{
    Ok((PropValue::None, cursor.symbol(Symbol::Semicolon, depth)?))
}
