//! The items of a body that no other body stands in.

ghost use Rattle.slint_grammar.specs.Parts as part;
ghost use Rattle.slint_grammar.specs.Grammar.{Alt as alts};
ghost use Rattle.slint_parser.specs.Readings.{Reads, ReadsBy};
ghost use Rattle.slint_parser.specs.Members.{MayName};

use crate::callbacks::callback;
use crate::cursor::Cursor;
use crate::functions::function;
use crate::handlers::handler;
use crate::joined::join;
use crate::paths::path;
use crate::properties::property;
use crate::statements::run;
use crate::stops::Stop;
use crate::values::value;
use slint_base::End;
use slint_grammar::Word;
use slint_lexer::Symbol;
use std::alloc::Global;
use syntax_tree::{Binding, Changed, Ident, Item, Link};

/// A declared property, as an item.
pub fn property_item(
    alloc: Global,
    cursor: &mut Cursor<'_>,
    depth: usize,
) -> Result<Item, End<Stop>>
    ensures { ReadsBy alts.property_item depth cursor.old result cursor.new }
{
    let property = property(alloc, cursor, depth)?;
    Ok(Item::Property(property))
}

/// A declared callback, as an item.
pub fn callback_item(
    alloc: Global,
    cursor: &mut Cursor<'_>,
    depth: usize,
) -> Result<Item, End<Stop>>
    ensures { ReadsBy alts.callback_item depth cursor.old result cursor.new }
{
    let callback = callback(alloc, cursor, depth)?;
    Ok(Item::Callback(callback))
}

/// A declared function, as an item.
pub fn function_item(
    alloc: Global,
    cursor: &mut Cursor<'_>,
    depth: usize,
) -> Result<Item, End<Stop>>
    ensures { ReadsBy alts.function_item depth cursor.old result cursor.new }
{
    let function = function(alloc, cursor, depth)?;
    Ok(Item::Function(function))
}

/// A handler, as an item. Its name is no word that begins another item.
pub fn handler_item(alloc: Global, cursor: &mut Cursor<'_>, depth: usize) -> Result<Item, End<Stop>>
    requires named { MayName cursor.old }
    ensures { ReadsBy alts.handler_item depth cursor.old result cursor.new }
{
    let handler = handler(alloc, cursor, depth)?;
    Ok(Item::Handler(handler))
}

/// A binding of a property. Its name is no word that begins another item.
pub fn binding_item(alloc: Global, cursor: &mut Cursor<'_>, depth: usize) -> Result<Item, End<Stop>>
    requires named { MayName cursor.old }
    ensures { ReadsBy alts.binding_item depth cursor.old result cursor.new }
{
    let name = cursor.name(depth)?;
    cursor.symbol(Symbol::Colon, depth)?;
    let (value, _) = value(alloc, cursor, depth)?;
    Ok(Item::Binding(Binding { name, value }))
}

/// A two-way link. Its name is no word that begins another item.
pub fn link_item(alloc: Global, cursor: &mut Cursor<'_>, depth: usize) -> Result<Item, End<Stop>>
    requires named { MayName cursor.old }
    ensures { ReadsBy alts.link_item depth cursor.old result cursor.new }
{
    let left = cursor.name(depth)?;
    cursor.symbol(Symbol::TwoWay, depth)?;
    let right = path(alloc, cursor, depth)?;
    let end = cursor.symbol(Symbol::Semicolon, depth)?;
    let span = join(left.span, end);
    Ok(Item::Link(Link { left, right, span }))
}

/// A handler of a property that has changed.
pub fn changed_item(alloc: Global, cursor: &mut Cursor<'_>, depth: usize) -> Result<Item, End<Stop>>
    ensures { ReadsBy alts.changed_item depth cursor.old result cursor.new }
{
    cursor.word(Word::Changed, depth)?;
    let name = cursor.name(depth)?;
    cursor.symbol(Symbol::FatArrow, depth)?;
    let (run, _) = run(alloc, cursor, depth)?;
    Ok(Item::Changed(Changed { name, run }))
}

/// `@children`, the place of an element's children.
pub fn children_item(cursor: &mut Cursor<'_>, depth: usize) -> Result<Item, End<Stop>>
    ensures { ReadsBy alts.children_item depth cursor.old result cursor.new }
{
    let at = cursor.symbol(Symbol::At, depth)?;
    let word = cursor.word(Word::Children, depth)?;
    let span = join(at, word);
    Ok(Item::Children(span))
}

/// The name of a row's number, where one is written.
pub fn may_row_number(cursor: &mut Cursor<'_>, depth: usize) -> Result<Option<Ident>, End<Stop>>
    ensures { Reads part.RowNumber depth cursor.old result cursor.new }
{
    if cursor.sees(Symbol::OpenBracket) {
        return row_number(cursor, depth);
    }
    Ok(None)
}

fn row_number(cursor: &mut Cursor<'_>, depth: usize) -> Result<Option<Ident>, End<Stop>>
    ensures { ReadsBy alts.row_number depth cursor.old result cursor.new }
{
    cursor.symbol(Symbol::OpenBracket, depth)?;
    let name = cursor.name(depth)?;
    cursor.symbol(Symbol::CloseBracket, depth)?;
    Ok(Some(name))
}
