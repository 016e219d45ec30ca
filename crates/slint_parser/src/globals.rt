//! The items of a global.

ghost use Rattle.slint_grammar.specs.Parts as part;
ghost use Rattle.slint_parser.specs.Readings.{Reads};

use crate::cursor::Cursor;
use crate::heads::{ItemHead, item_head};
use crate::leaves::{callback_item, function_item, handler_item, property_item};
use crate::stops::Stop;
use slint_base::{End, Rule};
use slint_lexer::Symbol;
use sqlite_items::Items;
use std::alloc::Global;
use syntax_tree::Item;

/// The items of a global, with their braces.
pub fn global_body(
    alloc: Global,
    cursor: &mut Cursor<'_>,
    depth: usize,
) -> Result<Items<Item>, End<Stop>>
    ensures { Reads part.GlobalBody depth cursor.old result cursor.new }
{
    cursor.symbol(Symbol::OpenBrace, depth)?;
    let items = global_items(alloc, cursor, depth)?;
    Ok(items)
}

/// The items of a global, up to the closing brace.
fn global_items(
    alloc: Global,
    cursor: &mut Cursor<'_>,
    depth: usize,
) -> Result<Items<Item>, End<Stop>>
    ensures { Reads part.GlobalItems depth cursor.old result cursor.new }
{
    let mut all = Items::new(alloc);
    'items: while !cursor.sees(Symbol::CloseBrace) {
        let one = global_item(alloc, cursor, depth)?;
        all.push(one)?;
    }
    cursor.symbol(Symbol::CloseBrace, depth)?;
    Ok(all)
}

/// An item of a global: a property, a callback, a function or a handler.
fn global_item(alloc: Global, cursor: &mut Cursor<'_>, depth: usize) -> Result<Item, End<Stop>>
    ensures { Reads part.GlobalItem depth cursor.old result cursor.new }
{
    match item_head(cursor) {
        ItemHead::Property => property_item(alloc, cursor, depth),
        ItemHead::Callback => callback_item(alloc, cursor, depth),
        ItemHead::Function => function_item(alloc, cursor, depth),
        ItemHead::Name => handler_item(alloc, cursor, depth),
        ItemHead::Changed | ItemHead::States | ItemHead::If | ItemHead::For | ItemHead::Nameless =>
            Err(cursor.refuse(Rule::Syntax)),
    }
}
