//! Bodies of components and elements: their items, and the elements that stand among them.

ghost use Rattle.std.specs.Prelude.{◌≤◌};
ghost use Rattle.slint_grammar.specs.Parts as part;
ghost use Rattle.slint_grammar.specs.Grammar.{Alt as alts};
ghost use Rattle.slint_grammar.specs.Derivations.{deepest_token};
ghost use Rattle.slint_parser.specs.Readings.{Reads, ReadsBy};
ghost use Rattle.slint_parser.specs.Members.{MayName};
ghost use Rattle.slint_parser.specs.Bodies.{ReadsGuarded};

use crate::cursor::Cursor;
use crate::grammar::expr;
use crate::heads::{ItemHead, item_head};
use crate::leaves::{
    binding_item, callback_item, changed_item, children_item, function_item, handler_item,
    link_item, may_row_number, property_item,
};
use crate::starts::Start;
use crate::states::states_item;
use crate::stops::{Seen, Stop};
use slint_base::End;
use slint_grammar::Word;
use slint_lexer::Symbol;
use sqlite_items::Items;
use std::alloc::Global;
use syntax_tree::{Element, Expr, For, IfElement, Item};

/// The body of a component or of an element, at a depth, that of its braces.
#[cycle(items)]
pub fn body(alloc: Global, cursor: &mut Cursor<'_>, depth: usize) -> Result<Items<Item>, End<Stop>>
    ensures { Reads part.Body depth cursor.old result cursor.new }
{
    cursor.symbol(Symbol::OpenBrace, depth)?;
    let all = items(alloc, cursor, depth)?;
    Ok(all)
}

/// Items, up to the closing brace.
#[cycle(items)]
fn items(alloc: Global, cursor: &mut Cursor<'_>, depth: usize) -> Result<Items<Item>, End<Stop>>
    ensures { Reads part.Items depth cursor.old result cursor.new }
{
    let mut all = Items::new(alloc);
    'turns: while !cursor.sees(Symbol::CloseBrace) {
        let one = item(alloc, cursor, depth)?;
        all.push(one)?;
    }
    cursor.symbol(Symbol::CloseBrace, depth)?;
    Ok(all)
}

#[cycle(items)]
fn item(alloc: Global, cursor: &mut Cursor<'_>, depth: usize) -> Result<Item, End<Stop>>
    ensures { Reads part.Item depth cursor.old result cursor.new }
{
    match item_head(cursor) {
        ItemHead::Property => property_item(alloc, cursor, depth),
        ItemHead::Callback => callback_item(alloc, cursor, depth),
        ItemHead::Function => function_item(alloc, cursor, depth),
        ItemHead::Changed => changed_item(alloc, cursor, depth),
        ItemHead::States => states_item(alloc, cursor, depth),
        ItemHead::If => if_item(alloc, cursor, depth),
        ItemHead::For => for_item(alloc, cursor, depth),
        ItemHead::Name => named_item(alloc, cursor, depth),
        ItemHead::Nameless => children_item(cursor, depth),
    }
}

/// An item that begins with a name, which is no word that begins another one: the token behind the name tells it.
#[cycle(items)]
fn named_item(alloc: Global, cursor: &mut Cursor<'_>, depth: usize) -> Result<Item, End<Stop>>
    requires named { MayName cursor.old }
    ensures { Reads part.Item depth cursor.old result cursor.new }
{
    if cursor.shows_ahead(1, Seen::Symbol(Symbol::Colon)) {
        return binding_item(alloc, cursor, depth);
    }
    if cursor.shows_ahead(1, Seen::Symbol(Symbol::TwoWay)) {
        return link_item(alloc, cursor, depth);
    }
    if cursor.shows_ahead(1, Seen::Symbol(Symbol::OpenBrace)) {
        return element_item(alloc, cursor, depth);
    }
    if cursor.shows_ahead(1, Seen::Symbol(Symbol::ColonEqual)) {
        return named_element_item(alloc, cursor, depth);
    }
    handler_item(alloc, cursor, depth)
}

/// An element, as an item. Its first name is no word that begins another item.
#[cycle(items)]
fn element_item(alloc: Global, cursor: &mut Cursor<'_>, depth: usize) -> Result<Item, End<Stop>>
    requires named { MayName cursor.old }
    ensures { ReadsBy alts.element_item depth cursor.old result cursor.new }
{
    let element = plain_element(alloc, cursor, depth)?;
    Ok(Item::Element(element))
}

#[cycle(items)]
fn named_element_item(
    alloc: Global,
    cursor: &mut Cursor<'_>,
    depth: usize,
) -> Result<Item, End<Stop>>
    requires named { MayName cursor.old }
    ensures { ReadsBy alts.named_element_item depth cursor.old result cursor.new }
{
    let element = named_element(alloc, cursor, depth)?;
    Ok(Item::Element(element))
}

/// An element, with or without a name, at a depth, one less than that of its body.
#[cycle(items)]
fn element(alloc: Global, cursor: &mut Cursor<'_>, depth: usize) -> Result<Element, End<Stop>>
    ensures { Reads part.Element depth cursor.old result cursor.new }
{
    if cursor.shows_ahead(1, Seen::Symbol(Symbol::ColonEqual)) {
        return named_element(alloc, cursor, depth);
    }
    plain_element(alloc, cursor, depth)
}

/// An element without a name.
#[cycle(items)]
fn plain_element(alloc: Global, cursor: &mut Cursor<'_>, depth: usize) -> Result<Element, End<Stop>>
    ensures { ReadsBy alts.element depth cursor.old result cursor.new }
{
    let ty = cursor.name(depth)?;
    let body = body(alloc, cursor, depth + 1)?;
    Ok(Element { id: None, ty, body })
}

#[cycle(items)]
fn named_element(alloc: Global, cursor: &mut Cursor<'_>, depth: usize) -> Result<Element, End<Stop>>
    ensures { ReadsBy alts.named_element depth cursor.old result cursor.new }
{
    let id = cursor.name(depth)?;
    cursor.symbol(Symbol::ColonEqual, depth)?;
    let ty = cursor.name(depth)?;
    let body = body(alloc, cursor, depth + 1)?;
    Ok(Element {
        id: Some(id),
        ty,
        body,
    })
}

/// An element that is there where a condition holds.
#[cycle(items)]
fn if_item(alloc: Global, cursor: &mut Cursor<'_>, depth: usize) -> Result<Item, End<Stop>>
    ensures { ReadsBy alts.if_item depth cursor.old result cursor.new }
{
    let word = cursor.word(Word::If, depth)?;
    let (condition, element) = guarded(alloc, cursor, depth)?;
    Ok(Item::If(IfElement {
        condition,
        element,
        word,
    }))
}

/// An element for each row of a model.
#[cycle(items)]
fn for_item(alloc: Global, cursor: &mut Cursor<'_>, depth: usize) -> Result<Item, End<Stop>>
    ensures { ReadsBy alts.for_item depth cursor.old result cursor.new }
{
    let word = cursor.word(Word::For, depth)?;
    let item = cursor.name(depth)?;
    let number = may_row_number(cursor, depth)?;
    cursor.word(Word::In, depth)?;
    let (model, element) = guarded(alloc, cursor, depth)?;
    Ok(Item::For(For {
        item,
        number,
        model,
        element,
        word,
    }))
}

/// A condition or a model, and the element behind its colon.
#[cycle(items)]
fn guarded(
    alloc: Global,
    cursor: &mut Cursor<'_>,
    depth: usize,
) -> Result<(Expr, Element), End<Stop>>
    requires low { depth ≤ deepest_token }
    ensures { ReadsGuarded depth cursor.old result cursor.new }
{
    let guard = expr(alloc, cursor, depth + 1, Start::Anywhere)?;
    cursor.symbol(Symbol::Colon, depth)?;
    let element = element(alloc, cursor, depth)?;
    Ok((guard.into_inner(), element))
}
