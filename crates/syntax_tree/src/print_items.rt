ghost use Rattle.std.specs.Prelude.{◌∷◌, ◌++◌, [], IfOk, map, Some, codes};
ghost use Rattle.slint_lexer.specs.declared.tokens.Symbol.TheVariants.{Colon as a_colon};
ghost use Rattle.slint_lexer.specs.declared.tokens.TokenKind.TheVariants.{Id as id_kind, Symbol as symbol_kind};
ghost use Rattle.syntax_tree.specs.Printed.{if_some, tokens_of_id, tokens_of_number, children_tokens, tokens_of_expr, tokens_of_item, tokens_of_items, tokens_of_element, tokens_of_if, tokens_of_for};
ghost use Rattle.syntax_tree.specs.declared.items.For.{out-For};
ghost use Rattle.syntax_tree.specs.Writes.{Writes};

use crate::print_exprs::print_expr;
use crate::print_members::{
    print_binding, print_callback, print_changed, print_function, print_handler, print_link,
    print_property, print_states,
};
use crate::writing::{write_name, write_symbol, write_word};
use crate::{Element, For, Ident, IfElement, Item};
use slint_base::Memory;
use slint_lexer::Symbol;
use std::alloc::Global;

/// Prints the id of an element.
fn print_id(alloc: Global, out: &mut Vec<u8>, id: &Ident) -> Result<(), Memory>
    ensures { IfOk result (λ _. Writes out.old.items out.new.items (tokens_of_id id.now)) }
{
    write_name(out, &id.name)?;
    write_symbol(alloc, out, Symbol::ColonEqual)?;
    Ok(())
}

/// Prints the id of an element, where there is one.
fn print_some_id(alloc: Global, out: &mut Vec<u8>, id: &Option<Ident>) -> Result<(), Memory>
    ensures { IfOk result (λ _. Writes out.old.items out.new.items (if_some tokens_of_id id.now)) }
{
    match id {
        None => Ok(()),
        Some(id) => print_id(alloc, out, id),
    }
}

/// Prints the name of a row's number.
fn print_number(alloc: Global, out: &mut Vec<u8>, name: &Ident) -> Result<(), Memory>
    ensures { IfOk result (λ _. Writes out.old.items out.new.items (tokens_of_number name.now)) }
{
    write_symbol(alloc, out, Symbol::OpenBracket)?;
    write_name(out, &name.name)?;
    write_symbol(alloc, out, Symbol::CloseBracket)?;
    Ok(())
}

/// Prints the name of a row's number, where there is one.
fn print_some_number(alloc: Global, out: &mut Vec<u8>, name: &Option<Ident>) -> Result<(), Memory>
    ensures { IfOk result (λ _. Writes out.old.items out.new.items (if_some tokens_of_number name.now)) }
{
    match name {
        None => Ok(()),
        Some(name) => print_number(alloc, out, name),
    }
}

/// Prints the place of the children.
fn print_children(alloc: Global, out: &mut Vec<u8>) -> Result<(), Memory>
    ensures { IfOk result (λ _. Writes out.old.items out.new.items (children_tokens)) }
{
    write_symbol(alloc, out, Symbol::At)?;
    write_word(out, "children")?;
    Ok(())
}

/// Prints an item of a body.
#[cycle(print_items)]
fn print_item(alloc: Global, out: &mut Vec<u8>, item: &Item) -> Result<(), Memory>
    ensures { IfOk result (λ _. Writes out.old.items out.new.items (tokens_of_item item.now)) }
{
    match item {
        Item::Property(property) => print_property(alloc, out, property),
        Item::Callback(callback) => print_callback(alloc, out, callback),
        Item::Function(function) => print_function(alloc, out, function),
        Item::Binding(binding) => print_binding(alloc, out, binding),
        Item::Link(link) => print_link(alloc, out, link),
        Item::Handler(handler) => print_handler(alloc, out, handler),
        Item::Changed(changed) => print_changed(alloc, out, changed),
        Item::States(states) => print_states(alloc, out, states),
        Item::Element(element) => print_element(alloc, out, element),
        Item::If(element) => print_if(alloc, out, element),
        Item::For(element) => print_for(alloc, out, element),
        Item::Children(_) => print_children(alloc, out),
    }
}

/// Prints the items of a body, and the brace that closes it.
#[cycle(print_items)]
pub(crate) fn print_items(alloc: Global, out: &mut Vec<u8>, items: &[Item]) -> Result<(), Memory>
    ensures { IfOk result (λ _. Writes out.old.items out.new.items (tokens_of_items items.now)) }
{
    for item in items {
        print_item(alloc, out, item)?;
    }
    write_symbol(alloc, out, Symbol::CloseBrace)?;
    Ok(())
}

/// Prints an element.
#[cycle(print_items)]
fn print_element(alloc: Global, out: &mut Vec<u8>, element: &Element) -> Result<(), Memory>
    ensures { IfOk result (λ _. Writes out.old.items out.new.items (tokens_of_element element.now)) }
{
    print_some_id(alloc, out, &element.id)?;
    write_name(out, &element.ty.name)?;
    write_symbol(alloc, out, Symbol::OpenBrace)?;
    print_items(alloc, out, element.body.as_slice())?;
    Ok(())
}

/// Prints an element that is there while a condition holds.
#[cycle(print_items)]
fn print_if(alloc: Global, out: &mut Vec<u8>, element: &IfElement) -> Result<(), Memory>
    ensures { IfOk result (λ _. Writes out.old.items out.new.items (tokens_of_if element.now)) }
{
    write_word(out, "if")?;
    print_expr(alloc, out, &element.condition)?;
    write_symbol(alloc, out, Symbol::Colon)?;
    print_element(alloc, out, &element.element)?;
    Ok(())
}

/// Prints an element that is there for each row of a model.
#[cycle(print_items)]
fn print_for(alloc: Global, out: &mut Vec<u8>, element: &For) -> Result<(), Memory>
    ensures { IfOk result (λ _. Writes out.old.items out.new.items (tokens_of_for element.now)) }
{
    write_word(out, "for")?;
    write_name(out, &element.item.name)?;
    print_some_number(alloc, out, &element.number)?;
    write_word(out, "in")?;
    print_model(alloc, out, element)?;
    Ok(())
}

/// Prints the model of a repeated element, and the element.
#[cycle(print_items)]
fn print_model(alloc: Global, out: &mut Vec<u8>, element: &For) -> Result<(), Memory>
    ensures { IfOk result (λ _. Writes out.old.items out.new.items (tokens_of_expr (out-For element.now).model ++ (symbol_kind a_colon ∷ tokens_of_element (out-For element.now).element))) }
{
    print_expr(alloc, out, &element.model)?;
    write_symbol(alloc, out, Symbol::Colon)?;
    print_element(alloc, out, &element.element)?;
    Ok(())
}
