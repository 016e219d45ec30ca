//! Declared callbacks.

ghost use Rattle.std.specs.Prelude.{◌≡◌, ◌≤◌, drop};
ghost use Rattle.slint_grammar.specs.Parts as part;
ghost use Rattle.slint_grammar.specs.Grammar.{Alt as alts};
ghost use Rattle.slint_grammar.specs.Derivations.{deepest_token};
ghost use Rattle.slint_parser.specs.Readings.{seen, stop_at, Reads, ReadsBy};
ghost use Rattle.slint_parser.specs.Members.{ReadsParameter, rule_behind};

use crate::cursor::Cursor;
use crate::joined::join;
use crate::paths::path;
use crate::stops::{DEEPEST, Seen, Stop};
use crate::types::type_name;
use slint_base::{End, Rule, Span};
use slint_grammar::Word;
use slint_lexer::Symbol;
use sqlite_items::Items;
use std::alloc::Global;
use syntax_tree::{Callback, CallbackForm, Parameter, TypeName};

/// A declared callback.
pub fn callback(alloc: Global, cursor: &mut Cursor<'_>, depth: usize) -> Result<Callback, End<Stop>>
    ensures { Reads part.Callback depth cursor.old result cursor.new }
{
    let (is_pure, head) = callback_head(cursor, depth)?;
    let name = cursor.name(depth)?;
    let (form, end) = callback_end(alloc, cursor, depth)?;
    let span = join(head, end);
    Ok(Callback {
        is_pure,
        name,
        form,
        span,
    })
}

/// Whether a callback is pure, and the stretch of its first word.
fn callback_head(cursor: &mut Cursor<'_>, depth: usize) -> Result<(bool, Span), End<Stop>>
    ensures { Reads part.CallbackHead depth cursor.old result cursor.new }
{
    if cursor.shows(Seen::Word(Word::Pure)) {
        return pure_callback(cursor, depth);
    }
    impure_callback(cursor, depth)
}

fn pure_callback(cursor: &mut Cursor<'_>, depth: usize) -> Result<(bool, Span), End<Stop>>
    ensures { ReadsBy alts.pure_callback depth cursor.old result cursor.new }
{
    let span = cursor.word(Word::Pure, depth)?;
    cursor.word(Word::Callback, depth)?;
    Ok((true, span))
}

fn impure_callback(cursor: &mut Cursor<'_>, depth: usize) -> Result<(bool, Span), End<Stop>>
    ensures { ReadsBy alts.impure_callback depth cursor.old result cursor.new }
{
    Ok((false, cursor.word(Word::Callback, depth)?))
}

fn callback_end(
    alloc: Global,
    cursor: &mut Cursor<'_>,
    depth: usize,
) -> Result<(CallbackForm, Span), End<Stop>>
    ensures { Reads part.CallbackEnd depth cursor.old result cursor.new }
{
    if cursor.sees(Symbol::TwoWay) {
        return linked_callback(alloc, cursor, depth);
    }
    signature(alloc, cursor, depth)
}

fn linked_callback(
    alloc: Global,
    cursor: &mut Cursor<'_>,
    depth: usize,
) -> Result<(CallbackForm, Span), End<Stop>>
    ensures { ReadsBy alts.linked_callback depth cursor.old result cursor.new }
{
    cursor.symbol(Symbol::TwoWay, depth)?;
    let path = path(alloc, cursor, depth)?;
    let end = cursor.symbol(Symbol::Semicolon, depth)?;
    Ok((CallbackForm::Link(path), end))
}

fn signature(
    alloc: Global,
    cursor: &mut Cursor<'_>,
    depth: usize,
) -> Result<(CallbackForm, Span), End<Stop>>
    ensures { ReadsBy alts.signature depth cursor.old result cursor.new }
{
    let parameters = may_parameters(alloc, cursor, depth)?;
    let returned = may_result(alloc, cursor, depth)?;
    let end = cursor.symbol(Symbol::Semicolon, depth)?;
    Ok((CallbackForm::Signature(parameters, returned), end))
}

/// The type of what is returned, where one is written.
pub fn may_result(
    alloc: Global,
    cursor: &mut Cursor<'_>,
    depth: usize,
) -> Result<Option<TypeName>, End<Stop>>
    ensures { Reads part.MayResult depth cursor.old result cursor.new }
{
    if cursor.sees(Symbol::ThinArrow) {
        return result_type(alloc, cursor, depth);
    }
    Ok(None)
}

fn result_type(
    alloc: Global,
    cursor: &mut Cursor<'_>,
    depth: usize,
) -> Result<Option<TypeName>, End<Stop>>
    ensures { ReadsBy alts.result depth cursor.old result cursor.new }
{
    cursor.symbol(Symbol::ThinArrow, depth)?;
    let ty = type_name(alloc, cursor, depth + 1)?;
    Ok(Some(ty))
}

fn may_parameters(
    alloc: Global,
    cursor: &mut Cursor<'_>,
    depth: usize,
) -> Result<Option<Items<Parameter>>, End<Stop>>
    ensures { Reads part.MayParameters depth cursor.old result cursor.new }
{
    if cursor.sees(Symbol::OpenParen) {
        return in_parentheses(alloc, cursor, depth);
    }
    Ok(None)
}

fn in_parentheses(
    alloc: Global,
    cursor: &mut Cursor<'_>,
    depth: usize,
) -> Result<Option<Items<Parameter>>, End<Stop>>
    ensures { ReadsBy alts.parameters depth cursor.old result cursor.new }
{
    cursor.symbol(Symbol::OpenParen, depth)?;
    let (all, _) = parameters(alloc, cursor, depth)?;
    Ok(Some(all))
}

/// Parameters behind an opening parenthesis, up to the closing one.
fn parameters(
    alloc: Global,
    cursor: &mut Cursor<'_>,
    depth: usize,
) -> Result<(Items<Parameter>, Span), End<Stop>>
    requires low { depth ≤ deepest_token }
    ensures { Reads (part.Listing part.Parameters) depth cursor.old result cursor.new }
{
    let mut all = Items::new(alloc);
    if let Some(end) = cursor.closes(Symbol::CloseParen, depth)? {
        return Ok((all, end));
    }
    'items: loop {
        all.push(parameter(alloc, cursor, depth)?)?;
        if let Some(end) = cursor.behind_item(Symbol::CloseParen, depth)? {
            return Ok((all, end));
        }
    }
}

/// A parameter, with or without a name. Its type is one deeper than its name.
fn parameter(alloc: Global, cursor: &mut Cursor<'_>, depth: usize) -> Result<Parameter, End<Stop>>
    requires low { depth ≤ deepest_token }
    ensures { ReadsParameter depth cursor.old result cursor.new }
{
    if !cursor.shows_name() {
        return nameless_parameter(alloc, cursor, depth);
    }
    if cursor.shows_ahead(1, Seen::Symbol(Symbol::Colon)) {
        return named_parameter(alloc, cursor, depth);
    }
    if depth == DEEPEST {
        return Err(behind_type(cursor));
    }
    nameless_parameter(alloc, cursor, depth)
}

fn named_parameter(
    alloc: Global,
    cursor: &mut Cursor<'_>,
    depth: usize,
) -> Result<Parameter, End<Stop>>
    ensures { ReadsBy alts.named_parameter depth cursor.old result cursor.new }
{
    let name = cursor.name(depth)?;
    cursor.symbol(Symbol::Colon, depth)?;
    let ty = type_name(alloc, cursor, depth + 1)?;
    Ok(Parameter {
        name: Some(name),
        ty,
    })
}

fn nameless_parameter(
    alloc: Global,
    cursor: &mut Cursor<'_>,
    depth: usize,
) -> Result<Parameter, End<Stop>>
    requires low { depth ≤ deepest_token }
    ensures { ReadsBy alts.nameless_parameter depth cursor.old result cursor.new }
{
    let ty = type_name(alloc, cursor, depth + 1)?;
    Ok(Parameter { name: None, ty })
}

/// Behind a name that is within the limit as a parameter's name, and past it as its type, only a colon can stand.
fn behind_type(cursor: &Cursor<'_>) -> End<Stop>
    ensures { result ≡ End.Fault (stop_at (rule_behind (seen (drop 1 cursor.now))) (drop 1 cursor.now)) }
{
    cursor.refuse_ahead(1, rule_behind_type(cursor.ahead(1)))
}

fn rule_behind_type(seen: Seen) -> Rule
    ensures { result ≡ rule_behind seen }
{
    match seen {
        Seen::Symbol(Symbol::Comma | Symbol::CloseParen) => Rule::TooDeep,
        _ => Rule::Syntax,
    }
}
