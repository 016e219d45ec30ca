//! Declared functions.

ghost use Rattle.std.specs.Prelude.{◌≡◌};
ghost use Rattle.slint_grammar.specs.Parts as part;
ghost use Rattle.slint_parser.specs.Readings.{seen, Reads};
ghost use Rattle.slint_parser.specs.Members.{ReadsFunctionRest};

use crate::callbacks::may_result;
use crate::cursor::Cursor;
use crate::statements::block;
use crate::stops::{Seen, Stop};
use crate::types::fields;
use slint_base::End;
use slint_grammar::Word;
use slint_lexer::Symbol;
use std::alloc::Global;
use syntax_tree::{Access, Function, Ident};

/// A declared function.
pub fn function(alloc: Global, cursor: &mut Cursor<'_>, depth: usize) -> Result<Function, End<Stop>>
    ensures { Reads part.Function depth cursor.old result cursor.new }
{
    let (is_pure, access) = modifiers(cursor, depth)?;
    cursor.word(Word::Function, depth)?;
    let name = cursor.name(depth)?;
    behind_name(alloc, cursor, depth, is_pure, access, name)
}

/// A function behind its name.
fn behind_name(
    alloc: Global,
    cursor: &mut Cursor<'_>,
    depth: usize,
    is_pure: bool,
    access: Access,
    name: Ident,
) -> Result<Function, End<Stop>>
    ensures { ReadsFunctionRest is_pure access name depth cursor.old result cursor.new }
{
    cursor.symbol(Symbol::OpenParen, depth)?;
    let (parameters, _) = fields(alloc, cursor, depth, Symbol::CloseParen)?;
    let returned = may_result(alloc, cursor, depth)?;
    let body = block(alloc, cursor, depth + 1)?;
    Ok(Function {
        is_pure,
        access,
        name,
        parameters,
        result: returned,
        body,
    })
}

/// Whether a function is pure, and the mark on who may call it, in any order.
fn modifiers(cursor: &mut Cursor<'_>, depth: usize) -> Result<(bool, Access), End<Stop>>
    ensures { Reads part.Modifiers depth cursor.old result cursor.new }
{
    if cursor.shows(Seen::Word(Word::Pure)) {
        return pure_first(cursor, depth);
    }
    if cursor.shows(Seen::Word(Word::Public)) {
        return public_first(cursor, depth);
    }
    if cursor.shows(Seen::Word(Word::Protected)) {
        return protected_first(cursor, depth);
    }
    Ok((false, Access::None))
}

fn pure_first(cursor: &mut Cursor<'_>, depth: usize) -> Result<(bool, Access), End<Stop>>
    requires { seen cursor.old ≡ Seen.Word Word.Pure }
    ensures { Reads part.Modifiers depth cursor.old result cursor.new }
{
    cursor.word(Word::Pure, depth)?;
    if cursor.shows(Seen::Word(Word::Public)) {
        cursor.word(Word::Public, depth)?;
        return Ok((true, Access::Public));
    }
    if cursor.shows(Seen::Word(Word::Protected)) {
        cursor.word(Word::Protected, depth)?;
        return Ok((true, Access::Protected));
    }
    Ok((true, Access::None))
}

fn public_first(cursor: &mut Cursor<'_>, depth: usize) -> Result<(bool, Access), End<Stop>>
    requires { seen cursor.old ≡ Seen.Word Word.Public }
    ensures { Reads part.Modifiers depth cursor.old result cursor.new }
{
    cursor.word(Word::Public, depth)?;
    if cursor.shows(Seen::Word(Word::Pure)) {
        cursor.word(Word::Pure, depth)?;
        return Ok((true, Access::Public));
    }
    Ok((false, Access::Public))
}

fn protected_first(cursor: &mut Cursor<'_>, depth: usize) -> Result<(bool, Access), End<Stop>>
    requires { seen cursor.old ≡ Seen.Word Word.Protected }
    ensures { Reads part.Modifiers depth cursor.old result cursor.new }
{
    cursor.word(Word::Protected, depth)?;
    if cursor.shows(Seen::Word(Word::Pure)) {
        cursor.word(Word::Pure, depth)?;
        return Ok((true, Access::Protected));
    }
    Ok((false, Access::Protected))
}
