ghost use Rattle.std.specs.Prelude.{◌≡◌, ◌+◌, ◌^◌, ◌<◌, ◌≤◌, Bool, true, false, length, drop, take, IfOk};
ghost use Rattle.std.specs.Str.{IsUtf8};
ghost use Rattle.slint_literals.specs.Numbers.{number_value};
ghost use Rattle.slint_literals.specs.Colours.{colour_value};
ghost use Rattle.slint_lexer.specs.declared.classes.Class.TheVariants.{Blank as blank_class, Digit as digit_class, Hash as hash_class, Close as close_class, Slash as slash_class, Word as word_class, Other as other_class};
ghost use Rattle.slint_lexer.specs.Pieces.{number_what, colour_what, class_of};
ghost use Rattle.slint_lexer.specs.Found.{IsFound, BeginsText, BeginsBlock, found_of, text_found, nothing_found, comment_found, symbol_found, hash_length};

use crate::classes::{Class, Second, class_of, second_of};
use crate::comments::{comment_walk, line_walk};
use crate::names::name_length;
use crate::symbols::top_symbol;
use crate::{Symbol, TokenKind};
use slint_base::{Memory, Name, Rule, Text};
use slint_literals::{
    Look, Number, char_len, number_length, read_colour, read_number, text_look, text_of, text_run,
};
use std::alloc::Global;

/// What lies at the front of bytes.
#[derive(Debug, Drop)]
pub(crate) enum Found {
    /// A separator of so many bytes.
    Apart(usize),
    /// A token of so many bytes.
    Token(TokenKind, usize),
    /// The spelling of a token whose value breaks the rule, of so many bytes.
    Bad(Rule, usize),
    /// Nothing begins there: the rule that is broken, after how many bytes, and how many bytes break it.
    Breaks(Rule, usize, usize),
}

/// A number of so many bytes, by its value.
fn number_found(value: Option<Number>, length: usize) -> Found
    ensures { result ≡ found_of (number_what value) length }
{
    match value {
        Some(number) => Found::Token(TokenKind::Number(number), length),
        None => Found::Bad(Rule::BadNumber, length),
    }
}

/// The number at the front.
fn number(bytes: &[u8], ends: bool) -> Found
    requires { class_of bytes.now ≡ digit_class }
    ensures { IsFound ends bytes.now result }
{
    let length = number_length(bytes);
    number_found(read_number(&bytes[..length]), length)
}

/// A colour of so many bytes, by its value.
fn colour_found(value: Option<u32>, length: usize) -> Found
    ensures { result ≡ found_of (colour_what value) length }
{
    match value {
        Some(colour) => Found::Token(TokenKind::Colour(colour), length),
        None => Found::Bad(Rule::BadToken, length),
    }
}

/// How many ASCII letters and digits lie at the front.
fn hash_length(bytes: &[u8]) -> usize
    ensures { result ≡ hash_length bytes.now }
{
    bytes
        .iter()
        .take_while(|b| b.is_ascii_alphanumeric())
        .count()
}

/// The colour at the front.
fn colour(bytes: &[u8], ends: bool) -> Found
    requires { class_of bytes.now ≡ hash_class }
    ensures { IsFound ends bytes.now result }
{
    let behind = bytes.split_at(1).1;
    let length = hash_length(behind);
    colour_found(read_colour(behind.split_at(length).0), length + 1)
}

/// The name at the front.
fn word(alloc: Global, bytes: &[u8], ends: bool) -> Result<Found, Memory>
    requires { class_of bytes.now ≡ word_class }
    ensures { IfOk result (λ found. IsFound ends bytes.now found) }
{
    let length = name_length(bytes);
    let name = Name::normal(alloc, text_of(bytes.split_at(length).0))?;
    Ok(Found::Token(TokenKind::Id(name), length))
}

/// A piece of a string, by what stands behind the run of `at` bytes.
fn text_found(first: bool, text: Text, at: usize, look: Look) -> Found
    requires { at < 2 ^ 63 }
    ensures { result ≡ text_found first text at look }
{
    match (look, first) {
        (Look::Quote, true) => Found::Token(TokenKind::Str(text), at + 1),
        (Look::Quote, false) => Found::Token(TokenKind::Tail(text), at + 1),
        (Look::Hole, true) => Found::Token(TokenKind::Head(text), at + 2),
        (Look::Hole, false) => Found::Token(TokenKind::Mid(text), at + 2),
        (Look::BadEscape(length), _) => Found::Breaks(Rule::BadEscape, at, length),
        (Look::NotUtf8, _) => Found::Breaks(Rule::NotUtf8, at, 1),
        _ => Found::Breaks(Rule::BadToken, 0, 1),
    }
}

/// The piece of a string at the front, the first one of the string or a further one.
fn string(alloc: Global, first: bool, bytes: &[u8], ends: bool) -> Result<Found, Memory>
    requires { BeginsText first ends bytes.now }
    ensures { IfOk result (λ found. IsFound ends bytes.now found) }
{
    let behind = bytes.split_at(1).1;
    let run = text_run(alloc, behind)?;
    let look = text_look(behind.split_at(run.length).1);
    Ok(text_found(first, run.text, run.length + 1, look))
}

/// What a character of so many bytes is where nothing begins.
fn nothing_found(length: usize) -> Found
    ensures { result ≡ nothing_found length }
{
    if length == 0 {
        Found::Breaks(Rule::NotUtf8, 0, 1)
    } else {
        Found::Breaks(Rule::BadToken, 0, length)
    }
}

/// A symbol, or what a character of so many bytes is where none begins.
fn symbol_found(symbol: Option<(Symbol, usize)>, length: usize) -> Found
    ensures { result ≡ symbol_found symbol length }
{
    match symbol {
        Some((symbol, length)) => Found::Token(TokenKind::Symbol(symbol), length),
        None => nothing_found(length),
    }
}

/// The symbol at the front, or what is wrong there.
fn other(bytes: &[u8], ends: bool) -> Found
    requires class { class_of bytes.now ≡ other_class }
    requires some { 0 < length bytes.now }
    ensures { IsFound ends bytes.now result }
{
    symbol_found(top_symbol(bytes), char_len(bytes))
}

/// A comment that nests, by how many comments are open at the end of a walk of `at` bytes, and whether the bytes end there.
fn comment_found(depth: usize, at: usize, ended: bool) -> Found
    ensures { result ≡ comment_found depth at ended }
{
    if depth == 0 {
        Found::Apart(at)
    } else if ended {
        Found::Breaks(Rule::BadToken, 0, 2)
    } else {
        Found::Breaks(Rule::NotUtf8, at, 1)
    }
}

/// The comment that nests at the front.
fn comment(bytes: &[u8], ends: bool) -> Found
    requires { BeginsBlock bytes.now }
    ensures { IsFound ends bytes.now result }
{
    let (depth, at) = comment_walk(bytes);
    comment_found(depth, at, at == bytes.len())
}

/// The comment or the symbol at the front.
fn slash(bytes: &[u8], ends: bool) -> Found
    requires { class_of bytes.now ≡ slash_class }
    ensures { IsFound ends bytes.now result }
{
    match second_of(bytes.split_at(1).1) {
        Second::Block => comment(bytes, ends),
        Second::Line => Found::Apart(line_walk(bytes)),
        Second::Neither => symbol_found(top_symbol(bytes), 1),
    }
}

/// The closing brace at the front, or where it ends a hole the piece of the string that it begins.
fn close(alloc: Global, bytes: &[u8], ends: bool) -> Result<Found, Memory>
    requires { class_of bytes.now ≡ close_class }
    ensures { IfOk result (λ found. IsFound ends bytes.now found) }
{
    if ends {
        return string(alloc, false, bytes, ends);
    }
    Ok(Found::Token(TokenKind::Symbol(Symbol::CloseBrace), 1))
}

/// What lies at the front of bytes; `ends` tells whether a closing brace there ends a hole.
pub(crate) fn front_piece(alloc: Global, bytes: &[u8], ends: bool) -> Result<Found, Memory>
    requires { 0 < length bytes.now }
    ensures { IfOk result (λ found. IsFound ends bytes.now found) }
{
    match class_of(bytes) {
        Class::Blank => Ok(Found::Apart(1)),
        Class::Digit => Ok(number(bytes, ends)),
        Class::Hash => Ok(colour(bytes, ends)),
        Class::Quote => string(alloc, true, bytes, ends),
        Class::Close => close(alloc, bytes, ends),
        Class::Slash => Ok(slash(bytes, ends)),
        Class::Word => word(alloc, bytes, ends),
        Class::Other => Ok(other(bytes, ends)),
    }
}
