ghost use Rattle.std.specs.Prelude.{◌≡◌, ◌∷◌, ◌++◌, [], IfOk};
ghost use Rattle.slint_literals.specs.Printed.{printed_text};
ghost use Rattle.slint_lexer.specs.Symbols.{symbol_text};
ghost use Rattle.slint_lexer.specs.Spelled.{spelled, written};

use crate::{Symbol, TokenKind};
use slint_base::{Memory, Text};
use slint_literals::{print_colour, print_number, print_text};
use std::alloc::Global;

/// The one spelling of a symbol.
fn symbol_text(symbol: Symbol) -> &'static str
    ensures { result.now ≡ symbol_text symbol }
{
    match symbol {
        Symbol::TwoWay => "<=>",
        Symbol::ColonEqual => ":=",
        Symbol::FatArrow => "=>",
        Symbol::ThinArrow => "->",
        Symbol::EqualEqual => "==",
        Symbol::NotEqual => "!=",
        Symbol::LessEqual => "<=",
        Symbol::GreaterEqual => ">=",
        Symbol::PlusEqual => "+=",
        Symbol::MinusEqual => "-=",
        Symbol::StarEqual => "*=",
        Symbol::SlashEqual => "/=",
        Symbol::AndAnd => "&&",
        Symbol::OrOr => "||",
        Symbol::OpenBrace => "{",
        Symbol::CloseBrace => "}",
        Symbol::OpenParen => "(",
        Symbol::CloseParen => ")",
        Symbol::OpenBracket => "[",
        Symbol::CloseBracket => "]",
        Symbol::Less => "<",
        Symbol::Greater => ">",
        Symbol::Equal => "=",
        Symbol::Colon => ":",
        Symbol::Semicolon => ";",
        Symbol::Comma => ",",
        Symbol::Dot => ".",
        Symbol::Bang => "!",
        Symbol::Question => "?",
        Symbol::Plus => "+",
        Symbol::Minus => "-",
        Symbol::Star => "*",
        Symbol::Slash => "/",
        Symbol::At => "@",
    }
}

/// Appends the bytes of a text.
fn push_str(out: &mut Vec<u8>, text: &str) -> Result<(), Memory>
    ensures { IfOk result (λ _. out.new.items ≡ out.old.items ++ text.now) }
{
    out.extend_from_slice(text.as_bytes())?;
    Ok(())
}

/// Appends a piece of a string between what opens it and what closes it.
fn push_piece(out: &mut Vec<u8>, first: u8, text: &Text, close: &str) -> Result<(), Memory>
    ensures { IfOk result (λ _. out.new.items ≡ out.old.items ++ (first ∷ (printed_text text.now ++ close.now))) }
{
    out.push(first)?;
    print_text(out, text.as_str())?;
    push_str(out, close)?;
    Ok(())
}

/// Appends the spelling of a token.
fn push_spelled(alloc: Global, out: &mut Vec<u8>, kind: &TokenKind) -> Result<(), Memory>
    ensures { IfOk result (λ _. out.new.items ≡ out.old.items ++ spelled kind.now) }
{
    match kind {
        TokenKind::Id(name) => push_str(out, name.as_str()),
        TokenKind::Number(number) => print_number(alloc, out, *number),
        TokenKind::Colour(colour) => print_colour(out, *colour),
        TokenKind::Str(text) => push_piece(out, b'"', text, "\""),
        TokenKind::Head(text) => push_piece(out, b'"', text, "\\{"),
        TokenKind::Mid(text) => push_piece(out, b'}', text, "\\{"),
        TokenKind::Tail(text) => push_piece(out, b'}', text, "\""),
        TokenKind::Symbol(symbol) => push_str(out, symbol_text(*symbol)),
    }
}

/// Appends a token as it is written so that it is read again, with one space behind it. After an error some of it may stand there.
pub fn write_token(alloc: Global, out: &mut Vec<u8>, kind: &TokenKind) -> Result<(), Memory>
    ensures { IfOk result (λ _. out.new.items ≡ out.old.items ++ written (kind.now ∷ [])) }
{
    push_spelled(alloc, out, kind)?;
    out.push(b' ')?;
    Ok(())
}
