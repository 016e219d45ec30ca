//! Values, where a brace begins a struct literal or a block.

ghost use Rattle.std.specs.Prelude.{◌≡◌, ◌≤◌, ◌+◌, IsTrue, drop, true, false};
ghost use Rattle.slint_grammar.specs.Parts as part;
ghost use Rattle.slint_grammar.specs.Derivations.{deepest_token};
ghost use Rattle.slint_parser.specs.Readings.{seen, stop_at, Reads};
ghost use Rattle.slint_parser.specs.Values.{is_field, is_plain, rule_behind};

use crate::cursor::Cursor;
use crate::starts::Start;
use crate::statements::{block_value, expr_value};
use crate::stops::{DEEPEST, Seen, Stop};
use slint_base::{End, Rule, Span};
use slint_grammar::Word;
use slint_lexer::Symbol;
use std::alloc::Global;
use syntax_tree::Value;

/// A value, and where it ends.
pub fn value(
    alloc: Global,
    cursor: &mut Cursor<'_>,
    depth: usize,
) -> Result<(Value, Span), End<Stop>>
    requires low { depth ≤ deepest_token }
    ensures { Reads part.Value depth cursor.old result cursor.new }
{
    if cursor.sees(Symbol::OpenBrace) {
        return braced_value(alloc, cursor, depth);
    }
    expr_value(alloc, cursor, depth, Start::InValue)
}

fn braced_value(
    alloc: Global,
    cursor: &mut Cursor<'_>,
    depth: usize,
) -> Result<(Value, Span), End<Stop>>
    requires low { depth ≤ deepest_token }
    requires is_open { seen cursor.old ≡ Seen.Symbol Symbol.OpenBrace }
    ensures { Reads part.Value depth cursor.old result cursor.new }
{
    if is_field(cursor.ahead(1), cursor.ahead(2)) {
        return expr_value(alloc, cursor, depth, Start::InValue);
    }
    if is_too_deep(cursor.ahead(1), depth) {
        let rule = rule_behind(cursor.ahead(2));
        return Err(cursor.refuse_ahead(2, rule));
    }
    block_value(alloc, cursor, depth)
}

/// Whether these are a field's name and its colon.
fn is_field(name: Seen, colon: Seen) -> bool
    ensures { result ≡ is_field name colon }
{
    match (name, colon) {
        (Seen::Word(_), Seen::Symbol(Symbol::Colon)) => true,
        _ => false,
    }
}

/// Whether a brace is as deep as a token may be, and this, as the head of a statement behind it, would be one deeper. As a
/// field's name it isn't.
fn is_too_deep(name: Seen, depth: usize) -> bool
    requires { depth ≤ deepest_token }
    ensures deep { IsTrue result → (depth + 1 ≡ deepest_token) }
    ensures plain { IsTrue result → (is_plain name ≡ true) }
    ensures not_deep { result ≡ false → is_plain name ≡ true → depth + 1 ≡ deepest_token → ⊥ }
{
    if depth + 1 != DEEPEST {
        return false;
    }
    is_plain(name)
}

/// Whether this begins an expression at the head of a statement, as a name.
fn is_plain(seen: Seen) -> bool
    ensures { result ≡ is_plain seen }
{
    match seen {
        Seen::Word(Word::If | Word::Return) => false,
        Seen::Word(_) => true,
        _ => false,
    }
}

/// The rule that a token breaks behind a name that is too deep as the head of a statement.
fn rule_behind(seen: Seen) -> Rule
    ensures { result ≡ rule_behind seen }
{
    match seen {
        Seen::Symbol(
            Symbol::Dot
            | Symbol::OpenParen
            | Symbol::OpenBracket
            | Symbol::Star
            | Symbol::Slash
            | Symbol::Plus
            | Symbol::Minus
            | Symbol::EqualEqual
            | Symbol::NotEqual
            | Symbol::Less
            | Symbol::LessEqual
            | Symbol::Greater
            | Symbol::GreaterEqual
            | Symbol::AndAnd
            | Symbol::OrOr
            | Symbol::Question
            | Symbol::Equal
            | Symbol::PlusEqual
            | Symbol::MinusEqual
            | Symbol::StarEqual
            | Symbol::SlashEqual
            | Symbol::Semicolon
            | Symbol::CloseBrace,
        ) => Rule::TooDeep,
        _ => Rule::Syntax,
    }
}
