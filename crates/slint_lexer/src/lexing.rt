ghost use Rattle.std.specs.Prelude.{◌≡◌, ◌+◌, ◌^◌, ◌<◌, ◌≤◌, length, drop, IfOk, IfErr};
ghost use Rattle.slint_lexer.specs.Lexing.{AreTokens, EndsLexing, behind_mark};
ghost use Rattle.slint_lexer.specs.Found.{FitsFile, TakesPiece, EndsPiece, fault_from, token_from};

use crate::found::{Found, front_piece};
use crate::marks::{Mark, ends_hole, note_token};
use crate::{Token, TokenKind};
use slint_base::{End, Fault, Rule, Span};
use std::alloc::Global;

/// How many bytes a U+FEFF has that stands at the start of a file.
fn mark_length(bytes: &[u8]) -> usize
    ensures within { result ≤ length bytes.now }
    ensures value { drop result bytes.now ≡ behind_mark bytes.now }
{
    if bytes.starts_with(&[0xef, 0xbb, 0xbf]) {
        3
    } else {
        0
    }
}

/// A broken rule, from a place in a file on, over so many bytes.
fn fault_from(file: u32, rule: Rule, start: usize, count: usize) -> Fault
    requires { start + count < 2 ^ 32 }
    ensures { result ≡ fault_from file rule start count }
{
    let span = Span {
        file,
        start: start as u32,
        end: (start + count) as u32,
    };
    Fault { rule, span }
}

/// A token of so many bytes, from a place in a file on.
fn token_from(file: u32, start: usize, kind: TokenKind, count: usize) -> Token
    requires { start + count < 2 ^ 32 }
    ensures { result ≡ token_from file start kind count }
{
    let span = Span {
        file,
        start: start as u32,
        end: (start + count) as u32,
    };
    Token { kind, span }
}

/// Takes what was found at a place in a file, and tells how many bytes it has; a fault is how it ends where nothing can be taken.
fn take_piece(
    file: u32,
    at: usize,
    found: Found,
    tokens: &mut Vec<Token>,
    held: &mut Vec<Mark>,
) -> Result<usize, End<Fault>>
    requires { FitsFile at found }
    ensures takes { IfOk result (TakesPiece file at found tokens.old.items held.old.items tokens.new.items held.new.items) }
    ensures fault { IfErr result (EndsPiece file at found) }
{
    match found {
        Found::Apart(length) => Ok(length),
        Found::Token(kind, length) => {
            note_token(held, &kind)?;
            tokens.push(token_from(file, at, kind, length))?;
            Ok(length)
        }
        Found::Bad(rule, length) => Err(End::Fault(fault_from(file, rule, at, length))),
        Found::Breaks(rule, from, count) => Err(End::Fault(fault_from(
            file,
            rule,
            at + from,
            count,
        ))),
    }
}

/// The tokens of a source, the longest at each place, with separators and comments between them.
///
/// `file` is the source's number, which each span has. Separators are space, tab, line feed, form feed, carriage return, and U+FEFF
/// at the file's start; comments go from `//` to the line's end, or from `/*` to `*/`, and those nest. A string may have holes, from
/// `\{` to the brace that closes it. The fault is the first place that breaks a rule: a byte that begins no character, a
/// character that begins no token, a string or a comment that is unclosed, a number or a colour that has no value, a bad escape.
pub fn lex(alloc: Global, file: u32, bytes: &[u8]) -> Result<Vec<Token>, End<Fault>>
    requires { length bytes.now < 2 ^ 32 }
    ensures tokens { IfOk result (λ tokens. AreTokens file bytes.now tokens.items) }
    ensures fault { IfErr result (EndsLexing file bytes.now) }
{
    let mut tokens = Vec::new(alloc);
    let mut held = Vec::new(alloc);
    let mut at = mark_length(bytes);
    while at < bytes.len() {
        let found = front_piece(alloc, bytes.split_at(at).1, ends_hole(&held))?;
        at += take_piece(file, at, found, &mut tokens, &mut held)?;
    }
    Ok(tokens)
}
