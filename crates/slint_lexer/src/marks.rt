ghost use Rattle.std.specs.Prelude.{◌≡◌, IfOk};
ghost use Rattle.slint_lexer.specs.Lexing.{ends_hole, is_hole, behind_token};

use crate::{Symbol, TokenKind};
use slint_base::Memory;

/// What stands open where a source is read: a brace, or a hole of a string.
#[derive(Clone, Copy, Debug, PartialEq, Eq)]
pub enum Mark {
    Brace,
    Hole,
}

/// Whether the innermost of these is a hole, which a closing brace ends.
pub(crate) fn ends_hole(held: &[Mark]) -> bool
    ensures { result ≡ ends_hole held.now }
{
    match held.last() {
        Some(Mark::Hole) => true,
        _ => false,
    }
}

/// Notes what a token opens and what it closes.
pub(crate) fn note_token(held: &mut Vec<Mark>, kind: &TokenKind) -> Result<(), Memory>
    ensures { IfOk result (λ _. held.new.items ≡ behind_token kind.now held.old.items) }
{
    match kind {
        TokenKind::Symbol(Symbol::OpenBrace) => held.push(Mark::Brace)?,
        TokenKind::Head(_) => held.push(Mark::Hole)?,
        TokenKind::Symbol(Symbol::CloseBrace) | TokenKind::Tail(_) => {
            let _closed = held.pop();
        }
        _ => {}
    }
    Ok(())
}
