//! What the items of bodies and of globals begin with.

ghost use Rattle.std.specs.Prelude.{◌≡◌};
ghost use Rattle.slint_parser.specs.Heads.{head_at, head_of, pure_head, word_head};

use crate::cursor::Cursor;
use crate::stops::Seen;
use slint_grammar::Word;

/// What an item begins with.
#[derive(Clone, Copy)]
pub enum ItemHead {
    Property,
    Callback,
    Function,
    Changed,
    States,
    If,
    For,
    /// A name that is no word at the head of an item.
    Name,
    /// No name. Only the place of an element's children begins so.
    Nameless,
}

/// What the next item begins with.
pub fn item_head(cursor: &Cursor<'_>) -> ItemHead
    ensures { result ≡ head_at cursor.now }
{
    head_of(cursor.seen(), cursor.ahead(1))
}

/// What an item begins with that begins with these two tokens.
fn head_of(first: Seen, second: Seen) -> ItemHead
    ensures { result ≡ head_of first second }
{
    match first {
        Seen::Word(Word::Pure) => pure_head(second),
        Seen::Word(word) => word_head(word),
        _ => ItemHead::Nameless,
    }
}

/// What an item declares that begins with `pure`, by the token behind it.
fn pure_head(second: Seen) -> ItemHead
    ensures { result ≡ pure_head second }
{
    match second {
        Seen::Word(Word::Callback) => ItemHead::Callback,
        _ => ItemHead::Function,
    }
}

/// What an item begins with, by its first word.
fn word_head(word: Word) -> ItemHead
    ensures { result ≡ word_head word }
{
    match word {
        Word::Private | Word::In | Word::Out | Word::InOut | Word::Property => ItemHead::Property,
        Word::Callback => ItemHead::Callback,
        Word::Pure | Word::Public | Word::Protected | Word::Function => ItemHead::Function,
        Word::Changed => ItemHead::Changed,
        Word::States => ItemHead::States,
        Word::If => ItemHead::If,
        Word::For => ItemHead::For,
        _ => ItemHead::Name,
    }
}
