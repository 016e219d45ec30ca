ghost use Rattle.std.specs.Prelude.{◌≡◌};
ghost use Rattle.slint_lexer.specs.Pieces.{is_blank, class_of, second_of};

use crate::names::begins_name;

/// What the first byte tells of a piece of a source.
#[derive(Clone, Copy, Debug, PartialEq, Eq)]
pub(crate) enum Class {
    /// A separator.
    Blank,
    /// A number.
    Digit,
    /// A colour.
    Hash,
    /// A string, or its piece up to the first hole.
    Quote,
    /// A closing brace, or where it ends a hole a further piece of a string.
    Close,
    /// A comment or a symbol.
    Slash,
    /// A name.
    Word,
    /// A symbol, or nothing.
    Other,
}

/// What the byte behind a slash tells.
#[derive(Clone, Copy, Debug, PartialEq, Eq)]
pub(crate) enum Second {
    /// The slash begins a comment that nests.
    Block,
    /// The slash begins a comment up to the line's end.
    Line,
    /// The slash begins a symbol.
    Neither,
}

/// Whether a byte separates tokens.
fn is_blank(byte: u8) -> bool
    ensures { result ≡ is_blank byte }
{
    matches!(byte, b'\t' | b'\n' | 0x0c | b'\r' | b' ')
}

/// What the first byte tells of a piece.
pub(crate) fn class_of(bytes: &[u8]) -> Class
    ensures { result ≡ class_of bytes.now }
{
    let Some(first) = bytes.first() else {
        return Class::Other;
    };
    if is_blank(*first) {
        return Class::Blank;
    }
    match first {
        b'0'..=b'9' => Class::Digit,
        b'#' => Class::Hash,
        b'"' => Class::Quote,
        b'}' => Class::Close,
        b'/' => Class::Slash,
        _ if begins_name(bytes) => Class::Word,
        _ => Class::Other,
    }
}

/// What the byte behind a slash tells.
pub(crate) fn second_of(bytes: &[u8]) -> Second
    ensures { result ≡ second_of bytes.now }
{
    match bytes.first() {
        Some(b'*') => Second::Block,
        Some(b'/') => Second::Line,
        _ => Second::Neither,
    }
}
