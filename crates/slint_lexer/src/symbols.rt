ghost use Rattle.std.specs.Prelude.{◌≡◌};
ghost use Rattle.slint_lexer.specs.Reading.{three_bytes, and_equal, and_greater, two_bytes, bracket, operator, mark, one_byte, first_of, with_length, longer, top_symbol};

use crate::Symbol;

/// The symbol of a byte and `=`.
fn and_equal(first: u8) -> Option<Symbol>
    ensures { result ≡ and_equal first }
{
    match first {
        b':' => Some(Symbol::ColonEqual),
        b'=' => Some(Symbol::EqualEqual),
        b'!' => Some(Symbol::NotEqual),
        b'<' => Some(Symbol::LessEqual),
        b'>' => Some(Symbol::GreaterEqual),
        b'+' => Some(Symbol::PlusEqual),
        b'-' => Some(Symbol::MinusEqual),
        b'*' => Some(Symbol::StarEqual),
        b'/' => Some(Symbol::SlashEqual),
        _ => None,
    }
}

/// The symbol of a byte and `>`.
fn and_greater(first: u8) -> Option<Symbol>
    ensures { result ≡ and_greater first }
{
    match first {
        b'=' => Some(Symbol::FatArrow),
        b'-' => Some(Symbol::ThinArrow),
        _ => None,
    }
}

/// The symbol of these two bytes.
fn two_bytes(first: u8, second: u8) -> Option<Symbol>
    ensures { result ≡ two_bytes first second }
{
    match (first, second) {
        (_, b'=') => and_equal(first),
        (_, b'>') => and_greater(first),
        (b'&', b'&') => Some(Symbol::AndAnd),
        (b'|', b'|') => Some(Symbol::OrOr),
        _ => None,
    }
}

/// The bracket that this byte is.
fn bracket(byte: u8) -> Option<Symbol>
    ensures { result ≡ bracket byte }
{
    match byte {
        b'{' => Some(Symbol::OpenBrace),
        b'}' => Some(Symbol::CloseBrace),
        b'(' => Some(Symbol::OpenParen),
        b')' => Some(Symbol::CloseParen),
        b'[' => Some(Symbol::OpenBracket),
        b']' => Some(Symbol::CloseBracket),
        _ => None,
    }
}

/// The operator that this byte is.
fn operator(byte: u8) -> Option<Symbol>
    ensures { result ≡ operator byte }
{
    match byte {
        b'<' => Some(Symbol::Less),
        b'>' => Some(Symbol::Greater),
        b'=' => Some(Symbol::Equal),
        b'!' => Some(Symbol::Bang),
        b'+' => Some(Symbol::Plus),
        b'-' => Some(Symbol::Minus),
        b'*' => Some(Symbol::Star),
        b'/' => Some(Symbol::Slash),
        _ => None,
    }
}

/// The mark that this byte is.
fn mark(byte: u8) -> Option<Symbol>
    ensures { result ≡ mark byte }
{
    match byte {
        b':' => Some(Symbol::Colon),
        b';' => Some(Symbol::Semicolon),
        b',' => Some(Symbol::Comma),
        b'.' => Some(Symbol::Dot),
        b'?' => Some(Symbol::Question),
        b'@' => Some(Symbol::At),
        _ => None,
    }
}

/// The first that is there.
fn first_of(first: Option<Symbol>, other: Option<Symbol>) -> Option<Symbol>
    ensures { result ≡ first_of first other }
{
    match first {
        Some(symbol) => Some(symbol),
        None => other,
    }
}

/// The symbol of this byte alone.
fn one_byte(byte: u8) -> Option<Symbol>
    ensures { result ≡ one_byte byte }
{
    first_of(bracket(byte), first_of(operator(byte), mark(byte)))
}

/// A symbol and how many bytes spell it.
fn with_length(symbol: Option<Symbol>, length: usize) -> Option<(Symbol, usize)>
    ensures { result ≡ with_length length symbol }
{
    match symbol {
        Some(symbol) => Some((symbol, length)),
        None => None,
    }
}

/// The longer symbol, where there is one.
fn longer(long: Option<(Symbol, usize)>, short: Option<(Symbol, usize)>) -> Option<(Symbol, usize)>
    ensures { result ≡ longer long short }
{
    match long {
        Some(found) => Some(found),
        None => short,
    }
}

/// The symbol of three bytes.
fn three_bytes(first: u8, second: u8, behind: &[u8]) -> Option<Symbol>
    ensures { result ≡ three_bytes first second behind.now }
{
    match behind.first() {
        Some(b'>') if first == b'<' && second == b'=' => Some(Symbol::TwoWay),
        _ => None,
    }
}

/// The longest symbol at the front, and how many bytes spell it.
pub(crate) fn top_symbol(bytes: &[u8]) -> Option<(Symbol, usize)>
    ensures { result ≡ top_symbol bytes.now }
{
    match bytes {
        [] => None,
        [a] => with_length(one_byte(*a), 1),
        [a, b, behind @ ..] => longer(
            with_length(three_bytes(*a, *b, behind), 3),
            longer(
                with_length(two_bytes(*a, *b), 2),
                with_length(one_byte(*a), 1),
            ),
        ),
    }
}
