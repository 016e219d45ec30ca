use slint_base::{Name, Span, Text};
use slint_literals::Number;

/// A symbol: a token that has one spelling.
#[derive(Clone, Copy, Debug, PartialEq, Eq)]
pub enum Symbol {
    /// `<=>`
    TwoWay,
    /// `:=`
    ColonEqual,
    /// `=>`
    FatArrow,
    /// `->`
    ThinArrow,
    /// `==`
    EqualEqual,
    /// `!=`
    NotEqual,
    /// `<=`
    LessEqual,
    /// `>=`
    GreaterEqual,
    /// `+=`
    PlusEqual,
    /// `-=`
    MinusEqual,
    /// `*=`
    StarEqual,
    /// `/=`
    SlashEqual,
    /// `&&`
    AndAnd,
    /// `||`
    OrOr,
    OpenBrace,
    CloseBrace,
    OpenParen,
    CloseParen,
    OpenBracket,
    CloseBracket,
    Less,
    Greater,
    Equal,
    Colon,
    Semicolon,
    Comma,
    Dot,
    Bang,
    Question,
    Plus,
    Minus,
    Star,
    Slash,
    At,
}

/// What a token is, with what its spelling says.
#[derive(Debug, Drop)]
pub enum TokenKind {
    /// A name, as names are compared.
    Id(Name),
    /// A number.
    Number(Number),
    /// A colour, as `rrggbbaa`.
    Colour(u32),
    /// A string without holes: the text that it spells.
    Str(Text),
    /// The text before the first hole of a string.
    Head(Text),
    /// The text between two holes of a string.
    Mid(Text),
    /// The text behind the last hole of a string.
    Tail(Text),
    /// A symbol.
    Symbol(Symbol),
}

/// A token, and the stretch of the source that spells it.
#[derive(Debug, Drop)]
pub struct Token {
    pub kind: TokenKind,
    pub span: Span,
}
