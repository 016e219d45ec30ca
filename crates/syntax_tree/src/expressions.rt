ghost use Rattle.std.specs.Prelude.{◌≡◌};
ghost use Rattle.syntax_tree.specs.Spans.{expr_span};

use crate::{Ident, Quoted};
use slint_base::{Span, Text};
use slint_literals::Number;
use sqlite_items::{Boxed, Items};

/// An operator before its operand.
#[derive(Clone, Copy, PartialEq, Eq)]
pub enum PrefixOp {
    Not,
    Minus,
    Plus,
}

/// An operator between two operands.
#[derive(Clone, Copy, PartialEq, Eq)]
pub enum BinaryOp {
    And,
    Or,
    Equal,
    NotEqual,
    Less,
    LessEqual,
    Greater,
    GreaterEqual,
    Add,
    Sub,
    Mul,
    Div,
}

/// An expression. Its stretch, the last field, goes from its first token to its last one.
#[cycle(expressions)]
#[derive(Drop)]
pub enum Expr {
    Number(Number, Span),
    /// A colour as rrggbbaa.
    Colour(u32, Span),
    /// A string without holes.
    Text(Text, Span),
    /// A string with holes: its text up to the first hole, and the holes in their order.
    Template(Text, Items<Hole>, Span),
    Name(Ident, Span),
    /// An expression in parentheses, which are part of the stretch.
    Paren(Boxed<Expr>, Span),
    Array(Items<Expr>, Span),
    Struct(Items<FieldValue>, Span),
    /// `@image-url` of a path.
    ImageUrl(Quoted, Span),
    /// `@tr`: the context if one is written, the text, and the arguments.
    Tr(Option<Quoted>, Quoted, Items<Expr>, Span),
    /// One or more suffixes behind an expression, from left to right.
    Postfix(Boxed<Expr>, Items<Suffix>, Span),
    Prefix(PrefixOp, Boxed<Expr>, Span),
    /// A first operand, and one or more others behind an operator each, from left to right. The operators of one chain bind
    /// equally: all are `&&`, all are `||`, one comparison stands alone, sums are of `+` and `-`, products of `*` and `/`.
    Chain(Boxed<Expr>, Items<Operand>, Span),
    /// `condition ? yes : no`.
    Choice(Boxed<Expr>, Boxed<Expr>, Boxed<Expr>, Span),
}

/// A hole of a string: its expression, and the text behind it up to the next hole or the end.
#[cycle(expressions)]
#[derive(Drop)]
pub struct Hole {
    pub value: Expr,
    pub behind: Text,
}

/// A field of a struct literal.
#[cycle(expressions)]
#[derive(Drop)]
pub struct FieldValue {
    pub name: Ident,
    pub value: Expr,
}

/// What stands behind an expression: a member behind a point, arguments with the stretch of their parentheses, or an
/// index with that of its brackets.
#[cycle(expressions)]
#[derive(Drop)]
pub enum Suffix {
    Member(Ident),
    Call(Items<Expr>, Span),
    Index(Expr, Span),
}

/// An operator with the operand behind it.
#[cycle(expressions)]
#[derive(Drop)]
pub struct Operand {
    pub op: BinaryOp,
    pub right: Expr,
}

impl Expr {
    /// The stretch from the expression's first token to its last one.
    pub fn span(&self) -> Span
        ensures { result ≡ expr_span self.now }
    {
        match self {
            Expr::Number(_, span)
            | Expr::Colour(_, span)
            | Expr::Text(_, span)
            | Expr::Template(_, _, span)
            | Expr::Name(_, span)
            | Expr::Paren(_, span)
            | Expr::Array(_, span)
            | Expr::Struct(_, span)
            | Expr::ImageUrl(_, span)
            | Expr::Tr(_, _, _, span)
            | Expr::Postfix(_, _, span)
            | Expr::Prefix(_, _, span)
            | Expr::Chain(_, _, span)
            | Expr::Choice(_, _, _, span) => *span,
        }
    }
}
