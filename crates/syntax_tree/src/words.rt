use slint_base::{Name, Span, Text};
use sqlite_items::Items;

/// A name, normal, and the stretch that spells it.
#[derive(Drop)]
pub struct Ident {
    pub name: Name,
    pub span: Span,
}

/// A string without holes: its text, and the stretch that spells it with its quotes.
#[derive(Drop)]
pub struct Quoted {
    pub text: Text,
    pub span: Span,
}

/// Names with points between them.
#[derive(Drop)]
pub struct Path {
    pub first: Ident,
    pub rest: Items<Ident>,
}
