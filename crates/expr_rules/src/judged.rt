use name_lookup::Meaning;
use slint_base::Span;
use sqlite_items::Boxed;
use typed_tree::{TypedBlock, TypedStmt};

/// What a node of a source comes to.
#[derive(Drop)]
pub enum Judged {
    /// An expression: what it stands for.
    Denoted(Boxed<Denoted>),
    /// A field's name that is new among those before it.
    Fresh,
    Stmt(Boxed<TypedStmt>),
    Block(TypedBlock),
}

/// What an expression stands for.
#[derive(Drop)]
pub struct Denoted {
    pub meaning: Meaning,
    /// The name of the member that it goes back to, where a misuse of the member is told; without one, the whole expression.
    pub name: Span,
    /// Whether it is written as names with points between them.
    pub is_plain: bool,
}
