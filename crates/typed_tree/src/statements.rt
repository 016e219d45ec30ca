use crate::{MemberRef, TypedExpr, TypedStep};
use slint_base::Span;
use sqlite_items::Items;

/// Statements in braces. In a block that gives a value each path ends in `Return` with that value: a last expression statement is one.
#[cycle(typed_statements)]
#[derive(Drop)]
pub struct TypedBlock {
    pub stmts: Items<TypedStmt>,
    pub span: Span,
}

/// A statement. A semicolon that closes it is no part of its stretch.
#[cycle(typed_statements)]
#[derive(Drop)]
pub struct TypedStmt {
    pub kind: StmtKind,
    pub span: Span,
}

/// What a statement does.
#[cycle(typed_statements)]
#[derive(Drop)]
pub enum StmtKind {
    /// The block for true, and the one for false, which is empty where no `else` is written; an `else if` is a block of one `if`.
    If(TypedExpr, TypedBlock, TypedBlock),
    /// The block's end, with its value if it gives one.
    Return(Option<TypedExpr>),
    /// A lone semicolon.
    Empty,
    /// An expression whose value is dropped.
    Expr(TypedExpr),
    /// An assignment; `p op= e` is that of `p op e`.
    Assign(Target, TypedExpr),
}

/// What is assigned: a property or the item of a row, or a part of it.
#[derive(Drop)]
pub struct Target {
    pub base: TargetBase,
    pub steps: Items<TypedStep>,
}

/// Where an assignment begins.
#[derive(Clone, Copy)]
pub enum TargetBase {
    Property(MemberRef),
    /// The item of the row at hand of a repeated element.
    RowItem(usize),
}

/// What is bound to a property or run by a handler.
#[derive(Drop)]
pub enum TypedValue {
    Expr(TypedExpr),
    Block(TypedBlock),
}
