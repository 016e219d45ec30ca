use crate::Expr;
use slint_base::Span;
use sqlite_items::{Boxed, Items};

/// How an assignment changes what stands on its left.
#[derive(Clone, Copy, PartialEq, Eq)]
pub enum AssignOp {
    Set,
    Add,
    Sub,
    Mul,
    Div,
}

/// Statements in braces, which are the stretch's ends.
#[cycle(statements)]
#[derive(Drop)]
pub struct Block {
    pub stmts: Items<Stmt>,
    pub span: Span,
}

/// A statement. A semicolon that closes it is no part of its stretch.
#[cycle(statements)]
#[derive(Drop)]
pub enum Stmt {
    /// `if`: the condition, the block for true, and what stands behind them.
    If(Expr, Block, Else, Span),
    /// `return`, with or without a value.
    Return(Option<Expr>, Span),
    /// A lone semicolon.
    Empty(Span),
    Expr(Expr),
    /// What is assigned, how, and the right side.
    Assign(Expr, AssignOp, Expr, Span),
}

/// What stands behind the block of an `if`: nothing, `else` and another `if` with its parts, or `else` and a block.
#[cycle(statements)]
#[derive(Drop)]
pub enum Else {
    Nothing,
    ElseIf(Expr, Block, Boxed<Else>, Span),
    ElseBlock(Block),
}

/// What is bound to a property or run by a handler: a block, or one expression.
#[derive(Drop)]
pub enum Value {
    Block(Block),
    Expr(Expr),
}
