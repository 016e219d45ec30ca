ghost use Rattle.std.specs.Prelude.{◌≡◌, ◌∷◌, ◌++◌, [], IfOk, map, codes};
ghost use Rattle.slint_lexer.specs.declared.tokens.Symbol.TheVariants.{Semicolon as a_semicolon, OpenBrace as open_brace, CloseBrace as close_brace};
ghost use Rattle.slint_lexer.specs.declared.tokens.TokenKind.TheVariants.{Id as id_kind, Symbol as symbol_kind};
ghost use Rattle.syntax_tree.specs.Printed.{sign, in_order, if_some, in_braces, assign_sign, tokens_of_expr, tokens_of_block, tokens_of_stmt, tokens_of_else, tokens_of_value};
ghost use Rattle.syntax_tree.specs.Writes.{Writes};

use crate::print_exprs::print_expr;
use crate::writing::{write_symbol, write_word};
use crate::{AssignOp, Block, Else, Expr, Stmt, Value};
use slint_base::Memory;
use slint_lexer::Symbol;
use std::alloc::Global;

/// The symbol of an assignment.
fn assign_sign(op: AssignOp) -> Symbol
    ensures { result ≡ assign_sign op }
{
    match op {
        AssignOp::Set => Symbol::Equal,
        AssignOp::Add => Symbol::PlusEqual,
        AssignOp::Sub => Symbol::MinusEqual,
        AssignOp::Mul => Symbol::StarEqual,
        AssignOp::Div => Symbol::SlashEqual,
    }
}

/// Prints the symbol of an assignment.
fn print_assign_sign(alloc: Global, out: &mut Vec<u8>, op: AssignOp) -> Result<(), Memory>
    ensures { IfOk result (λ _. Writes out.old.items out.new.items (symbol_kind (assign_sign op) ∷ [])) }
{
    write_symbol(alloc, out, assign_sign(op))
}

/// Prints an expression, where there is one.
fn print_some_expr(alloc: Global, out: &mut Vec<u8>, expr: &Option<Expr>) -> Result<(), Memory>
    ensures { IfOk result (λ _. Writes out.old.items out.new.items (if_some tokens_of_expr expr.now)) }
{
    match expr {
        None => Ok(()),
        Some(expr) => print_expr(alloc, out, expr),
    }
}

/// Prints an expression with a semicolon.
fn print_closed_expr(alloc: Global, out: &mut Vec<u8>, expr: &Expr) -> Result<(), Memory>
    ensures { IfOk result (λ _. Writes out.old.items out.new.items (tokens_of_expr expr.now ++ sign a_semicolon)) }
{
    print_expr(alloc, out, expr)?;
    write_symbol(alloc, out, Symbol::Semicolon)?;
    Ok(())
}

/// Prints a `return` with its semicolon.
fn print_return(alloc: Global, out: &mut Vec<u8>, value: &Option<Expr>) -> Result<(), Memory>
    ensures { IfOk result (λ _. Writes out.old.items out.new.items ((id_kind (codes "return") ∷ if_some tokens_of_expr value.now) ++ sign a_semicolon)) }
{
    write_word(out, "return")?;
    print_some_expr(alloc, out, value)?;
    write_symbol(alloc, out, Symbol::Semicolon)?;
    Ok(())
}

/// Prints an assignment with its semicolon.
fn print_assign(
    alloc: Global,
    out: &mut Vec<u8>,
    left: &Expr,
    op: AssignOp,
    right: &Expr,
) -> Result<(), Memory>
    ensures { IfOk result (λ _. Writes out.old.items out.new.items ((tokens_of_expr left.now ++ (symbol_kind (assign_sign op) ∷ tokens_of_expr right.now)) ++ sign a_semicolon)) }
{
    print_expr(alloc, out, left)?;
    print_assign_sign(alloc, out, op)?;
    print_expr(alloc, out, right)?;
    write_symbol(alloc, out, Symbol::Semicolon)?;
    Ok(())
}

/// Prints a block.
#[cycle(print_stmts)]
pub(crate) fn print_block(alloc: Global, out: &mut Vec<u8>, block: &Block) -> Result<(), Memory>
    ensures { IfOk result (λ _. Writes out.old.items out.new.items (tokens_of_block block.now)) }
{
    print_in_braces(alloc, out, block.stmts.as_slice())
}

/// Prints statements in braces.
#[cycle(print_stmts)]
fn print_in_braces(alloc: Global, out: &mut Vec<u8>, stmts: &[Stmt]) -> Result<(), Memory>
    ensures { IfOk result (λ _. Writes out.old.items out.new.items (in_braces (map tokens_of_stmt stmts.now))) }
{
    write_symbol(alloc, out, Symbol::OpenBrace)?;
    for stmt in stmts {
        print_stmt(alloc, out, stmt)?;
    }
    write_symbol(alloc, out, Symbol::CloseBrace)?;
    Ok(())
}

/// Prints a statement.
#[cycle(print_stmts)]
fn print_stmt(alloc: Global, out: &mut Vec<u8>, stmt: &Stmt) -> Result<(), Memory>
    ensures { IfOk result (λ _. Writes out.old.items out.new.items (tokens_of_stmt stmt.now)) }
{
    match stmt {
        Stmt::If(condition, block, otherwise, _) => {
            print_if(alloc, out, condition, block, otherwise)
        }
        Stmt::Return(value, _) => print_return(alloc, out, value),
        Stmt::Empty(_) => write_symbol(alloc, out, Symbol::Semicolon),
        Stmt::Expr(expr) => print_closed_expr(alloc, out, expr),
        Stmt::Assign(left, op, right, _) => print_assign(alloc, out, left, *op, right),
    }
}

/// Prints an `if` with what stands behind its block.
#[cycle(print_stmts)]
fn print_if(
    alloc: Global,
    out: &mut Vec<u8>,
    condition: &Expr,
    block: &Block,
    otherwise: &Else,
) -> Result<(), Memory>
    ensures { IfOk result (λ _. Writes out.old.items out.new.items (id_kind (codes "if") ∷ (tokens_of_expr condition.now ++ (tokens_of_block block.now ++ tokens_of_else otherwise.now)))) }
{
    write_word(out, "if")?;
    print_expr(alloc, out, condition)?;
    print_block(alloc, out, block)?;
    print_else(alloc, out, otherwise)?;
    Ok(())
}

/// Prints what stands behind the block of an `if`.
#[cycle(print_stmts)]
fn print_else(alloc: Global, out: &mut Vec<u8>, otherwise: &Else) -> Result<(), Memory>
    ensures { IfOk result (λ _. Writes out.old.items out.new.items (tokens_of_else otherwise.now)) }
{
    match otherwise {
        Else::Nothing => Ok(()),
        Else::ElseIf(condition, block, otherwise, _) => {
            print_else_if(alloc, out, condition, block, otherwise.get())
        }
        Else::ElseBlock(block) => print_else_block(alloc, out, block),
    }
}

/// Prints `else` and another `if`.
#[cycle(print_stmts)]
fn print_else_if(
    alloc: Global,
    out: &mut Vec<u8>,
    condition: &Expr,
    block: &Block,
    otherwise: &Else,
) -> Result<(), Memory>
    ensures { IfOk result (λ _. Writes out.old.items out.new.items (id_kind (codes "else") ∷ id_kind (codes "if") ∷ (tokens_of_expr condition.now ++ (tokens_of_block block.now ++ tokens_of_else otherwise.now)))) }
{
    write_word(out, "else")?;
    print_if(alloc, out, condition, block, otherwise)?;
    Ok(())
}

/// Prints `else` and a block.
#[cycle(print_stmts)]
fn print_else_block(alloc: Global, out: &mut Vec<u8>, block: &Block) -> Result<(), Memory>
    ensures { IfOk result (λ _. Writes out.old.items out.new.items (id_kind (codes "else") ∷ tokens_of_block block.now)) }
{
    write_word(out, "else")?;
    print_block(alloc, out, block)?;
    Ok(())
}

/// Prints what is bound or run.
pub(crate) fn print_value(alloc: Global, out: &mut Vec<u8>, value: &Value) -> Result<(), Memory>
    ensures { IfOk result (λ _. Writes out.old.items out.new.items (tokens_of_value value.now)) }
{
    match value {
        Value::Block(block) => print_block(alloc, out, block),
        Value::Expr(expr) => print_closed_expr(alloc, out, expr),
    }
}
