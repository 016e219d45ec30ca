//! Blocks, their statements, and values that may be blocks.

ghost use Rattle.std.specs.Prelude.{◌≡◌, ◌≤◌, ◌⊎◌, ◌↔◌, IsTrue, Bool, Some, drop};
ghost use Rattle.slint_grammar.specs.Parts as part;
ghost use Rattle.slint_grammar.specs.Grammar.{Alt as alts};
ghost use Rattle.slint_grammar.specs.Derivations.{deepest_token};
ghost use Rattle.slint_grammar.specs.Trees as trees;
ghost use Rattle.slint_parser.specs.Readings.{seen, Reads, ReadsBy};
ghost use Rattle.slint_parser.specs.Starts.{start_of};
ghost use Rattle.slint_parser.specs.Statements.{head_of, ReadsBefore, ReadsStmtEnd, ReadsStmt, assign_sign};

use crate::cursor::Cursor;
use crate::grammar::expr;
use crate::joined::join;
use crate::starts::Start;
use crate::stops::{Seen, Stop};
use crate::trees::span_of;
use slint_base::{End, Span};
use slint_grammar::Word;
use slint_lexer::Symbol;
use sqlite_items::{Boxed, Items};
use std::alloc::Global;
use syntax_tree::{AssignOp, Block, Else, Expr, Stmt, Value};

/// What stands behind a statement: the brace that closes its block, or another one, and whether the one before was an `if`.
#[derive(Clone, Copy)]
pub enum Behind {
    Closed(Span),
    Another(bool),
}

/// The parts of an `if`: its condition, its block, what stands behind it, and its stretch.
type IfParts = (Boxed<Expr>, Block, Boxed<Else>, Span);

/// A block at a depth, that of its braces.
#[cycle(statements)]
pub fn block(alloc: Global, cursor: &mut Cursor<'_>, depth: usize) -> Result<Block, End<Stop>>
    ensures { Reads part.Block depth cursor.old result cursor.new }
{
    let open = cursor.symbol(Symbol::OpenBrace, depth)?;
    let (stmts, close) = statements(alloc, cursor, depth)?;
    Ok(Block {
        stmts,
        span: join(open, close),
    })
}

/// Statements, up to the brace that closes their block.
#[cycle(statements)]
fn statements(
    alloc: Global,
    cursor: &mut Cursor<'_>,
    depth: usize,
) -> Result<(Items<Stmt>, Span), End<Stop>>
    requires low { depth ≤ deepest_token }
    ensures { Reads (part.Stmts part.InStmt) depth cursor.old result cursor.new }
{
    let mut all = Items::new(alloc);
    let mut behind_if = false;
    'turns: loop {
        if let Some(end) = cursor.closes(Symbol::CloseBrace, depth)? {
            return Ok((all, end));
        }
        let (stmt, behind) = statement(alloc, cursor, depth, behind_if)?;
        all.push(stmt)?;
        match behind {
            Behind::Closed(end) => return Ok((all, end)),
            Behind::Another(is_if) => behind_if = is_if,
        }
    }
}

/// A statement, and what stands behind it.
#[cycle(statements)]
fn statement(
    alloc: Global,
    cursor: &mut Cursor<'_>,
    depth: usize,
    behind_if: bool,
) -> Result<(Stmt, Behind), End<Stop>>
    requires low { depth ≤ deepest_token }
    requires open_yet { seen cursor.old ≡ Seen.Symbol Symbol.CloseBrace → ⊥ }
    ensures { ReadsStmt behind_if depth cursor.old result cursor.new }
{
    if cursor.shows(Seen::Word(Word::If)) {
        let (condition, then_block, otherwise, span) = if_parts(alloc, cursor, depth)?;
        let stmt = Stmt::If(
            condition.into_inner(),
            then_block,
            otherwise.into_inner(),
            span,
        );
        return Ok((stmt, Behind::Another(true)));
    }
    if cursor.sees(Symbol::Semicolon) {
        let span = cursor.symbol(Symbol::Semicolon, depth)?;
        return Ok((Stmt::Empty(span), Behind::Another(false)));
    }
    closed_statement(alloc, cursor, depth, behind_if)
}

/// A statement that ends with a semicolon or in front of a brace.
fn closed_statement(
    alloc: Global,
    cursor: &mut Cursor<'_>,
    depth: usize,
    behind_if: bool,
) -> Result<(Stmt, Behind), End<Stop>>
    requires low { depth ≤ deepest_token }
    requires open_yet { seen cursor.old ≡ Seen.Symbol Symbol.CloseBrace → ⊥ }
    requires no_semicolon { seen cursor.old ≡ Seen.Symbol Symbol.Semicolon → ⊥ }
    requires no_if { seen cursor.old ≡ Seen.Word Word.If → ⊥ }
    ensures { ReadsStmt behind_if depth cursor.old result cursor.new }
{
    let stmt = open_statement(alloc, cursor, depth, behind_if)?;
    let behind = statement_end(cursor, depth)?;
    Ok((stmt, behind))
}

/// The semicolon behind a statement, which a brace behind it makes needless.
fn statement_end(cursor: &mut Cursor<'_>, depth: usize) -> Result<Behind, End<Stop>>
    ensures { ReadsStmtEnd depth cursor.old result cursor.new }
{
    if cursor.sees(Symbol::CloseBrace) {
        return Ok(Behind::Closed(cursor.symbol(Symbol::CloseBrace, depth)?));
    }
    cursor.symbol(Symbol::Semicolon, depth)?;
    Ok(Behind::Another(false))
}

/// A `return`, an expression or an assignment, without its semicolon.
fn open_statement(
    alloc: Global,
    cursor: &mut Cursor<'_>,
    depth: usize,
    behind_if: bool,
) -> Result<Stmt, End<Stop>>
    requires low { depth ≤ deepest_token }
    ensures { ReadsBefore part.StmtEnd (part.Open (head_of behind_if)) depth cursor.old result cursor.new }
{
    if cursor.shows(Seen::Word(Word::Return)) {
        return return_statement(alloc, cursor, depth);
    }
    expr_statement(alloc, cursor, depth, behind_if)
}

fn return_statement(alloc: Global, cursor: &mut Cursor<'_>, depth: usize) -> Result<Stmt, End<Stop>>
    requires low { depth ≤ deepest_token }
    requires is_return { seen cursor.old ≡ Seen.Word Word.Return }
    ensures { (b : Bool) → ReadsBefore part.StmtEnd (part.Open (head_of b)) depth cursor.old result cursor.new }
{
    let word = cursor.word(Word::Return, depth)?;
    if ends(cursor) {
        return Ok(Stmt::Return(None, word));
    }
    let value = expr(alloc, cursor, depth + 1, Start::Anywhere)?.into_inner();
    let span = join(word, span_of(&value));
    Ok(Stmt::Return(Some(value), span))
}

/// Whether a statement ends here.
fn ends(cursor: &Cursor<'_>) -> bool
    ensures { IsTrue result ↔ (seen cursor.now ≡ Seen.Symbol Symbol.Semicolon) ⊎ (seen cursor.now ≡ Seen.Symbol Symbol.CloseBrace) }
{
    cursor.sees(Symbol::Semicolon) || cursor.sees(Symbol::CloseBrace)
}

fn expr_statement(
    alloc: Global,
    cursor: &mut Cursor<'_>,
    depth: usize,
    behind_if: bool,
) -> Result<Stmt, End<Stop>>
    requires low { depth ≤ deepest_token }
    requires no_return { seen cursor.old ≡ Seen.Word Word.Return → ⊥ }
    ensures { ReadsBefore part.StmtEnd (part.Open (head_of behind_if)) depth cursor.old result cursor.new }
{
    let left = expr(alloc, cursor, depth + 1, head(behind_if))?;
    let right = may_assign(alloc, cursor, depth)?;
    Ok(assign_or_expr(left, right))
}

/// Where a statement begins.
fn head(behind_if: bool) -> Start
    ensures { start_of result ≡ head_of behind_if }
{
    if behind_if {
        Start::BehindIf
    } else {
        Start::InStmt
    }
}

fn assign_or_expr(left: Boxed<Expr>, right: Option<(AssignOp, Boxed<Expr>)>) -> Stmt
    ensures { result ≡ trees.assign_or_expr left right }
{
    let left = left.into_inner();
    match right {
        None => Stmt::Expr(left),
        Some((op, right)) => {
            let right = right.into_inner();
            let span = join(span_of(&left), span_of(&right));
            Stmt::Assign(left, op, right, span)
        }
    }
}

fn may_assign(
    alloc: Global,
    cursor: &mut Cursor<'_>,
    depth: usize,
) -> Result<Option<(AssignOp, Boxed<Expr>)>, End<Stop>>
    requires low { depth ≤ deepest_token }
    ensures { Reads part.MayAssign depth cursor.old result cursor.new }
{
    match assign_sign(cursor.seen()) {
        None => Ok(None),
        Some((sign, op)) => assignment(alloc, cursor, depth, sign, op),
    }
}

/// The sign of an assignment, and what it means.
fn assign_sign(seen: Seen) -> Option<(Symbol, AssignOp)>
    ensures { result ≡ assign_sign seen }
{
    match seen {
        Seen::Symbol(Symbol::Equal) => Some((Symbol::Equal, AssignOp::Set)),
        Seen::Symbol(Symbol::PlusEqual) => Some((Symbol::PlusEqual, AssignOp::Add)),
        Seen::Symbol(Symbol::MinusEqual) => Some((Symbol::MinusEqual, AssignOp::Sub)),
        Seen::Symbol(Symbol::StarEqual) => Some((Symbol::StarEqual, AssignOp::Mul)),
        Seen::Symbol(Symbol::SlashEqual) => Some((Symbol::SlashEqual, AssignOp::Div)),
        _ => None,
    }
}

fn assignment(
    alloc: Global,
    cursor: &mut Cursor<'_>,
    depth: usize,
    sign: Symbol,
    op: AssignOp,
) -> Result<Option<(AssignOp, Boxed<Expr>)>, End<Stop>>
    requires low { depth ≤ deepest_token }
    requires is_sign { assign_sign (seen cursor.old) ≡ Some (sign, op) }
    ensures { ReadsBy alts.assign depth cursor.old result cursor.new }
{
    cursor.symbol(sign, depth)?;
    let right = expr(alloc, cursor, depth + 1, Start::Anywhere)?;
    Ok(Some((op, right)))
}

/// The parts of an `if`.
#[cycle(statements)]
fn if_parts(alloc: Global, cursor: &mut Cursor<'_>, depth: usize) -> Result<IfParts, End<Stop>>
    ensures { Reads part.If depth cursor.old result cursor.new }
{
    let word = cursor.word(Word::If, depth)?;
    let condition = expr(alloc, cursor, depth + 1, Start::Anywhere)?;
    let then_block = block(alloc, cursor, depth + 1)?;
    let otherwise = may_else(alloc, cursor, depth)?;
    let span = if_span(word, &then_block, otherwise.get());
    Ok((condition, then_block, otherwise, span))
}

/// The stretch of an `if`, from its word to the end of its last block.
fn if_span(word: Span, then_block: &Block, otherwise: &Else) -> Span
    ensures { result ≡ trees.if_span word then_block.now otherwise.now }
{
    match otherwise {
        Else::Nothing => join(word, then_block.span),
        Else::ElseIf(_, _, _, span) => join(word, *span),
        Else::ElseBlock(block) => join(word, block.span),
    }
}

#[cycle(statements)]
fn may_else(alloc: Global, cursor: &mut Cursor<'_>, depth: usize) -> Result<Boxed<Else>, End<Stop>>
    ensures { Reads part.MayElse depth cursor.old result cursor.new }
{
    if cursor.shows(Seen::Word(Word::Else)) {
        return an_else(alloc, cursor, depth);
    }
    Ok(Boxed::new(alloc, Else::Nothing)?)
}

/// What an `else` stands before.
#[cycle(statements)]
fn an_else(alloc: Global, cursor: &mut Cursor<'_>, depth: usize) -> Result<Boxed<Else>, End<Stop>>
    requires { seen cursor.old ≡ Seen.Word Word.Else }
    ensures { Reads part.MayElse depth cursor.old result cursor.new }
{
    if if_follows(cursor) {
        return else_if(alloc, cursor, depth);
    }
    else_block(alloc, cursor, depth)
}

/// Whether an `if` stands behind the next token.
fn if_follows(cursor: &Cursor<'_>) -> bool
    ensures { IsTrue result ↔ (seen (drop 1 cursor.now) ≡ Seen.Word Word.If) }
{
    cursor.ahead(1) == Seen::Word(Word::If)
}

#[cycle(statements)]
fn else_if(alloc: Global, cursor: &mut Cursor<'_>, depth: usize) -> Result<Boxed<Else>, End<Stop>>
    ensures { ReadsBy alts.else_if depth cursor.old result cursor.new }
{
    cursor.word(Word::Else, depth)?;
    let (condition, then_block, otherwise, span) = if_parts(alloc, cursor, depth + 1)?;
    Ok(Boxed::new(
        alloc,
        Else::ElseIf(condition.into_inner(), then_block, otherwise, span),
    )?)
}

#[cycle(statements)]
fn else_block(
    alloc: Global,
    cursor: &mut Cursor<'_>,
    depth: usize,
) -> Result<Boxed<Else>, End<Stop>>
    ensures { ReadsBy alts.else_block depth cursor.old result cursor.new }
{
    cursor.word(Word::Else, depth)?;
    let block = block(alloc, cursor, depth + 1)?;
    Ok(Boxed::new(alloc, Else::ElseBlock(block))?)
}

/// A semicolon that may be left out.
pub fn may_semicolon(cursor: &mut Cursor<'_>, depth: usize) -> Result<Option<Span>, End<Stop>>
    ensures { Reads part.MaySemicolon depth cursor.old result cursor.new }
{
    cursor.closes(Symbol::Semicolon, depth)
}

/// A block, with a semicolon behind it or none: the block, and where it ends.
pub fn block_value(
    alloc: Global,
    cursor: &mut Cursor<'_>,
    depth: usize,
) -> Result<(Value, Span), End<Stop>>
    requires low { depth ≤ deepest_token }
    ensures of_value { ReadsBy alts.block_value depth cursor.old result cursor.new }
    ensures of_run { ReadsBy alts.block_run depth cursor.old result cursor.new }
{
    let block = block(alloc, cursor, depth + 1)?;
    let semicolon = may_semicolon(cursor, depth)?;
    let end = or_end(block.span, semicolon);
    Ok((Value::Block(block), end))
}

fn or_end(span: Span, end: Option<Span>) -> Span
    ensures { result ≡ trees.or_end span end }
{
    match end {
        None => span,
        Some(end) => end,
    }
}

/// An expression with a semicolon behind it: the expression, and where the semicolon ends.
pub fn expr_value(
    alloc: Global,
    cursor: &mut Cursor<'_>,
    depth: usize,
    start: Start,
) -> Result<(Value, Span), End<Stop>>
    requires low { depth ≤ deepest_token }
    ensures of_value { start_of start ≡ part.InValue → ReadsBy alts.expr_value depth cursor.old result cursor.new }
    ensures of_run { start_of start ≡ part.InRun → ReadsBy alts.expr_run depth cursor.old result cursor.new }
{
    let value = expr(alloc, cursor, depth + 1, start)?;
    let end = cursor.symbol(Symbol::Semicolon, depth)?;
    Ok((Value::Expr(value.into_inner()), end))
}

/// What a handler runs, and where it ends.
pub fn run(alloc: Global, cursor: &mut Cursor<'_>, depth: usize) -> Result<(Value, Span), End<Stop>>
    requires low { depth ≤ deepest_token }
    ensures { Reads part.Run depth cursor.old result cursor.new }
{
    if cursor.sees(Symbol::OpenBrace) {
        return block_value(alloc, cursor, depth);
    }
    expr_value(alloc, cursor, depth, Start::InRun)
}
