ghost use Rattle.std.specs.Prelude.{◌≡◌, ◌∷◌, ◌++◌, [], IfOk, map, Some};
ghost use Rattle.slint_lexer.specs.declared.tokens.Symbol.TheVariants.{OpenBrace as open_brace, CloseBrace as close_brace, CloseParen as close_paren, Dot as a_dot};
ghost use Rattle.slint_lexer.specs.declared.tokens.TokenKind.TheVariants.{Id as id_kind, Symbol as symbol_kind};
ghost use Rattle.syntax_tree.specs.Printed.{enclosed, listed, behind_commas, binary_sign, prefix_sign, with_holes, tokens_of_context, tokens_of_image, translated, chosen, in_order, tokens_of_expr, tokens_of_suffix, tokens_of_field_value, tokens_of_hole, tokens_of_operand};
ghost use Rattle.syntax_tree.specs.Writes.{Writes};

use crate::writing::{
    write_closing, write_colour, write_comma, write_name, write_number, write_opening,
    write_symbol, write_text, write_word,
};
use crate::{BinaryOp, Expr, FieldValue, Hole, Ident, Operand, PrefixOp, Quoted, Suffix};
use slint_base::{Memory, Text};
use slint_lexer::Symbol;
use std::alloc::Global;

/// The symbol of an operator between two operands.
fn binary_sign(op: BinaryOp) -> Symbol
    ensures { result ≡ binary_sign op }
{
    match op {
        BinaryOp::And => Symbol::AndAnd,
        BinaryOp::Or => Symbol::OrOr,
        BinaryOp::Equal => Symbol::EqualEqual,
        BinaryOp::NotEqual => Symbol::NotEqual,
        BinaryOp::Less => Symbol::Less,
        BinaryOp::LessEqual => Symbol::LessEqual,
        BinaryOp::Greater => Symbol::Greater,
        BinaryOp::GreaterEqual => Symbol::GreaterEqual,
        BinaryOp::Add => Symbol::Plus,
        BinaryOp::Sub => Symbol::Minus,
        BinaryOp::Mul => Symbol::Star,
        BinaryOp::Div => Symbol::Slash,
    }
}

/// The symbol of an operator before its operand.
fn prefix_sign(op: PrefixOp) -> Symbol
    ensures { result ≡ prefix_sign op }
{
    match op {
        PrefixOp::Not => Symbol::Bang,
        PrefixOp::Minus => Symbol::Minus,
        PrefixOp::Plus => Symbol::Plus,
    }
}

/// Prints an operator between two operands.
fn print_binary(alloc: Global, out: &mut Vec<u8>, op: BinaryOp) -> Result<(), Memory>
    ensures { IfOk result (λ _. Writes out.old.items out.new.items (symbol_kind (binary_sign op) ∷ [])) }
{
    write_symbol(alloc, out, binary_sign(op))
}

/// Prints an operator before its operand.
fn print_prefix_sign(alloc: Global, out: &mut Vec<u8>, op: PrefixOp) -> Result<(), Memory>
    ensures { IfOk result (λ _. Writes out.old.items out.new.items (symbol_kind (prefix_sign op) ∷ [])) }
{
    write_symbol(alloc, out, prefix_sign(op))
}

/// Prints a member behind its point.
fn print_member(alloc: Global, out: &mut Vec<u8>, name: &Ident) -> Result<(), Memory>
    ensures { IfOk result (λ _. Writes out.old.items out.new.items (symbol_kind a_dot ∷ id_kind name.now.name ∷ [])) }
{
    write_symbol(alloc, out, Symbol::Dot)?;
    write_name(out, &name.name)?;
    Ok(())
}

/// Prints an image of a path.
fn print_image(alloc: Global, out: &mut Vec<u8>, path: &Quoted) -> Result<(), Memory>
    ensures { IfOk result (λ _. Writes out.old.items out.new.items (tokens_of_image path.now)) }
{
    write_symbol(alloc, out, Symbol::At)?;
    write_word(out, "image-url")?;
    write_symbol(alloc, out, Symbol::OpenParen)?;
    write_text(out, &path.text)?;
    write_symbol(alloc, out, Symbol::CloseParen)?;
    Ok(())
}

/// Prints a context, with the arrow behind it.
fn print_some_context(alloc: Global, out: &mut Vec<u8>, context: &Quoted) -> Result<(), Memory>
    ensures { IfOk result (λ _. Writes out.old.items out.new.items (tokens_of_context (Some context.now))) }
{
    write_text(out, &context.text)?;
    write_symbol(alloc, out, Symbol::FatArrow)?;
    Ok(())
}

/// Prints the context of a translated text, where one is written.
fn print_context(alloc: Global, out: &mut Vec<u8>, context: &Option<Quoted>) -> Result<(), Memory>
    ensures { IfOk result (λ _. Writes out.old.items out.new.items (tokens_of_context context.now)) }
{
    match context {
        None => Ok(()),
        Some(context) => print_some_context(alloc, out, context),
    }
}

/// Prints an expression.
#[cycle(print_exprs)]
pub(crate) fn print_expr(alloc: Global, out: &mut Vec<u8>, expr: &Expr) -> Result<(), Memory>
    ensures { IfOk result (λ _. Writes out.old.items out.new.items (tokens_of_expr expr.now)) }
{
    match expr {
        Expr::Number(number, _) => write_number(alloc, out, *number),
        Expr::Colour(colour, _) => write_colour(alloc, out, *colour),
        Expr::Text(text, _) => write_text(out, text),
        Expr::Template(text, holes, _) => print_template(alloc, out, text, holes.as_slice()),
        Expr::Name(ident, _) => write_name(out, &ident.name),
        Expr::Paren(expr, _) => {
            print_enclosed(
                alloc,
                out,
                Symbol::OpenParen,
                expr.get(),
                Symbol::CloseParen,
            )
        }
        Expr::Array(exprs, _) => {
            let exprs = exprs.as_slice();
            print_listed(alloc, out, Symbol::OpenBracket, exprs, Symbol::CloseBracket)
        }
        Expr::Struct(fields, _) => print_field_values(alloc, out, fields.as_slice()),
        Expr::ImageUrl(path, _) => print_image(alloc, out, path),
        Expr::Tr(context, text, exprs, _) => print_tr(alloc, out, context, text, exprs.as_slice()),
        Expr::Postfix(first, suffixes, _) => {
            print_suffixes(alloc, out, suffixes.as_slice(), first.get())
        }
        Expr::Prefix(op, operand, _) => print_prefix(alloc, out, *op, operand.get()),
        Expr::Chain(first, operands, _) => {
            print_operands(alloc, out, operands.as_slice(), first.get())
        }
        Expr::Choice(condition, first, second, _) => {
            print_choice(alloc, out, condition.get(), first.get(), second.get())
        }
    }
}

/// Prints an expression between two symbols.
#[cycle(print_exprs)]
fn print_enclosed(
    alloc: Global,
    out: &mut Vec<u8>,
    opener: Symbol,
    expr: &Expr,
    closer: Symbol,
) -> Result<(), Memory>
    ensures { IfOk result (λ _. Writes out.old.items out.new.items (enclosed opener (tokens_of_expr expr.now) closer)) }
{
    write_symbol(alloc, out, opener)?;
    print_expr(alloc, out, expr)?;
    write_symbol(alloc, out, closer)?;
    Ok(())
}

/// Prints expressions between two symbols, with commas between.
#[cycle(print_exprs)]
fn print_listed(
    alloc: Global,
    out: &mut Vec<u8>,
    opener: Symbol,
    exprs: &[Expr],
    closer: Symbol,
) -> Result<(), Memory>
    ensures { IfOk result (λ _. Writes out.old.items out.new.items (listed opener (map tokens_of_expr exprs.now) closer)) }
{
    write_symbol(alloc, out, opener)?;
    for (at, expr) in exprs.iter().enumerate() {
        write_comma(alloc, out, at)?;
        print_expr(alloc, out, expr)?;
    }
    write_symbol(alloc, out, closer)?;
    Ok(())
}

/// Prints a field of a struct literal.
#[cycle(print_exprs)]
fn print_field_value(alloc: Global, out: &mut Vec<u8>, field: &FieldValue) -> Result<(), Memory>
    ensures { IfOk result (λ _. Writes out.old.items out.new.items (tokens_of_field_value field.now)) }
{
    write_name(out, &field.name.name)?;
    write_symbol(alloc, out, Symbol::Colon)?;
    print_expr(alloc, out, &field.value)?;
    Ok(())
}

/// Prints the fields of a struct literal in braces, with commas between.
#[cycle(print_exprs)]
fn print_field_values(alloc: Global, out: &mut Vec<u8>, fields: &[FieldValue]) -> Result<(), Memory>
    ensures { IfOk result (λ _. Writes out.old.items out.new.items (listed open_brace (map tokens_of_field_value fields.now) close_brace)) }
{
    write_symbol(alloc, out, Symbol::OpenBrace)?;
    for (at, field) in fields.iter().enumerate() {
        write_comma(alloc, out, at)?;
        print_field_value(alloc, out, field)?;
    }
    write_symbol(alloc, out, Symbol::CloseBrace)?;
    Ok(())
}

/// Prints a string with its holes.
#[cycle(print_exprs)]
fn print_template(
    alloc: Global,
    out: &mut Vec<u8>,
    text: &Text,
    holes: &[Hole],
) -> Result<(), Memory>
    ensures { IfOk result (λ _. Writes out.old.items out.new.items (with_holes text.now (map tokens_of_hole holes.now))) }
{
    let mut before = text;
    for (at, hole) in holes.iter().enumerate() {
        write_opening(out, at, before)?;
        print_expr(alloc, out, &hole.value)?;
        before = &hole.behind;
    }
    write_closing(out, holes.len(), before)?;
    Ok(())
}

/// Prints a translated text with its arguments.
#[cycle(print_exprs)]
fn print_tr(
    alloc: Global,
    out: &mut Vec<u8>,
    context: &Option<Quoted>,
    text: &Quoted,
    exprs: &[Expr],
) -> Result<(), Memory>
    ensures { IfOk result (λ _. Writes out.old.items out.new.items (translated context.now text.now (map tokens_of_expr exprs.now))) }
{
    write_symbol(alloc, out, Symbol::At)?;
    write_word(out, "tr")?;
    write_symbol(alloc, out, Symbol::OpenParen)?;
    print_context(alloc, out, context)?;
    write_text(out, &text.text)?;
    print_arguments(alloc, out, exprs)?;
    Ok(())
}

/// Prints the arguments of a translated text, each behind a comma, and the parenthesis that closes them.
#[cycle(print_exprs)]
fn print_arguments(alloc: Global, out: &mut Vec<u8>, exprs: &[Expr]) -> Result<(), Memory>
    ensures { IfOk result (λ _. Writes out.old.items out.new.items (behind_commas close_paren (map tokens_of_expr exprs.now))) }
{
    for expr in exprs {
        write_symbol(alloc, out, Symbol::Comma)?;
        print_expr(alloc, out, expr)?;
    }
    write_symbol(alloc, out, Symbol::CloseParen)?;
    Ok(())
}

/// Prints what stands behind an expression.
#[cycle(print_exprs)]
fn print_suffix(alloc: Global, out: &mut Vec<u8>, suffix: &Suffix) -> Result<(), Memory>
    ensures { IfOk result (λ _. Writes out.old.items out.new.items (tokens_of_suffix suffix.now)) }
{
    match suffix {
        Suffix::Member(name) => print_member(alloc, out, name),
        Suffix::Call(exprs, _) => {
            let exprs = exprs.as_slice();
            print_listed(alloc, out, Symbol::OpenParen, exprs, Symbol::CloseParen)
        }
        Suffix::Index(expr, _) => {
            print_enclosed(alloc, out, Symbol::OpenBracket, expr, Symbol::CloseBracket)
        }
    }
}

/// Prints an expression with what stands behind it.
#[cycle(print_exprs)]
fn print_suffixes(
    alloc: Global,
    out: &mut Vec<u8>,
    suffixes: &[Suffix],
    first: &Expr,
) -> Result<(), Memory>
    ensures { IfOk result (λ _. Writes out.old.items out.new.items (tokens_of_expr first.now ++ in_order (map tokens_of_suffix suffixes.now))) }
{
    print_expr(alloc, out, first)?;
    for suffix in suffixes {
        print_suffix(alloc, out, suffix)?;
    }
    Ok(())
}

/// Prints an operator with its operand behind it.
#[cycle(print_exprs)]
fn print_operand(alloc: Global, out: &mut Vec<u8>, operand: &Operand) -> Result<(), Memory>
    ensures { IfOk result (λ _. Writes out.old.items out.new.items (tokens_of_operand operand.now)) }
{
    print_binary(alloc, out, operand.op)?;
    print_expr(alloc, out, &operand.right)?;
    Ok(())
}

/// Prints a first operand and the others behind it.
#[cycle(print_exprs)]
fn print_operands(
    alloc: Global,
    out: &mut Vec<u8>,
    operands: &[Operand],
    first: &Expr,
) -> Result<(), Memory>
    ensures { IfOk result (λ _. Writes out.old.items out.new.items (tokens_of_expr first.now ++ in_order (map tokens_of_operand operands.now))) }
{
    print_expr(alloc, out, first)?;
    for operand in operands {
        print_operand(alloc, out, operand)?;
    }
    Ok(())
}

/// Prints an operator before its operand.
#[cycle(print_exprs)]
fn print_prefix(
    alloc: Global,
    out: &mut Vec<u8>,
    op: PrefixOp,
    operand: &Expr,
) -> Result<(), Memory>
    ensures { IfOk result (λ _. Writes out.old.items out.new.items (symbol_kind (prefix_sign op) ∷ tokens_of_expr operand.now)) }
{
    print_prefix_sign(alloc, out, op)?;
    print_expr(alloc, out, operand)?;
    Ok(())
}

/// Prints a condition and what is chosen by it.
#[cycle(print_exprs)]
fn print_choice(
    alloc: Global,
    out: &mut Vec<u8>,
    condition: &Expr,
    first: &Expr,
    second: &Expr,
) -> Result<(), Memory>
    ensures { IfOk result (λ _. Writes out.old.items out.new.items (chosen (tokens_of_expr condition.now) (tokens_of_expr first.now) (tokens_of_expr second.now))) }
{
    print_expr(alloc, out, condition)?;
    write_symbol(alloc, out, Symbol::Question)?;
    print_expr(alloc, out, first)?;
    write_symbol(alloc, out, Symbol::Colon)?;
    print_expr(alloc, out, second)?;
    Ok(())
}
