//! How trees are put together from those of their parts.

ghost use Rattle.std.specs.Prelude.{◌≡◌, IfOk, OnOk, [], ◌∷◌, ◌++◌};
ghost use Rattle.syntax_tree.specs.declared.expressions.Suffix.{out-Suffix};
ghost use Rattle.syntax_tree.specs.Spans.{expr_span};
ghost use Rattle.slint_grammar.specs.Trees as spec;

use crate::joined::join;
use slint_base::{Memory, Span};
use sqlite_items::{Boxed, Items};
use std::alloc::Global;
use syntax_tree::{BinaryOp, Expr, Hole, Operand, PrefixOp, Quoted, Suffix};

/// The stretch from an expression's first token to its last one.
pub fn span_of(expr: &Expr) -> Span
    ensures { result ≡ expr_span expr.now }
{
    match expr {
        Expr::Number(_, span)
        | Expr::Colour(_, span)
        | Expr::Text(_, span)
        | Expr::Template(_, _, span)
        | Expr::Name(_, span)
        | Expr::Paren(_, span)
        | Expr::Array(_, span)
        | Expr::Struct(_, span)
        | Expr::ImageUrl(_, span)
        | Expr::Tr(_, _, _, span)
        | Expr::Postfix(_, _, span)
        | Expr::Prefix(_, _, span)
        | Expr::Chain(_, _, span)
        | Expr::Choice(_, _, _, span) => *span,
    }
}

/// Where operands behind a stretch end.
fn behind_operands(span: Span, operands: &[Operand]) -> Span
    ensures { result ≡ spec.behind_operands span operands.now }
{
    match operands {
        [.., last] => span_of(&last.right),
        [] => span,
    }
}

/// Operands behind a first one, which stands alone where there are none.
pub fn chain(
    alloc: Global,
    first: Boxed<Expr>,
    operands: Items<Operand>,
) -> Result<Boxed<Expr>, Memory>
    ensures { IfOk result (λ made. made ≡ spec.chain first operands) }
{
    if operands.is_empty() {
        return Ok(first);
    }
    let begins = span_of(first.get());
    let span = join(begins, behind_operands(begins, operands.as_slice()));
    Ok(Boxed::new(alloc, Expr::Chain(first, operands, span))?)
}

/// A list of one operand.
pub fn one_operand(
    alloc: Global,
    op: BinaryOp,
    right: Boxed<Expr>,
) -> Result<Items<Operand>, Memory>
    ensures { IfOk result (λ made. made ≡ spec.operand op right ∷ []) }
{
    let mut all = Items::new(alloc);
    all.push(Operand {
        op,
        right: right.into_inner(),
    })?;
    Ok(all)
}

/// One operand more.
pub fn push_operand(
    operands: &mut Items<Operand>,
    op: BinaryOp,
    right: Boxed<Expr>,
) -> Result<(), Memory>
    ensures { OnOk result (operands.new ≡ operands.old ++ spec.operand op right ∷ []) }
{
    operands.push(Operand {
        op,
        right: right.into_inner(),
    })?;
    Ok(())
}

/// A choice, where a question mark follows.
pub fn may_choose(
    alloc: Global,
    condition: Boxed<Expr>,
    branches: Option<(Boxed<Expr>, Boxed<Expr>)>,
) -> Result<Boxed<Expr>, Memory>
    ensures { IfOk result (λ made. made ≡ spec.may_choose condition branches) }
{
    let Some((yes, no)) = branches else {
        return Ok(condition);
    };
    let span = join(span_of(condition.get()), span_of(no.get()));
    Ok(Boxed::new(alloc, Expr::Choice(condition, yes, no, span))?)
}

/// A prefix operator, with its stretch, before its operand.
pub fn prefix(
    alloc: Global,
    op: PrefixOp,
    span: Span,
    operand: Boxed<Expr>,
) -> Result<Boxed<Expr>, Memory>
    ensures { IfOk result (λ made. made ≡ Expr.Prefix op operand (spec.join span (expr_span operand))) }
{
    let span = join(span, span_of(operand.get()));
    Ok(Boxed::new(alloc, Expr::Prefix(op, operand, span))?)
}

fn suffix_span(suffix: &Suffix) -> Span
    ensures { result ≡ spec.suffix_layer_span (out-Suffix suffix.now) }
{
    match suffix {
        Suffix::Member(ident) => ident.span,
        Suffix::Call(_, span) | Suffix::Index(_, span) => *span,
    }
}

/// Where suffixes behind a stretch end.
fn behind_suffixes(span: Span, suffixes: &[Suffix]) -> Span
    ensures { result ≡ spec.behind_suffixes span suffixes.now }
{
    match suffixes {
        [.., last] => suffix_span(last),
        [] => span,
    }
}

/// Suffixes behind an expression, which stands alone where there are none.
pub fn postfix(
    alloc: Global,
    first: Boxed<Expr>,
    suffixes: Items<Suffix>,
) -> Result<Boxed<Expr>, Memory>
    ensures { IfOk result (λ made. made ≡ spec.postfix first suffixes) }
{
    if suffixes.is_empty() {
        return Ok(first);
    }
    let begins = span_of(first.get());
    let span = join(begins, behind_suffixes(begins, suffixes.as_slice()));
    Ok(Boxed::new(alloc, Expr::Postfix(first, suffixes, span))?)
}

/// One expression more.
pub fn push_expr(exprs: &mut Items<Expr>, expr: Boxed<Expr>) -> Result<(), Memory>
    ensures { OnOk result (exprs.new ≡ exprs.old ++ expr ∷ []) }
{
    exprs.push(expr.into_inner())?;
    Ok(())
}

/// One hole more: its expression, and the text behind it.
pub fn push_hole(holes: &mut Items<Hole>, value: Boxed<Expr>, behind: Quoted) -> Result<(), Memory>
    ensures { OnOk result (holes.new ≡ holes.old ++ spec.hole value behind ∷ []) }
{
    holes.push(Hole {
        value: value.into_inner(),
        behind: behind.text,
    })?;
    Ok(())
}
