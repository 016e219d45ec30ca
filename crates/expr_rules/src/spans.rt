ghost use Rattle.std.specs.Prelude.{◌≡◌, reverse};
ghost use Rattle.syntax_tree.specs.declared.expressions.Suffix.{out-Suffix};
ghost use Rattle.expr_rules.specs.Own.{suffix_end, suffixed_span};

use crate::operators::joined;
use slint_base::Span;
use syntax_tree::{Expr, Suffix};

/// The stretch of an expression with suffixes behind it, of which this is the last one.
pub(crate) fn suffix_end(span: Span, suffix: &Suffix) -> Span
    ensures { result ≡ suffix_end span (out-Suffix suffix.now) }
{
    match suffix {
        Suffix::Member(ident) => joined(span, ident.span),
        Suffix::Call(_, stretch) => joined(span, *stretch),
        Suffix::Index(_, stretch) => joined(span, *stretch),
    }
}

/// The stretch of an expression with these suffixes behind it.
pub(crate) fn suffixed_span(e: &Expr, suffixes: &[Suffix]) -> Span
    ensures { result ≡ suffixed_span e.now (reverse suffixes.now) }
{
    match suffixes.split_last() {
        None => e.span(),
        Some((last, _)) => suffix_end(e.span(), last),
    }
}
