//! The rules that hold expressions take the reader of those as a parameter, so that each is proved by itself.

ghost use Rattle.std.specs.Prelude.{◌≤◌, ◌+◌};
ghost use Rattle.slint_grammar.specs.Parts as part;
ghost use Rattle.slint_grammar.specs.Derivations.{deepest_token};
ghost use Rattle.slint_parser.specs.Readings.{Reads};
ghost use Rattle.slint_parser.specs.Starts.{start_of, ReadsInner, Nests};

use crate::cursor::Cursor;
use crate::starts::{Inner, Start};
use crate::stops::Stop;
use slint_base::End;
use sqlite_items::Boxed;
use std::alloc::Global;
use syntax_tree::Expr;

#[derive(Clone, Copy)]
pub struct Grammar<F> {
    pub alloc: Global,
    /// How deep the tokens of the expression are.
    pub depth: usize,
    pub inner: F,
}

impl<F: Fn(Global, &mut Cursor<'_>, usize, Inner) -> Result<Boxed<Expr>, End<Stop>>> Grammar<F> {
    /// An expression one deeper.
    pub fn expr(&self, cursor: &mut Cursor<'_>) -> Result<Boxed<Expr>, End<Stop>>
        requires nests { Nests self.now.depth (F.pre self.now.inner) (F.post self.now.inner) }
        requires low { self.now.depth ≤ deepest_token }
        ensures { Reads (part.Expr part.Anywhere) (self.now.depth + 1) cursor.old result cursor.new }
    {
        (self.inner)(
            self.alloc,
            cursor,
            self.depth + 1,
            Inner::Expr(Start::Anywhere),
        )
    }

    /// What a prefix operator has behind it.
    pub fn operand(&self, cursor: &mut Cursor<'_>) -> Result<Boxed<Expr>, End<Stop>>
        requires nests { Nests self.now.depth (F.pre self.now.inner) (F.post self.now.inner) }
        requires low { self.now.depth ≤ deepest_token }
        ensures { Reads (part.Unary part.Anywhere) (self.now.depth + 1) cursor.old result cursor.new }
    {
        (self.inner)(self.alloc, cursor, self.depth + 1, Inner::Operand)
    }
}

/// An expression, or what a prefix operator has behind it, at a depth, that of its first token.
fn nested(
    alloc: Global,
    cursor: &mut Cursor<'_>,
    depth: usize,
    what: Inner,
) -> Result<Boxed<Expr>, End<Stop>>
    ensures { ReadsInner what depth cursor.old result cursor.new }
{
    let grammar = Grammar {
        alloc,
        depth,
        inner: nested,
    };
    match what {
        Inner::Expr(start) => grammar.whole(cursor, start),
        Inner::Operand => grammar.unary(cursor, Start::Anywhere),
    }
}

/// An expression at a depth, that of its first token.
pub fn expr(
    alloc: Global,
    cursor: &mut Cursor<'_>,
    depth: usize,
    start: Start,
) -> Result<Boxed<Expr>, End<Stop>>
    ensures { Reads (part.Expr (start_of start)) depth cursor.old result cursor.new }
{
    nested(alloc, cursor, depth, Inner::Expr(start))
}
