ghost use Rattle.std.specs.Prelude.{◌≡◌, IfOk};
ghost use Rattle.typed_tree.specs.Typed.{typed_stmt};
ghost use Rattle.expr_rules.specs.declared.judged.Judged.TheVariants as judged;
ghost use Rattle.expr_rules.specs.OwnBlocks.{block_given, no_block};

use crate::Judged;
use crate::making::NOWHERE;
use slint_base::{Memory, Span};
use sqlite_items::{Boxed, Items};
use std::alloc::Global;
use typed_tree::{StmtKind, TypedBlock, TypedStmt};

/// A statement that does this.
pub(crate) fn stmt(alloc: Global, kind: StmtKind, span: Span) -> Result<Judged, Memory>
    ensures { IfOk result (λ made. made ≡ judged.Stmt (typed_stmt kind span)) }
{
    let made = Boxed::new(alloc, TypedStmt { kind, span })?;
    Ok(Judged::Stmt(made))
}

/// The block that a node came to, which is empty where it is none.
pub(crate) fn block_given(alloc: Global, part: Judged) -> TypedBlock
    ensures { result ≡ block_given part }
{
    match part {
        Judged::Block(block) => block,
        _ => no_block(alloc),
    }
}

/// A block that isn't there.
pub(crate) fn no_block(alloc: Global) -> TypedBlock
    ensures { result ≡ no_block }
{
    TypedBlock {
        stmts: Items::new(alloc),
        span: NOWHERE,
    }
}
