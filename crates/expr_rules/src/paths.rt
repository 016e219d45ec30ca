ghost use Rattle.std.specs.Prelude.{◌≡◌, map};
ghost use Rattle.syntax_tree.specs.declared.statements.Else.{fold-Else};
ghost use Rattle.expr_rules.specs.Paths.{Paths as PathsOf, all_in_turn, block_paths, either, else_paths, gives_on_each, goes_on, in_turn, paths_of, return_paths, stmt_paths};
ghost use Rattle.expr_rules.specs.PathsSeen.{seen};

use syntax_tree::{Else, Expr, Stmt};

/// The paths through a part of a block.
#[derive(Clone, Copy)]
struct Paths {
    /// Each ends with a value, if the block ends with this part.
    gives: bool,
    /// Each ends in a `return` inside.
    returns: bool,
    /// One of them ends in a `return` without a value.
    bare: bool,
}

/// A path that goes on behind, without a value.
fn goes_on() -> Paths
    ensures { seen result ≡ goes_on }
{
    Paths {
        gives: false,
        returns: false,
        bare: false,
    }
}

/// One part behind another: what stands behind a `return` on all paths is on no path.
fn in_turn(first: Paths, then: Paths) -> Paths
    ensures { seen result ≡ in_turn (seen first) (seen then) }
{
    Paths {
        gives: !first.bare && (first.returns || then.gives),
        returns: first.returns || then.returns,
        bare: first.bare || (!first.returns && then.bare),
    }
}

/// One of two parts.
fn either(one: Paths, other: Paths) -> Paths
    ensures { seen result ≡ either (seen one) (seen other) }
{
    Paths {
        gives: one.gives && other.gives,
        returns: one.returns && other.returns,
        bare: one.bare || other.bare,
    }
}

/// A `return`, with or without a value.
fn return_paths(value: &Option<Expr>) -> Paths
    ensures { seen result ≡ return_paths value.now }
{
    Paths {
        gives: value.is_some(),
        returns: true,
        bare: value.is_none(),
    }
}

/// The paths through a statement.
#[cycle(paths)]
fn stmt_paths(stmt: &Stmt) -> Paths
    ensures { seen result ≡ paths_of stmt.now }
{
    match stmt {
        Stmt::If(_, block, otherwise, _) => {
            either(all_paths(block.stmts.as_slice()), else_paths(otherwise))
        }
        Stmt::Return(value, _) => return_paths(value),
        Stmt::Expr(_) => Paths {
            gives: true,
            returns: false,
            bare: false,
        },
        Stmt::Empty(_) | Stmt::Assign(_, _, _, _) => goes_on(),
    }
}

/// The paths through what stands behind the block of an `if`: without an `else` a path goes on behind.
#[cycle(paths)]
fn else_paths(otherwise: &Else) -> Paths
    ensures { seen result ≡ fold-Else PathsOf PathsOf PathsOf else_paths stmt_paths block_paths otherwise.now }
{
    match otherwise {
        Else::Nothing => goes_on(),
        Else::ElseIf(_, block, otherwise, _) => either(
            all_paths(block.stmts.as_slice()),
            else_paths(otherwise.get()),
        ),
        Else::ElseBlock(block) => all_paths(block.stmts.as_slice()),
    }
}

/// The paths through statements in order; the block ends with the last one.
#[cycle(paths)]
fn all_paths(stmts: &[Stmt]) -> Paths
    ensures { seen result ≡ all_in_turn (map paths_of stmts.now) }
{
    let mut paths = goes_on();
    for stmt in stmts {
        paths = in_turn(paths, stmt_paths(stmt));
    }
    paths
}

/// Whether the statements of a block end with a value on each path.
pub(crate) fn gives_on_each(stmts: &[Stmt]) -> bool
    ensures { result ≡ gives_on_each stmts.now }
{
    all_paths(stmts).gives
}
