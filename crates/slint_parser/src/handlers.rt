//! Handlers of callbacks.

ghost use Rattle.std.specs.Prelude.{◌≡◌};
ghost use Rattle.slint_grammar.specs.Parts as part;
ghost use Rattle.slint_grammar.specs.Grammar.{Alt as alts};
ghost use Rattle.slint_parser.specs.Readings.{Reads, ReadsBy};
ghost use Rattle.slint_parser.specs.Members.{MayName};

use crate::cursor::Cursor;
use crate::joined::join;
use crate::paths::names;
use crate::statements::run;
use crate::stops::Stop;
use slint_base::End;
use slint_lexer::Symbol;
use sqlite_items::Items;
use std::alloc::Global;
use syntax_tree::{Handler, Ident};

/// A handler. Its name is no word that begins another item.
pub fn handler(alloc: Global, cursor: &mut Cursor<'_>, depth: usize) -> Result<Handler, End<Stop>>
    requires named { MayName cursor.old }
    ensures { Reads part.Handler depth cursor.old result cursor.new }
{
    let name = cursor.name(depth)?;
    let parameters = may_names(alloc, cursor, depth)?;
    cursor.symbol(Symbol::FatArrow, depth)?;
    let (run, end) = run(alloc, cursor, depth)?;
    let span = join(name.span, end);
    Ok(Handler {
        name,
        parameters,
        run,
        span,
    })
}

fn may_names(
    alloc: Global,
    cursor: &mut Cursor<'_>,
    depth: usize,
) -> Result<Option<Items<Ident>>, End<Stop>>
    ensures { Reads part.MayNames depth cursor.old result cursor.new }
{
    if cursor.sees(Symbol::OpenParen) {
        return in_parentheses(alloc, cursor, depth);
    }
    Ok(None)
}

fn in_parentheses(
    alloc: Global,
    cursor: &mut Cursor<'_>,
    depth: usize,
) -> Result<Option<Items<Ident>>, End<Stop>>
    ensures { ReadsBy alts.names depth cursor.old result cursor.new }
{
    cursor.symbol(Symbol::OpenParen, depth)?;
    let (all, _) = names(alloc, cursor, depth, Symbol::CloseParen)?;
    Ok(Some(all))
}
