//! Names with points between them, and lists of names.

ghost use Rattle.std.specs.Prelude.{◌≡◌};
ghost use Rattle.slint_grammar.specs.Parts as part;
ghost use Rattle.slint_grammar.specs.Parts.{Listing, EnumValues, HandlerParameters, closer as closer_of};
ghost use Rattle.slint_grammar.specs.Grammar.{Alt as alts};
ghost use Rattle.slint_parser.specs.Readings.{Reads, ReadsBy};

use crate::cursor::Cursor;
use crate::stops::Stop;
use slint_base::{End, Span};
use slint_lexer::Symbol;
use sqlite_items::Items;
use std::alloc::Global;
use syntax_tree::{Ident, Path};

/// Names with points between them.
pub fn path(alloc: Global, cursor: &mut Cursor<'_>, depth: usize) -> Result<Path, End<Stop>>
    ensures { Reads part.Path depth cursor.old result cursor.new }
{
    let first = cursor.name(depth)?;
    let rest = path_rest(alloc, cursor, depth)?;
    Ok(Path { first, rest })
}

/// Points, each with a name behind it.
fn path_rest(
    alloc: Global,
    cursor: &mut Cursor<'_>,
    depth: usize,
) -> Result<Items<Ident>, End<Stop>>
    ensures { Reads part.PathRest depth cursor.old result cursor.new }
{
    let mut rest = Items::new(alloc);
    'points: while cursor.sees(Symbol::Dot) {
        cursor.symbol(Symbol::Dot, depth)?;
        let name = cursor.name(depth)?;
        rest.push(name)?;
    }
    Ok(rest)
}

/// Names behind an opening symbol, up to the closing one.
pub fn names(
    alloc: Global,
    cursor: &mut Cursor<'_>,
    depth: usize,
    closer: Symbol,
) -> Result<(Items<Ident>, Span), End<Stop>>
    ensures of_enum { closer_of EnumValues ≡ closer → Reads (Listing EnumValues) depth cursor.old result cursor.new }
    ensures of_handler { closer_of HandlerParameters ≡ closer → Reads (Listing HandlerParameters) depth cursor.old result cursor.new }
{
    let mut all = Items::new(alloc);
    if let Some(end) = cursor.closes(closer, depth)? {
        return Ok((all, end));
    }
    'items: loop {
        all.push(listed_name(cursor, depth)?)?;
        if let Some(end) = cursor.behind_item(closer, depth)? {
            return Ok((all, end));
        }
    }
}

fn listed_name(cursor: &mut Cursor<'_>, depth: usize) -> Result<Ident, End<Stop>>
    ensures { Reads part.Name depth cursor.old result cursor.new }
{
    cursor.name(depth)
}
