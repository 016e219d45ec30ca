ghost use Rattle.std.specs.Prelude.{◌≡◌};
ghost use Rattle.slint_grammar.specs.Parts.{TypeName as type_part, Field as field_part, Listing, Fields, FunctionParameters, closer as closer_of};
ghost use Rattle.slint_grammar.specs.Grammar.{Alt as alts};
ghost use Rattle.slint_parser.specs.Readings.{Reads, ReadsBy};

use crate::cursor::Cursor;
use crate::joined::join;
use crate::stops::Stop;
use slint_base::{End, Span};
use slint_lexer::Symbol;
use sqlite_items::{Boxed, Items};
use std::alloc::Global;
use syntax_tree::{Field, TypeName};

/// A type at a depth, that of its first token.
#[cycle(types)]
pub fn type_name(
    alloc: Global,
    cursor: &mut Cursor<'_>,
    depth: usize,
) -> Result<TypeName, End<Stop>>
    ensures { Reads type_part depth cursor.old result cursor.new }
{
    if cursor.sees(Symbol::OpenBracket) {
        return array_type(alloc, cursor, depth);
    }
    if cursor.sees(Symbol::OpenBrace) {
        return struct_type(alloc, cursor, depth);
    }
    named_type(cursor, depth)
}

fn named_type(cursor: &mut Cursor<'_>, depth: usize) -> Result<TypeName, End<Stop>>
    ensures { ReadsBy alts.named_type depth cursor.old result cursor.new }
{
    Ok(TypeName::Named(cursor.name(depth)?))
}

#[cycle(types)]
fn array_type(alloc: Global, cursor: &mut Cursor<'_>, depth: usize) -> Result<TypeName, End<Stop>>
    ensures { ReadsBy alts.array_type depth cursor.old result cursor.new }
{
    let open = cursor.symbol(Symbol::OpenBracket, depth)?;
    let item = type_name(alloc, cursor, depth + 1)?;
    let close = cursor.symbol(Symbol::CloseBracket, depth)?;
    Ok(TypeName::Array(Boxed::new(alloc, item)?, join(open, close)))
}

#[cycle(types)]
fn struct_type(alloc: Global, cursor: &mut Cursor<'_>, depth: usize) -> Result<TypeName, End<Stop>>
    ensures { ReadsBy alts.struct_type depth cursor.old result cursor.new }
{
    let open = cursor.symbol(Symbol::OpenBrace, depth)?;
    let (fields, close) = fields(alloc, cursor, depth, Symbol::CloseBrace)?;
    Ok(TypeName::Struct(fields, join(open, close)))
}

/// Fields behind an opening symbol, up to the closing one.
#[cycle(types)]
pub fn fields(
    alloc: Global,
    cursor: &mut Cursor<'_>,
    depth: usize,
    closer: Symbol,
) -> Result<(Items<Field>, Span), End<Stop>>
    ensures of_struct { closer_of Fields ≡ closer → Reads (Listing Fields) depth cursor.old result cursor.new }
    ensures of_function { closer_of FunctionParameters ≡ closer → Reads (Listing FunctionParameters) depth cursor.old result cursor.new }
{
    let mut all = Items::new(alloc);
    if let Some(end) = cursor.closes(closer, depth)? {
        return Ok((all, end));
    }
    'items: loop {
        all.push(field(alloc, cursor, depth)?)?;
        if let Some(end) = cursor.behind_item(closer, depth)? {
            return Ok((all, end));
        }
    }
}

#[cycle(types)]
fn field(alloc: Global, cursor: &mut Cursor<'_>, depth: usize) -> Result<Field, End<Stop>>
    ensures { Reads field_part depth cursor.old result cursor.new }
{
    let name = cursor.name(depth)?;
    cursor.symbol(Symbol::Colon, depth)?;
    let ty = type_name(alloc, cursor, depth + 1)?;
    Ok(Field { name, ty })
}
