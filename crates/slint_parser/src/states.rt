//! States of a component, and what each changes.

ghost use Rattle.slint_grammar.specs.Parts as part;
ghost use Rattle.slint_grammar.specs.Grammar.{Alt as alts};
ghost use Rattle.slint_parser.specs.Readings.{Reads, ReadsBy};

use crate::cursor::Cursor;
use crate::grammar::expr;
use crate::paths::path;
use crate::starts::Start;
use crate::stops::{Seen, Stop};
use crate::values::value;
use slint_base::End;
use slint_grammar::Word;
use slint_lexer::Symbol;
use sqlite_items::Items;
use std::alloc::Global;
use syntax_tree::{Change, Expr, Item, State, States};

/// The states of a component.
pub fn states_item(alloc: Global, cursor: &mut Cursor<'_>, depth: usize) -> Result<Item, End<Stop>>
    ensures { ReadsBy alts.states_item depth cursor.old result cursor.new }
{
    let word = cursor.word(Word::States, depth)?;
    cursor.symbol(Symbol::OpenBracket, depth)?;
    let states = state_list(alloc, cursor, depth)?;
    Ok(Item::States(States { states, word }))
}

/// States, up to the closing bracket.
fn state_list(
    alloc: Global,
    cursor: &mut Cursor<'_>,
    depth: usize,
) -> Result<Items<State>, End<Stop>>
    ensures { Reads part.StateList depth cursor.old result cursor.new }
{
    let mut all = Items::new(alloc);
    'states: while !cursor.sees(Symbol::CloseBracket) {
        let one = state(alloc, cursor, depth)?;
        all.push(one)?;
    }
    cursor.symbol(Symbol::CloseBracket, depth)?;
    Ok(all)
}

fn state(alloc: Global, cursor: &mut Cursor<'_>, depth: usize) -> Result<State, End<Stop>>
    ensures { Reads part.State depth cursor.old result cursor.new }
{
    let name = cursor.name(depth)?;
    let when = may_when(alloc, cursor, depth)?;
    cursor.symbol(Symbol::Colon, depth)?;
    cursor.symbol(Symbol::OpenBrace, depth)?;
    let changes = changes(alloc, cursor, depth)?;
    Ok(State {
        name,
        when,
        changes,
    })
}

/// The condition of a state, where one is written.
fn may_when(alloc: Global, cursor: &mut Cursor<'_>, depth: usize) -> Result<Option<Expr>, End<Stop>>
    ensures { Reads part.When depth cursor.old result cursor.new }
{
    if cursor.shows(Seen::Word(Word::When)) {
        return when(alloc, cursor, depth);
    }
    Ok(None)
}

fn when(alloc: Global, cursor: &mut Cursor<'_>, depth: usize) -> Result<Option<Expr>, End<Stop>>
    ensures { ReadsBy alts.when depth cursor.old result cursor.new }
{
    cursor.word(Word::When, depth)?;
    let condition = expr(alloc, cursor, depth + 1, Start::Anywhere)?;
    Ok(Some(condition.into_inner()))
}

/// What a state changes, up to the closing brace.
fn changes(alloc: Global, cursor: &mut Cursor<'_>, depth: usize) -> Result<Items<Change>, End<Stop>>
    ensures { Reads part.Changes depth cursor.old result cursor.new }
{
    let mut all = Items::new(alloc);
    'changes: while !cursor.sees(Symbol::CloseBrace) {
        let path = path(alloc, cursor, depth)?;
        cursor.symbol(Symbol::Colon, depth)?;
        let (value, _) = value(alloc, cursor, depth)?;
        all.push(Change { path, value })?;
    }
    cursor.symbol(Symbol::CloseBrace, depth)?;
    Ok(all)
}
