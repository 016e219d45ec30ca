ghost use Rattle.std.specs.Prelude.{◌≡◌, ◌∷◌, ◌++◌, [], IfOk};
ghost use Rattle.slint_lexer.specs.declared.tokens.TokenKind.TheVariants.{Id as id_kind, Str as str_kind, Head as head_kind, Mid as mid_kind, Tail as tail_kind, Number as number_kind, Colour as colour_kind, Symbol as symbol_kind};
ghost use Rattle.slint_literals.specs.Printed.{printed_text};
ghost use Rattle.syntax_tree.specs.Writes.{Writes, comma_before, opening, closing};

use slint_base::{Memory, Name, Text};
use slint_lexer::{Symbol, TokenKind, write_token};
use slint_literals::{Number, print_text};
use std::alloc::Global;

/// Writes a word of the grammar.
pub(crate) fn write_word(out: &mut Vec<u8>, word: &str) -> Result<(), Memory>
    ensures { IfOk result (λ _. Writes out.old.items out.new.items (id_kind word.now ∷ [])) }
{
    out.extend_from_slice(word.as_bytes())?;
    out.push(b' ')?;
    Ok(())
}

/// Writes a name.
pub(crate) fn write_name(out: &mut Vec<u8>, name: &Name) -> Result<(), Memory>
    ensures { IfOk result (λ _. Writes out.old.items out.new.items (id_kind name.now ∷ [])) }
{
    write_word(out, name.as_str())?;
    Ok(())
}

/// Writes a symbol.
pub(crate) fn write_symbol(alloc: Global, out: &mut Vec<u8>, symbol: Symbol) -> Result<(), Memory>
    ensures { IfOk result (λ _. Writes out.old.items out.new.items (symbol_kind symbol ∷ [])) }
{
    write_token(alloc, out, &TokenKind::Symbol(symbol))?;
    Ok(())
}

/// Writes a comma before each item of a list but the first.
pub(crate) fn write_comma(alloc: Global, out: &mut Vec<u8>, at: usize) -> Result<(), Memory>
    ensures { IfOk result (λ _. Writes out.old.items out.new.items (comma_before at)) }
{
    if at > 0 {
        write_symbol(alloc, out, Symbol::Comma)?;
    }
    Ok(())
}

/// Writes a number.
pub(crate) fn write_number(alloc: Global, out: &mut Vec<u8>, number: Number) -> Result<(), Memory>
    ensures { IfOk result (λ _. Writes out.old.items out.new.items (number_kind number ∷ [])) }
{
    write_token(alloc, out, &TokenKind::Number(number))?;
    Ok(())
}

/// Writes a colour.
pub(crate) fn write_colour(alloc: Global, out: &mut Vec<u8>, colour: u32) -> Result<(), Memory>
    ensures { IfOk result (λ _. Writes out.old.items out.new.items (colour_kind colour ∷ [])) }
{
    write_token(alloc, out, &TokenKind::Colour(colour))?;
    Ok(())
}

/// Writes a piece of a string between what opens it and what closes it.
fn write_piece(out: &mut Vec<u8>, first: u8, text: &str, close: &[u8]) -> Result<(), Memory>
    ensures { IfOk result (λ _. out.new.items ≡ out.old.items ++ (first ∷ (printed_text text.now ++ close.now)) ++ 32 ∷ []) }
{
    out.push(first)?;
    print_text(out, text)?;
    out.extend_from_slice(close)?;
    out.push(b' ')?;
    Ok(())
}

/// Writes a string without holes.
pub(crate) fn write_text(out: &mut Vec<u8>, text: &Text) -> Result<(), Memory>
    ensures { IfOk result (λ _. Writes out.old.items out.new.items (str_kind text.now ∷ [])) }
{
    write_piece(out, b'"', text.as_str(), b"\"")?;
    Ok(())
}

/// Writes a string's text up to its first hole.
pub(crate) fn write_head(out: &mut Vec<u8>, text: &Text) -> Result<(), Memory>
    ensures { IfOk result (λ _. Writes out.old.items out.new.items (head_kind text.now ∷ [])) }
{
    write_piece(out, b'"', text.as_str(), b"\\{")?;
    Ok(())
}

/// Writes a string's text between two holes.
pub(crate) fn write_mid(out: &mut Vec<u8>, text: &Text) -> Result<(), Memory>
    ensures { IfOk result (λ _. Writes out.old.items out.new.items (mid_kind text.now ∷ [])) }
{
    write_piece(out, b'}', text.as_str(), b"\\{")?;
    Ok(())
}

/// Writes a string's text behind its last hole.
pub(crate) fn write_tail(out: &mut Vec<u8>, text: &Text) -> Result<(), Memory>
    ensures { IfOk result (λ _. Writes out.old.items out.new.items (tail_kind text.now ∷ [])) }
{
    write_piece(out, b'}', text.as_str(), b"\"")?;
    Ok(())
}

/// Writes what stands before a hole of a string: its text up to the first, or between two.
pub(crate) fn write_opening(out: &mut Vec<u8>, at: usize, text: &Text) -> Result<(), Memory>
    ensures { IfOk result (λ _. Writes out.old.items out.new.items (opening at text.now)) }
{
    if at == 0 {
        return write_head(out, text);
    }
    write_mid(out, text)
}

/// Writes what stands behind the last of so many holes of a string, or all of it where there is none.
pub(crate) fn write_closing(out: &mut Vec<u8>, count: usize, text: &Text) -> Result<(), Memory>
    ensures { IfOk result (λ _. Writes out.old.items out.new.items (closing count text.now)) }
{
    if count == 0 {
        return write_text(out, text);
    }
    write_tail(out, text)
}
