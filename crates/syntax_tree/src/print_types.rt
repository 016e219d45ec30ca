ghost use Rattle.std.specs.Prelude.{IfOk, map};
ghost use Rattle.slint_lexer.specs.declared.tokens.Symbol.TheVariants.{OpenBracket as open_bracket, CloseBracket as close_bracket, OpenBrace as open_brace, CloseBrace as close_brace};
ghost use Rattle.syntax_tree.specs.Printed.{tokens_of_type, tokens_of_field, enclosed, listed};
ghost use Rattle.syntax_tree.specs.Writes.{Writes};

use crate::writing::{write_comma, write_name, write_symbol};
use crate::{Field, TypeName};
use slint_base::Memory;
use slint_lexer::Symbol;
use std::alloc::Global;

/// Prints a type.
#[cycle(print_types)]
pub(crate) fn print_type(alloc: Global, out: &mut Vec<u8>, ty: &TypeName) -> Result<(), Memory>
    ensures { IfOk result (λ _. Writes out.old.items out.new.items (tokens_of_type ty.now)) }
{
    match ty {
        TypeName::Named(ident) => write_name(out, &ident.name),
        TypeName::Array(ty, _) => print_array_type(alloc, out, ty.get()),
        TypeName::Struct(fields, _) => print_fields(alloc, out, fields.as_slice()),
    }
}

/// Prints the type of an array of values of this type.
#[cycle(print_types)]
fn print_array_type(alloc: Global, out: &mut Vec<u8>, ty: &TypeName) -> Result<(), Memory>
    ensures { IfOk result (λ _. Writes out.old.items out.new.items (enclosed open_bracket (tokens_of_type ty.now) close_bracket)) }
{
    write_symbol(alloc, out, Symbol::OpenBracket)?;
    print_type(alloc, out, ty)?;
    write_symbol(alloc, out, Symbol::CloseBracket)?;
    Ok(())
}

/// Prints a name with its type.
#[cycle(print_types)]
pub(crate) fn print_field(alloc: Global, out: &mut Vec<u8>, field: &Field) -> Result<(), Memory>
    ensures { IfOk result (λ _. Writes out.old.items out.new.items (tokens_of_field field.now)) }
{
    write_name(out, &field.name.name)?;
    write_symbol(alloc, out, Symbol::Colon)?;
    print_type(alloc, out, &field.ty)?;
    Ok(())
}

/// Prints fields in braces, with commas between.
#[cycle(print_types)]
pub(crate) fn print_fields(alloc: Global, out: &mut Vec<u8>, fields: &[Field]) -> Result<(), Memory>
    ensures { IfOk result (λ _. Writes out.old.items out.new.items (listed open_brace (map tokens_of_field fields.now) close_brace)) }
{
    write_symbol(alloc, out, Symbol::OpenBrace)?;
    for (at, field) in fields.iter().enumerate() {
        write_comma(alloc, out, at)?;
        print_field(alloc, out, field)?;
    }
    write_symbol(alloc, out, Symbol::CloseBrace)?;
    Ok(())
}
