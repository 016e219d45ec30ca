ghost use Rattle.std.specs.Prelude.{◌≡◌, ◌∷◌, [], IfOk, map, codes};
ghost use Rattle.std.specs.Str.{IsUtf8};
ghost use Rattle.slint_lexer.specs.declared.tokens.Symbol.TheVariants.{OpenBrace as open_brace, CloseBrace as close_brace};
ghost use Rattle.slint_lexer.specs.declared.tokens.TokenKind.TheVariants.{Id as id_kind};
ghost use Rattle.slint_lexer.specs.Spelled.{written};
ghost use Rattle.syntax_tree.specs.Printed.{if_some, listed, in_order, export_tokens, tokens_of_ident, tokens_of_field, tokens_of_alias, aliases_in_braces, import_names, tokens_of_new_name, tokens_of_import, tokens_of_export, tokens_of_export_all, tokens_of_base, tokens_of_component, tokens_of_global, tokens_of_struct, tokens_of_enum, tokens_of_decl, exported_tokens, tokens_of_file_item, tokens_of_file};
ghost use Rattle.syntax_tree.specs.Writes.{Writes};

use crate::print_items::print_items;
use crate::print_members::print_ident;
use crate::print_types::print_fields;
use crate::writing::{write_comma, write_name, write_symbol, write_text, write_word};
use crate::{
    Alias, Component, Decl, EnumDecl, ExportAll, ExportList, File, FileItem, Global as GlobalDecl,
    Ident, Import, StructDecl,
};
use slint_base::{Memory, Text};
use slint_lexer::Symbol;
use sqlite_items::Items;
use std::alloc::Global;

/// Prints the name that a name gets.
fn print_new_name(alloc: Global, out: &mut Vec<u8>, name: &Ident) -> Result<(), Memory>
    ensures { IfOk result (λ _. Writes out.old.items out.new.items (tokens_of_new_name name.now)) }
{
    write_word(out, "as")?;
    write_name(out, &name.name)?;
    Ok(())
}

/// Prints the name that a name gets, where one is written.
fn print_some_new_name(alloc: Global, out: &mut Vec<u8>, name: &Option<Ident>) -> Result<(), Memory>
    ensures { IfOk result (λ _. Writes out.old.items out.new.items (if_some tokens_of_new_name name.now)) }
{
    match name {
        None => Ok(()),
        Some(name) => print_new_name(alloc, out, name),
    }
}

/// Prints a name of a list of names.
fn print_alias(alloc: Global, out: &mut Vec<u8>, alias: &Alias) -> Result<(), Memory>
    ensures { IfOk result (λ _. Writes out.old.items out.new.items (tokens_of_alias alias.now)) }
{
    write_name(out, &alias.name.name)?;
    print_some_new_name(alloc, out, &alias.alias)?;
    Ok(())
}

/// Prints names in braces.
fn print_aliases(alloc: Global, out: &mut Vec<u8>, names: &[Alias]) -> Result<(), Memory>
    ensures { IfOk result (λ _. Writes out.old.items out.new.items (aliases_in_braces names.now)) }
{
    write_symbol(alloc, out, Symbol::OpenBrace)?;
    for (at, alias) in names.iter().enumerate() {
        write_comma(alloc, out, at)?;
        print_alias(alloc, out, alias)?;
    }
    write_symbol(alloc, out, Symbol::CloseBrace)?;
    Ok(())
}

/// Prints the names of an import.
fn print_import_names(alloc: Global, out: &mut Vec<u8>, names: &[Alias]) -> Result<(), Memory>
    ensures { IfOk result (λ _. Writes out.old.items out.new.items (import_names names.now)) }
{
    print_aliases(alloc, out, names)?;
    write_word(out, "from")?;
    Ok(())
}

/// Prints the names of an import, where there are braces.
fn print_some_import_names(
    alloc: Global,
    out: &mut Vec<u8>,
    names: &Option<Items<Alias>>,
) -> Result<(), Memory>
    ensures { IfOk result (λ _. Writes out.old.items out.new.items (if_some import_names names.now)) }
{
    match names {
        None => Ok(()),
        Some(names) => print_import_names(alloc, out, names.as_slice()),
    }
}

/// Prints an import.
fn print_import(alloc: Global, out: &mut Vec<u8>, import: &Import) -> Result<(), Memory>
    ensures { IfOk result (λ _. Writes out.old.items out.new.items (tokens_of_import import.now)) }
{
    write_word(out, "import")?;
    print_some_import_names(alloc, out, &import.names)?;
    write_text(out, &import.path.text)?;
    write_symbol(alloc, out, Symbol::Semicolon)?;
    Ok(())
}

/// Prints an export of names.
fn print_export(alloc: Global, out: &mut Vec<u8>, export: &ExportList) -> Result<(), Memory>
    ensures { IfOk result (λ _. Writes out.old.items out.new.items (tokens_of_export export.now)) }
{
    write_word(out, "export")?;
    print_aliases(alloc, out, export.names.as_slice())?;
    Ok(())
}

/// Prints an export of all that another file exports.
fn print_export_all(alloc: Global, out: &mut Vec<u8>, export: &ExportAll) -> Result<(), Memory>
    ensures { IfOk result (λ _. Writes out.old.items out.new.items (tokens_of_export_all export.now)) }
{
    write_word(out, "export")?;
    write_symbol(alloc, out, Symbol::Star)?;
    write_word(out, "from")?;
    write_text(out, &export.path.text)?;
    write_symbol(alloc, out, Symbol::Semicolon)?;
    Ok(())
}

/// Prints the base of a component.
fn print_base(alloc: Global, out: &mut Vec<u8>, base: &Ident) -> Result<(), Memory>
    ensures { IfOk result (λ _. Writes out.old.items out.new.items (tokens_of_base base.now)) }
{
    write_word(out, "inherits")?;
    write_name(out, &base.name)?;
    Ok(())
}

/// Prints the base of a component, where one is written.
fn print_some_base(alloc: Global, out: &mut Vec<u8>, base: &Option<Ident>) -> Result<(), Memory>
    ensures { IfOk result (λ _. Writes out.old.items out.new.items (if_some tokens_of_base base.now)) }
{
    match base {
        None => Ok(()),
        Some(base) => print_base(alloc, out, base),
    }
}

/// Prints a component.
fn print_component(alloc: Global, out: &mut Vec<u8>, component: &Component) -> Result<(), Memory>
    ensures { IfOk result (λ _. Writes out.old.items out.new.items (tokens_of_component component.now)) }
{
    write_word(out, "component")?;
    write_name(out, &component.name.name)?;
    print_some_base(alloc, out, &component.base)?;
    write_symbol(alloc, out, Symbol::OpenBrace)?;
    print_items(alloc, out, component.body.as_slice())?;
    Ok(())
}

/// Prints a global.
fn print_global(alloc: Global, out: &mut Vec<u8>, global: &GlobalDecl) -> Result<(), Memory>
    ensures { IfOk result (λ _. Writes out.old.items out.new.items (tokens_of_global global.now)) }
{
    write_word(out, "global")?;
    write_name(out, &global.name.name)?;
    write_symbol(alloc, out, Symbol::OpenBrace)?;
    print_items(alloc, out, global.items.as_slice())?;
    Ok(())
}

/// Prints a struct.
fn print_struct(alloc: Global, out: &mut Vec<u8>, decl: &StructDecl) -> Result<(), Memory>
    ensures { IfOk result (λ _. Writes out.old.items out.new.items (tokens_of_struct decl.now)) }
{
    write_word(out, "struct")?;
    write_name(out, &decl.name.name)?;
    print_fields(alloc, out, decl.fields.as_slice())?;
    Ok(())
}

/// Prints the values of an enum in braces.
fn print_enum_values(alloc: Global, out: &mut Vec<u8>, values: &[Ident]) -> Result<(), Memory>
    ensures { IfOk result (λ _. Writes out.old.items out.new.items (listed open_brace (map tokens_of_ident values.now) close_brace)) }
{
    write_symbol(alloc, out, Symbol::OpenBrace)?;
    for (at, ident) in values.iter().enumerate() {
        write_comma(alloc, out, at)?;
        print_ident(alloc, out, ident)?;
    }
    write_symbol(alloc, out, Symbol::CloseBrace)?;
    Ok(())
}

/// Prints an enum.
fn print_enum(alloc: Global, out: &mut Vec<u8>, decl: &EnumDecl) -> Result<(), Memory>
    ensures { IfOk result (λ _. Writes out.old.items out.new.items (tokens_of_enum decl.now)) }
{
    write_word(out, "enum")?;
    write_name(out, &decl.name.name)?;
    print_enum_values(alloc, out, decl.values.as_slice())?;
    Ok(())
}

/// Prints a declaration.
fn print_decl(alloc: Global, out: &mut Vec<u8>, decl: &Decl) -> Result<(), Memory>
    ensures { IfOk result (λ _. Writes out.old.items out.new.items (tokens_of_decl decl.now)) }
{
    match decl {
        Decl::Component(component) => print_component(alloc, out, component),
        Decl::Global(global) => print_global(alloc, out, global),
        Decl::Struct(decl) => print_struct(alloc, out, decl),
        Decl::Enum(decl) => print_enum(alloc, out, decl),
    }
}

/// Prints `export`, where it stands.
fn print_export_word(out: &mut Vec<u8>, exported: bool) -> Result<(), Memory>
    ensures { IfOk result (λ _. Writes out.old.items out.new.items (export_tokens exported)) }
{
    if exported {
        return write_word(out, "export");
    }
    Ok(())
}

/// Prints a declaration, with `export` before it where it is exported.
fn print_exported(
    alloc: Global,
    out: &mut Vec<u8>,
    exported: bool,
    decl: &Decl,
) -> Result<(), Memory>
    ensures { IfOk result (λ _. Writes out.old.items out.new.items (exported_tokens exported decl.now)) }
{
    print_export_word(out, exported)?;
    print_decl(alloc, out, decl)?;
    Ok(())
}

/// Prints an item of a file.
fn print_file_item(alloc: Global, out: &mut Vec<u8>, item: &FileItem) -> Result<(), Memory>
    ensures { IfOk result (λ _. Writes out.old.items out.new.items (tokens_of_file_item item.now)) }
{
    match item {
        FileItem::Import(import) => print_import(alloc, out, import),
        FileItem::Export(export) => print_export(alloc, out, export),
        FileItem::ExportAll(export) => print_export_all(alloc, out, export),
        FileItem::Decl(exported, decl) => print_exported(alloc, out, *exported, decl),
    }
}

/// Prints the items of a file.
fn print_file_items(alloc: Global, out: &mut Vec<u8>, items: &[FileItem]) -> Result<(), Memory>
    ensures { IfOk result (λ _. Writes out.old.items out.new.items (in_order (map tokens_of_file_item items.now))) }
{
    for item in items {
        print_file_item(alloc, out, item)?;
    }
    Ok(())
}

/// The text that UTF-8 spells.
fn as_text(bytes: Vec<u8>) -> Text
    requires { IsUtf8 bytes.items }
    ensures { result ≡ bytes.items }
{
    match String::from_utf8(bytes) {
        Ok(text) => Text::from_string(text),
        Err(_) => unreachable!(),
    }
}

/// Prints a file so that it is read again as the same tree, stretches aside: each token with one space behind it, no semicolon
/// behind a block that is a value, and no comma behind the last item of a list.
pub fn print_tree(alloc: Global, file: &File) -> Result<Text, Memory>
    ensures { IfOk result (λ text. text ≡ written (tokens_of_file file.now)) }
{
    let mut out = Vec::new(alloc);
    print_file_items(alloc, &mut out, file.items.as_slice())?;
    Ok(as_text(out))
}
