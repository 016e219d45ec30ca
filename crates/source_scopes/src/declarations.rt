ghost use Rattle.std.specs.Prelude.{◌≡◌, ◌∷◌, ◌++◌, [], IfOk, OnOk, map, slice_get};
ghost use Rattle.import_resolver.specs.Loaded.{rows_of};
ghost use Rattle.typed_tree.specs.BuiltIns.{built_in_enums, enum_name, enum_names};
ghost use Rattle.source_scopes.specs.Declarations.{components_among, components_of, enums_among, enums_of, globals_among, globals_of, items_in, names_of_enum, structs_among, structs_of, value_name};
ghost use Rattle.source_scopes.specs.Shown.{normal_of, shown_component, shown_global, shown_struct};

use crate::files::{file_at, file_count};
use element_tables::BuiltInEnum;
use import_resolver::Loaded;
use slint_base::{Memory, Name};
use sqlite_items::Items;
use std::alloc::Global as Heap;
use syntax_tree::{Component, Decl, EnumDecl, FileItem, Global, Ident, StructDecl};
use value_types::{EnumNames, Enums};

/// A component, and the number of its file.
#[derive(Drop)]
pub struct FileComponent<'a> {
    pub file: usize,
    pub component: &'a Component,
}

/// A global, and the number of its file.
#[derive(Drop)]
pub struct FileGlobal<'a> {
    pub file: usize,
    pub global: &'a Global,
}

/// A struct, and the number of its file.
#[derive(Drop)]
pub struct FileStruct<'a> {
    pub file: usize,
    pub decl: &'a StructDecl,
}

/// The items of a file.
fn items_at(loaded: &Loaded, number: usize) -> &[FileItem]
    ensures { result.now ≡ items_in (slice_get (rows_of loaded.now) number) }
{
    match file_at(loaded, number) {
        Some(file) => file.tree.items.as_slice(),
        None => &[],
    }
}

/// All components by their numbers.
pub(crate) fn components_of<'a>(
    alloc: Heap,
    loaded: &'a Loaded,
) -> Result<Items<FileComponent<'a>>, Memory>
    ensures { IfOk result (λ made. map shown_component made ≡ components_of (rows_of loaded.now)) }
{
    let mut made = Items::new(alloc);
    for file in 0..file_count(loaded) {
        made = add_components(made, file, items_at(loaded, file))?;
    }
    Ok(made)
}

/// These components, and behind them those of a file.
fn add_components<'a>(
    mut made: Items<FileComponent<'a>>,
    file: usize,
    items: &'a [FileItem],
) -> Result<Items<FileComponent<'a>>, Memory>
    ensures { IfOk result (λ more. map shown_component more ≡ map shown_component made.entry ++ components_among file items.now) }
{
    for item in items {
        if let FileItem::Decl(_, Decl::Component(component)) = item {
            made.push(FileComponent { file, component })?;
        }
    }
    Ok(made)
}

/// All globals by their numbers.
pub(crate) fn globals_of<'a>(
    alloc: Heap,
    loaded: &'a Loaded,
) -> Result<Items<FileGlobal<'a>>, Memory>
    ensures { IfOk result (λ made. map shown_global made ≡ globals_of (rows_of loaded.now)) }
{
    let mut made = Items::new(alloc);
    for file in 0..file_count(loaded) {
        made = add_globals(made, file, items_at(loaded, file))?;
    }
    Ok(made)
}

/// These globals, and behind them those of a file.
fn add_globals<'a>(
    mut made: Items<FileGlobal<'a>>,
    file: usize,
    items: &'a [FileItem],
) -> Result<Items<FileGlobal<'a>>, Memory>
    ensures { IfOk result (λ more. map shown_global more ≡ map shown_global made.entry ++ globals_among file items.now) }
{
    for item in items {
        if let FileItem::Decl(_, Decl::Global(global)) = item {
            made.push(FileGlobal { file, global })?;
        }
    }
    Ok(made)
}

/// All structs by their numbers.
pub(crate) fn structs_of<'a>(
    alloc: Heap,
    loaded: &'a Loaded,
) -> Result<Items<FileStruct<'a>>, Memory>
    ensures { IfOk result (λ made. map shown_struct made ≡ structs_of (rows_of loaded.now)) }
{
    let mut made = Items::new(alloc);
    for file in 0..file_count(loaded) {
        made = add_structs(made, file, items_at(loaded, file))?;
    }
    Ok(made)
}

/// These structs, and behind them those of a file.
fn add_structs<'a>(
    mut made: Items<FileStruct<'a>>,
    file: usize,
    items: &'a [FileItem],
) -> Result<Items<FileStruct<'a>>, Memory>
    ensures { IfOk result (λ more. map shown_struct more ≡ map shown_struct made.entry ++ structs_among file items.now) }
{
    for item in items {
        if let FileItem::Decl(_, Decl::Struct(decl)) = item {
            made.push(FileStruct { file, decl })?;
        }
    }
    Ok(made)
}

/// All enums by their numbers.
pub(crate) fn enums_of(alloc: Heap, loaded: &Loaded) -> Result<Enums, Memory>
    ensures { IfOk result (λ made. made ≡ enums_of (rows_of loaded.now)) }
{
    let mut made = built_in_enums(alloc)?;
    for file in 0..file_count(loaded) {
        made = add_enums(alloc, made, items_at(loaded, file))?;
    }
    Ok(made)
}

/// These enums, and behind them those of a file.
fn add_enums(alloc: Heap, mut made: Enums, items: &[FileItem]) -> Result<Enums, Memory>
    ensures { IfOk result (λ more. more ≡ made ++ enums_among 0 items.now) }
{
    for item in items {
        if let FileItem::Decl(_, Decl::Enum(decl)) = item {
            made.push(names_of_enum(alloc, decl)?)?;
        }
    }
    Ok(made)
}

/// The names of an enum and its values.
fn names_of_enum(alloc: Heap, decl: &EnumDecl) -> Result<EnumNames, Memory>
    ensures { IfOk result (λ names. names ≡ names_of_enum decl.now) }
{
    let values = value_names(alloc, decl.values.as_slice())?;
    let name = decl.name.name.copy()?;
    Ok(EnumNames { name, values })
}

/// The names of an enum's values.
fn value_names(alloc: Heap, values: &[Ident]) -> Result<Items<Name>, Memory>
    ensures { IfOk result (λ names. names ≡ map value_name values.now) }
{
    let mut names = Items::new(alloc);
    for value in values {
        names.push(value.name.copy()?)?;
    }
    Ok(names)
}

/// The built-in enums, by their numbers.
fn built_in_enums(alloc: Heap) -> Result<Enums, Memory>
    ensures { IfOk result (λ made. made ≡ built_in_enums) }
{
    let mut made = Items::new(alloc);
    push_built_in(alloc, &mut made, BuiltInEnum::TextHorizontalAlignment)?;
    push_built_in(alloc, &mut made, BuiltInEnum::TextVerticalAlignment)?;
    push_built_in(alloc, &mut made, BuiltInEnum::TextWrap)?;
    push_built_in(alloc, &mut made, BuiltInEnum::TextOverflow)?;
    push_built_in(alloc, &mut made, BuiltInEnum::ImageFit)?;
    push_built_in(alloc, &mut made, BuiltInEnum::EventResult)?;
    push_built_in(alloc, &mut made, BuiltInEnum::LayoutAlignment)?;
    Ok(made)
}

/// Puts a built-in enum behind others.
fn push_built_in(alloc: Heap, made: &mut Enums, of: BuiltInEnum) -> Result<(), Memory>
    ensures { OnOk result (made.new ≡ made.old ++ enum_names of ∷ []) }
{
    let names = built_in_names(alloc, of)?;
    made.push(names)?;
    Ok(())
}

/// The name of a built-in enum.
fn built_in_name(of: BuiltInEnum) -> &'static str
    ensures { result.now ≡ enum_name of }
{
    match of {
        BuiltInEnum::TextHorizontalAlignment => "TextHorizontalAlignment",
        BuiltInEnum::TextVerticalAlignment => "TextVerticalAlignment",
        BuiltInEnum::TextWrap => "TextWrap",
        BuiltInEnum::TextOverflow => "TextOverflow",
        BuiltInEnum::ImageFit => "ImageFit",
        BuiltInEnum::EventResult => "EventResult",
        BuiltInEnum::LayoutAlignment => "LayoutAlignment",
    }
}

/// The names of a built-in enum and its values.
fn built_in_names(alloc: Heap, of: BuiltInEnum) -> Result<EnumNames, Memory>
    ensures { IfOk result (λ names. names ≡ enum_names of) }
{
    let values = normal_names(alloc, of.values())?;
    let name = Name::normal(alloc, built_in_name(of))?;
    Ok(EnumNames { name, values })
}

/// The names that texts spell.
fn normal_names(alloc: Heap, texts: &[&str]) -> Result<Items<Name>, Memory>
    ensures { IfOk result (λ names. names ≡ map normal_of texts.now) }
{
    let mut names = Items::new(alloc);
    for text in texts {
        names.push(Name::normal(alloc, text)?)?;
    }
    Ok(names)
}
