use crate::{Field, Ident, Item, Quoted};
use slint_base::Span;
use sqlite_items::Items;

/// A source file: its items in the order of the text.
#[derive(Drop)]
pub struct File {
    pub items: Items<FileItem>,
}

/// An item of a file.
#[derive(Drop)]
pub enum FileItem {
    Import(Import),
    Export(ExportList),
    ExportAll(ExportAll),
    /// Whether `export` is written before a declaration, and the declaration.
    Decl(bool, Decl),
}

/// An import: its names, where braces are written, and the path of the other file.
#[derive(Drop)]
pub struct Import {
    pub names: Option<Items<Alias>>,
    pub path: Quoted,
}

/// A name of another file or of this one, and the name that it gets.
#[derive(Drop)]
pub struct Alias {
    pub name: Ident,
    pub alias: Option<Ident>,
}

/// `export` of a list of names.
#[derive(Drop)]
pub struct ExportList {
    pub names: Items<Alias>,
}

/// `export *` from another file.
#[derive(Drop)]
pub struct ExportAll {
    pub path: Quoted,
}

/// A declaration.
#[derive(Drop)]
pub enum Decl {
    Component(Component),
    Global(Global),
    Struct(StructDecl),
    Enum(EnumDecl),
}

/// A component: its name, its base, where one is written, and its body.
#[derive(Drop)]
pub struct Component {
    pub name: Ident,
    pub base: Option<Ident>,
    pub body: Items<Item>,
}

/// A global: its name and its properties, callbacks, functions and handlers.
#[derive(Drop)]
pub struct Global {
    pub name: Ident,
    pub items: Items<Item>,
}

/// A struct: its name and its fields.
#[derive(Drop)]
pub struct StructDecl {
    pub name: Ident,
    pub fields: Items<Field>,
}

/// An enum: its name and its values, one or more.
#[derive(Drop)]
pub struct EnumDecl {
    pub name: Ident,
    pub values: Items<Ident>,
}
