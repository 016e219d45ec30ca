use crate::Member;
use element_tables::ElementKind;
use slint_base::{Name, Span};
use sqlite_items::Items;
use syntax_tree::Ident;
use value_types::{Enums, Ty};

/// What the names of a source can stand for: all its declarations, with the elements and members that they have, but without any
/// expression. Components, globals and enums are numbered over all files, by file and in the order of the text; the enums begin
/// with the built-in ones.
#[derive(Drop)]
pub struct Outline {
    pub files: Items<FileOutline>,
    pub comps: Items<ComponentOutline>,
    pub globals: Items<GlobalOutline>,
    pub enums: Enums,
}

/// The names of a file's scope: what it declares and imports, in the order of the text.
#[derive(Drop)]
pub struct FileOutline {
    pub names: Items<FileName>,
}

/// A name of a file's scope, and what it stands for.
#[derive(Drop)]
pub struct FileName {
    pub name: Name,
    pub declared: Declared,
}

/// What a name of a file's scope stands for.
#[derive(Drop)]
pub enum Declared {
    Component(usize),
    Global(usize),
    Enum(u32),
    /// A struct, which is short for its type.
    Struct(Ty),
}

/// A component: its name, the file in which it stands, the members that are declared in it, and its elements in the order of the
/// text. Element 0 is its root element, whose type is what the component inherits.
#[derive(Drop)]
pub struct ComponentOutline {
    pub name: Ident,
    pub file: usize,
    pub members: Items<Member>,
    pub elements: Items<ElementOutline>,
    /// Where `@children` stands, if it is written.
    pub slot: Option<Slot>,
}

/// The place of `@children`: the element around it, and how many of that element's children stand before it.
#[derive(Clone, Copy)]
pub struct Slot {
    pub element: usize,
    pub before: usize,
}

/// An element of a component.
#[derive(Drop)]
pub struct ElementOutline {
    pub id: Option<Ident>,
    pub ty: ElementType,
    /// The name of its type where the element is written; of a root element the name behind `inherits` or, without one, the
    /// component's name.
    pub ty_span: Span,
    /// The element around it in the text; none for the root element.
    pub parent: Option<usize>,
    pub repeat: Repeat,
}

/// What an element is: a built-in element, or an instance of a component.
#[derive(Clone, Copy)]
pub enum ElementType {
    BuiltIn(ElementKind),
    Component(usize),
}

/// How often an element is there.
#[derive(Drop)]
pub enum Repeat {
    Once,
    /// While a condition holds. With the stretch of the word `if`.
    If(Span),
    /// For each row of a model: the names of the row's item and of its number, and the stretch of the word `for`.
    For(Ident, Option<Ident>, Span),
}

/// A global: its name, the file in which it stands, and its members.
#[derive(Drop)]
pub struct GlobalOutline {
    pub name: Ident,
    pub file: usize,
    pub members: Items<Member>,
}
