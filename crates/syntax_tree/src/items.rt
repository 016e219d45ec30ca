use crate::{Block, Expr, Field, Ident, Path, TypeName, Value};
use slint_base::Span;
use sqlite_items::Items;

/// The mark of a property on who may use it.
#[derive(Clone, Copy, PartialEq, Eq)]
pub enum Mark {
    None,
    Private,
    In,
    Out,
    InOut,
}

/// The mark of a function on who may call it.
#[derive(Clone, Copy, PartialEq, Eq)]
pub enum Access {
    None,
    Public,
    Protected,
}

/// A declared property. Its stretch goes from its first token to its last one, a semicolon included that it must have.
#[derive(Drop)]
pub struct Property {
    pub mark: Mark,
    /// The type, which only a linked property may leave out.
    pub ty: Option<TypeName>,
    pub name: Ident,
    pub value: PropValue,
    pub span: Span,
}

/// What a declared property is given.
#[derive(Drop)]
pub enum PropValue {
    None,
    Value(Value),
    Link(Path),
}

/// A declared callback. Its stretch goes from its first token to its semicolon.
#[derive(Drop)]
pub struct Callback {
    pub is_pure: bool,
    pub name: Ident,
    pub form: CallbackForm,
    pub span: Span,
}

/// A callback is linked to another one, or has parameters, where parentheses are written, and a result, where one is.
#[derive(Drop)]
pub enum CallbackForm {
    Link(Path),
    Signature(Option<Items<Parameter>>, Option<TypeName>),
}

/// A callback's parameter, with or without a name.
#[derive(Drop)]
pub struct Parameter {
    pub name: Option<Ident>,
    pub ty: TypeName,
}

/// A declared function.
#[derive(Drop)]
pub struct Function {
    pub is_pure: bool,
    pub access: Access,
    pub name: Ident,
    pub parameters: Items<Field>,
    pub result: Option<TypeName>,
    pub body: Block,
}

/// A binding of a property.
#[derive(Drop)]
pub struct Binding {
    pub name: Ident,
    pub value: Value,
}

/// A two-way link. Its stretch goes from its first token to its semicolon.
#[derive(Drop)]
pub struct Link {
    pub left: Ident,
    pub right: Path,
    pub span: Span,
}

/// A handler of a callback: its parameters, where parentheses are written, and what it runs. Its stretch goes from its name to
/// the end of what it runs.
#[derive(Drop)]
pub struct Handler {
    pub name: Ident,
    pub parameters: Option<Items<Ident>>,
    pub run: Value,
    pub span: Span,
}

/// A handler that runs when a property has changed.
#[derive(Drop)]
pub struct Changed {
    pub name: Ident,
    pub run: Value,
}

/// A list of states, and the stretch of the word `states`.
#[derive(Drop)]
pub struct States {
    pub states: Items<State>,
    pub word: Span,
}

/// A state: its condition, where one is written, and what it changes.
#[derive(Drop)]
pub struct State {
    pub name: Ident,
    pub when: Option<Expr>,
    pub changes: Items<Change>,
}

/// The value that a property has in a state.
#[derive(Drop)]
pub struct Change {
    pub path: Path,
    pub value: Value,
}

/// An element: its id, where one is written, the name of its type, and its body.
#[cycle(items)]
#[derive(Drop)]
pub struct Element {
    pub id: Option<Ident>,
    pub ty: Ident,
    pub body: Items<Item>,
}

/// An element that is there while a condition holds, and the stretch of the word `if`.
#[cycle(items)]
#[derive(Drop)]
pub struct IfElement {
    pub condition: Expr,
    pub element: Element,
    pub word: Span,
}

/// An element that is there for each row of a model: the names of the row's item and of its number, and the stretch of the word
/// `for`.
#[cycle(items)]
#[derive(Drop)]
pub struct For {
    pub item: Ident,
    pub number: Option<Ident>,
    pub model: Expr,
    pub element: Element,
    pub word: Span,
}

/// An item of a body.
#[cycle(items)]
#[derive(Drop)]
pub enum Item {
    Property(Property),
    Callback(Callback),
    Function(Function),
    Binding(Binding),
    Link(Link),
    Handler(Handler),
    Changed(Changed),
    States(States),
    Element(Element),
    If(IfElement),
    For(For),
    /// `@children`, with its stretch.
    Children(Span),
}
