use crate::{
    ComponentOutline, GlobalOutline, MemberRef, Target, TypedBlock, TypedExpr, TypedValue,
};
use slint_base::Span;
use sqlite_items::Items;
use value_types::{Enums, Ty};

/// A whole source with its names looked up and a type at each expression.
#[derive(Drop)]
pub struct TypedTree {
    pub comps: Items<TypedComponent>,
    pub globals: Items<TypedGlobal>,
    pub enums: Enums,
    /// The component that is run, by its number.
    pub root: usize,
}

/// A component: its outline, and what is written in the bodies of its elements, by their numbers.
#[derive(Drop)]
pub struct TypedComponent {
    pub outline: ComponentOutline,
    pub elements: Items<TypedElement>,
}

/// A global: its outline, and what is written in its body.
#[derive(Drop)]
pub struct TypedGlobal {
    pub outline: GlobalOutline,
    pub items: Items<TypedItem>,
}

/// What is written at an element: its model or condition, if it is repeated, and the items of its body in the order of the text, but for
/// the elements inside and for declarations that neither bind nor link.
#[derive(Drop)]
pub struct TypedElement {
    pub repeat: TypedRepeat,
    pub items: Items<TypedItem>,
}

/// How often an element is there.
#[derive(Drop)]
pub enum TypedRepeat {
    Once,
    /// While a condition holds; and the stretch of the condition, parentheses around it included.
    If(TypedExpr, Span),
    For(TypedFor),
}

/// A row for each item of a model, or for each number below it.
#[derive(Drop)]
pub struct TypedFor {
    pub rows: RowSource,
    /// The type of a row's item.
    pub item: Ty,
    /// What an assignment to a row's item assigns, with the row's number as a further step; none where the item can't be assigned.
    pub target: Option<Target>,
    /// The stretch of the model.
    pub span: Span,
}

/// Where rows come from.
#[derive(Drop)]
pub enum RowSource {
    /// An array property that is written as a plain path: its rows have keys of their own.
    Property(MemberRef),
    /// Any other array.
    Array(TypedExpr),
    /// So many rows.
    Count(TypedExpr),
}

/// An item of a body.
#[derive(Drop)]
pub enum TypedItem {
    Binding(TypedBinding),
    Link(TypedLink),
    Function(TypedFunction),
    Handler(TypedHandler),
    Changed(TypedChanged),
    States(TypedStates),
}

/// A binding of a property, or a declared property's value.
#[derive(Drop)]
pub struct TypedBinding {
    pub property: MemberRef,
    pub value: TypedValue,
    /// Whether the value is a percent that stands for this share of the parent's size.
    pub is_share: bool,
    /// The stretch of the value.
    pub span: Span,
}

/// A link of two properties or of two callbacks, and the stretch of its right side.
#[derive(Drop)]
pub struct TypedLink {
    pub left: MemberRef,
    pub right: MemberRef,
    pub span: Span,
}

/// The body of a function, which is a member by its number.
#[derive(Drop)]
pub struct TypedFunction {
    pub number: usize,
    pub body: TypedBlock,
}

/// A handler, and its whole stretch. Its arguments are all those of the callback, whether it names them or not.
#[derive(Drop)]
pub struct TypedHandler {
    pub event: HandlerOf,
    pub run: TypedValue,
    pub span: Span,
}

/// What a handler runs for.
#[derive(Clone, Copy)]
pub enum HandlerOf {
    /// The coming of its element.
    Init,
    Callback(MemberRef),
}

/// What runs when a property has changed.
#[derive(Drop)]
pub struct TypedChanged {
    pub property: MemberRef,
    pub run: TypedValue,
}

/// A list of states, and the stretch of the word `states`.
#[derive(Drop)]
pub struct TypedStates {
    pub states: Items<TypedState>,
    pub word: Span,
}

/// A state: its condition, without which it never holds, and what it changes.
#[derive(Drop)]
pub struct TypedState {
    pub when: Option<TypedExpr>,
    pub changes: Items<TypedChange>,
}

/// The value that a property has in a state, with the stretches of the path that names it and of the value.
#[derive(Drop)]
pub struct TypedChange {
    pub property: MemberRef,
    pub path: Span,
    pub value: TypedValue,
    pub span: Span,
}
