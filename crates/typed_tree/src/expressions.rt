use crate::MemberRef;
use element_tables::{MathFunction, Op, PrefixOp, ValueMemberKind};
use slint_base::{Name, Span, Text};
use sqlite_items::{Boxed, Items};
use value_types::{Ty, Value};

/// An expression with its type, and the stretch from its first token to its last one.
#[cycle(typed_expressions)]
#[derive(Drop)]
pub struct TypedExpr {
    pub kind: Boxed<ExprKind>,
    pub ty: Ty,
    pub span: Span,
}

/// What an expression does. Each name is looked up, parentheses are gone, and the sides of an operator, arguments, holes and branches
/// have just the type that is wanted there.
#[cycle(typed_expressions)]
#[derive(Drop)]
pub enum ExprKind {
    Literal(Value),
    /// An argument of the function or handler, by its place.
    Parameter(usize),
    /// All of a property.
    Property(MemberRef),
    /// The length of an array property that is written as a plain path.
    PropertyLength(MemberRef),
    /// An item of an array property that is written as a plain path.
    PropertyItem(MemberRef, TypedExpr),
    /// The item of the row at hand of a repeated element.
    RowItem(usize),
    /// The number of the row at hand of a repeated element.
    RowNumber(usize),
    /// A part of a value: one or more steps into it.
    Part(TypedExpr, Items<TypedStep>),
    /// A built-in member of a text or an array.
    Ask(ValueMemberKind, TypedExpr),
    /// A struct, by its fields in the order of the text.
    Struct(Items<TypedField>),
    Array(Items<TypedExpr>),
    /// The value converted to this type.
    Convert(TypedExpr),
    Prefix(PrefixOp, TypedExpr),
    /// A first operand, and one or more others behind an operator each, from left to right.
    Chain(TypedExpr, Items<TypedOperand>),
    /// `condition ? yes : no`.
    Choice(TypedExpr, TypedExpr, TypedExpr),
    /// A built-in function of values of one type.
    Math(MathFunction, Items<TypedExpr>),
    /// A text up to the first hole, and the holes in their order. The whole is cut where it is too long.
    Template(Text, Items<TypedHole>),
    Call(Callee, Items<TypedExpr>),
}

/// What is called.
#[derive(Clone, Copy)]
pub enum Callee {
    Function(MemberRef),
    Callback(MemberRef),
    /// The built-in function that moves the focus to an element.
    Focus(usize),
}

/// An operator with the operand behind it: the type to which all before it is converted, and that of the result.
#[cycle(typed_expressions)]
#[derive(Drop)]
pub struct TypedOperand {
    pub op: Op,
    pub left: Ty,
    pub right: TypedExpr,
    pub ty: Ty,
}

/// A step into a part of a value, and the part's type.
#[cycle(typed_expressions)]
#[derive(Drop)]
pub struct TypedStep {
    pub kind: StepKind,
    pub ty: Ty,
}

/// A field of a struct, or the item of an array at a place. Out of range it is the type's default.
#[cycle(typed_expressions)]
#[derive(Drop)]
pub enum StepKind {
    ToField(Name),
    ToItem(TypedExpr),
}

/// A field of a struct literal.
#[cycle(typed_expressions)]
#[derive(Drop)]
pub struct TypedField {
    pub name: Name,
    pub value: TypedExpr,
}

/// A hole of a text, and the text behind it up to the next hole or the end.
#[cycle(typed_expressions)]
#[derive(Drop)]
pub struct TypedHole {
    pub value: TypedExpr,
    pub behind: Text,
}
