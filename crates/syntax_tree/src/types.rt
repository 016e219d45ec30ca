use crate::Ident;
use slint_base::Span;
use sqlite_items::{Boxed, Items};

/// A type as it is written. The stretch of an array or a struct goes from its first bracket to its last.
#[cycle(types)]
#[derive(Drop)]
pub enum TypeName {
    Named(Ident),
    Array(Boxed<TypeName>, Span),
    Struct(Items<Field>, Span),
}

/// A name with its type: a field of a struct, or a function's parameter.
#[cycle(types)]
#[derive(Drop)]
pub struct Field {
    pub name: Ident,
    pub ty: TypeName,
}
