use element_tables::{BuiltInFunction, Namespace, ValueMember};
use slint_base::Rule;
use typed_tree::{Callee, Signature, TypedExpr};

/// What a name, or an expression, can stand for.
#[derive(Drop)]
pub enum Meaning {
    Value(TypedExpr),
    /// An element of the component, by its number.
    Element(usize),
    /// A global, by its number.
    Global(usize),
    /// An enum, by its number.
    Enum(u32),
    Namespace(Namespace),
    /// A callback or a function that isn't called yet.
    Callable(Callee, Signature),
    /// A built-in function that isn't called yet.
    Math(BuiltInFunction),
    /// A function of a value that isn't called yet.
    Method(ValueMember, TypedExpr),
}

/// What a look-up finds: nothing, or what a name stands for, or the rule that is broken where that may not be used.
pub type Lookup = Option<Result<Meaning, Rule>>;
