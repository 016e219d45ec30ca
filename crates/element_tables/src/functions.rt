ghost use Rattle.std.specs.Prelude.{◌≡◌};
ghost use Rattle.element_tables.specs.Functions.{functions, namespaces, string_members, array_members};
ghost use Rattle.element_tables.specs.Rows.{named};

use crate::names::NameTable;
use crate::types::BuiltInType;

/// A name whose members are built in.
#[derive(Clone, Copy, Debug, PartialEq, Eq)]
pub enum Namespace {
    Math,
    Colors,
    Key,
}

/// A built-in function, which is a name of its own and a member of `Math`.
#[derive(Clone, Copy, Debug, PartialEq, Eq)]
pub struct BuiltInFunction {
    pub function: MathFunction,
    pub arguments: Arguments,
}

/// Which built-in function it is.
#[derive(Clone, Copy, Debug, PartialEq, Eq)]
pub enum MathFunction {
    Abs,
    Min,
    Max,
    Mod,
    Clamp,
    Round,
    Floor,
    Ceil,
}

/// What a built-in function takes and gives.
#[derive(Clone, Copy, Debug, PartialEq, Eq)]
pub enum Arguments {
    /// So many values of one type, which is int, float or a unit; the result has the same type.
    Alike(u8),
    /// One float; the result is an int.
    Rounded,
}

/// A member of a value: a property or, if it is called, a function without arguments, and the type that it gives.
#[derive(Clone, Copy, Debug, PartialEq, Eq)]
pub struct ValueMember {
    pub kind: ValueMemberKind,
    pub is_called: bool,
    pub result: BuiltInType,
}

/// Which member of a value it is.
#[derive(Clone, Copy, Debug, PartialEq, Eq)]
pub enum ValueMemberKind {
    IsEmpty,
    IsFloat,
    ToFloat,
    Length,
}

const NAMESPACES: [(&str, Namespace); 3] = [
    ("Colors", Namespace::Colors),
    ("Key", Namespace::Key),
    ("Math", Namespace::Math),
];

/// A built-in function of so many arguments of one type.
macro_rules! alike {
    ($function:ident, $count:expr) => {
        BuiltInFunction { function: MathFunction::$function, arguments: Arguments::Alike($count) }
    };
}

/// A built-in function that makes an int of a float.
macro_rules! rounded {
    ($function:ident) => {
        BuiltInFunction { function: MathFunction::$function, arguments: Arguments::Rounded }
    };
}

/// A member of a value: a function if `called` stands before it.
macro_rules! value_member {
    (called $kind:ident, $result:ident) => {
        ValueMember {
            kind: ValueMemberKind::$kind,
            is_called: true,
            result: BuiltInType::$result,
        }
    };
    ($kind:ident, $result:ident) => {
        ValueMember {
            kind: ValueMemberKind::$kind,
            is_called: false,
            result: BuiltInType::$result,
        }
    };
}

const FUNCTIONS: [(&str, BuiltInFunction); 8] = [
    ("abs", alike!(Abs, 1)),
    ("ceil", rounded!(Ceil)),
    ("clamp", alike!(Clamp, 3)),
    ("floor", rounded!(Floor)),
    ("max", alike!(Max, 2)),
    ("min", alike!(Min, 2)),
    ("mod", alike!(Mod, 2)),
    ("round", rounded!(Round)),
];

const STRING_MEMBERS: [(&str, ValueMember); 3] = [
    ("is-empty", value_member!(IsEmpty, Bool)),
    ("is-float", value_member!(called IsFloat, Bool)),
    ("to-float", value_member!(called ToFloat, Float)),
];

const ARRAY_MEMBERS: [(&str, ValueMember); 1] = [("length", value_member!(Length, Int))];

/// What a name stands for whose members are built in, `None` where it is no such name.
pub fn namespace_named(name: &str) -> Option<Namespace>
    ensures { result ≡ named name.now namespaces }
{
    NameTable { rows: &NAMESPACES }.find(name)
}

/// The built-in function of a name, `None` where there is none.
pub fn function_named(name: &str) -> Option<BuiltInFunction>
    ensures { result ≡ named name.now functions }
{
    NameTable { rows: &FUNCTIONS }.find(name)
}

/// The member of strings that has a name, `None` where there is none.
pub fn string_member_named(name: &str) -> Option<ValueMember>
    ensures { result ≡ named name.now string_members }
{
    NameTable {
        rows: &STRING_MEMBERS,
    }
    .find(name)
}

/// The member of arrays that has a name, `None` where there is none.
pub fn array_member_named(name: &str) -> Option<ValueMember>
    ensures { result ≡ named name.now array_members }
{
    NameTable {
        rows: &ARRAY_MEMBERS,
    }
    .find(name)
}
