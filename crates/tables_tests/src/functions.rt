use element_tables::{
    Arguments, BuiltInFunction, BuiltInType, MathFunction, Namespace, ValueMember, ValueMemberKind,
    array_member_named, function_named, namespace_named, string_member_named,
};

/// Each built-in function, and names before, between and behind them.
const FUNCTIONS: [(&str, Option<BuiltInFunction>); 27] = [
    (
        "abs",
        Some(BuiltInFunction {
            function: MathFunction::Abs,
            arguments: Arguments::Alike(1),
        }),
    ),
    (
        "min",
        Some(BuiltInFunction {
            function: MathFunction::Min,
            arguments: Arguments::Alike(2),
        }),
    ),
    (
        "max",
        Some(BuiltInFunction {
            function: MathFunction::Max,
            arguments: Arguments::Alike(2),
        }),
    ),
    (
        "mod",
        Some(BuiltInFunction {
            function: MathFunction::Mod,
            arguments: Arguments::Alike(2),
        }),
    ),
    (
        "clamp",
        Some(BuiltInFunction {
            function: MathFunction::Clamp,
            arguments: Arguments::Alike(3),
        }),
    ),
    (
        "round",
        Some(BuiltInFunction {
            function: MathFunction::Round,
            arguments: Arguments::Rounded,
        }),
    ),
    (
        "floor",
        Some(BuiltInFunction {
            function: MathFunction::Floor,
            arguments: Arguments::Rounded,
        }),
    ),
    (
        "ceil",
        Some(BuiltInFunction {
            function: MathFunction::Ceil,
            arguments: Arguments::Rounded,
        }),
    ),
    ("", None),
    ("abs-", None),
    ("ab", None),
    ("min-", None),
    ("mi", None),
    ("max-", None),
    ("ma", None),
    ("mod-", None),
    ("mo", None),
    ("clamp-", None),
    ("clam", None),
    ("round-", None),
    ("roun", None),
    ("floor-", None),
    ("floo", None),
    ("ceil-", None),
    ("cei", None),
    ("sqrt", None),
    ("~", None),
];

/// Each member of strings, and names before, between and behind them.
const STRING_MEMBERS: [(&str, Option<ValueMember>); 12] = [
    (
        "is-empty",
        Some(ValueMember {
            kind: ValueMemberKind::IsEmpty,
            is_called: false,
            result: BuiltInType::Bool,
        }),
    ),
    (
        "is-float",
        Some(ValueMember {
            kind: ValueMemberKind::IsFloat,
            is_called: true,
            result: BuiltInType::Bool,
        }),
    ),
    (
        "to-float",
        Some(ValueMember {
            kind: ValueMemberKind::ToFloat,
            is_called: true,
            result: BuiltInType::Float,
        }),
    ),
    ("", None),
    ("is-empty-", None),
    ("is-empt", None),
    ("is-float-", None),
    ("is-floa", None),
    ("to-float-", None),
    ("to-floa", None),
    ("length", None),
    ("~", None),
];

/// Each member of arrays, and names before, between and behind them.
const ARRAY_MEMBERS: [(&str, Option<ValueMember>); 6] = [
    (
        "length",
        Some(ValueMember {
            kind: ValueMemberKind::Length,
            is_called: false,
            result: BuiltInType::Int,
        }),
    ),
    ("", None),
    ("length-", None),
    ("lengt", None),
    ("is-empty", None),
    ("~", None),
];

/// Each name with built-in members, and names before, between and behind them.
const NAMESPACES: [(&str, Option<Namespace>); 12] = [
    ("Math", Some(Namespace::Math)),
    ("Colors", Some(Namespace::Colors)),
    ("Key", Some(Namespace::Key)),
    ("", None),
    ("Math-", None),
    ("Mat", None),
    ("Colors-", None),
    ("Color", None),
    ("Key-", None),
    ("Ke", None),
    ("A", None),
    ("~", None),
];

#[test]
fn functions_by_name(rt: HostRuntime) {
    for (name, want) in &FUNCTIONS {
        assert_eq!(rt; function_named(name), *want, "at {name}");
    }
}

#[test]
fn members_of_values(rt: HostRuntime) {
    for (name, want) in &STRING_MEMBERS {
        assert_eq!(rt; string_member_named(name), *want, "at {name}");
    }
    for (name, want) in &ARRAY_MEMBERS {
        assert_eq!(rt; array_member_named(name), *want, "at {name}");
    }
}

#[test]
fn names_with_built_in_members(rt: HostRuntime) {
    for (name, want) in &NAMESPACES {
        assert_eq!(rt; namespace_named(name), *want, "at {name}");
    }
}
