use element_tables::{Op, PrefixOp, TyCode, operator_between, prefix_result};
use slint_base::{End, Memory, Name};
use sqlite_items::{Boxed, Items};
use std::alloc::Global;
use std::test::Fail;
use value_types::Ty;

/// What is said of an operator: the types to which its sides are converted and that of its result, or the number of the rule that it
/// breaks.
#[derive(Clone, Copy)]
enum Said {
    Types(&'static str, &'static str, &'static str),
    Rule(u8),
}

/// Sides, an operator between them, and what is said of it.
type Row = (&'static str, Op, &'static str, Said);

/// Between types of expressions.
static ROWS: [Row; 90] = [
    (
        "float",
        Op::Mul,
        "percent",
        Said::Types("float", "float", "float"),
    ),
    ("{a: int, b: string}", Op::And, "length", Said::Rule(41)),
    (
        "int",
        Op::GreaterEqual,
        "int",
        Said::Types("int", "int", "bool"),
    ),
    ("color", Op::Mul, "duration", Said::Rule(41)),
    ("color", Op::Add, "[float]", Said::Rule(41)),
    ("angle", Op::NotEqual, "float", Said::Rule(41)),
    ("length", Op::Div, "angle", Said::Rule(46)),
    ("angle", Op::Equal, "float", Said::Rule(41)),
    ("percent", Op::Or, "int", Said::Rule(41)),
    ("length", Op::Div, "[[length]]", Said::Rule(41)),
    ("[float]", Op::Equal, "{a: int, b: string}", Said::Rule(41)),
    (
        "angle",
        Op::Greater,
        "angle",
        Said::Types("angle", "angle", "bool"),
    ),
    ("bool", Op::And, "[[length]]", Said::Rule(41)),
    ("string", Op::Greater, "duration", Said::Rule(41)),
    ("percent", Op::Mul, "{a: int, b: string}", Said::Rule(41)),
    ("duration", Op::Add, "[[length]]", Said::Rule(41)),
    ("float", Op::NotEqual, "duration", Said::Rule(41)),
    ("duration", Op::Mul, "duration", Said::Rule(46)),
    ("color", Op::GreaterEqual, "[int]", Said::Rule(41)),
    (
        "float",
        Op::Add,
        "string",
        Said::Types("string", "string", "string"),
    ),
    ("bool", Op::Equal, "float", Said::Rule(41)),
    ("[int]", Op::Add, "length", Said::Rule(41)),
    ("[[length]]", Op::Div, "{a: int, b: string}", Said::Rule(41)),
    (
        "length",
        Op::Sub,
        "length",
        Said::Types("length", "length", "length"),
    ),
    (
        "duration",
        Op::Greater,
        "duration",
        Said::Types("duration", "duration", "bool"),
    ),
    (
        "string",
        Op::Add,
        "string",
        Said::Types("string", "string", "string"),
    ),
    ("angle", Op::Div, "length", Said::Rule(46)),
    ("length", Op::Mul, "duration", Said::Rule(46)),
    (
        "percent",
        Op::GreaterEqual,
        "int",
        Said::Types("float", "float", "bool"),
    ),
    ("[int]", Op::Sub, "[int]", Said::Rule(41)),
    ("angle", Op::Or, "{a: int, b: string}", Said::Rule(41)),
    (
        "string",
        Op::NotEqual,
        "string",
        Said::Types("string", "string", "bool"),
    ),
    (
        "float",
        Op::NotEqual,
        "string",
        Said::Types("string", "string", "bool"),
    ),
    ("bool", Op::LessEqual, "float", Said::Rule(41)),
    ("[int]", Op::And, "float", Said::Rule(41)),
    (
        "string",
        Op::NotEqual,
        "float",
        Said::Types("string", "string", "bool"),
    ),
    ("[float]", Op::Div, "string", Said::Rule(41)),
    ("angle", Op::GreaterEqual, "[float]", Said::Rule(41)),
    ("[float]", Op::GreaterEqual, "angle", Said::Rule(41)),
    (
        "float",
        Op::LessEqual,
        "int",
        Said::Types("float", "float", "bool"),
    ),
    (
        "float",
        Op::Sub,
        "int",
        Said::Types("float", "float", "float"),
    ),
    (
        "float",
        Op::Div,
        "float",
        Said::Types("float", "float", "float"),
    ),
    ("length", Op::Equal, "angle", Said::Rule(41)),
    ("float", Op::Or, "[int]", Said::Rule(41)),
    (
        "angle",
        Op::Mul,
        "float",
        Said::Types("angle", "float", "angle"),
    ),
    ("[float]", Op::GreaterEqual, "int", Said::Rule(41)),
    ("{a: int, b: string}", Op::Sub, "duration", Said::Rule(41)),
    (
        "int",
        Op::Mul,
        "length",
        Said::Types("int", "length", "length"),
    ),
    ("[int]", Op::Greater, "float", Said::Rule(41)),
    (
        "string",
        Op::Add,
        "int",
        Said::Types("string", "string", "string"),
    ),
    (
        "float",
        Op::Greater,
        "percent",
        Said::Types("float", "float", "bool"),
    ),
    ("percent", Op::LessEqual, "[int]", Said::Rule(41)),
    (
        "length",
        Op::NotEqual,
        "length",
        Said::Types("length", "length", "bool"),
    ),
    ("length", Op::Mul, "angle", Said::Rule(46)),
    ("duration", Op::Add, "[float]", Said::Rule(41)),
    (
        "float",
        Op::Add,
        "percent",
        Said::Types("float", "float", "float"),
    ),
    (
        "float",
        Op::NotEqual,
        "int",
        Said::Types("float", "float", "bool"),
    ),
    ("string", Op::Equal, "angle", Said::Rule(41)),
    ("{a: int, b: string}", Op::Sub, "length", Said::Rule(41)),
    ("[[length]]", Op::GreaterEqual, "percent", Said::Rule(41)),
    ("bool", Op::Equal, "length", Said::Rule(41)),
    ("[int]", Op::Greater, "[float]", Said::Rule(41)),
    ("[int]", Op::GreaterEqual, "float", Said::Rule(41)),
    (
        "[int]",
        Op::NotEqual,
        "[int]",
        Said::Types("[int]", "[int]", "bool"),
    ),
    ("float", Op::Mul, "{a: int, b: string}", Said::Rule(41)),
    ("[int]", Op::Greater, "bool", Said::Rule(41)),
    (
        "int",
        Op::Greater,
        "percent",
        Said::Types("float", "float", "bool"),
    ),
    ("[int]", Op::GreaterEqual, "length", Said::Rule(41)),
    ("[[length]]", Op::And, "percent", Said::Rule(41)),
    ("float", Op::NotEqual, "angle", Said::Rule(41)),
    (
        "int",
        Op::NotEqual,
        "percent",
        Said::Types("float", "float", "bool"),
    ),
    (
        "string",
        Op::NotEqual,
        "{a: int, b: string}",
        Said::Rule(41),
    ),
    ("color", Op::LessEqual, "[float]", Said::Rule(41)),
    ("bool", Op::Or, "[float]", Said::Rule(41)),
    ("int", Op::Less, "[int]", Said::Rule(41)),
    ("[[length]]", Op::Greater, "percent", Said::Rule(41)),
    (
        "duration",
        Op::NotEqual,
        "duration",
        Said::Types("duration", "duration", "bool"),
    ),
    ("duration", Op::LessEqual, "[int]", Said::Rule(41)),
    (
        "float",
        Op::GreaterEqual,
        "percent",
        Said::Types("float", "float", "bool"),
    ),
    ("int", Op::Mul, "[float]", Said::Rule(41)),
    (
        "int",
        Op::Div,
        "percent",
        Said::Types("float", "float", "float"),
    ),
    (
        "[int]",
        Op::Equal,
        "[float]",
        Said::Types("[float]", "[float]", "bool"),
    ),
    (
        "duration",
        Op::Mul,
        "int",
        Said::Types("duration", "int", "duration"),
    ),
    ("float", Op::Div, "duration", Said::Rule(46)),
    (
        "angle",
        Op::GreaterEqual,
        "angle",
        Said::Types("angle", "angle", "bool"),
    ),
    (
        "percent",
        Op::GreaterEqual,
        "percent",
        Said::Types("float", "float", "bool"),
    ),
    (
        "percent",
        Op::Equal,
        "int",
        Said::Types("float", "float", "bool"),
    ),
    (
        "angle",
        Op::LessEqual,
        "angle",
        Said::Types("angle", "angle", "bool"),
    ),
    (
        "float",
        Op::Add,
        "int",
        Said::Types("float", "float", "float"),
    ),
    ("angle", Op::Mul, "length", Said::Rule(46)),
];

/// Literals of zeros and `[]`.
const BARE_ROWS: [Row; 14] = [
    (
        "zero",
        Op::Add,
        "length",
        Said::Types("length", "length", "length"),
    ),
    (
        "angle",
        Op::Sub,
        "zero",
        Said::Types("angle", "angle", "angle"),
    ),
    (
        "zero",
        Op::Less,
        "duration",
        Said::Types("duration", "duration", "bool"),
    ),
    (
        "zero",
        Op::Equal,
        "length",
        Said::Types("length", "length", "bool"),
    ),
    (
        "zero",
        Op::Mul,
        "length",
        Said::Types("int", "length", "length"),
    ),
    ("zero", Op::Div, "length", Said::Rule(46)),
    (
        "length",
        Op::Div,
        "zero",
        Said::Types("length", "int", "length"),
    ),
    ("zero", Op::Add, "zero", Said::Types("int", "int", "int")),
    (
        "zero",
        Op::Add,
        "string",
        Said::Types("string", "string", "string"),
    ),
    (
        "zero",
        Op::Add,
        "percent",
        Said::Types("float", "float", "float"),
    ),
    ("[]", Op::Equal, "[]", Said::Types("[int]", "[int]", "bool")),
    (
        "[]",
        Op::Equal,
        "[float]",
        Said::Types("[float]", "[float]", "bool"),
    ),
    ("[]", Op::Equal, "[[length]]", Said::Rule(41)),
    ("[]", Op::Add, "[int]", Said::Rule(41)),
];

/// The type that a text writes.
fn written(alloc: Global, text: &str) -> Result<Ty, Memory> {
    match text {
        "zero" => Ok(Ty::Zero),
        "int" => Ok(Ty::Int),
        "float" => Ok(Ty::Float),
        "percent" => Ok(Ty::Percent),
        "bool" => Ok(Ty::Bool),
        "string" => Ok(Ty::Str),
        "color" => Ok(Ty::Color),
        "length" => Ok(Ty::Length),
        "duration" => Ok(Ty::Duration),
        "angle" => Ok(Ty::Angle),
        "[]" => Ok(Ty::Empty),
        "[int]" => array(alloc, Ty::Int),
        "[float]" => array(alloc, Ty::Float),
        "[[length]]" => array(alloc, array(alloc, Ty::Length)?),
        "{a: int, b: string}" => pair(alloc),
        _ => Ok(Ty::Void),
    }
}

/// The array of a type.
fn array(alloc: Global, item: Ty) -> Result<Ty, Memory> {
    Ok(Ty::Array(Boxed::new(alloc, item)?))
}

/// The struct `{a: int, b: string}`.
fn pair(alloc: Global) -> Result<Ty, Memory> {
    let mut fields = Items::new(alloc);
    fields.push((Name::normal(alloc, "a")?, Ty::Int))?;
    fields.push((Name::normal(alloc, "b")?, Ty::Str))?;
    Ok(Ty::Struct(fields))
}

/// A type in words.
fn shown(ty: &Ty) -> &'static str {
    match ty {
        Ty::Int => "int",
        Ty::Float => "float",
        Ty::Bool => "bool",
        Ty::Str => "string",
        Ty::Length => "length",
        Ty::Duration => "duration",
        Ty::Angle => "angle",
        Ty::Array(item) => shown_array(item.get()),
        _ => "another type",
    }
}

/// An array in words, by its items.
fn shown_array(item: &Ty) -> &'static str {
    match item {
        Ty::Int => "[int]",
        Ty::Float => "[float]",
        _ => "another array",
    }
}

/// Whether an operator does between two types what is said of it.
fn does_as_said(alloc: Global, row: &Row) -> Result<bool, Memory> {
    let left = written(alloc, row.0)?;
    let right = written(alloc, row.2)?;
    match operator_between(alloc, row.1, &left, &right) {
        Ok(found) => Ok(has_types(
            shown(&found.left),
            shown(&found.right),
            shown(&found.result),
            row.3,
        )),
        Err(End::Fault(rule)) => Ok(breaks(rule.number(), row.3)),
        Err(End::Memory) => Err(Memory),
    }
}

/// Whether types are those that are said.
fn has_types(left: &str, right: &str, given: &str, said: Said) -> bool {
    match said {
        Said::Types(a, b, c) => left == a && right == b && given == c,
        Said::Rule(_) => false,
    }
}

/// Whether a rule is the one that is said.
fn breaks(rule: u8, said: Said) -> bool {
    match said {
        Said::Types(_, _, _) => false,
        Said::Rule(number) => rule == number,
    }
}

#[test]
fn operators_between_types(rt: HostRuntime) -> Result<(), Fail> {
    for row in &ROWS {
        assert!(rt;
            does_as_said(rt.alloc(), row)?,
            "{} {:?} {}",
            row.0,
            row.1,
            row.2
        );
    }
    Ok(())
}

#[test]
fn literals_of_zeros_and_empty_arrays(rt: HostRuntime) -> Result<(), Fail> {
    for row in &BARE_ROWS {
        assert!(rt;
            does_as_said(rt.alloc(), row)?,
            "{} {:?} {}",
            row.0,
            row.1,
            row.2
        );
    }
    Ok(())
}

/// Operators before an operand of a kind, and what they give.
const PREFIX_ROWS: [(PrefixOp, TyCode, Option<TyCode>); 13] = [
    (PrefixOp::Not, TyCode::Bool, Some(TyCode::Bool)),
    (PrefixOp::Not, TyCode::Int, None),
    (PrefixOp::Not, TyCode::Zero, None),
    (PrefixOp::Minus, TyCode::Int, Some(TyCode::Int)),
    (PrefixOp::Minus, TyCode::Zero, Some(TyCode::Int)),
    (PrefixOp::Minus, TyCode::Percent, Some(TyCode::Float)),
    (PrefixOp::Plus, TyCode::Float, Some(TyCode::Float)),
    (PrefixOp::Plus, TyCode::Length, Some(TyCode::Length)),
    (PrefixOp::Minus, TyCode::Duration, Some(TyCode::Duration)),
    (PrefixOp::Minus, TyCode::Angle, Some(TyCode::Angle)),
    (PrefixOp::Minus, TyCode::Bool, None),
    (PrefixOp::Plus, TyCode::Str, None),
    (PrefixOp::Minus, TyCode::Empty, None),
];

#[test]
fn operators_before_an_operand(rt: HostRuntime) {
    for (op, side, want) in &PREFIX_ROWS {
        assert_eq!(rt; prefix_result(*op, *side), *want, "at {op:?} {side:?}");
    }
}
