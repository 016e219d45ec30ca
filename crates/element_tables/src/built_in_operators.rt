ghost use Rattle.std.specs.Prelude.{◌≡◌, ◌&&◌, ◌||◌};
ghost use Rattle.value_types.specs.declared.types.Ty.{out-Ty};
ghost use Rattle.element_tables.specs.Operators.{operation, operations, missing_rule, is_number, is_unit, takes_unit, looked_up, prefixed, signed, negated, code_of};

use crate::matrices::Matrix;
use crate::operators::{Op, OpRow, Operation, PrefixOp, TyCode};
use slint_base::Rule;
use value_types::Ty;

/// The kind that a row names: `U` is the unit at hand.
macro_rules! code {
    ($unit:ident U) => {
        TyCode::$unit
    };
    ($unit:ident $code:ident) => {
        TyCode::$code
    };
}

/// A row of the matrix, with the unit at hand.
macro_rules! row {
    ($unit:ident $op:ident $left:ident $right:ident $as_left:ident $as_right:ident $result:ident) => {
        OpRow {
            op: Op::$op,
            left: code!($unit $left),
            right: code!($unit $right),
            operation: Operation {
                left: code!($unit $as_left),
                right: code!($unit $as_right),
                result: code!($unit $result),
            },
        }
    };
}

/// The rows of a matrix: for operators `left right => converted left, converted right, result;` and in `each { .. }` such rows for each
/// unit in turn, which is called `U` there. Operators with the same rows are joined by `|`.
macro_rules! matrix {
    (@ [$($done:tt)*]) => {
        [$($done)*]
    };
    (@ $done:tt $op:ident | $($more:ident)|+ { $($rows:tt)* } $($rest:tt)*) => {
        matrix!(@ $done $op { $($rows)* } $($more)|+ { $($rows)* } $($rest)*)
    };
    (@ $done:tt $op:ident {} $($rest:tt)*) => {
        matrix!(@ $done $($rest)*)
    };
    (@ [$($done:tt)*] $op:ident {
        each { $($left:ident $right:ident => $as_left:ident $as_right:ident $result:ident;)* }
        $($rows:tt)*
    } $($rest:tt)*) => {
        matrix!(@ [
            $($done)*
            $(row!(Length $op $left $right $as_left $as_right $result),)*
            $(row!(Duration $op $left $right $as_left $as_right $result),)*
            $(row!(Angle $op $left $right $as_left $as_right $result),)*
        ] $op { $($rows)* } $($rest)*)
    };
    (@ [$($done:tt)*] $op:ident {
        $left:ident $right:ident => $as_left:ident $as_right:ident $result:ident;
        $($rows:tt)*
    } $($rest:tt)*) => {
        matrix!(@ [
            $($done)*
            row!(Int $op $left $right $as_left $as_right $result),
        ] $op { $($rows)* } $($rest)*)
    };
}

/// The matrix of the operators between two operands, but for `==` and `!=`, which have a result exactly where their sides have a type in
/// common.
const OPERATORS: [OpRow; 82] = matrix!(@ []
    Add {
        Int Int => Int Int Int;
        Int Float => Float Float Float;
        Int Str => Str Str Str;
        Float Int => Float Float Float;
        Float Float => Float Float Float;
        Float Str => Str Str Str;
        Str Int => Str Str Str;
        Str Float => Str Str Str;
        Str Str => Str Str Str;
        each { U U => U U U; }
    }
    Sub {
        Int Int => Int Int Int;
        Int Float => Float Float Float;
        Float Int => Float Float Float;
        Float Float => Float Float Float;
        each { U U => U U U; }
    }
    Mul {
        Int Int => Int Int Int;
        Int Float => Float Float Float;
        each { Int U => Int U U; }
        Float Int => Float Float Float;
        Float Float => Float Float Float;
        each { Float U => Float U U; }
        each {
            U Int => U Int U;
            U Float => U Float U;
        }
    }
    Div {
        Int Int => Float Float Float;
        Int Float => Float Float Float;
        Float Int => Float Float Float;
        Float Float => Float Float Float;
        each {
            U Int => U Int U;
            U Float => U Float U;
            U U => U U Float;
        }
    }
    Less | LessEqual | Greater | GreaterEqual {
        Int Int => Int Int Bool;
        Int Float => Float Float Bool;
        Float Int => Float Float Bool;
        Float Float => Float Float Bool;
        Str Str => Str Str Bool;
        each { U U => U U Bool; }
    }
    And | Or {
        Bool Bool => Bool Bool Bool;
    }
);

/// What an operator other than `==` and `!=` does between sides of two kinds, `None` exactly where it has no row for them. The kinds are
/// those as which the sides are looked up.
pub fn operator_row(op: Op, left: TyCode, right: TyCode) -> Option<Operation>
    ensures { result ≡ operation op left right operations }
{
    Matrix { rows: &OPERATORS }.find(op, left, right)
}

/// The rule that an operator breaks between sides for which it has no row: products of units, and quotients by a unit, have a rule of
/// their own.
pub fn missing_rule(op: Op, left: TyCode, right: TyCode) -> Rule
    ensures { result ≡ missing_rule op left right }
{
    match op {
        Op::Mul if left.is_unit() && right.is_unit() => Rule::UnitProduct,
        Op::Div if right.is_unit() && (left.is_unit() || left.is_number()) => Rule::UnitProduct,
        _ => Rule::NoOperator,
    }
}

/// What an operator before an operand of a kind gives, `None` where it has no result.
pub fn prefix_result(op: PrefixOp, side: TyCode) -> Option<TyCode>
    ensures { result ≡ prefixed op side }
{
    match op {
        PrefixOp::Not => negated(side),
        PrefixOp::Minus | PrefixOp::Plus => signed(side),
    }
}

/// What `!` gives.
fn negated(side: TyCode) -> Option<TyCode>
    ensures { result ≡ negated side }
{
    match side {
        TyCode::Bool => Some(TyCode::Bool),
        _ => None,
    }
}

/// What `-` and `+` before an operand give.
fn signed(side: TyCode) -> Option<TyCode>
    ensures { result ≡ signed side }
{
    match side {
        TyCode::Zero => Some(TyCode::Int),
        TyCode::Percent => Some(TyCode::Float),
        TyCode::Int | TyCode::Float | TyCode::Length | TyCode::Duration | TyCode::Angle => {
            Some(side)
        }
        _ => None,
    }
}
