ghost use Rattle.std.specs.Prelude.{◌≡◌, ◌&&◌, if◌then◌else◌};
ghost use Rattle.element_tables.specs.declared.operators.TyCode.TheVariants as code;
ghost use Rattle.value_types.specs.declared.types.Ty.{out-Ty};
ghost use Rattle.element_tables.specs.Operators.{op_number, code_number, code_of, is_number, is_unit, takes_unit, looked_up};

use value_types::Ty;

/// An operator between two operands.
#[derive(Clone, Copy, Debug, PartialEq, Eq)]
pub enum Op {
    Add,
    Sub,
    Mul,
    Div,
    Less,
    LessEqual,
    Greater,
    GreaterEqual,
    Equal,
    NotEqual,
    And,
    Or,
}

/// An operator before an operand.
#[derive(Clone, Copy, Debug, PartialEq, Eq)]
pub enum PrefixOp {
    Not,
    Minus,
    Plus,
}

/// A kind of types: which one of those that `Ty` tells apart, without its parts.
#[derive(Clone, Copy, Debug, PartialEq, Eq)]
pub enum TyCode {
    Void,
    Zero,
    Int,
    Float,
    Percent,
    Bool,
    Str,
    Color,
    Length,
    Duration,
    Angle,
    Image,
    Enum,
    Struct,
    Array,
    Empty,
}

/// What an operator does: the kinds to which its sides are converted, and the kind of its result.
#[derive(Clone, Copy, Debug, PartialEq, Eq)]
pub struct Operation {
    pub left: TyCode,
    pub right: TyCode,
    pub result: TyCode,
}

/// A row of the matrix of operators: an operator, the kinds of its sides, and what it does there.
#[derive(Clone, Copy, Debug, PartialEq, Eq)]
pub struct OpRow {
    pub op: Op,
    pub left: TyCode,
    pub right: TyCode,
    pub operation: Operation,
}

impl Op {
    /// The operator's place in the order of the matrix.
    pub(crate) fn number(self) -> u8
        ensures { result ≡ op_number self }
    {
        self as u8
    }

    /// Whether a literal of zeros takes the unit of the other side: at `+`, `-` and comparisons.
    pub fn takes_unit(self) -> bool
        ensures { result ≡ takes_unit self }
    {
        !matches!(self, Op::Mul | Op::Div | Op::And | Op::Or)
    }
}

impl TyCode {
    /// The kind's place in the order of the matrix.
    pub(crate) fn number(self) -> u8
        ensures { result ≡ code_number self }
    {
        self as u8
    }
    /// The kind of a type.
    pub fn of(ty: &Ty) -> TyCode
        ensures { result ≡ code_of (out-Ty ty.now) }
    {
        match ty {
            Ty::Void => TyCode::Void,
            Ty::Zero => TyCode::Zero,
            Ty::Int => TyCode::Int,
            Ty::Float => TyCode::Float,
            Ty::Percent => TyCode::Percent,
            Ty::Bool => TyCode::Bool,
            Ty::Str => TyCode::Str,
            Ty::Color => TyCode::Color,
            Ty::Length => TyCode::Length,
            Ty::Duration => TyCode::Duration,
            Ty::Angle => TyCode::Angle,
            Ty::Image => TyCode::Image,
            Ty::Enum(_) => TyCode::Enum,
            Ty::Struct(_) => TyCode::Struct,
            Ty::Array(_) => TyCode::Array,
            Ty::Empty => TyCode::Empty,
        }
    }

    /// Whether it is int or float.
    pub fn is_number(self) -> bool
        ensures { result ≡ is_number self }
    {
        matches!(self, TyCode::Int | TyCode::Float)
    }

    /// Whether it is length, duration or angle.
    pub fn is_unit(self) -> bool
        ensures { result ≡ is_unit self }
    {
        matches!(self, TyCode::Length | TyCode::Duration | TyCode::Angle)
    }

    /// The kind as which a side of an operator is looked up, beside the other side's kind: a percent is a float, `[]` an array, a literal
    /// of zeros the other side's unit at `+`, `-` and comparisons, and else an int.
    pub fn looked_up(self, op: Op, other: TyCode) -> TyCode
        ensures { result ≡ looked_up op self other }
    {
        match self {
            TyCode::Percent => TyCode::Float,
            TyCode::Empty => TyCode::Array,
            TyCode::Zero => zero_beside(op, other),
            side => side,
        }
    }
}

/// The kind as which a literal of zeros is looked up.
fn zero_beside(op: Op, other: TyCode) -> TyCode
    ensures { result ≡ (if takes_unit op && is_unit other then other else code.Int) }
{
    if op.takes_unit() && other.is_unit() {
        other
    } else {
        TyCode::Int
    }
}
