ghost use Rattle.std.specs.Prelude.{◌≡◌};
ghost use Rattle.element_tables.specs.Operators.{key_order, operation_of};

use crate::operators::{Op, OpRow, TyCode};
use std::cmp::Ordering;

/// How a row stands to the row of an operator and two sides in the order of the matrix.
pub(crate) fn row_order(row: &OpRow, op: Op, left: TyCode, right: TyCode) -> Ordering
    ensures { result ≡ key_order (operation_of row.now).0 (op, left, right) }
{
    let by_op = row.op.number().cmp(&op.number());
    let by_left = row.left.number().cmp(&left.number());
    let by_right = row.right.number().cmp(&right.number());
    by_op.then(by_left.then(by_right))
}
