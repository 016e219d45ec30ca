ghost use Rattle.std.specs.Prelude.{◌≡◌, IsTrue};
ghost use Rattle.element_tables.specs.Operators.{key_order, operation, operations_of};
ghost use Rattle.element_tables.specs.Rows.{is_rising};

use crate::operators::{Op, OpRow, Operation, TyCode};
use crate::order::row_order;

/// A table of operators, in the order of operators and of the kinds of their sides. A row is found by halving.
#[derive(Drop)]
pub struct Matrix<'a> {
    pub rows: &'a [OpRow],
    ghost in_order: { IsTrue (is_rising key_order (operations_of rows.now)) },
}

impl<'a> Matrix<'a> {
    /// What an operator does between sides of two kinds, `None` exactly where no row has the operator and these sides.
    pub fn find(&self, op: Op, left: TyCode, right: TyCode) -> Option<Operation>
        ensures { result ≡ operation op left right (operations_of self.now.rows.now) }
    {
        match self
            .rows
            .binary_search_by(|row| row_order(row, op, left, right))
        {
            Ok(at) => Some(self.rows[at].operation),
            Err(_) => None,
        }
    }
}
