ghost use Rattle.std.specs.Prelude.{◌≡◌, IfOk};
ghost use Rattle.name_lookup.specs.Names.{a_value, found};

use crate::{Lookup, Meaning};
use slint_base::{Memory, Span};
use std::alloc::Global;
use typed_tree::{ExprKind, TypedExpr};
use value_types::Ty;

/// A value is found.
pub(crate) fn found_value(
    alloc: Global,
    kind: ExprKind,
    ty: Ty,
    span: Span,
) -> Result<Lookup, Memory>
    ensures { IfOk result (λ lookup. lookup ≡ found (a_value kind ty span)) }
{
    let value = TypedExpr::new(alloc, kind, ty, span)?;
    Ok(Some(Ok(Meaning::Value(value))))
}
