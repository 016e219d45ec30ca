ghost use Rattle.std.specs.Prelude.{◌≡◌, IfOk, Ok};
ghost use Rattle.typed_tree.specs.Typed.{typed};
ghost use Rattle.expr_rules.specs.Denotations.{denoted, made, nothing, standing, value_of};

use crate::{Denoted, Judged};
use name_lookup::Meaning;
use slint_base::{Fault, Memory, Span};
use sqlite_items::Boxed;
use std::alloc::Global;
use typed_tree::{ExprKind, TypedExpr};
use value_types::{Ty, Value};

/// A stretch that no fault has.
pub(crate) const NOWHERE: Span = Span {
    file: 0,
    start: 0,
    end: 0,
};

/// An expression of a type.
pub(crate) fn typed(alloc: Global, kind: ExprKind, ty: Ty, span: Span) -> Result<TypedExpr, Memory>
    ensures { IfOk result (λ e. e ≡ typed kind ty span) }
{
    let kind = Boxed::new(alloc, kind)?;
    Ok(TypedExpr { kind, ty, span })
}

/// What gives no value.
pub(crate) fn nothing(alloc: Global, span: Span) -> Result<TypedExpr, Memory>
    ensures { IfOk result (λ e. e ≡ nothing span) }
{
    let e = typed(alloc, ExprKind::Literal(Value::Void), Ty::Void, span)?;
    Ok(e)
}

/// An expression that stands for something, named where it says.
pub(crate) fn standing(
    alloc: Global,
    meaning: Meaning,
    name: Span,
    is_plain: bool,
) -> Result<Judged, Memory>
    ensures { IfOk result (λ judged. judged ≡ standing meaning name is_plain) }
{
    let found = Denoted {
        meaning,
        name,
        is_plain,
    };
    Ok(Judged::Denoted(Boxed::new(alloc, found)?))
}

/// An expression that is a value of its own, which goes back to no member.
pub(crate) fn value_of(alloc: Global, e: TypedExpr) -> Result<Judged, Memory>
    ensures { IfOk result (λ judged. judged ≡ value_of e) }
{
    let name = e.span;
    standing(alloc, Meaning::Value(e), name, false)
}

/// A value of its own, of a type.
pub(crate) fn made(
    alloc: Global,
    kind: ExprKind,
    ty: Ty,
    span: Span,
) -> Result<Result<Judged, Fault>, Memory>
    ensures { IfOk result (λ judged. judged ≡ Ok (made kind ty span)) }
{
    let e = typed(alloc, kind, ty, span)?;
    let value = value_of(alloc, e)?;
    Ok(Ok(value))
}

/// What a node of expressions came to, as what the expression stands for; no such node comes to anything else.
pub(crate) fn denoted(alloc: Global, part: Judged) -> Result<Denoted, Memory>
    ensures { IfOk result (λ found. found ≡ denoted part) }
{
    match part {
        Judged::Denoted(found) => Ok(found.into_inner()),
        _ => {
            let e = nothing(alloc, NOWHERE)?;
            Ok(Denoted {
                meaning: Meaning::Value(e),
                name: NOWHERE,
                is_plain: false,
            })
        }
    }
}
