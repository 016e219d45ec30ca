ghost use Rattle.std.specs.Prelude.{◌≡◌, ◌≤◌, ◌∷◌, [], IfOk, length, reverse, take};
ghost use Rattle.std.specs.Option.{option_copied};
ghost use Rattle.syntax_tree.specs.declared.expressions.Expr.{out-Expr};
ghost use Rattle.typed_tree.specs.Scopes.{ScopeValue};
ghost use Rattle.expr_types.specs.Nodes.{At, Chained, Denotes, FieldName, Suffixed, chained_parts, form_parts, suffixed_parts};
ghost use Rattle.expr_types.specs.Verdicts.{Adds, Seen, SeenLater, Tells, first_come};

use crate::verdicts::{Seen, Verdict, add};
use expr_rules::{Judged, at_place, own_chained, own_field_name, own_form, own_suffixed};
use name_index::NameIndex;
use slint_base::Memory;
use sqlite_items::Items;
use std::alloc::Global;
use syntax_tree::{Expr, Ident, Operand, Suffix};
use typed_tree::Scope;
use value_types::Ty;

/// An expression at a place, by what it stands for.
pub(crate) fn placed(
    alloc: Global,
    place: Option<&Ty>,
    e: &Expr,
    part: Verdict,
) -> Result<Verdict, Memory>
    ensures { IfOk result (λ verdict. (s : ScopeValue) → Tells s (Denotes (option_copied place.entry) e.now) part → Tells s (At (option_copied place.entry) e.now) verdict) }
{
    let part = match part {
        Ok(part) => part,
        Err(fault) => return Ok(Err(fault)),
    };
    let verdict = at_place(alloc, place, e.span(), part)?;
    Ok(verdict)
}

/// What an expression stands for, by its parts.
pub(crate) fn formed(
    alloc: Global,
    scope: &Scope<'_>,
    place: Option<&Ty>,
    e: &Expr,
    parts: Seen,
) -> Result<Verdict, Memory>
    ensures { IfOk result (λ verdict. Seen scope.now (form_parts (option_copied place.entry) (out-Expr e.now)) parts → Tells scope.now (Denotes (option_copied place.entry) e.now) verdict) }
{
    let parts = match parts {
        Ok(parts) => parts,
        Err(fault) => return Ok(Err(fault)),
    };
    let verdict = own_form(alloc, scope, place, e, parts)?;
    Ok(verdict)
}

/// An expression with so many of the suffixes behind it, by its parts and the further ones.
pub(crate) fn suffixed_front(
    alloc: Global,
    scope: &Scope<'_>,
    e: &Expr,
    suffixes: &[Suffix],
    count: usize,
    parts: Seen,
    later: Seen,
) -> Result<Verdict, Memory>
    requires { count ≤ length suffixes.now }
    ensures { IfOk result (λ verdict. Seen scope.now (suffixed_parts e.now (reverse (take count suffixes.now))) parts → SeenLater scope.now (Suffixed e.now (reverse (take count suffixes.now))) parts later → Tells scope.now (Suffixed e.now (reverse (take count suffixes.now))) verdict) }
{
    let parts = match parts {
        Ok(parts) => parts,
        Err(fault) => return Ok(Err(fault)),
    };
    let later = match later {
        Ok(later) => later,
        Err(fault) => return Ok(Err(fault)),
    };
    let verdict = own_suffixed(alloc, scope, e, suffixes, count, parts, later)?;
    Ok(verdict)
}

/// So many operands behind a first one, by their parts.
pub(crate) fn chained_front(
    alloc: Global,
    e: &Expr,
    operands: &[Operand],
    count: usize,
    parts: Seen,
) -> Result<Verdict, Memory>
    requires { count ≤ length operands.now }
    ensures { IfOk result (λ verdict. (s : ScopeValue) → Seen s (chained_parts e.now (reverse (take count operands.now))) parts → Tells s (Chained e.now (reverse (take count operands.now))) verdict) }
{
    let parts = match parts {
        Ok(parts) => parts,
        Err(fault) => return Ok(Err(fault)),
    };
    let verdict = own_chained(alloc, e, operands, count, parts)?;
    Ok(verdict)
}

/// No parts.
pub(crate) fn see_none(alloc: Global, scope: &Scope<'_>) -> Result<Seen, Memory>
    ensures { IfOk result (λ seen. Seen scope.now [] seen) }
{
    Ok(Ok(Items::new(alloc)))
}

/// A field's name behind what is told of the fields before it.
pub(crate) fn see_name(seen: Seen, name: &Ident, before: &NameIndex) -> Result<Seen, Memory>
    ensures { IfOk result (λ all. (s : ScopeValue) → Adds s (FieldName name.now before.now ∷ []) seen all) }
{
    let verdict = own_field_name(name, before);
    let all = add(seen, verdict)?;
    Ok(all)
}

/// The first of the parts of a node, where all come to something.
pub(crate) fn first_come(parts: &Seen) -> Option<&Judged>
    ensures { option_copied result ≡ first_come parts.now }
{
    match parts {
        Ok(parts) => parts.as_slice().first(),
        Err(_) => None,
    }
}
