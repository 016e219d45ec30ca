ghost use Rattle.std.specs.Prelude.{IfOk};
ghost use Rattle.item_types.specs.Typing.{Judges, condition_in, item_in, model_in};

use crate::items::judge_item;
use crate::models::judge_model;
use crate::values::judge_expr;
use slint_base::{End, Fault, Memory};
use std::alloc::Global;
use syntax_tree::{Expr, Item};
use typed_tree::{Names, RowNames, Scope, Site, TypedExpr, TypedFor, TypedItem};
use value_types::Ty;

/// The typed form of an item of a body, of which elements and mere declarations have none; or the fault in it that is told first.
/// `rows` are the names of the repeaters around it, innermost first.
pub fn type_item(
    alloc: Global,
    names: &Names,
    site: Site,
    rows: &[RowNames],
    item: &Item,
) -> Result<Option<TypedItem>, End<Fault>>
    ensures { Judges (item_in names.now site rows.now item.now) result }
{
    let scope = Scope::new(names, site, &[], rows);
    match judge_item(alloc, &scope, item) {
        Ok(Ok(typed)) => Ok(typed),
        Ok(Err(fault)) => Err(End::Fault(fault)),
        Err(Memory) => Err(End::Memory),
    }
}

/// The typed form of a condition before an element, or the fault in it that is told first. `site` is the element around the one that
/// is repeated, and `rows` are the names of the repeaters around that.
pub fn type_condition(
    alloc: Global,
    names: &Names,
    site: Site,
    rows: &[RowNames],
    condition: &Expr,
) -> Result<TypedExpr, End<Fault>>
    ensures { Judges (condition_in names.now site rows.now condition.now) result }
{
    let scope = Scope::new(names, site, &[], rows);
    match judge_expr(alloc, &scope, &Ty::Bool, condition) {
        Ok(Ok(typed)) => Ok(typed),
        Ok(Err(fault)) => Err(End::Fault(fault)),
        Err(Memory) => Err(End::Memory),
    }
}

/// What the model of a `for` comes to, or the fault in it that is told first. `site` is the element around the one that is repeated,
/// and `rows` are the names of the repeaters around that.
pub fn type_model(
    alloc: Global,
    names: &Names,
    site: Site,
    rows: &[RowNames],
    model: &Expr,
) -> Result<TypedFor, End<Fault>>
    ensures { Judges (model_in names.now site rows.now model.now) result }
{
    let scope = Scope::new(names, site, &[], rows);
    match judge_model(alloc, &scope, model) {
        Ok(Ok(typed)) => Ok(typed),
        Ok(Err(fault)) => Err(End::Fault(fault)),
        Err(Memory) => Err(End::Memory),
    }
}
