ghost use Rattle.std.specs.Prelude.{◌≡◌, Err, IfOk, Ok};
ghost use Rattle.item_types.specs.Judging.{Tells};
ghost use Rattle.item_types.specs.Typing.{item_in};
ghost use Rattle.type_resolver.specs.Bodies.{body};
ghost use Rattle.type_resolver.specs.Seen.{with_item};

use crate::adding::earlier_fault;
use item_types::{one_condition, one_item, one_model, type_item};
use slint_base::{End, Fault, Memory};
use sqlite_items::Items;
use std::alloc::Global;
use syntax_tree::Item;
use typed_tree::{Names, RowNames, Site, TypedItem};

/// What an item comes to, or the first of the rules that are broken in it.
fn judge_item(
    alloc: Global,
    names: &Names,
    here: Site,
    rows: &[RowNames],
    item: &Item,
) -> Result<Result<Option<TypedItem>, Fault>, Memory>
    ensures { IfOk result (λ told. Tells (item_in names.now here rows.now item.now) told) }
{
    match type_item(alloc, names, here, rows, item) {
        Ok(typed) => Ok(Ok(typed)),
        Err(End::Fault(fault)) => Ok(Err(fault)),
        Err(End::Memory) => Err(Memory),
    }
}

/// What is told of items, and of one more behind them.
fn with_item(
    seen: Result<Items<TypedItem>, Fault>,
    told: Result<Option<TypedItem>, Fault>,
) -> Result<Result<Items<TypedItem>, Fault>, Memory>
    ensures { IfOk result (λ all. all ≡ with_item seen told) }
{
    match seen {
        Ok(typed) => with_one(typed, told),
        Err(fault) => Ok(Err(fault_of_both(fault, told))),
    }
}

/// The same, where no rule is broken in the items before.
fn with_one(
    typed: Items<TypedItem>,
    told: Result<Option<TypedItem>, Fault>,
) -> Result<Result<Items<TypedItem>, Fault>, Memory>
    ensures { IfOk result (λ all. all ≡ with_item (Ok typed) told) }
{
    let mut typed = typed;
    match told {
        Ok(Some(one)) => typed.push(one)?,
        Ok(None) => {}
        Err(fault) => return Ok(Err(fault)),
    }
    Ok(Ok(typed))
}

/// The fault that is told first, where one is known.
fn fault_of_both(known: Fault, told: Result<Option<TypedItem>, Fault>) -> Fault
    ensures { Err result ≡ with_item (Err known) told }
{
    match told {
        Ok(_) => known,
        Err(fault) => earlier_fault(known, fault),
    }
}

/// What the items of a body come to, in the order of the text; or of the rules that are broken in them the first one.
pub(crate) fn judge_body(
    alloc: Global,
    names: &Names,
    here: Site,
    rows: &[RowNames],
    items: &[Item],
) -> Result<Result<Items<TypedItem>, Fault>, Memory>
    ensures { IfOk result (λ told. Tells (body names.now here rows.now items.now) told) }
{
    one_item();
    one_condition();
    one_model();
    let mut seen = Ok(Items::new(alloc));
    for item in items {
        let told = judge_item(alloc, names, here, rows, item)?;
        seen = with_item(seen, told)?;
    }
    Ok(seen)
}
