ghost use Rattle.std.specs.Prelude.{◌≡◌, ◌<◌, ◌++◌, ◌∷◌, [], ℕ, IfOk, None, Some, List, slice_get};
ghost use Rattle.std.specs.Option.{option_copied};
ghost use Rattle.source_elements.specs.Elements.{WrittenElement};
ghost use Rattle.source_elements.specs.Views.{how_often};
ghost use Rattle.item_types.specs.Judging.{Tells};
ghost use Rattle.type_resolver.specs.Bodies.{RowsIn, elements, for_each_row, in_each_row, repeated, site_around, while_holds};
ghost use Rattle.type_resolver.specs.Walking.{ElementTold, Stands, WentIn, element_of, rows_at, seen_with};

use crate::adding::add;
use crate::bodies::judge_body;
use item_types::{one_condition, one_item, one_model, row_names, type_condition, type_model};
use slint_base::{End, Fault, Memory};
use source_elements::{Repeating, Written};
use sqlite_items::{Items, at};
use std::alloc::Global;
use syntax_tree::{Expr, For, Item};
use typed_tree::{Names, RowNames, Site, TypedElement, TypedFor, TypedItem, TypedRepeat};

/// How often an element is there, and the names of the repeaters around what is written in it, innermost first.
#[derive(Drop)]
pub struct Inside {
    pub repeat: TypedRepeat,
    pub rows: Items<RowNames>,
}

/// The same names once more.
fn copy_rows(alloc: Global, rows: &[RowNames]) -> Result<Items<RowNames>, Memory>
    ensures { IfOk result (λ same. same ≡ rows.now) }
{
    let mut same = Items::new(alloc);
    for names in rows {
        same.push(names.copy(alloc)?)?;
    }
    Ok(same)
}

/// These names, and before them those of one more repeater.
fn rows_with(alloc: Global, first: RowNames, rows: &[RowNames]) -> Result<Items<RowNames>, Memory>
    ensures { IfOk result (λ all. all ≡ first ∷ rows.now) }
{
    let mut all = Items::new(alloc);
    all.push(first)?;
    for names in rows {
        all.push(names.copy(alloc)?)?;
    }
    Ok(all)
}

/// An element that is there while a condition holds.
fn judge_condition(
    alloc: Global,
    names: &Names,
    around: Site,
    condition: &Expr,
    rows: &[RowNames],
) -> Result<Result<Inside, Fault>, Memory>
    ensures { IfOk result (λ told. Tells (while_holds names.now around condition.now rows.now) told) }
{
    one_condition();
    match type_condition(alloc, names, around, rows, condition) {
        Ok(typed) => {
            let rows = copy_rows(alloc, rows)?;
            let span = condition.span();
            let repeat = TypedRepeat::If(typed, span);
            Ok(Ok(Inside { repeat, rows }))
        }
        Err(End::Fault(fault)) => Ok(Err(fault)),
        Err(End::Memory) => Err(Memory),
    }
}

/// What an element of a number is that is there for each row of a model.
fn enter_rows(
    alloc: Global,
    e: usize,
    repeater: &For,
    typed: TypedFor,
    rows: &[RowNames],
) -> Result<Inside, Memory>
    ensures { IfOk result (λ inside. inside ≡ in_each_row e repeater.now rows.now typed) }
{
    let first = row_names(alloc, e, repeater, &typed)?;
    let rows = rows_with(alloc, first, rows)?;
    let repeat = TypedRepeat::For(typed);
    Ok(Inside { repeat, rows })
}

/// An element of a number that is there for each row of a model.
fn judge_model(
    alloc: Global,
    names: &Names,
    around: Site,
    e: usize,
    repeater: &For,
    rows: &[RowNames],
) -> Result<Result<Inside, Fault>, Memory>
    ensures { IfOk result (λ told. Tells (for_each_row names.now around e repeater.now rows.now) told) }
{
    one_model();
    match type_model(alloc, names, around, rows, &repeater.model) {
        Ok(typed) => {
            let inside = enter_rows(alloc, e, repeater, typed, rows)?;
            Ok(Ok(inside))
        }
        Err(End::Fault(fault)) => Ok(Err(fault)),
        Err(End::Memory) => Err(Memory),
    }
}

/// How often an element of a number is there, and the names of the repeaters in it; or the first of the rules that its model or condition
/// breaks.
fn judge_repeat(
    alloc: Global,
    names: &Names,
    around: Site,
    e: usize,
    repeating: &Repeating<'_>,
    rows: &[RowNames],
) -> Result<Result<Inside, Fault>, Memory>
    ensures { IfOk result (λ told. Tells (repeated names.now around e (how_often repeating.now) rows.now) told) }
{
    match repeating {
        Repeating::Once => {
            let rows = copy_rows(alloc, rows)?;
            let repeat = TypedRepeat::Once;
            Ok(Ok(Inside { repeat, rows }))
        }
        Repeating::If(element) => {
            let told = judge_condition(alloc, names, around, &element.condition, rows)?;
            Ok(told)
        }
        Repeating::For(repeater) => {
            let told = judge_model(alloc, names, around, e, repeater, rows)?;
            Ok(told)
        }
    }
}

/// What is told of an element, if it is looked at, and the names of repeaters in it. It isn't looked at where a model or condition around
/// it breaks a rule.
#[derive(Drop)]
struct Looked {
    told: Option<Result<TypedElement, Fault>>,
    rows: Option<Items<RowNames>>,
}

/// An element, of what is told of its items.
fn element_of(
    repeat: TypedRepeat,
    told: Result<Items<TypedItem>, Fault>,
) -> Result<TypedElement, Fault>
    ensures { result ≡ element_of repeat told }
{
    match told {
        Ok(items) => Ok(TypedElement { repeat, items }),
        Err(fault) => Err(fault),
    }
}

/// What is written in the body of an element, where it is known how often that is there.
fn look_inside(
    alloc: Global,
    names: &Names,
    here: Site,
    items: &[Item],
    inside: Inside,
) -> Result<Looked, Memory>
    ensures { IfOk result (λ looked. WentIn names.now here items.now inside looked.told looked.rows) }
{
    one_item();
    one_condition();
    one_model();
    let Inside { repeat, rows } = inside;
    let told = judge_body(alloc, names, here, rows.as_slice(), items)?;
    let told = Some(element_of(repeat, told));
    let rows = Some(rows);
    Ok(Looked { told, rows })
}

/// The body around an element; a root element has none, and is there once.
fn site_around(component: usize, parent: Option<usize>) -> Site
    ensures { result ≡ site_around component parent }
{
    match parent {
        Some(parent) => Site::Element(component, parent),
        None => Site::Element(component, 0),
    }
}

/// An element in a body with these names around.
fn look_within(
    alloc: Global,
    names: &Names,
    component: usize,
    e: usize,
    written: &Written<'_>,
    rows: &[RowNames],
) -> Result<Looked, Memory>
    ensures told { IfOk result (λ looked. (ws : List WrittenElement) → RowsIn names.now component ws written.now.parent rows.now → ElementTold names.now component ws (e, written.now) looked.told looked.rows) }
    ensures looked { IfOk result (λ looked. looked.told ≡ None → ⊥) }
{
    let around = site_around(component, written.parent());
    let here = Site::Element(component, e);
    match judge_repeat(alloc, names, around, e, written.repeating(), rows)? {
        Ok(inside) => {
            let looked = look_inside(alloc, names, here, written.body(), inside)?;
            Ok(looked)
        }
        Err(fault) => Ok(Looked {
            told: Some(Err(fault)),
            rows: None,
        }),
    }
}

/// An element, with the names around it if there are any.
fn look_at(
    alloc: Global,
    names: &Names,
    component: usize,
    e: usize,
    written: &Written<'_>,
    around: Option<&[RowNames]>,
) -> Result<Looked, Memory>
    ensures told { IfOk result (λ looked. (ws : List WrittenElement) → Stands names.now component ws written.now.parent (option_copied around.entry) → ElementTold names.now component ws (e, written.now) looked.told looked.rows) }
    ensures skipped { IfOk result (λ looked. looked.told ≡ None → option_copied around.entry ≡ None) }
{
    match around {
        Some(rows) => {
            let looked = look_within(alloc, names, component, e, written, rows)?;
            Ok(looked)
        }
        None => Ok(Looked {
            told: None,
            rows: None,
        }),
    }
}

/// The names around an element, by those in the elements before it.
fn rows_at<'a>(
    known: &'a [Option<Items<RowNames>>],
    parent: Option<usize>,
) -> Option<&'a [RowNames]>
    ensures { option_copied result ≡ rows_at known.now parent }
{
    let Some(parent) = parent else {
        return Some(&[]);
    };
    match at(known, parent) {
        Some(Some(rows)) => Some(rows.as_slice()),
        _ => None,
    }
}

/// What is told of elements, and of one more behind them.
fn with_element(
    seen: Result<Items<TypedElement>, Fault>,
    told: Option<Result<TypedElement, Fault>>,
) -> Result<Result<Items<TypedElement>, Fault>, Memory>
    ensures { IfOk result (λ all. all ≡ seen_with seen told) }
{
    match told {
        Some(told) => {
            let all = add(seen, told)?;
            Ok(all)
        }
        None => Ok(seen),
    }
}

/// What the elements of a component come to, or of the rules that are broken in them the first one.
pub(crate) fn judge_elements(
    alloc: Global,
    names: &Names,
    component: usize,
    written: &[Written<'_>],
) -> Result<Result<Items<TypedElement>, Fault>, Memory>
    requires { (e p : ℕ) (w : WrittenElement) → slice_get written.now e ≡ Some w → w.parent ≡ Some p → p < e }
    ensures { IfOk result (λ told. Tells (elements names.now component written.now) told) }
{
    one_item();
    one_condition();
    one_model();
    let mut seen = Ok(Items::new(alloc));
    let mut known = Items::new(alloc);
    for (e, element) in written.iter().enumerate() {
        let around = rows_at(known.as_slice(), element.parent());
        let looked = look_at(alloc, names, component, e, element, around)?;
        let Looked { told, rows } = looked;
        known.push(rows)?;
        seen = with_element(seen, told)?;
    }
    Ok(seen)
}
