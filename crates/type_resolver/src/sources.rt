ghost use Rattle.std.specs.Prelude.{◌≡◌, ℕ, IfOk, map};
ghost use Rattle.source_elements.specs.Elements.{written_in};
ghost use Rattle.source_scopes.specs.Shown.{shown_component, shown_global};
ghost use Rattle.item_types.specs.Judging.{Tells, each};
ghost use Rattle.type_resolver.specs.Bodies.{component, counted, elements, global};

use crate::adding::add;
use crate::bodies::judge_body;
use crate::elements::judge_elements;
use item_types::{one_condition, one_item, one_model};
use slint_base::{Fault, Memory};
use source_elements::{parents_stand_before, written_in};
use source_scopes::{FileComponent, FileGlobal};
use sqlite_items::Items;
use std::alloc::Global as Heap;
use syntax_tree::Component;
use typed_tree::{Names, Site, TypedElement, TypedItem};

/// What is written in each component, or in each global, or the first of the rules that are broken in them.
pub(crate) type Elements = Result<Items<Items<TypedElement>>, Fault>;

pub(crate) type Bodies = Result<Items<Items<TypedItem>>, Fault>;

/// What the elements of a component come to, or the first of the rules that are broken in them.
fn judge_component(
    alloc: Heap,
    names: &Names,
    number: usize,
    component: &Component,
) -> Result<Result<Items<TypedElement>, Fault>, Memory>
    ensures { IfOk result (λ told. Tells (elements names.now number (written_in component.now)) told) }
{
    parents_stand_before();
    let written = written_in(alloc, component)?;
    let told = judge_elements(alloc, names, number, written.as_slice())?;
    Ok(told)
}

/// What all components come to, or the first of the rules that are broken in them.
pub(crate) fn judge_components(
    alloc: Heap,
    names: &Names,
    components: &[FileComponent<'_>],
) -> Result<Elements, Memory>
    ensures { IfOk result (λ told. Tells (each (component names.now) (counted 0 (map shown_component components.now))) told) }
{
    one_item();
    one_condition();
    one_model();
    let mut seen = Ok(Items::new(alloc));
    for (number, one) in components.iter().enumerate() {
        let told = judge_component(alloc, names, number, one.component)?;
        seen = add(seen, told)?;
    }
    Ok(seen)
}

/// What all globals come to, or the first of the rules that are broken in them.
pub(crate) fn judge_globals(
    alloc: Heap,
    names: &Names,
    globals: &[FileGlobal<'_>],
) -> Result<Bodies, Memory>
    ensures { IfOk result (λ told. Tells (each (global names.now) (counted 0 (map shown_global globals.now))) told) }
{
    one_item();
    one_condition();
    one_model();
    let mut seen = Ok(Items::new(alloc));
    for (number, one) in globals.iter().enumerate() {
        let items = one.global.items.as_slice();
        let told = judge_body(alloc, names, Site::Global(number), &[], items)?;
        seen = add(seen, told)?;
    }
    Ok(seen)
}
