ghost use Rattle.std.specs.Prelude.{◌≡◌, ℕ, IfOk, None, OnOk, Some, map, slice_set};
ghost use Rattle.source_scopes.specs.Shown.{shown_component};
ghost use Rattle.element_tables.specs.declared.elements.ElementKind.TheVariants as element_kind;
ghost use Rattle.typed_tree.specs.declared.outlines.ElementType.TheVariants as element_type;
ghost use Rattle.child_rules.specs.Ends.{AreEnds, AreKnown, IsEnd, IsEndFor, end_by, known_at, known_cursor};
ghost use Rattle.child_rules.specs.Ways.{IsWay};
ghost use Rattle.child_rules.specs.Grids.{own_cells};
ghost use Rattle.child_rules.specs.Landing.{landing};

use crate::cells::is_grid_kind;
use crate::cursors::{Cursor, start};
use crate::landing::{taker, taking_element};
use crate::moving::moved_along;
use crate::places::Places;
use slint_base::Memory;
use source_elements::written_in;
use source_scopes::FileComponent;
use sqlite_items::{Items, at};
use std::alloc::Global;
use typed_tree::ElementType;

/// The cursor behind the children that a component puts into the grid that it is built on, out of the cursor before them.
fn own_cells(
    alloc: Global,
    places: &Places<'_>,
    declared: &[FileComponent<'_>],
    component: usize,
    cursor: Cursor,
) -> Result<Cursor, Memory>
    ensures { IfOk result (λ behind. behind ≡ own_cells (map shown_component declared.now) places.now.comps component cursor) }
{
    let Some(found) = at(declared, component) else {
        return Ok(cursor);
    };
    let written = written_in(alloc, found.component)?;
    let grid = taking_element(places.comps(), component);
    Ok(moved_along(places, component, grid, written.as_slice(), cursor))
}

/// The way along takers from a component to one whose cursor is known, or to a built-in element.
#[derive(Drop)]
struct Way {
    from: usize,
    comps: Items<usize>,
    to: ElementType,
}

/// What is known of a component.
fn known_at(known: &[Option<Cursor>], component: usize) -> Option<Cursor>
    ensures { result ≡ known_at known.now component }
{
    match at(known, component) {
        Some(cursor) => *cursor,
        None => None,
    }
}

/// The way from a component that is built on a grid to what is known.
fn way_from(
    alloc: Global,
    places: &Places<'_>,
    known: &[Option<Cursor>],
    from: usize,
) -> Result<Way, Memory>
    requires { landing places.now.comps (element_type.Component from) ≡ element_kind.GridLayout }
    ensures from { IfOk result (λ way. way.from ≡ from) }
    ensures leads { IfOk result (λ way. IsWay places.now.comps known.now way) }
{
    let mut comps = Items::new(alloc);
    let mut to = ElementType::Component(from);
    for _ in 0..places.comps().len() {
        let ElementType::Component(component) = to else {
            return Ok(Way { from, comps, to });
        };
        if known_at(known, component).is_some() {
            return Ok(Way { from, comps, to });
        }
        comps.push(component)?;
        to = taker(places.comps(), component);
    }
    Ok(Way { from, comps, to })
}

/// The cursor of a type whose cursor is known.
fn known_cursor(known: &[Option<Cursor>], ty: ElementType) -> Cursor
    ensures { result ≡ known_cursor known.now ty }
{
    match ty {
        ElementType::BuiltIn(_) => start(),
        ElementType::Component(component) => match known_at(known, component) {
            Some(cursor) => cursor,
            None => start(),
        },
    }
}

/// Notes the cursor of a component.
fn note(known: &mut Items<Option<Cursor>>, component: usize, cursor: Cursor)
    ensures { known.new ≡ slice_set known.old component (Some cursor) }
{
    if component < known.len() {
        known.set(component, Some(cursor));
    }
}

/// Goes a way back, and notes the cursor of each component on it: the cursor of the first one.
fn go_back(
    alloc: Global,
    places: &Places<'_>,
    declared: &[FileComponent<'_>],
    known: &mut Items<Option<Cursor>>,
    way: Way,
) -> Result<Cursor, Memory>
    requires are_known { AreKnown (map shown_component declared.now) places.now.comps known.old }
    requires leads { IsWay places.now.comps known.old way }
    ensures are_known { OnOk result (AreKnown (map shown_component declared.now) places.now.comps known.new) }
    ensures is_end { IfOk result (λ cursor. IsEnd (map shown_component declared.now) places.now.comps (element_type.Component way.from) cursor) }
{
    let Way {
        from: _,
        mut comps,
        to,
    } = way;
    let mut cursor = known_cursor(known.as_slice(), to);
    while let Some(component) = comps.pop() {
        cursor = own_cells(alloc, places, declared, component, cursor)?;
        note(known, component, cursor);
    }
    Ok(cursor)
}

/// The cursor behind what a component and those below it put into the grid that it is built on, if it is built on one.
fn end_of(
    alloc: Global,
    places: &Places<'_>,
    declared: &[FileComponent<'_>],
    known: &mut Items<Option<Cursor>>,
    component: usize,
) -> Result<Cursor, Memory>
    requires { AreKnown (map shown_component declared.now) places.now.comps known.old }
    ensures are_known { OnOk result (AreKnown (map shown_component declared.now) places.now.comps known.new) }
    ensures is_end { IfOk result (λ cursor. IsEndFor (map shown_component declared.now) places.now.comps component (Some cursor)) }
{
    if is_grid_kind(places.landing(ElementType::Component(component))) {
        let way = way_from(alloc, places, known.as_slice(), component)?;
        let cursor = go_back(alloc, places, declared, known, way)?;
        Ok(cursor)
    } else {
        Ok(start())
    }
}

/// A table in which nothing is known.
fn nothing_known(alloc: Global, count: usize) -> Result<Items<Option<Cursor>>, Memory>
    ensures { IfOk result (λ known. (c : ℕ) → known_at known c ≡ None) }
{
    let mut known = Items::new(alloc);
    for _ in 0..count {
        known.push(None)?;
    }
    Ok(known)
}

/// The cursors behind what components put into the grids that they are built on.
pub(crate) fn ends_of(
    alloc: Global,
    places: &Places<'_>,
    declared: &[FileComponent<'_>],
) -> Result<Items<Cursor>, Memory>
    ensures { IfOk result (λ ends. AreEnds (map shown_component declared.now) places.now.comps ends) }
{
    let count = places.comps().len();
    let mut known = nothing_known(alloc, count)?;
    let mut ends = Items::new(alloc);
    for component in 0..count {
        let cursor = end_of(alloc, places, declared, &mut known, component)?;
        ends.push(cursor)?;
    }
    Ok(ends)
}

/// The cursor behind what is put into the grid that a type is built on, by the table of all components.
pub(crate) fn end_by(ends: &[Cursor], ty: ElementType) -> Cursor
    ensures { result ≡ end_by ends.now ty }
{
    match ty {
        ElementType::BuiltIn(_) => start(),
        ElementType::Component(component) => match at(ends, component) {
            Some(cursor) => *cursor,
            None => start(),
        },
    }
}
