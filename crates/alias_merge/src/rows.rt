ghost use Rattle.std.specs.Prelude.{◌≡◌, ◌++◌, IfOk, OnOk};
ghost use Rattle.expanded_tree.specs.Places.{type_at};
ghost use Rattle.expanded_tree.specs.Bodies.{spot_of};
ghost use Rattle.alias_merge.specs.Candidates.{numbered_all};
ghost use Rattle.alias_merge.specs.Rows.{built_in_row, declared_row, declared_rows, global_row, height_of, is_before, is_less, is_less_within, member_rows, rows_of_body, rows_of_element, rows_of_global};

use crate::holdings::repeaters_in;
use crate::numbers::member_count;
use expanded_tree::{Body, Expanded, ExpandedElement, ExpandedMember, Spot, type_at};
use slint_base::Memory;
use sqlite_items::{Items, at};
use std::alloc::Global;
use typed_tree::{ElementType, Member, TypedGlobal};

/// The place of a member in instance order. Keys are compared part by part, and nothing stands before a number.
#[derive(Clone, Copy)]
pub struct InstanceKey {
    /// The element, by its number; none for members of globals.
    pub element: Option<usize>,
    /// The global's number; or of a declared member, how many layers its element has further in; none for what is built in.
    pub layer: Option<usize>,
    /// The member's number there.
    pub number: usize,
}

/// A member of the expanded tree, and where it stands.
#[derive(Clone, Copy)]
pub struct MemberRow {
    pub member: ExpandedMember,
    /// The element of which it is a member, by its number; none for a member of a global.
    pub element: Option<usize>,
    /// How many repeaters are around that element, its own included.
    pub repeaters: usize,
    pub key: InstanceKey,
}

/// The members of an expanded tree, by their numbers.
pub fn member_rows(alloc: Global, expanded: &Expanded) -> Result<Items<MemberRow>, Memory>
    ensures { IfOk result (λ rows. rows ≡ member_rows expanded.now) }
{
    let mut rows = Items::new(alloc);
    add_globals(expanded.tree().globals.as_slice(), &mut rows)?;
    add_bodies(expanded, expanded.bodies(), &mut rows)?;
    add_elements(expanded.elements(), &mut rows)?;
    Ok(rows)
}

/// Adds the members of globals.
fn add_globals(globals: &[TypedGlobal], rows: &mut Items<MemberRow>) -> Result<(), Memory>
    ensures { OnOk result (rows.new ≡ rows.old ++ numbered_all rows_of_global 0 globals.now) }
{
    for (number, global) in globals.iter().enumerate() {
        add_global(number, global, rows)?;
    }
    Ok(())
}

/// Adds the members of a global.
fn add_global(
    global: usize,
    outline: &TypedGlobal,
    rows: &mut Items<MemberRow>,
) -> Result<(), Memory>
    ensures { OnOk result (rows.new ≡ rows.old ++ rows_of_global global outline.now) }
{
    for number in 0..outline.outline.members.len() {
        rows.push(global_row(global, number))?;
    }
    Ok(())
}

/// A member of a global.
fn global_row(global: usize, number: usize) -> MemberRow
    ensures { result ≡ global_row global number }
{
    MemberRow {
        member: ExpandedMember::Global(global, number),
        element: None,
        repeaters: 0,
        key: InstanceKey {
            element: None,
            layer: Some(global),
            number,
        },
    }
}

/// Adds the members that are declared in bodies.
fn add_bodies(
    expanded: &Expanded,
    bodies: &[Body],
    rows: &mut Items<MemberRow>,
) -> Result<(), Memory>
    ensures { OnOk result (rows.new ≡ rows.old ++ numbered_all (rows_of_body expanded.now) 0 bodies.now) }
{
    for (number, body) in bodies.iter().enumerate() {
        add_body(expanded, number, body, rows)?;
    }
    Ok(())
}

/// Adds the members that are declared in a body.
fn add_body(
    expanded: &Expanded,
    number: usize,
    body: &Body,
    rows: &mut Items<MemberRow>,
) -> Result<(), Memory>
    ensures { OnOk result (rows.new ≡ rows.old ++ rows_of_body expanded.now number body.now) }
{
    match at(expanded.tree().comps.as_slice(), body.comp) {
        Some(comp) => add_declared(expanded, number, comp.outline.members.as_slice(), rows),
        None => Ok(()),
    }
}

/// Adds members that are declared in a body.
fn add_declared(
    expanded: &Expanded,
    body: usize,
    members: &[Member],
    rows: &mut Items<MemberRow>,
) -> Result<(), Memory>
    ensures { OnOk result (rows.new ≡ rows.old ++ declared_rows expanded.now body members.now) }
{
    for (number, member) in members.iter().enumerate() {
        rows.push(declared_row(expanded, body, number, member))?;
    }
    Ok(())
}

/// A member that is declared in a body.
fn declared_row(expanded: &Expanded, body: usize, number: usize, member: &Member) -> MemberRow
    ensures { result ≡ declared_row expanded.now body number member.now }
{
    let element = expanded.element_at(body, member.element);
    MemberRow {
        member: ExpandedMember::Declared(body, number),
        element: Some(element),
        repeaters: repeaters_in(expanded, element),
        key: InstanceKey {
            element: Some(element),
            layer: Some(layers_inside(expanded, body, member.element)),
            number,
        },
    }
}

/// How many layers an element of a body has further in.
fn layers_inside(expanded: &Expanded, body: usize, element: usize) -> usize
    ensures { result ≡ height_of expanded.now.heights (type_at expanded.now.tree.comps expanded.now.bodies (spot_of body element)) }
{
    let comps = expanded.tree().comps.as_slice();
    match type_at(comps, expanded.bodies(), Spot { body, element }) {
        ElementType::BuiltIn(_) => 0,
        ElementType::Component(component) => expanded.height_at(component),
    }
}

/// Adds the members that are built into elements.
fn add_elements(elements: &[ExpandedElement], rows: &mut Items<MemberRow>) -> Result<(), Memory>
    ensures { OnOk result (rows.new ≡ rows.old ++ numbered_all rows_of_element 0 elements.now) }
{
    for (number, element) in elements.iter().enumerate() {
        add_element(number, element, rows)?;
    }
    Ok(())
}

/// Adds the members that are built into an element.
fn add_element(
    element: usize,
    found: &ExpandedElement,
    rows: &mut Items<MemberRow>,
) -> Result<(), Memory>
    ensures { OnOk result (rows.new ≡ rows.old ++ rows_of_element element found.now) }
{
    for number in 0..member_count(found.kind) {
        rows.push(built_in_row(element, found.repeaters, number)?)?;
    }
    Ok(())
}

/// A member that is built into an element. No element has more members than numbers of 32 bits.
fn built_in_row(element: usize, repeaters: usize, number: usize) -> Result<MemberRow, Memory>
    ensures { IfOk result (λ row. row ≡ built_in_row element repeaters number) }
{
    if number > 0xffff_ffff {
        return Err(Memory);
    }
    Ok(MemberRow {
        member: ExpandedMember::BuiltIn(element, number as u32),
        element: Some(element),
        repeaters,
        key: InstanceKey {
            element: Some(element),
            layer: None,
            number,
        },
    })
}

impl InstanceKey {
    /// Whether a member stands before another one in instance order.
    pub fn is_before(&self, other: &InstanceKey) -> bool
        ensures { result ≡ is_before self.now other.now }
    {
        is_less(self.element, other.element)
            || (!is_less(other.element, self.element) && self.is_before_within(other))
    }

    /// Whether a member stands before another one of its element.
    fn is_before_within(&self, other: &InstanceKey) -> bool
        ensures { result ≡ is_less_within self.now other.now }
    {
        is_less(self.layer, other.layer)
            || (!is_less(other.layer, self.layer) && self.number < other.number)
    }
}

/// Whether a number is less than another one; nothing stands before a number.
fn is_less(a: Option<usize>, b: Option<usize>) -> bool
    ensures { result ≡ is_less a b }
{
    let Some(b) = b else {
        return false;
    };
    match a {
        Some(a) => a < b,
        None => true,
    }
}
