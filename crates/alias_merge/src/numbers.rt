ghost use Rattle.std.specs.Prelude.{◌≡◌, ◌+◌, ◌++◌, IfOk, OnOk, length, map, slice_get, sum};
ghost use Rattle.element_tables.specs.Members.{kinds};
ghost use Rattle.alias_merge.specs.Numbers.{blocks_from, body_size, element_size, global_size, number_in, number_within, numbers_of};

use element_tables::ElementKind;
use expanded_tree::{Body, Expanded, ExpandedElement, ExpandedMember};
use slint_base::Memory;
use sqlite_items::{Items, at};
use std::alloc::Global;
use typed_tree::{TypedComponent, TypedGlobal};

/// The members of one global, body or element: the number of the first, and the number behind the last.
#[derive(Clone, Copy)]
pub struct Block {
    pub first: usize,
    pub past: usize,
}

/// The numbers of all members of an expanded tree: those of the globals in their order, then those that are declared in each body, then those
/// that are built into each element.
#[derive(Drop)]
pub struct MemberNumbers {
    /// The place of the first body's block: behind those of the globals.
    pub bodies_from: usize,
    /// The place of the first element's block: behind those of the bodies.
    pub elements_from: usize,
    /// How many members there are.
    pub count: usize,
    /// The members of each global, of each body and of each element.
    pub blocks: Items<Block>,
}

impl MemberNumbers {
    /// The numbers of an expanded tree's members.
    pub fn new(alloc: Global, expanded: &Expanded) -> Result<MemberNumbers, Memory>
        ensures { IfOk result (λ numbers. numbers ≡ numbers_of expanded.now) }
    {
        let tree = expanded.tree();
        let mut sizes = Items::new(alloc);
        add_globals(&mut sizes, tree.globals.as_slice())?;
        let bodies_from = sizes.len();
        add_bodies(&mut sizes, tree.comps.as_slice(), expanded.bodies())?;
        let elements_from = sizes.len();
        add_elements(&mut sizes, expanded.elements())?;
        Ok(MemberNumbers {
            bodies_from,
            elements_from,
            count: total(sizes.as_slice())?,
            blocks: blocks(alloc, sizes.as_slice())?,
        })
    }

    /// The number of a member, if it is there.
    pub fn number(&self, member: ExpandedMember) -> Option<usize>
        ensures { result ≡ number_in self.now member }
    {
        match member {
            ExpandedMember::Global(global, number) => {
                if global < self.bodies_from {
                    number_within(number, at(self.blocks.as_slice(), global).copied())
                } else {
                    None
                }
            }
            ExpandedMember::Declared(body, number) => {
                if body < self.elements_from.saturating_sub(self.bodies_from) {
                    number_within(
                        number,
                        block_behind(self.blocks.as_slice(), self.bodies_from, body),
                    )
                } else {
                    None
                }
            }
            ExpandedMember::BuiltIn(element, number) => number_within(
                number as usize,
                block_behind(self.blocks.as_slice(), self.elements_from, element),
            ),
        }
    }
}

/// A block so many places behind a first one.
fn block_behind(blocks: &[Block], first: usize, number: usize) -> Option<Block>
    ensures { result ≡ slice_get blocks.now (first + number) }
{
    if number < blocks.len().saturating_sub(first) {
        at(blocks, first + number).copied()
    } else {
        None
    }
}

/// The number of a member of a block.
fn number_within(number: usize, block: Option<Block>) -> Option<usize>
    ensures { result ≡ number_within number block }
{
    let Some(block) = block else {
        return None;
    };
    if number < block.past.saturating_sub(block.first) {
        Some(block.first + number)
    } else {
        None
    }
}

/// Adds how many members each global has.
fn add_globals(sizes: &mut Items<usize>, globals: &[TypedGlobal]) -> Result<(), Memory>
    ensures { OnOk result (sizes.new ≡ sizes.old ++ map global_size globals.now) }
{
    for global in globals {
        sizes.push(global.outline.members.len())?;
    }
    Ok(())
}

/// Adds how many members are declared in each body.
fn add_bodies(
    sizes: &mut Items<usize>,
    comps: &[TypedComponent],
    bodies: &[Body],
) -> Result<(), Memory>
    ensures { OnOk result (sizes.new ≡ sizes.old ++ map (body_size comps.now) bodies.now) }
{
    for body in bodies {
        sizes.push(body_size(comps, body))?;
    }
    Ok(())
}

/// How many members are declared in a body.
fn body_size(comps: &[TypedComponent], body: &Body) -> usize
    ensures { result ≡ body_size comps.now body.now }
{
    match at(comps, body.comp) {
        Some(comp) => comp.outline.members.len(),
        None => 0,
    }
}

/// Adds how many members are built into each element.
fn add_elements(sizes: &mut Items<usize>, elements: &[ExpandedElement]) -> Result<(), Memory>
    ensures { OnOk result (sizes.new ≡ sizes.old ++ map element_size elements.now) }
{
    for element in elements {
        sizes.push(member_count(element.kind))?;
    }
    Ok(())
}

/// How many members an element has.
pub(crate) fn member_count(kind: ElementKind) -> usize
    ensures { result ≡ length (kinds kind) }
{
    match kind {
        ElementKind::Empty => 19,
        ElementKind::Window => 26,
        ElementKind::Rectangle => 23,
        ElementKind::Text => 28,
        ElementKind::Image => 22,
        ElementKind::TouchArea => 28,
        ElementKind::FocusScope => 24,
        ElementKind::HorizontalLayout => 26,
        ElementKind::VerticalLayout => 26,
        ElementKind::GridLayout => 27,
        ElementKind::Row => 0,
    }
}

/// The sum of sizes. No memory holds so many members that it has no place.
fn total(sizes: &[usize]) -> Result<usize, Memory>
    ensures { IfOk result (λ count. count ≡ sum sizes.now) }
{
    let mut count: usize = 0;
    for size in sizes {
        count = plus(count, *size)?;
    }
    Ok(count)
}

/// A sum of numbers of members.
fn plus(count: usize, size: usize) -> Result<usize, Memory>
    ensures { IfOk result (λ sum. sum ≡ count + size) }
{
    match count.checked_add(size) {
        Some(sum) => Ok(sum),
        None => Err(Memory),
    }
}

/// Blocks of members, each behind the one before.
fn blocks(alloc: Global, sizes: &[usize]) -> Result<Items<Block>, Memory>
    ensures { IfOk result (λ blocks. blocks ≡ blocks_from 0 sizes.now) }
{
    let mut blocks = Items::new(alloc);
    let mut first: usize = 0;
    for size in sizes {
        let past = plus(first, *size)?;
        blocks.push(Block { first, past })?;
        first = past;
    }
    Ok(blocks)
}
