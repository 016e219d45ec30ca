ghost use Rattle.std.specs.Prelude.{◌≡◌, IfOk, OnOk, slice_get};
ghost use Rattle.typed_tree.specs.Indexes.{member_names};
ghost use Rattle.typed_tree.specs.MemberIndexes.{AddsFirst, AreFirst, FindsMembers, FindsNumbers, found_number, number_in};

use crate::name_lists::member_names;
use crate::{ComponentOutline, Member};
use name_index::NameIndex;
use slint_base::{Memory, Name};
use sqlite_items::{Items, at};
use std::alloc::Global;
use std::collections::BTreeMap;

/// The members that a component declares, found by element and name.
#[derive(Drop)]
pub(crate) struct MemberIndex {
    /// The members' names, in their order.
    pub names: NameIndex,
    /// By an element and the first place of a name: the number of the first member of that name in the element's body.
    pub numbers: BTreeMap<(usize, usize), usize>,
}

/// The members that each component declares.
pub(crate) fn member_indexes(
    alloc: Global,
    comps: &[ComponentOutline],
) -> Result<Items<MemberIndex>, Memory>
    ensures { IfOk result (λ indexes. FindsMembers comps.now indexes) }
{
    let mut indexes = Items::new(alloc);
    for comp in comps {
        indexes.push(member_index(alloc, comp.members.as_slice())?)?;
    }
    Ok(indexes)
}

/// The members that a component declares.
fn member_index(alloc: Global, members: &[Member]) -> Result<MemberIndex, Memory>
    ensures { IfOk result (λ index. FindsNumbers members.now index) }
{
    let names = member_names(alloc, members)?;
    let numbers = first_numbers(alloc, members, &names)?;
    Ok(MemberIndex { names, numbers })
}

/// The numbers of the first members of each name in each element's body.
fn first_numbers(
    alloc: Global,
    members: &[Member],
    names: &NameIndex,
) -> Result<BTreeMap<(usize, usize), usize>, Memory>
    requires { names.now ≡ member_names members.now }
    ensures { IfOk result (λ numbers. AreFirst names.now members.now numbers) }
{
    let mut numbers = BTreeMap::new(alloc);
    for (number, member) in members.iter().enumerate() {
        let first = names.first(&member.name.name);
        add_first(&mut numbers, member.element, first, number)?;
    }
    Ok(numbers)
}

/// Notes the number of a member under its element and the first place of its name, where none is noted.
fn add_first(
    numbers: &mut BTreeMap<(usize, usize), usize>,
    element: usize,
    first: Option<usize>,
    number: usize,
) -> Result<(), Memory>
    ensures { OnOk result (AddsFirst numbers.old numbers.new element first number) }
{
    let Some(first) = first else {
        return Ok(());
    };
    if !numbers.contains_key(&(element, first)) {
        numbers.insert((element, first), number)?;
    }
    Ok(())
}

impl MemberIndex {
    /// The number of the first member of a name that is declared in an element's body.
    pub fn number(&self, element: usize, name: &Name) -> Option<usize>
        ensures { result ≡ found_number self.now element name.now }
    {
        match self.names.first(name) {
            Some(first) => self.numbers.get(&(element, first)).copied(),
            None => None,
        }
    }
}

/// The number of the first member of a name that is declared in the body of a component's element.
pub(crate) fn number_in(
    indexes: &[MemberIndex],
    component: usize,
    element: usize,
    name: &Name,
) -> Option<usize>
    ensures { result ≡ number_in (slice_get indexes.now component) element name.now }
{
    match at(indexes, component) {
        Some(index) => index.number(element, name),
        None => None,
    }
}
