ghost use Rattle.std.specs.Prelude.{◌≡◌, ◌<◌, IfOk, OnOk, length, position, slice_get};
ghost use Rattle.std.specs.List.{list_any};
ghost use Rattle.typed_tree.specs.Declarers.{AreDeclarers, MoreDeclare};
ghost use Rattle.typed_tree.specs.Elements.{is_among};

use crate::{ComponentOutline, Member};
use name_index::{NumbersByName, add_number};
use slint_base::Memory;
use std::alloc::Global;
use std::collections::BTreeMap;

/// By name the components that declare a member of it in their root element, rising.
pub(crate) fn declarers(alloc: Global, comps: &[ComponentOutline]) -> Result<NumbersByName, Memory>
    ensures { IfOk result (λ found. AreDeclarers comps.now found) }
{
    let mut found = BTreeMap::new(alloc);
    for (number, comp) in comps.iter().enumerate() {
        add_declarer(alloc, &mut found, comp.members.as_slice(), number)?;
    }
    Ok(found)
}

/// Notes a component under the names that it declares in its root element.
fn add_declarer(
    alloc: Global,
    found: &mut NumbersByName,
    members: &[Member],
    number: usize,
) -> Result<(), Memory>
    ensures { OnOk result (MoreDeclare members.now number found.old found.new) }
{
    for member in members {
        if member.element == 0 {
            add_number(alloc, found, &member.name.name, number)?;
        }
    }
    Ok(())
}

/// Whether a number is among some.
pub(crate) fn is_among(numbers: &[usize], number: usize) -> bool
    ensures { result ≡ is_among numbers.now number }
{
    numbers.iter().any(|other| *other == number)
}
