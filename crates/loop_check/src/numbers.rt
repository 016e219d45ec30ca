ghost use Rattle.std.specs.Prelude.{◌≡◌, IfOk, length, map};
ghost use Rattle.std.specs.Option.{option_copied};
ghost use Rattle.loop_check.specs.Numbers.{AreNumbers, AreRowsOf, IsRow, declared_in_component, declared_in_global, number_called, number_of, row_of};
ghost use Rattle.loop_check.specs.declared.acts.Home.TheVariants.{Component as component_home, Global as global_home};

use crate::{Home, Routine};
use slint_base::Memory;
use sqlite_items::Items;
use std::alloc::Global;
use typed_tree::{Member, TypedComponent, TypedGlobal, TypedTree};

/// The numbers of declared members, by the components and the globals in which they are declared. Number 0 is for what is impure in
/// any case.
#[derive(Drop)]
pub(crate) struct Numbers {
    comps: Items<Items<usize>>,
    globals: Items<Items<usize>>,
}

/// Numbers, and the things that have them, by their numbers.
#[derive(Drop)]
pub(crate) struct Numbering {
    pub(crate) numbers: Numbers,
    pub(crate) things: Items<Option<Routine>>,
}

impl Numbers {
    /// The row of numbers of a component or a global.
    fn row_of(&self, home: Home) -> Option<&Items<usize>>
        ensures { option_copied result ≡ row_of self.now home }
    {
        match home {
            Home::Component(component) => self.comps.get(component),
            Home::Global(global) => self.globals.get(global),
        }
    }

    /// The number of a callback or function, if it is there.
    pub(crate) fn number_of(&self, routine: Routine) -> Option<usize>
        ensures { result ≡ number_of self.now routine }
    {
        match self.row_of(routine.home) {
            Some(row) => row.get(routine.number).copied(),
            None => None,
        }
    }

    /// The number of what is called.
    pub(crate) fn number_called(&self, calls: Option<Routine>) -> Option<usize>
        ensures { result ≡ number_called self.now calls }
    {
        match calls {
            None => Some(0),
            Some(routine) => self.number_of(routine),
        }
    }
}

/// Numbers for all declared members of a source.
pub(crate) fn number_members(alloc: Global, tree: &TypedTree) -> Result<Numbering, Memory>
    ensures { IfOk result (λ all. AreNumbers tree.now all.numbers all.things) }
{
    let mut things = Items::new(alloc);
    things.push(None)?;
    let comps = number_components(alloc, &mut things, tree.comps.as_slice())?;
    let globals = number_globals(alloc, &mut things, tree.globals.as_slice())?;
    Ok(Numbering {
        numbers: Numbers { comps, globals },
        things,
    })
}

/// The rows of components.
fn number_components(
    alloc: Global,
    things: &mut Items<Option<Routine>>,
    comps: &[TypedComponent],
) -> Result<Items<Items<usize>>, Memory>
    ensures { IfOk result (λ rows. AreRowsOf (λ c. component_home c) (map declared_in_component comps.now) (length comps.now) things.old things.new rows) }
{
    let mut rows = Items::new(alloc);
    for (component, comp) in comps.iter().enumerate() {
        let home = Home::Component(component);
        let row = number_row(alloc, things, home, comp.outline.members.as_slice())?;
        rows.push(row)?;
    }
    Ok(rows)
}

/// The rows of globals.
fn number_globals(
    alloc: Global,
    things: &mut Items<Option<Routine>>,
    globals: &[TypedGlobal],
) -> Result<Items<Items<usize>>, Memory>
    ensures { IfOk result (λ rows. AreRowsOf (λ g. global_home g) (map declared_in_global globals.now) (length globals.now) things.old things.new rows) }
{
    let mut rows = Items::new(alloc);
    for (number, global) in globals.iter().enumerate() {
        let home = Home::Global(number);
        let row = number_row(alloc, things, home, global.outline.members.as_slice())?;
        rows.push(row)?;
    }
    Ok(rows)
}

/// The numbers of the members of a component or a global, which come in behind other things.
fn number_row(
    alloc: Global,
    things: &mut Items<Option<Routine>>,
    home: Home,
    members: &[Member],
) -> Result<Items<usize>, Memory>
    ensures { IfOk result (λ row. IsRow home (length members.now) things.old things.new row) }
{
    let mut row = Items::new(alloc);
    for number in 0..members.len() {
        let next = things.len();
        row.push(next)?;
        things.push(Some(Routine { home, number }))?;
    }
    Ok(row)
}
