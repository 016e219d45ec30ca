ghost use Rattle.std.specs.Prelude.{◌≡◌, IfOk, map};
ghost use Rattle.source_scopes.specs.Shown.{shown_component};
ghost use Rattle.fault_order.specs.Order.{first_of};
ghost use Rattle.child_rules.specs.Ends.{component_faults_by, written_faults_by};
ghost use Rattle.child_rules.specs.Source.{child_faults, declared_faults};

use crate::children::elements_fault;
use crate::cursors::Cursor;
use crate::ends::ends_of;
use crate::grids::grid_fault;
use crate::items::bodies_fault;
use crate::places::Places;
use fault_order::earlier;
use slint_base::{Fault, Memory};
use source_elements::{Written, written_in};
use source_scopes::{FileComponent, Scopes};
use std::alloc::Global;
use typed_tree::Names;

/// The first fault of a component whose elements are known.
fn written_fault(
    alloc: Global,
    places: &Places<'_>,
    ends: &[Cursor],
    component: usize,
    written: &[Written<'_>],
) -> Result<Option<Fault>, Memory>
    ensures { IfOk result (λ fault. fault ≡ first_of (written_faults_by ends.now places.now component written.now)) }
{
    let elements = elements_fault(places, component);
    let bodies = bodies_fault(alloc, places, component, written)?;
    let cells = grid_fault(alloc, places, ends, component, written)?;
    Ok(earlier(elements, earlier(bodies, cells)))
}

/// The first fault of a component.
fn component_fault(
    alloc: Global,
    places: &Places<'_>,
    ends: &[Cursor],
    component: usize,
    declared: &FileComponent<'_>,
) -> Result<Option<Fault>, Memory>
    ensures { IfOk result (λ fault. fault ≡ first_of (component_faults_by ends.now places.now component (shown_component declared.now))) }
{
    let written = written_in(alloc, declared.component)?;
    let fault = written_fault(alloc, places, ends, component, written.as_slice())?;
    Ok(fault)
}

/// The first fault of all components.
fn declared_fault(
    alloc: Global,
    places: &Places<'_>,
    declared: &[FileComponent<'_>],
) -> Result<Option<Fault>, Memory>
    ensures { IfOk result (λ fault. fault ≡ first_of (declared_faults (map shown_component declared.now) places.now)) }
{
    let table = ends_of(alloc, places, declared)?;
    let ends = table.as_slice();
    let mut first = None;
    for (number, one) in declared.iter().enumerate() {
        let fault = component_fault(alloc, places, ends, number, one)?;
        first = earlier(first, fault);
    }
    Ok(first)
}

/// The first fault of children and grids of a source, whose outline has these names: of the rules on where children may be written (36)
/// and on grids (37). None where there is no such fault.
pub fn child_fault(
    alloc: Global,
    scopes: &Scopes<'_>,
    names: &Names,
) -> Result<Option<Fault>, Memory>
    ensures { IfOk result (λ fault. fault ≡ first_of (child_faults scopes.now names.now)) }
{
    let declared = scopes.components(alloc)?;
    let places = Places::new(alloc, names)?;
    let fault = declared_fault(alloc, &places, declared.as_slice())?;
    Ok(fault)
}
