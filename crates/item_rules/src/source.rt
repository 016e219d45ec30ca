ghost use Rattle.std.specs.Prelude.{◌≡◌, IfOk, map};
ghost use Rattle.source_scopes.specs.Shown.{shown_component, shown_global};
ghost use Rattle.fault_order.specs.Order.{first_of, numbered};
ghost use Rattle.item_rules.specs.Items.{component_faults, global_faults, item_faults};

use crate::bodies::{body_fault, elements_fault};
use crate::body::Body;
use fault_order::earlier;
use slint_base::{Fault, Memory};
use source_elements::written_in;
use source_scopes::{FileComponent, FileGlobal, Scopes};
use std::alloc::Global;
use typed_tree::{Names, Site};

/// The first fault of a component, which has a number.
fn component_fault(
    alloc: Global,
    names: &Names,
    number: usize,
    declared: &FileComponent<'_>,
) -> Result<Option<Fault>, Memory>
    ensures { IfOk result (λ fault. fault ≡ first_of (component_faults names.now number (shown_component declared.now))) }
{
    let elements = written_in(alloc, declared.component)?;
    elements_fault(alloc, names, number, elements.as_slice())
}

/// The first fault of components.
fn components_fault(
    alloc: Global,
    names: &Names,
    components: &[FileComponent<'_>],
) -> Result<Option<Fault>, Memory>
    ensures { IfOk result (λ fault. fault ≡ first_of (numbered (component_faults names.now) 0 (map shown_component components.now))) }
{
    let mut first = None;
    for (number, declared) in components.iter().enumerate() {
        let fault = component_fault(alloc, names, number, declared)?;
        first = earlier(first, fault);
    }
    Ok(first)
}

/// The first fault of a global, which has a number.
fn global_fault(
    alloc: Global,
    names: &Names,
    number: usize,
    declared: &FileGlobal<'_>,
) -> Result<Option<Fault>, Memory>
    ensures { IfOk result (λ fault. fault ≡ first_of (global_faults names.now number (shown_global declared.now))) }
{
    let body = Body::new(names, Site::Global(number), &[]);
    body_fault(alloc, &body, declared.global.items.as_slice())
}

/// The first fault of globals.
fn globals_fault(
    alloc: Global,
    names: &Names,
    globals: &[FileGlobal<'_>],
) -> Result<Option<Fault>, Memory>
    ensures { IfOk result (λ fault. fault ≡ first_of (numbered (global_faults names.now) 0 (map shown_global globals.now))) }
{
    let mut first = None;
    for (number, declared) in globals.iter().enumerate() {
        let fault = global_fault(alloc, names, number, declared)?;
        first = earlier(first, fault);
    }
    Ok(first)
}

/// The first fault of names in the bodies of a source, if there is one: a name that stands twice where names have to differ, or a name
/// outside expressions that stands for nothing, or for what may not be used so.
pub fn item_fault(
    alloc: Global,
    scopes: &Scopes<'_>,
    names: &Names,
) -> Result<Option<Fault>, Memory>
    ensures { IfOk result (λ fault. fault ≡ first_of (item_faults scopes.now names.now)) }
{
    let components = scopes.components(alloc)?;
    let in_components = components_fault(alloc, names, components.as_slice())?;
    let globals = scopes.globals(alloc)?;
    let in_globals = globals_fault(alloc, names, globals.as_slice())?;
    Ok(earlier(in_components, in_globals))
}
