ghost use Rattle.std.specs.Prelude.{◌≡◌, IfOk, slice_get};
ghost use Rattle.std.specs.Option.{option_copied};
ghost use Rattle.fault_order.specs.Order.{FirstIfAny, first_of};
ghost use Rattle.declaration_rules.specs.Circles.{CircleFault, component_usages, struct_usages};
ghost use Rattle.declaration_rules.specs.Declarations.{DeclarationFault, declaration_faults, faults_at, faults_in_files, rootless};
ghost use Rattle.import_resolver.specs.Loaded.{rows_of};

use crate::circles::circle_fault;
use crate::files::file_fault;
use crate::usages::{component_usages, struct_usages};
use fault_order::earlier;
use import_resolver::Loaded;
use slint_base::{Fault, Memory, Name, Rule, at_start};
use source_scopes::Scopes;
use std::alloc::Global;

/// The first fault of the file of a number, where there is one.
fn fault_in(
    alloc: Global,
    scopes: &Scopes<'_>,
    loaded: &Loaded,
    file: usize,
) -> Result<Option<Fault>, Memory>
    ensures { IfOk result (λ fault. fault ≡ first_of (faults_at scopes.now file (slice_get (rows_of loaded.now) file))) }
{
    match loaded.files.get_index(file) {
        Some((_, source)) => {
            let items = source.tree.items.as_slice();
            file_fault(alloc, scopes, file, items, source.imports.as_slice())
        }
        None => Ok(None),
    }
}

/// The first fault of all files.
fn files_fault(alloc: Global, scopes: &Scopes<'_>) -> Result<Option<Fault>, Memory>
    ensures { IfOk result (λ fault. fault ≡ first_of (faults_in_files scopes.now)) }
{
    let loaded = scopes.loaded();
    let mut first = None;
    for file in 0..loaded.files.len() {
        let fault = fault_in(alloc, scopes, loaded, file)?;
        first = earlier(first, fault);
    }
    Ok(first)
}

/// The fault of a source that has no root component.
fn rootless(root: Option<usize>) -> Option<Fault>
    ensures { result ≡ first_of (rootless root) }
{
    match root {
        None => Some(at_start(Rule::NoComponent, 0)),
        Some(_) => None,
    }
}

/// The first fault of a source's declarations, uses on circles aside.
fn listed_fault(
    alloc: Global,
    scopes: &Scopes<'_>,
    named: Option<&Name>,
) -> Result<Option<Fault>, Memory>
    ensures { IfOk result (λ fault. fault ≡ first_of (declaration_faults scopes.now (option_copied named.entry))) }
{
    let root = scopes.root(alloc, named)?;
    let files = files_fault(alloc, scopes)?;
    Ok(earlier(rootless(root), files))
}

/// The first use of a component that lies on a circle.
fn component_circle(alloc: Global, scopes: &Scopes<'_>) -> Result<Option<Fault>, Memory>
    ensures { IfOk result (λ fault. FirstIfAny (CircleFault (component_usages scopes.now)) fault) }
{
    let usages = component_usages(alloc, scopes)?;
    let fault = circle_fault(alloc, usages.as_slice())?;
    Ok(fault)
}

/// The first use of a struct that lies on a circle.
fn struct_circle(alloc: Global, scopes: &Scopes<'_>) -> Result<Option<Fault>, Memory>
    ensures { IfOk result (λ fault. FirstIfAny (CircleFault (struct_usages scopes.now)) fault) }
{
    let usages = struct_usages(alloc, scopes)?;
    let fault = circle_fault(alloc, usages.as_slice())?;
    Ok(fault)
}

/// The first rule that the declarations of a source break: its first pass. These are, of the least file number and then of the least
/// first byte, a name that is there twice (30) in a file's scope, among its exports, in a struct or in an enum; a name where a type (31)
/// or an element (32) is wanted and there is none; a use on a circle of components or of structs (33); a name that is listed for export
/// and isn't in the scope (34); no root component, where the name of the one that is asked for is `named` (38). `None` where none of them is
/// broken.
pub fn declaration_fault(
    alloc: Global,
    scopes: &Scopes<'_>,
    named: Option<&Name>,
) -> Result<Option<Fault>, Memory>
    ensures { IfOk result (λ fault. FirstIfAny (DeclarationFault scopes.now (option_copied named.entry)) fault) }
{
    let listed = listed_fault(alloc, scopes, named)?;
    let component = component_circle(alloc, scopes)?;
    let structs = struct_circle(alloc, scopes)?;
    Ok(earlier(listed, earlier(component, structs)))
}
