ghost use Rattle.std.specs.Prelude.{◌≡◌, IfOk};
ghost use Rattle.std.specs.List.{flat_map};
ghost use Rattle.fault_order.specs.Order.{first_of};
ghost use Rattle.declaration_rules.specs.Declarations.{file_faults, inner_faults, name_faults, unknown_element, unknown_type, unlisted_in};
ghost use Rattle.declaration_rules.specs.Repeats.{repeated};
ghost use Rattle.declaration_rules.specs.Words.{element_words, scope_words, type_words};

use crate::exports::exported_twice;
use crate::repeats::{index_of, repeated, repeated_in_items};
use crate::type_words::type_words;
use crate::unknown::{first_unlisted, unknown_elements, unknown_types};
use crate::words::{element_words, listed_words, scope_words};
use fault_order::earlier;
use slint_base::{Fault, Memory};
use source_scopes::Scopes;
use std::alloc::Global;
use syntax_tree::FileItem;

/// The first name of a file's scope that is there before.
fn scope_fault(alloc: Global, items: &[FileItem]) -> Result<Option<Fault>, Memory>
    ensures { IfOk result (λ fault. fault ≡ first_of (repeated (scope_words items.now))) }
{
    let words = scope_words(alloc, items)?;
    let fault = repeated(alloc, words.as_slice())?;
    Ok(fault)
}

/// The first name that a file lists for export and that isn't in its scope.
fn list_fault(alloc: Global, items: &[FileItem]) -> Result<Option<Fault>, Memory>
    ensures { IfOk result (λ fault. fault ≡ first_of (unlisted_in items.now)) }
{
    let words = scope_words(alloc, items)?;
    let names = index_of(alloc, words.as_slice())?;
    let listed = listed_words(alloc, items)?;
    let fault = first_unlisted(&names, listed.as_slice());
    Ok(fault)
}

/// The first name in a file where a type is wanted and there is none.
fn type_fault(
    alloc: Global,
    scopes: &Scopes<'_>,
    file: usize,
    items: &[FileItem],
) -> Result<Option<Fault>, Memory>
    ensures { IfOk result (λ fault. fault ≡ first_of (flat_map (unknown_type scopes.now file) (type_words items.now))) }
{
    let words = type_words(alloc, items)?;
    let fault = unknown_types(scopes, file, words.as_slice());
    Ok(fault)
}

/// The first name in a file where an element is wanted and there is none.
fn element_fault(
    alloc: Global,
    scopes: &Scopes<'_>,
    file: usize,
    items: &[FileItem],
) -> Result<Option<Fault>, Memory>
    ensures { IfOk result (λ fault. fault ≡ first_of (flat_map (unknown_element scopes.now file) (element_words items.now))) }
{
    let words = element_words(alloc, items)?;
    let fault = unknown_elements(scopes, file, words.as_slice());
    Ok(fault)
}

/// The first fault of a file's names: in its scope, among its exports, and in its lists of exports.
fn name_fault(
    alloc: Global,
    scopes: &Scopes<'_>,
    items: &[FileItem],
    imports: &[u32],
) -> Result<Option<Fault>, Memory>
    ensures { IfOk result (λ fault. fault ≡ first_of (name_faults scopes.now items.now imports.now)) }
{
    let scope = scope_fault(alloc, items)?;
    let exported = exported_twice(alloc, scopes, items, imports)?;
    let listed = list_fault(alloc, items)?;
    Ok(earlier(scope, earlier(exported, listed)))
}

/// The first fault of what the declarations of a file are written with.
fn inner_fault(
    alloc: Global,
    scopes: &Scopes<'_>,
    file: usize,
    items: &[FileItem],
) -> Result<Option<Fault>, Memory>
    ensures { IfOk result (λ fault. fault ≡ first_of (inner_faults scopes.now file items.now)) }
{
    let repeated = repeated_in_items(alloc, items)?;
    let ty = type_fault(alloc, scopes, file, items)?;
    let element = element_fault(alloc, scopes, file, items)?;
    Ok(earlier(repeated, earlier(ty, element)))
}

/// The first fault of a file.
pub(crate) fn file_fault(
    alloc: Global,
    scopes: &Scopes<'_>,
    file: usize,
    items: &[FileItem],
    imports: &[u32],
) -> Result<Option<Fault>, Memory>
    ensures { IfOk result (λ fault. fault ≡ first_of (file_faults scopes.now file items.now imports.now)) }
{
    let name = name_fault(alloc, scopes, items, imports)?;
    let inner = inner_fault(alloc, scopes, file, items)?;
    Ok(earlier(name, inner))
}
