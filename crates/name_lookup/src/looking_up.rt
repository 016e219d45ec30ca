ghost use Rattle.std.specs.Prelude.{◌≡◌, IfOk};
ghost use Rattle.std.specs.Option.{option_copied};
ghost use Rattle.name_lookup.specs.Names.{behind_point, looked_up, member_here, member_of, root_of, self_of};

use crate::behind::{of_namespace, of_value};
use crate::far::{enum_value, far_name};
use crate::members::{member_of_element, member_of_global};
use crate::near::near_name;
use crate::{Lookup, Meaning};
use slint_base::{Memory, Name, Span};
use std::alloc::Global;
use typed_tree::{Scope, Site};
use value_types::Ty;

/// What a name stands for at a place, if it stands for anything; or the rule that is broken where it may not be used. `place` is the
/// type that is wanted there, and `span` the name's stretch.
pub fn look_up(
    alloc: Global,
    scope: &Scope<'_>,
    place: Option<&Ty>,
    name: &Name,
    span: Span,
) -> Result<Lookup, Memory>
    ensures { IfOk result (λ found. found ≡ looked_up scope.now (option_copied place.entry) name.now span) }
{
    if let Some(found) = near_name(alloc, scope, name, span)? {
        return Ok(Some(found));
    }
    if let Some(found) = member_of_self(alloc, scope, name, span)? {
        return Ok(Some(found));
    }
    if let Some(found) = member_of_root(alloc, scope, name, span)? {
        return Ok(Some(found));
    }
    far_name(alloc, scope, place, name, span)
}

/// A member of the element or the global in whose body a name stands.
fn member_of_self(
    alloc: Global,
    scope: &Scope<'_>,
    name: &Name,
    span: Span,
) -> Result<Lookup, Memory>
    ensures { IfOk result (λ lookup. lookup ≡ member_of scope.now (self_of scope.now.site) name.now span) }
{
    match scope.site() {
        Site::Element(component, element) => {
            member_of_element(alloc, scope, component, element, name, span)
        }
        Site::Global(global) => member_of_global(alloc, scope, global, name, span),
    }
}

/// A member of the root element of the component in which a name stands, or of the global.
fn member_of_root(
    alloc: Global,
    scope: &Scope<'_>,
    name: &Name,
    span: Span,
) -> Result<Lookup, Memory>
    ensures { IfOk result (λ lookup. lookup ≡ member_of scope.now (root_of scope.now.site) name.now span) }
{
    match scope.site() {
        Site::Element(component, _) => member_of_element(alloc, scope, component, 0, name, span),
        Site::Global(global) => member_of_global(alloc, scope, global, name, span),
    }
}

/// A member of an element of the component at hand.
fn member_here(
    alloc: Global,
    scope: &Scope<'_>,
    element: usize,
    name: &Name,
    span: Span,
) -> Result<Lookup, Memory>
    ensures { IfOk result (λ lookup. lookup ≡ member_here scope.now scope.now.site element name.now span) }
{
    match scope.site() {
        Site::Element(component, _) => {
            member_of_element(alloc, scope, component, element, name, span)
        }
        Site::Global(_) => Ok(None),
    }
}

/// What stands behind a point, where something stands for `meaning` before it; `is_plain` says whether that is written as names with
/// points between them, and `span` is the stretch of the whole.
pub fn behind_point(
    alloc: Global,
    scope: &Scope<'_>,
    is_plain: bool,
    meaning: Meaning,
    name: &Name,
    span: Span,
) -> Result<Lookup, Memory>
    ensures { IfOk result (λ found. found ≡ behind_point scope.now is_plain meaning name.now span) }
{
    match meaning {
        Meaning::Value(of) => of_value(alloc, is_plain, of, name, span),
        Meaning::Element(element) => member_here(alloc, scope, element, name, span),
        Meaning::Global(global) => member_of_global(alloc, scope, global, name, span),
        Meaning::Enum(number) => enum_value(alloc, scope.names(), number, name, span),
        Meaning::Namespace(of) => of_namespace(alloc, of, name, span),
        Meaning::Callable(_, _) => Ok(None),
        Meaning::Math(_) => Ok(None),
        Meaning::Method(_, _) => Ok(None),
    }
}
