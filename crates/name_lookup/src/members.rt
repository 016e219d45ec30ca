ghost use Rattle.std.specs.Prelude.{◌≡◌, IfOk};
ghost use Rattle.typed_tree.specs.Members.{callable, readable};
ghost use Rattle.name_lookup.specs.Names.{function_of, member_meaning, member_of_element, member_of_global, use_of};

use crate::{Lookup, Meaning};
use slint_base::{Memory, Name, Rule, Span};
use std::alloc::Global;
use syntax_tree::{Access, Mark};
use typed_tree::{
    Callee, ElementMember, ExprKind, Found, MemberKind, MemberRef, Scope, TypedExpr, is_inside,
};

/// Whether a property may be read, by its owner's body and by others.
fn readable(is_inside: bool, mark: Mark) -> bool
    ensures { result ≡ readable is_inside mark }
{
    match mark {
        Mark::None => is_inside,
        Mark::Private => is_inside,
        Mark::In => true,
        Mark::Out => true,
        Mark::InOut => true,
    }
}

/// Whether a function may be called, by its owner's body, by that of a component that inherits the owner, and by others.
fn callable(is_inside: bool, is_below: bool, access: Access) -> bool
    ensures { result ≡ callable is_inside is_below access }
{
    match access {
        Access::None => is_inside,
        Access::Protected => is_inside || is_below,
        Access::Public => true,
    }
}

/// What a call of a function calls. The only function that is built into elements moves the focus.
fn function_of(member: MemberRef) -> Callee
    ensures { result ≡ function_of member }
{
    match member {
        MemberRef::Element(element, ElementMember::BuiltIn(_)) => Callee::Focus(element),
        MemberRef::Element(_, ElementMember::Declared(_, _)) => Callee::Function(member),
        MemberRef::Global(_, _) => Callee::Function(member),
    }
}

/// What a member stands for, where it may be read or called from a body.
fn member_meaning(
    alloc: Global,
    is_inside: bool,
    is_below: bool,
    member: MemberRef,
    kind: MemberKind,
    span: Span,
) -> Result<Result<Meaning, Rule>, Memory>
    ensures { IfOk result (λ made. made ≡ member_meaning is_inside is_below member kind span) }
{
    match kind {
        MemberKind::Property(mark, ty) => {
            if !readable(is_inside, mark) {
                return Ok(Err(Rule::Visibility));
            }
            let value = TypedExpr::new(alloc, ExprKind::Property(member), ty, span)?;
            Ok(Ok(Meaning::Value(value)))
        }
        MemberKind::Callback(_, signature) => {
            Ok(Ok(Meaning::Callable(Callee::Callback(member), signature)))
        }
        MemberKind::Function(_, access, signature) => {
            if !callable(is_inside, is_below, access) {
                return Ok(Err(Rule::Visibility));
            }
            Ok(Ok(Meaning::Callable(function_of(member), signature)))
        }
    }
}

/// What a member stands for in a scope.
fn use_of(
    alloc: Global,
    scope: &Scope<'_>,
    span: Span,
    found: Found,
) -> Result<Result<Meaning, Rule>, Memory>
    ensures { IfOk result (λ made. made ≡ use_of scope.now span found) }
{
    let is_inside = is_inside(scope.site(), found.owner);
    let is_below = scope.names().inherits(scope.site(), found.owner);
    let meaning = member_meaning(alloc, is_inside, is_below, found.member, found.kind, span)?;
    Ok(meaning)
}

/// What the name of a member of an element stands for.
pub(crate) fn member_of_element(
    alloc: Global,
    scope: &Scope<'_>,
    component: usize,
    element: usize,
    name: &Name,
    span: Span,
) -> Result<Lookup, Memory>
    ensures { IfOk result (λ lookup. lookup ≡ member_of_element scope.now component element name.now span) }
{
    match scope
        .names()
        .element_member(alloc, component, element, name)?
    {
        Some(found) => {
            let meaning = use_of(alloc, scope, span, found)?;
            Ok(Some(meaning))
        }
        None => Ok(None),
    }
}

/// What the name of a member of a global stands for.
pub(crate) fn member_of_global(
    alloc: Global,
    scope: &Scope<'_>,
    global: usize,
    name: &Name,
    span: Span,
) -> Result<Lookup, Memory>
    ensures { IfOk result (λ lookup. lookup ≡ member_of_global scope.now global name.now span) }
{
    match scope.names().global_member(alloc, global, name)? {
        Some(found) => {
            let meaning = use_of(alloc, scope, span, found)?;
            Ok(Some(meaning))
        }
        None => Ok(None),
    }
}
