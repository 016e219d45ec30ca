ghost use Rattle.std.specs.Prelude.{◌≡◌, IfOk};
ghost use Rattle.expr_rules.specs.Denotations.{on_ok};
ghost use Rattle.item_types.specs.Judging.{Tells};
ghost use Rattle.item_types.specs.Items.{handler_judging, handler_run};
ghost use Rattle.item_types.specs.Members.{counted, handled, names_or_none, no_signature};

use crate::members::callback_found;
use crate::parameters::{handler_locals, names_or_none, with_parameters};
use crate::values::judge_value;
use name_lookup::own_member;
use slint_base::{Fault, Memory, Rule, Span};
use sqlite_items::Items;
use std::alloc::Global;
use syntax_tree::{Handler, Ident};
use typed_tree::{HandlerOf, Scope, Signature, TypedHandler, TypedItem};
use value_types::Ty;

/// What takes nothing and gives nothing.
fn no_signature(alloc: Global) -> Signature
    ensures { result ≡ no_signature }
{
    Signature {
        parameters: Items::new(alloc),
        result: Ty::Void,
    }
}

/// What a handler of a name is of: `init`, or a callback.
fn handled(
    alloc: Global,
    scope: &Scope<'_>,
    name: &Ident,
) -> Result<Result<(HandlerOf, Signature), Fault>, Memory>
    ensures { IfOk result (λ found. found ≡ handled scope.now name.now) }
{
    let word = name.name.as_str();
    if word == "init" {
        return Ok(Ok((HandlerOf::Init, no_signature(alloc))));
    }
    let found = own_member(alloc, scope, &name.name)?;
    Ok(callback_found(name.span, found))
}

/// What a handler is of, unless it names more parameters than that has. `span` is the handler's stretch.
fn counted(
    span: Span,
    names: &[Ident],
    found: (HandlerOf, Signature),
) -> Result<(HandlerOf, Signature), Fault>
    ensures { result ≡ counted span names.now found }
{
    if names.len() <= found.1.parameters.len() {
        return Ok(found);
    }
    Err(Fault {
        rule: Rule::ArgCount,
        span,
    })
}

/// What a handler is of, where it fits that.
fn handler_of(
    alloc: Global,
    scope: &Scope<'_>,
    handler: &Handler,
) -> Result<Result<(HandlerOf, Signature), Fault>, Memory>
    ensures { IfOk result (λ found. found ≡ on_ok (handled scope.now handler.now.name) (counted handler.now.span (names_or_none handler.now.parameters))) }
{
    let found = handled(alloc, scope, &handler.name)?;
    match found {
        Ok(of) => {
            let names = names_or_none(&handler.parameters);
            Ok(counted(handler.span, names, of))
        }
        Err(fault) => Ok(Err(fault)),
    }
}

/// What a handler runs.
fn handler_run(
    alloc: Global,
    scope: &Scope<'_>,
    handler: &Handler,
    found: (HandlerOf, Signature),
) -> Result<Result<TypedItem, Fault>, Memory>
    ensures { IfOk result (λ verdict. Tells (handler_run scope.now handler.now found) verdict) }
{
    let names = names_or_none(&handler.parameters);
    let types = found.1.parameters.as_slice();
    let locals = handler_locals(alloc, names, types)?;
    let given = locals.as_slice();
    let inside = with_parameters(scope, given);
    let verdict = judge_value(alloc, &inside, &found.1.result, &handler.run)?;
    match verdict {
        Ok(run) => Ok(Ok(TypedItem::Handler(TypedHandler {
            event: found.0,
            run,
            span: handler.span,
        }))),
        Err(fault) => Ok(Err(fault)),
    }
}

/// A handler.
pub(crate) fn judge_handler(
    alloc: Global,
    scope: &Scope<'_>,
    handler: &Handler,
) -> Result<Result<TypedItem, Fault>, Memory>
    ensures { IfOk result (λ verdict. Tells (handler_judging scope.now handler.now) verdict) }
{
    let found = handler_of(alloc, scope, handler)?;
    match found {
        Ok(of) => handler_run(alloc, scope, handler, of),
        Err(fault) => Ok(Err(fault)),
    }
}
