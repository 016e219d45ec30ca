ghost use Rattle.std.specs.Prelude.{◌≡◌, IfOk};
ghost use Rattle.syntax_tree.specs.declared.items.Item.{out-Item};
ghost use Rattle.item_types.specs.Judging.{Tells};
ghost use Rattle.item_types.specs.Items.{callback_judging, item_judging, property_judging, some_made};

use crate::bindings::{judge_binding, judge_changed, judge_function};
use crate::handlers::judge_handler;
use crate::links::judge_link;
use crate::states::judge_states;
use slint_base::{Fault, Memory};
use std::alloc::Global;
use syntax_tree::{Callback, CallbackForm, Item, PropValue, Property};
use typed_tree::{Scope, TypedItem};

/// What is told of an item that has a typed form.
fn some(
    made: Result<Result<TypedItem, Fault>, Memory>,
) -> Result<Result<Option<TypedItem>, Fault>, Memory>
    ensures { result ≡ some_made made }
{
    match made {
        Ok(Ok(item)) => Ok(Ok(Some(item))),
        Ok(Err(fault)) => Ok(Err(fault)),
        Err(memory) => Err(memory),
    }
}

/// What a declared property binds or links.
fn judge_property(
    alloc: Global,
    scope: &Scope<'_>,
    property: &Property,
) -> Result<Result<Option<TypedItem>, Fault>, Memory>
    ensures { IfOk result (λ verdict. Tells (property_judging scope.now property.now property.now.value) verdict) }
{
    match &property.value {
        PropValue::None => Ok(Ok(None)),
        PropValue::Value(value) => { some(judge_binding(alloc, scope, &property.name, value)) }
        PropValue::Link(path) => {
            some(judge_link(alloc, scope, &property.name, path, property.span))
        }
    }
}

/// What a declared callback links.
fn judge_callback(
    alloc: Global,
    scope: &Scope<'_>,
    callback: &Callback,
) -> Result<Result<Option<TypedItem>, Fault>, Memory>
    ensures { IfOk result (λ verdict. Tells (callback_judging scope.now callback.now callback.now.form) verdict) }
{
    match &callback.form {
        CallbackForm::Link(path) => {
            some(judge_link(alloc, scope, &callback.name, path, callback.span))
        }
        CallbackForm::Signature(_, _) => Ok(Ok(None)),
    }
}

/// The typed form of an item, if it has one, or the fault in it that is told first.
pub(crate) fn judge_item(
    alloc: Global,
    scope: &Scope<'_>,
    item: &Item,
) -> Result<Result<Option<TypedItem>, Fault>, Memory>
    ensures { IfOk result (λ verdict. Tells (item_judging scope.now (out-Item item.now)) verdict) }
{
    match item {
        Item::Property(property) => judge_property(alloc, scope, property),
        Item::Callback(callback) => judge_callback(alloc, scope, callback),
        Item::Function(function) => some(judge_function(alloc, scope, function)),
        Item::Binding(binding) => {
            some(judge_binding(alloc, scope, &binding.name, &binding.value))
        }
        Item::Link(link) => { some(judge_link(alloc, scope, &link.left, &link.right, link.span)) }
        Item::Handler(handler) => some(judge_handler(alloc, scope, handler)),
        Item::Changed(changed) => some(judge_changed(alloc, scope, changed)),
        Item::States(list) => some(judge_states(alloc, scope, list)),
        Item::Element(_) => Ok(Ok(None)),
        Item::If(_) => Ok(Ok(None)),
        Item::For(_) => Ok(Ok(None)),
        Item::Children(_) => Ok(Ok(None)),
    }
}
