ghost use Rattle.std.specs.Prelude.{◌≡◌, ◌++◌, IfOk};
ghost use Rattle.std.specs.List.{filter_map, flat_map};
ghost use Rattle.std.specs.Option.{option_copied};
ghost use Rattle.fault_order.specs.Order.{first_of};
ghost use Rattle.item_rules.specs.Items.{callback_faults, change_faults, form_faults, function_faults, handled_faults, one_item_faults, parameter_faults, parameter_name, parameters_faults, property_faults, state_faults, state_name, states_faults, value_faults};
ghost use Rattle.item_rules.specs.Twice.{twice_in};
ghost use Rattle.item_rules.specs.Types.{if_written, type_faults};

use crate::body::Body;
use crate::members::{clash, handler_fault, link_fault, name_fault, path_fault};
use crate::twice::{note_if_any, twice_in};
use crate::types::{fields_fault, type_fault, type_fault_if_any};
use crate::uses::Use;
use fault_order::earlier;
use name_index::NameIndex;
use slint_base::{Fault, Memory};
use sqlite_items::Items;
use std::alloc::Global;
use syntax_tree::{
    Callback, CallbackForm, Change, Function, Handler, Ident, Item, Mark, Parameter, PropValue,
    Property, State, TypeName,
};

/// The fault of what a property is linked to.
fn value_fault(
    alloc: Global,
    body: &Body<'_>,
    mark: Mark,
    value: &PropValue,
) -> Result<Option<Fault>, Memory>
    ensures { IfOk result (λ fault. fault ≡ first_of (value_faults body.now mark value.now)) }
{
    match value {
        PropValue::Link(path) => path_fault(alloc, body, Use::LinkRight(mark), path),
        PropValue::Value(_) => Ok(None),
        PropValue::None => Ok(None),
    }
}

/// The first fault of a declared property.
fn property_fault(
    alloc: Global,
    body: &Body<'_>,
    property: &Property,
) -> Result<Option<Fault>, Memory>
    ensures { IfOk result (λ fault. fault ≡ first_of (property_faults body.now property.now)) }
{
    let name = clash(body, &property.name);
    let ty = type_fault_if_any(alloc, property.ty.as_ref())?;
    let value = value_fault(alloc, body, property.mark, &property.value)?;
    Ok(earlier(name, earlier(ty, value)))
}

/// The first of the parameters of a callback that have the name of another one before them.
fn twice_parameters(alloc: Global, parameters: &[Parameter]) -> Result<Option<Fault>, Memory>
    ensures { IfOk result (λ fault. fault ≡ first_of (twice_in (filter_map parameter_name parameters.now))) }
{
    let mut seen = NameIndex::new(alloc);
    let mut fault = None;
    for parameter in parameters {
        fault = note_if_any(&mut seen, fault, parameter.name.as_ref())?;
    }
    Ok(fault)
}

/// The first fault in the types of a callback's parameters.
fn parameter_types(alloc: Global, parameters: &[Parameter]) -> Result<Option<Fault>, Memory>
    ensures { IfOk result (λ fault. fault ≡ first_of (flat_map parameter_faults parameters.now)) }
{
    let mut first = None;
    for parameter in parameters {
        first = earlier(first, type_fault(alloc, &parameter.ty)?);
    }
    Ok(first)
}

/// The first fault of a callback's parameters.
fn parameters_fault(alloc: Global, parameters: &[Parameter]) -> Result<Option<Fault>, Memory>
    ensures { IfOk result (λ fault. fault ≡ first_of (parameters_faults parameters.now)) }
{
    let twice = twice_parameters(alloc, parameters)?;
    let types = parameter_types(alloc, parameters)?;
    Ok(earlier(twice, types))
}

/// The first fault of a callback's parameters, where they are written.
fn parameters_if_any(
    alloc: Global,
    parameters: Option<&Items<Parameter>>,
) -> Result<Option<Fault>, Memory>
    ensures { IfOk result (λ fault. fault ≡ first_of (if_written parameters_faults (option_copied parameters.entry))) }
{
    match parameters {
        Some(parameters) => parameters_fault(alloc, parameters.as_slice()),
        None => Ok(None),
    }
}

/// The first fault of what a callback is linked to, or takes and gives.
fn form_fault(alloc: Global, body: &Body<'_>, form: &CallbackForm) -> Result<Option<Fault>, Memory>
    ensures { IfOk result (λ fault. fault ≡ first_of (form_faults body.now form.now)) }
{
    match form {
        CallbackForm::Link(path) => path_fault(alloc, body, Use::LinkRight(Mark::None), path),
        CallbackForm::Signature(parameters, ty) => {
            signature_fault(alloc, parameters.as_ref(), ty.as_ref())
        }
    }
}

/// The first fault of what a callback takes and gives.
fn signature_fault(
    alloc: Global,
    parameters: Option<&Items<Parameter>>,
    ty: Option<&TypeName>,
) -> Result<Option<Fault>, Memory>
    ensures { IfOk result (λ fault. fault ≡ first_of (if_written parameters_faults (option_copied parameters.entry) ++ if_written type_faults (option_copied ty.entry))) }
{
    let taken = parameters_if_any(alloc, parameters)?;
    let given = type_fault_if_any(alloc, ty)?;
    Ok(earlier(taken, given))
}

/// The first fault of a declared callback.
fn callback_fault(
    alloc: Global,
    body: &Body<'_>,
    callback: &Callback,
) -> Result<Option<Fault>, Memory>
    ensures { IfOk result (λ fault. fault ≡ first_of (callback_faults body.now callback.now)) }
{
    let name = clash(body, &callback.name);
    let form = form_fault(alloc, body, &callback.form)?;
    Ok(earlier(name, form))
}

/// The first fault of a declared function.
fn function_fault(
    alloc: Global,
    body: &Body<'_>,
    function: &Function,
) -> Result<Option<Fault>, Memory>
    ensures { IfOk result (λ fault. fault ≡ first_of (function_faults body.now function.now)) }
{
    let name = clash(body, &function.name);
    let taken = fields_fault(alloc, function.parameters.as_slice())?;
    let given = type_fault_if_any(alloc, function.result.as_ref())?;
    Ok(earlier(name, earlier(taken, given)))
}

/// The first fault of a handler's parameters, where they are written.
fn names_fault(alloc: Global, names: Option<&Items<Ident>>) -> Result<Option<Fault>, Memory>
    ensures { IfOk result (λ fault. fault ≡ first_of (if_written twice_in (option_copied names.entry))) }
{
    match names {
        Some(names) => twice_in(alloc, names.as_slice()),
        None => Ok(None),
    }
}

/// The first fault of a handler's name and parameters.
fn handled_fault(alloc: Global, body: &Body<'_>, handler: &Handler) -> Result<Option<Fault>, Memory>
    ensures { IfOk result (λ fault. fault ≡ first_of (handled_faults body.now handler.now)) }
{
    let name = handler_fault(alloc, body, &handler.name)?;
    let parameters = names_fault(alloc, handler.parameters.as_ref())?;
    Ok(earlier(name, parameters))
}

/// The first fault of what a state changes.
fn state_fault(alloc: Global, body: &Body<'_>, changes: &[Change]) -> Result<Option<Fault>, Memory>
    ensures { IfOk result (λ fault. fault ≡ first_of (flat_map (change_faults body.now) changes.now)) }
{
    let mut first = None;
    for change in changes {
        first = earlier(first, path_fault(alloc, body, Use::Bind, &change.path)?);
    }
    Ok(first)
}

/// The first of the states that have the name of another one before them.
fn twice_states(alloc: Global, states: &[State]) -> Result<Option<Fault>, Memory>
    ensures { IfOk result (λ fault. fault ≡ first_of (twice_in (filter_map state_name states.now))) }
{
    let mut seen = NameIndex::new(alloc);
    let mut fault = None;
    for state in states {
        fault = note_if_any(&mut seen, fault, Some(&state.name))?;
    }
    Ok(fault)
}

/// The first fault of what states change.
fn changes_fault(alloc: Global, body: &Body<'_>, states: &[State]) -> Result<Option<Fault>, Memory>
    ensures { IfOk result (λ fault. fault ≡ first_of (flat_map (state_faults body.now) states.now)) }
{
    let mut first = None;
    for state in states {
        first = earlier(first, state_fault(alloc, body, state.changes.as_slice())?);
    }
    Ok(first)
}

/// The first fault of a list of states.
fn states_fault(alloc: Global, body: &Body<'_>, states: &[State]) -> Result<Option<Fault>, Memory>
    ensures { IfOk result (λ fault. fault ≡ first_of (states_faults body.now states.now)) }
{
    let twice = twice_states(alloc, states)?;
    let changes = changes_fault(alloc, body, states)?;
    Ok(earlier(twice, changes))
}

/// The first fault of an item alone.
pub(crate) fn one_item_fault(
    alloc: Global,
    body: &Body<'_>,
    item: &Item,
) -> Result<Option<Fault>, Memory>
    ensures { IfOk result (λ fault. fault ≡ first_of (one_item_faults body.now item.now)) }
{
    match item {
        Item::Property(property) => property_fault(alloc, body, property),
        Item::Callback(callback) => callback_fault(alloc, body, callback),
        Item::Function(function) => function_fault(alloc, body, function),
        Item::Binding(binding) => name_fault(alloc, body, Use::Bind, &binding.name),
        Item::Link(link) => link_fault(alloc, body, link),
        Item::Handler(handler) => handled_fault(alloc, body, handler),
        Item::Changed(changed) => name_fault(alloc, body, Use::Watch, &changed.name),
        Item::States(list) => states_fault(alloc, body, list.states.as_slice()),
        Item::Element(_) => Ok(None),
        Item::If(_) => Ok(None),
        Item::For(_) => Ok(None),
        Item::Children(_) => Ok(None),
    }
}
