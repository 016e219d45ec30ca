ghost use Rattle.std.specs.Prelude.{◌≡◌, ◌++◌, OnOk, IfOk};
ghost use Rattle.std.specs.List.{flat_map};
ghost use Rattle.loop_check.specs.Bodies.{bodies_from, bodies_in, bodies_of_change, bodies_of_element, bodies_of_handler, bodies_of_item, bodies_of_repeat, bodies_of_rows, bodies_of_run, bodies_of_state, bodies_of_when, body_of_expr, body_of_function, body_of_value, component_bodies, global_bodies};

use crate::acts::declared_by;
use crate::block_acts::{block_acts, expr_acts, value_acts};
use crate::{Act, Home, Routine};
use slint_base::Memory;
use sqlite_items::Items;
use std::alloc::Global;
use typed_tree::{
    HandlerOf, RowSource, TypedBlock, TypedChange, TypedComponent, TypedElement, TypedExpr,
    TypedGlobal, TypedHandler, TypedItem, TypedRepeat, TypedState, TypedTree, TypedValue,
};

/// What something written is to be: the value of a binding, a state's change, a condition or a model, or what a callback or
/// function runs.
#[derive(Clone, Copy)]
pub enum Place {
    Value,
    Run(Routine),
}

/// Something written, by its acts.
#[derive(Drop)]
pub struct Body {
    pub place: Place,
    pub acts: Items<Act>,
}

/// Everything that is written in a source, but for what runs for `init` and `changed` and handlers of what is built in.
pub(crate) fn bodies_in(alloc: Global, tree: &TypedTree) -> Result<Items<Body>, Memory>
    ensures { IfOk result (λ bodies. bodies ≡ bodies_in tree.now) }
{
    let mut bodies = Items::new(alloc);
    add_components(alloc, &mut bodies, tree.comps.as_slice())?;
    add_globals(alloc, &mut bodies, tree.globals.as_slice())?;
    Ok(bodies)
}

/// Adds what is written in components.
fn add_components(
    alloc: Global,
    bodies: &mut Items<Body>,
    comps: &[TypedComponent],
) -> Result<(), Memory>
    ensures { OnOk result (bodies.new ≡ bodies.old ++ bodies_from component_bodies 0 comps.now) }
{
    for (number, comp) in comps.iter().enumerate() {
        add_elements(
            alloc,
            bodies,
            Home::Component(number),
            comp.elements.as_slice(),
        )?;
    }
    Ok(())
}

/// Adds what is written in globals.
fn add_globals(
    alloc: Global,
    bodies: &mut Items<Body>,
    globals: &[TypedGlobal],
) -> Result<(), Memory>
    ensures { OnOk result (bodies.new ≡ bodies.old ++ bodies_from global_bodies 0 globals.now) }
{
    for (number, global) in globals.iter().enumerate() {
        add_items(alloc, bodies, Home::Global(number), global.items.as_slice())?;
    }
    Ok(())
}

/// Adds what is written at elements.
fn add_elements(
    alloc: Global,
    bodies: &mut Items<Body>,
    home: Home,
    elements: &[TypedElement],
) -> Result<(), Memory>
    ensures { OnOk result (bodies.new ≡ bodies.old ++ flat_map (bodies_of_element home) elements.now) }
{
    for element in elements {
        add_repeat(alloc, bodies, &element.repeat)?;
        add_items(alloc, bodies, home, element.items.as_slice())?;
    }
    Ok(())
}

/// Adds what is written in items.
fn add_items(
    alloc: Global,
    bodies: &mut Items<Body>,
    home: Home,
    items: &[TypedItem],
) -> Result<(), Memory>
    ensures { OnOk result (bodies.new ≡ bodies.old ++ flat_map (bodies_of_item home) items.now) }
{
    for item in items {
        add_item(alloc, bodies, home, item)?;
    }
    Ok(())
}

/// Adds what is written in an item.
fn add_item(
    alloc: Global,
    bodies: &mut Items<Body>,
    home: Home,
    item: &TypedItem,
) -> Result<(), Memory>
    ensures { OnOk result (bodies.new ≡ bodies.old ++ bodies_of_item home item.now) }
{
    match item {
        TypedItem::Binding(binding) => add_value(alloc, bodies, &binding.value),
        TypedItem::Link(_) => Ok(()),
        TypedItem::Function(function) => {
            let number = function.number;
            add_function(alloc, bodies, Routine { home, number }, &function.body)
        }
        TypedItem::Handler(handler) => add_handler(alloc, bodies, handler),
        TypedItem::Changed(_) => Ok(()),
        TypedItem::States(states) => add_states(alloc, bodies, states.states.as_slice()),
    }
}

/// Adds a value.
fn add_value(alloc: Global, bodies: &mut Items<Body>, value: &TypedValue) -> Result<(), Memory>
    ensures { OnOk result (bodies.new ≡ bodies.old ++ body_of_value value.now) }
{
    let acts = value_acts(alloc, value)?;
    bodies.push(Body {
        place: Place::Value,
        acts,
    })?;
    Ok(())
}

/// Adds a condition or a model.
fn add_expr(alloc: Global, bodies: &mut Items<Body>, expr: &TypedExpr) -> Result<(), Memory>
    ensures { OnOk result (bodies.new ≡ bodies.old ++ body_of_expr expr.now) }
{
    let acts = expr_acts(alloc, expr)?;
    bodies.push(Body {
        place: Place::Value,
        acts,
    })?;
    Ok(())
}

/// Adds the body of a function.
fn add_function(
    alloc: Global,
    bodies: &mut Items<Body>,
    function: Routine,
    block: &TypedBlock,
) -> Result<(), Memory>
    ensures { OnOk result (bodies.new ≡ bodies.old ++ body_of_function function block.now) }
{
    let acts = block_acts(alloc, block)?;
    bodies.push(Body {
        place: Place::Run(function),
        acts,
    })?;
    Ok(())
}

/// Adds what a handler runs.
fn add_handler(
    alloc: Global,
    bodies: &mut Items<Body>,
    handler: &TypedHandler,
) -> Result<(), Memory>
    ensures { OnOk result (bodies.new ≡ bodies.old ++ bodies_of_handler handler.now) }
{
    match handler.event {
        HandlerOf::Init => Ok(()),
        HandlerOf::Callback(member) => add_run(alloc, bodies, declared_by(member), &handler.run),
    }
}

/// Adds what a callback runs, if it is declared.
fn add_run(
    alloc: Global,
    bodies: &mut Items<Body>,
    callback: Option<Routine>,
    run: &TypedValue,
) -> Result<(), Memory>
    ensures { OnOk result (bodies.new ≡ bodies.old ++ bodies_of_run callback run.now) }
{
    let Some(callback) = callback else {
        return Ok(());
    };
    let acts = value_acts(alloc, run)?;
    bodies.push(Body {
        place: Place::Run(callback),
        acts,
    })?;
    Ok(())
}

/// Adds the conditions and changes of states.
fn add_states(alloc: Global, bodies: &mut Items<Body>, states: &[TypedState]) -> Result<(), Memory>
    ensures { OnOk result (bodies.new ≡ bodies.old ++ flat_map bodies_of_state states.now) }
{
    for state in states {
        add_when(alloc, bodies, &state.when)?;
        add_changes(alloc, bodies, state.changes.as_slice())?;
    }
    Ok(())
}

/// Adds a state's condition, if it has one.
fn add_when(alloc: Global, bodies: &mut Items<Body>, when: &Option<TypedExpr>) -> Result<(), Memory>
    ensures { OnOk result (bodies.new ≡ bodies.old ++ bodies_of_when when.now) }
{
    match when {
        None => Ok(()),
        Some(condition) => add_expr(alloc, bodies, condition),
    }
}

/// Adds what a state changes.
fn add_changes(
    alloc: Global,
    bodies: &mut Items<Body>,
    changes: &[TypedChange],
) -> Result<(), Memory>
    ensures { OnOk result (bodies.new ≡ bodies.old ++ flat_map bodies_of_change changes.now) }
{
    for change in changes {
        add_value(alloc, bodies, &change.value)?;
    }
    Ok(())
}

/// Adds the condition or the model of an element, if it is repeated.
fn add_repeat(alloc: Global, bodies: &mut Items<Body>, repeat: &TypedRepeat) -> Result<(), Memory>
    ensures { OnOk result (bodies.new ≡ bodies.old ++ bodies_of_repeat repeat.now) }
{
    match repeat {
        TypedRepeat::Once => Ok(()),
        TypedRepeat::If(condition, _) => add_expr(alloc, bodies, condition),
        TypedRepeat::For(repeated) => add_rows(alloc, bodies, &repeated.rows),
    }
}

/// Adds a model; a plain property does nothing.
fn add_rows(alloc: Global, bodies: &mut Items<Body>, rows: &RowSource) -> Result<(), Memory>
    ensures { OnOk result (bodies.new ≡ bodies.old ++ bodies_of_rows rows.now) }
{
    match rows {
        RowSource::Property(_) => Ok(()),
        RowSource::Array(model) => add_expr(alloc, bodies, model),
        RowSource::Count(count) => add_expr(alloc, bodies, count),
    }
}
