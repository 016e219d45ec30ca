ghost use Rattle.std.specs.Prelude.{◌≡◌, ◌++◌, OnOk};
ghost use Rattle.std.specs.List.{flat_map};
ghost use Rattle.expr_reads.specs.Items.{named_change, named_item, named_repeat, named_rows, named_state, named_when};

use crate::Named;
use crate::block_names::{add_optional, named_in_block, named_in_value};
use crate::expr_names::named_in_expr;
use crate::names::add;
use slint_base::Memory;
use sqlite_items::Items;
use typed_tree::{RowSource, TypedChange, TypedItem, TypedRepeat, TypedState};

/// Adds what a state's condition names.
///
/// # Errors
///
/// Memory is short; then what was added is not told.
pub fn named_in_when(state: &TypedState, found: &mut Items<Named>) -> Result<(), Memory>
    ensures { OnOk result (found.new ≡ found.old ++ named_when state.now) }
{
    add_optional(&state.when, found)
}

/// Adds what the conditions of a list of states name.
///
/// # Errors
///
/// Memory is short; then what was added is not told.
pub fn named_in_conditions(states: &[TypedState], found: &mut Items<Named>) -> Result<(), Memory>
    ensures { OnOk result (found.new ≡ found.old ++ flat_map named_when states.now) }
{
    for state in states {
        named_in_when(state, found)?;
    }
    Ok(())
}

/// Adds what the value names that a property has in a state.
///
/// # Errors
///
/// Memory is short; then what was added is not told.
pub fn named_in_change(change: &TypedChange, found: &mut Items<Named>) -> Result<(), Memory>
    ensures { OnOk result (found.new ≡ found.old ++ named_change change.now) }
{
    named_in_value(&change.value, found)
}

/// Adds what values that properties have in a state name.
fn add_changes(changes: &[TypedChange], found: &mut Items<Named>) -> Result<(), Memory>
    ensures { OnOk result (found.new ≡ found.old ++ flat_map named_change changes.now) }
{
    for change in changes {
        named_in_change(change, found)?;
    }
    Ok(())
}

/// Adds what a state names: its condition, and the values behind it.
fn add_state(state: &TypedState, found: &mut Items<Named>) -> Result<(), Memory>
    ensures { OnOk result (found.new ≡ found.old ++ named_state state.now) }
{
    named_in_when(state, found)?;
    add_changes(state.changes.as_slice(), found)
}

/// Adds what states name.
fn add_states(states: &[TypedState], found: &mut Items<Named>) -> Result<(), Memory>
    ensures { OnOk result (found.new ≡ found.old ++ flat_map named_state states.now) }
{
    for state in states {
        add_state(state, found)?;
    }
    Ok(())
}

/// Adds what rows are made of: the property that is written as a plain path, or what the array or the number names.
fn add_rows(rows: &RowSource, found: &mut Items<Named>) -> Result<(), Memory>
    ensures { OnOk result (found.new ≡ found.old ++ named_rows rows.now) }
{
    match rows {
        RowSource::Property(member) => add(found, Named::Property(*member)),
        RowSource::Array(expr) => named_in_expr(expr, found),
        RowSource::Count(expr) => named_in_expr(expr, found),
    }
}

/// Adds what an element's condition or model names; an element that is there once names nothing by that.
///
/// # Errors
///
/// Memory is short; then what was added is not told.
pub fn named_in_repeat(repeat: &TypedRepeat, found: &mut Items<Named>) -> Result<(), Memory>
    ensures { OnOk result (found.new ≡ found.old ++ named_repeat repeat.now) }
{
    match repeat {
        TypedRepeat::Once => Ok(()),
        TypedRepeat::If(condition, _) => named_in_expr(condition, found),
        TypedRepeat::For(model) => add_rows(&model.rows, found),
    }
}

/// Adds what an item of a body names: in its value, in the body that it runs, or in the conditions and changes of its states. A link names
/// nothing: it joins two members, and reads neither.
///
/// # Errors
///
/// Memory is short; then what was added is not told.
pub fn named_in_item(item: &TypedItem, found: &mut Items<Named>) -> Result<(), Memory>
    ensures { OnOk result (found.new ≡ found.old ++ named_item item.now) }
{
    match item {
        TypedItem::Binding(binding) => named_in_value(&binding.value, found),
        TypedItem::Link(_) => Ok(()),
        TypedItem::Function(function) => named_in_block(&function.body, found),
        TypedItem::Handler(handler) => named_in_value(&handler.run, found),
        TypedItem::Changed(changed) => named_in_value(&changed.run, found),
        TypedItem::States(states) => add_states(states.states.as_slice(), found),
    }
}
