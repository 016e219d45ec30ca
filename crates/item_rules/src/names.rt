ghost use Rattle.std.specs.Prelude.{◌≡◌, IfOk};
ghost use Rattle.std.specs.List.{filter_map};
ghost use Rattle.std.specs.Option.{option_copied};
ghost use Rattle.fault_order.specs.Order.{first_of};
ghost use Rattle.item_rules.specs.Named.{bound_name, declared_name, handled_name, heard_faults, if_bound, made_faults, name_by, names_faults, watched_name};
ghost use Rattle.item_rules.specs.Twice.{twice_in};

use crate::twice::note_if_any;
use fault_order::earlier;
use name_index::NameIndex;
use slint_base::{Fault, Memory};
use std::alloc::Global;
use syntax_tree::{Ident, Item, PropValue};

/// Which names of a body have to differ from each other.
#[derive(Clone, Copy)]
pub enum NameKind {
    /// Those of the members that it declares.
    Declared,
    /// Those that it binds or links; a property with a value binds its own.
    Bound,
    /// Those that it handles.
    Handled,
    /// Those that it watches.
    Watched,
}

/// The name of the member that an item declares.
fn declared_name(item: &Item) -> Option<&Ident>
    ensures { option_copied result ≡ declared_name item.now }
{
    match item {
        Item::Property(property) => Some(&property.name),
        Item::Callback(callback) => Some(&callback.name),
        Item::Function(function) => Some(&function.name),
        _ => None,
    }
}

/// The name that a declared property binds, if it has a value.
fn if_bound<'a>(name: &'a Ident, value: &PropValue) -> Option<&'a Ident>
    ensures { option_copied result ≡ if_bound name.now value.now }
{
    match value {
        PropValue::Value(_) => Some(name),
        PropValue::Link(_) => None,
        PropValue::None => None,
    }
}

/// The name that an item binds or links.
fn bound_name(item: &Item) -> Option<&Ident>
    ensures { option_copied result ≡ bound_name item.now }
{
    match item {
        Item::Property(property) => if_bound(&property.name, &property.value),
        Item::Binding(binding) => Some(&binding.name),
        Item::Link(link) => Some(&link.left),
        _ => None,
    }
}

/// The name of what an item handles.
fn handled_name(item: &Item) -> Option<&Ident>
    ensures { option_copied result ≡ handled_name item.now }
{
    match item {
        Item::Handler(handler) => Some(&handler.name),
        _ => None,
    }
}

/// The name of what an item watches.
fn watched_name(item: &Item) -> Option<&Ident>
    ensures { option_copied result ≡ watched_name item.now }
{
    match item {
        Item::Changed(changed) => Some(&changed.name),
        _ => None,
    }
}

/// The name of a kind that an item has, if it has one.
fn name_by(kind: NameKind, item: &Item) -> Option<&Ident>
    ensures { option_copied result ≡ name_by kind item.now }
{
    match kind {
        NameKind::Declared => declared_name(item),
        NameKind::Bound => bound_name(item),
        NameKind::Handled => handled_name(item),
        NameKind::Watched => watched_name(item),
    }
}

/// The first of the names of a kind that stand in a body a second time.
fn twice_by(alloc: Global, kind: NameKind, items: &[Item]) -> Result<Option<Fault>, Memory>
    ensures { IfOk result (λ fault. fault ≡ first_of (twice_in (filter_map (name_by kind) items.now))) }
{
    let mut seen = NameIndex::new(alloc);
    let mut fault = None;
    for item in items {
        fault = note_if_any(&mut seen, fault, name_by(kind, item))?;
    }
    Ok(fault)
}

/// The first of the names that are declared, bound or linked in a body a second time.
fn twice_made(alloc: Global, items: &[Item]) -> Result<Option<Fault>, Memory>
    ensures { IfOk result (λ fault. fault ≡ first_of (made_faults items.now)) }
{
    let declared = twice_by(alloc, NameKind::Declared, items)?;
    let bound = twice_by(alloc, NameKind::Bound, items)?;
    Ok(earlier(declared, bound))
}

/// The first of the names that are handled or watched in a body a second time.
fn twice_heard(alloc: Global, items: &[Item]) -> Result<Option<Fault>, Memory>
    ensures { IfOk result (λ fault. fault ≡ first_of (heard_faults items.now)) }
{
    let handled = twice_by(alloc, NameKind::Handled, items)?;
    let watched = twice_by(alloc, NameKind::Watched, items)?;
    Ok(earlier(handled, watched))
}

/// The first of the names that stand in a body a second time where they have to differ.
pub(crate) fn names_fault(alloc: Global, items: &[Item]) -> Result<Option<Fault>, Memory>
    ensures { IfOk result (λ fault. fault ≡ first_of (names_faults items.now)) }
{
    let made = twice_made(alloc, items)?;
    let heard = twice_heard(alloc, items)?;
    Ok(earlier(made, heard))
}
