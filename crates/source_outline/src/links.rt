ghost use Rattle.std.specs.Prelude.{◌≡◌, [], ◌++◌, IfOk, map};
ghost use Rattle.std.specs.Option.{option_copied, option_map};
ghost use Rattle.syntax_tree.specs.declared.items.Item.{out-Item};
ghost use Rattle.source_outline.specs.Members.{body_links, element_links, form_link, in_front, link_by, link_without, value_link};

use slint_base::Memory;
use source_elements::Written;
use sqlite_items::Items;
use std::alloc::Global;
use syntax_tree::{CallbackForm, Item, Path, PropValue, TypeName};

/// The link of a declared property's value.
fn value_link(value: &PropValue) -> Option<&Path>
    ensures { option_copied result ≡ value_link value.now }
{
    match value {
        PropValue::Link(path) => Some(path),
        _ => None,
    }
}

/// The link of a property that leaves its type out.
fn link_without<'a>(ty: &Option<TypeName>, value: &'a PropValue) -> Option<&'a Path>
    ensures { option_copied result ≡ link_without ty.now value.now }
{
    match ty {
        Some(_) => None,
        None => value_link(value),
    }
}

/// The link by which a callback is declared.
fn form_link(form: &CallbackForm) -> Option<&Path>
    ensures { option_copied result ≡ form_link form.now }
{
    match form {
        CallbackForm::Link(path) => Some(path),
        CallbackForm::Signature(_, _) => None,
    }
}

/// Of a declared member the link for which its kind is left out, if it is.
fn link_by(item: &Item) -> Option<Option<&Path>>
    ensures { option_map option_copied result ≡ link_by (out-Item item.now) }
{
    match item {
        Item::Property(property) => Some(link_without(&property.ty, &property.value)),
        Item::Callback(callback) => Some(form_link(&callback.form)),
        Item::Function(_) => Some(None),
        _ => None,
    }
}

/// Adds a link, if there is a member that it is of.
fn push_link<'a>(
    link: Option<Option<&'a Path>>,
    out: &mut Items<Option<&'a Path>>,
) -> Result<(), Memory>
    ensures { IfOk result (λ _. map option_copied out.new ≡ map option_copied out.old ++ in_front (option_map option_copied link.entry) []) }
{
    match link {
        Some(link) => {
            out.push(link)?;
            Ok(())
        }
        None => Ok(()),
    }
}

/// Adds the links of the members that are declared in a body.
pub(crate) fn push_links<'a>(
    items: &'a [Item],
    out: &mut Items<Option<&'a Path>>,
) -> Result<(), Memory>
    ensures { IfOk result (λ _. map option_copied out.new ≡ map option_copied out.old ++ body_links items.now) }
{
    for item in items {
        push_link(link_by(item), out)?;
    }
    Ok(())
}

/// The links of a component's members.
pub(crate) fn element_links<'a>(
    alloc: Global,
    written: &[Written<'a>],
) -> Result<Items<Option<&'a Path>>, Memory>
    ensures { IfOk result (λ made. map option_copied made ≡ element_links written.now) }
{
    let mut made = Items::new(alloc);
    for one in written {
        push_links(one.body(), &mut made)?;
    }
    Ok(made)
}
