ghost use Rattle.std.specs.Prelude.{◌≡◌, ◌++◌, IfOk, OnOk};
ghost use Rattle.std.specs.List.{flat_map};
ghost use Rattle.alias_merge.specs.Links.{link_between, link_of, links, links_at};
ghost use Rattle.alias_merge.specs.Numbers.{numbers_of};

use crate::{Holding, MemberNumbers, Spanned};
use expanded_tree::{Expanded, Holder};
use slint_base::{Memory, Span};
use sqlite_items::Items;
use std::alloc::Global;
use typed_tree::TypedItem;

/// The links of an expanded tree in instance order, from the numbers of their left sides to those of their right sides, each at the stretch
/// of its right side.
pub fn member_links(
    alloc: Global,
    expanded: &Expanded,
    numbers: &MemberNumbers,
) -> Result<Items<Spanned>, Memory>
    requires { numbers.now ≡ numbers_of expanded.now }
    ensures { IfOk result (λ found. found ≡ links expanded.now) }
{
    let holders = expanded.holders(alloc)?;
    let mut found = Items::new(alloc);
    add_holders(expanded, numbers, holders.as_slice(), &mut found)?;
    Ok(found)
}

/// Adds the links of holders.
fn add_holders(
    expanded: &Expanded,
    numbers: &MemberNumbers,
    holders: &[Holder],
    found: &mut Items<Spanned>,
) -> Result<(), Memory>
    ensures { OnOk result (found.new ≡ found.old ++ flat_map (links_at expanded.now numbers.now) holders.now) }
{
    for holder in holders {
        add_links(expanded, numbers, *holder, found)?;
    }
    Ok(())
}

/// Adds the links of a holder.
fn add_links(
    expanded: &Expanded,
    numbers: &MemberNumbers,
    holder: Holder,
    found: &mut Items<Spanned>,
) -> Result<(), Memory>
    ensures { OnOk result (found.new ≡ found.old ++ links_at expanded.now numbers.now holder) }
{
    let body = Holding::of(expanded, holder).body;
    add_items(expanded, numbers, body, expanded.items(holder), found)
}

/// Adds those of items that are links.
fn add_items(
    expanded: &Expanded,
    numbers: &MemberNumbers,
    body: usize,
    items: &[TypedItem],
    found: &mut Items<Spanned>,
) -> Result<(), Memory>
    ensures { OnOk result (found.new ≡ found.old ++ flat_map (link_of expanded.now numbers.now body) items.now) }
{
    for item in items {
        add_link(expanded, numbers, body, item, found)?;
    }
    Ok(())
}

/// Adds an item, if it is a link.
fn add_link(
    expanded: &Expanded,
    numbers: &MemberNumbers,
    body: usize,
    item: &TypedItem,
    found: &mut Items<Spanned>,
) -> Result<(), Memory>
    ensures { OnOk result (found.new ≡ found.old ++ link_of expanded.now numbers.now body item.now) }
{
    match item {
        TypedItem::Link(link) => {
            let left = numbers.number(expanded.member_at(body, link.left));
            let right = numbers.number(expanded.member_at(body, link.right));
            add_between(link.span, left, right, found)
        }
        _ => Ok(()),
    }
}

/// Adds a link between two members that have numbers.
fn add_between(
    span: Span,
    left: Option<usize>,
    right: Option<usize>,
    found: &mut Items<Spanned>,
) -> Result<(), Memory>
    ensures { OnOk result (found.new ≡ found.old ++ link_between span left right) }
{
    let Some(from) = left else {
        return Ok(());
    };
    let Some(to) = right else {
        return Ok(());
    };
    found.push(Spanned { from, to, span })?;
    Ok(())
}
