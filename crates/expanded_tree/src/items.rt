ghost use Rattle.std.specs.Prelude.{◌≡◌, ◌++◌, IfOk, OnOk, slice_get};
ghost use Rattle.expanded_tree.specs.Items.{holders_in_order, items_in_body, items_of, layers_of};

use crate::{Expanded, ExpandedElement, Holder, Spot, layers};
use slint_base::Memory;
use sqlite_items::{Items, at};
use std::alloc::Global;
use typed_tree::TypedItem;

impl<'a> Expanded<'a> {
    /// What holds items, in instance order: the globals by their numbers, then the layers of each element, of which the innermost comes
    /// first.
    pub fn holders(&self, alloc: Global) -> Result<Items<Holder>, Memory>
        ensures { IfOk result (λ holders. holders ≡ holders_in_order self.now) }
    {
        let mut holders = Items::new(alloc);
        'globals: for global in 0..self.tree().globals.len() {
            holders.push(Holder::Global(global))?;
        }
        'elements: for element in self.elements() {
            self.push_layers(alloc, &mut holders, element)?;
        }
        Ok(holders)
    }

    /// Adds the layers of an element, the innermost one first.
    fn push_layers(
        &self,
        alloc: Global,
        holders: &mut Items<Holder>,
        element: &ExpandedElement,
    ) -> Result<(), Memory>
        ensures { OnOk result (holders.new ≡ holders.old ++ layers_of self.now element.now) }
    {
        let mut layers = layers(alloc, self.bodies(), self.places(), element.spot)?;
        'outwards: while let Some(spot) = layers.pop() {
            holders.push(Holder::Element(spot))?;
        }
        Ok(())
    }

    /// The items that are written in a global, or at an element of a body.
    pub fn items(&self, holder: Holder) -> &'a [TypedItem]
        ensures { result.now ≡ items_of self.now holder }
    {
        match holder {
            Holder::Global(global) => match at(self.tree().globals.as_slice(), global) {
                Some(global) => global.items.as_slice(),
                None => &[],
            },
            Holder::Element(spot) => self.items_at(spot),
        }
    }

    /// The items that are written at an element of a body.
    fn items_at(&self, spot: Spot) -> &'a [TypedItem]
        ensures { result.now ≡ items_in_body self.now.tree.comps spot.element (slice_get self.now.bodies spot.body) }
    {
        let Some(body) = at(self.bodies(), spot.body) else {
            return &[];
        };
        let Some(comp) = at(self.tree().comps.as_slice(), body.comp) else {
            return &[];
        };
        match at(comp.elements.as_slice(), spot.element) {
            Some(element) => element.items.as_slice(),
            None => &[],
        }
    }
}
