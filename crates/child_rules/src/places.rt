ghost use Rattle.std.specs.Prelude.{◌≡◌, IfOk};
ghost use Rattle.typed_tree.specs.Elements.{elements_of, parent_of, type_of};
ghost use Rattle.child_rules.specs.Cells.{grid_around, grid_of, if_grid, is_cell, is_row};
ghost use Rattle.child_rules.specs.Landing.{inside, landing, lands_in};

use crate::cells::{is_among_cells, is_grid_kind, is_row_kind};
use crate::landing::{landing_by, landings};
use element_tables::ElementKind;
use slint_base::Memory;
use sqlite_items::{Items, at};
use std::alloc::Global;
use std::marker::Model;
use typed_tree::{ComponentOutline, ElementOutline, ElementType, Names};

/// An outline with the places where children land. Contracts see it as the outline.
#[derive(Drop)]
pub(crate) struct Places<'a> {
    names: &'a Names,
    kinds: Items<ElementKind>,
}

impl<'a> Model for Places<'a> {
    ghost use Rattle.std.specs.Coded.{codes};
    ghost use Rattle.typed_tree.specs.contracts.outlines.Outline as outline_rows;
    ghost use Rattle.typed_tree.specs.declared.outlines.Outline.{Outline as OutlineValue};

    ghost Value = { OutlineValue };

    ghost coded = { Prim.hlevel (codes, outline_rows.the_row.coded) };

    ghost view = { λ p. p.names.now };

    ghost use Rattle.child_rules.specs.Jumps.{AreLandings};

    ghost invariant = { λ p. AreLandings p.names.now.comps p.kinds };
}

impl<'a> Places<'a> {
    /// The places of an outline.
    pub fn new(alloc: Global, names: &'a Names) -> Result<Places<'a>, Memory>
        ensures { IfOk result (λ places. places ≡ names.now) }
    {
        let kinds = landings(alloc, names.outline().comps.as_slice())?;
        Ok(Places { names, kinds })
    }

    /// The names of the outline.
    pub fn names(&self) -> &'a Names
        ensures { result.now ≡ self.now }
    {
        self.names
    }

    /// The components.
    pub fn comps(&self) -> &[ComponentOutline]
        ensures { result.now ≡ self.now.comps }
    {
        self.names.outline().comps.as_slice()
    }

    /// The elements of a component.
    pub fn elements(&self, component: usize) -> &[ElementOutline]
        ensures { result.now ≡ elements_of self.now.comps component }
    {
        match at(self.comps(), component) {
            Some(comp) => comp.elements.as_slice(),
            None => &[],
        }
    }

    /// The type of an element.
    pub fn type_of(&self, component: usize, element: usize) -> ElementType
        ensures { result ≡ type_of self.now.comps component element }
    {
        match at(self.elements(component), element) {
            Some(element) => element.ty,
            None => ElementType::BuiltIn(ElementKind::Empty),
        }
    }

    /// The element around an element.
    pub fn parent(&self, component: usize, element: usize) -> Option<usize>
        ensures { result ≡ parent_of (elements_of self.now.comps component) element }
    {
        match at(self.elements(component), element) {
            Some(element) => element.parent,
            None => None,
        }
    }

    /// The kind of the built-in element in which what is written inside an element of a type lands.
    pub fn landing(&self, ty: ElementType) -> ElementKind
        ensures { result ≡ landing self.now.comps ty }
    {
        landing_by(self.kinds.as_slice(), ty)
    }

    /// The kind of the built-in element in which what is written inside an element lands.
    pub fn inside(&self, component: usize, element: usize) -> ElementKind
        ensures { result ≡ inside self.now.comps component element }
    {
        self.landing(self.type_of(component, element))
    }

    /// The kind of the built-in element in which an element lands; a root element lands in none.
    pub fn lands_in(&self, component: usize, element: usize) -> Option<ElementKind>
        ensures { result ≡ lands_in self.now.comps component element }
    {
        match self.parent(component, element) {
            Some(around) => Some(self.inside(component, around)),
            None => None,
        }
    }

    /// Whether an element is a `Row`, or built on one.
    pub fn is_row(&self, component: usize, element: usize) -> bool
        ensures { result ≡ is_row self.now.comps component element }
    {
        is_row_kind(self.names.kind(component, element))
    }

    /// Whether an element is a cell: it lands in a grid or in a `Row`, and is no `Row` itself.
    pub fn is_cell(&self, component: usize, element: usize) -> bool
        ensures { result ≡ is_cell self.now.comps component element }
    {
        is_among_cells(self.lands_in(component, element)) && !self.is_row(component, element)
    }

    /// An element in which children land in a grid.
    fn if_grid(&self, component: usize, element: usize) -> Option<usize>
        ensures { result ≡ if_grid self.now.comps component element }
    {
        if is_grid_kind(self.inside(component, element)) {
            Some(element)
        } else {
            None
        }
    }

    /// The element in which the children of an element land in a grid: itself, or of a `Row` the one around it.
    fn grid_around(&self, component: usize, element: usize) -> Option<usize>
        ensures { result ≡ grid_around self.now.comps component element }
    {
        if is_row_kind(self.inside(component, element)) {
            match self.parent(component, element) {
                Some(around) => self.if_grid(component, around),
                None => None,
            }
        } else {
            self.if_grid(component, element)
        }
    }

    /// The element in which an element lands in a grid, also where it lies in a `Row` of that.
    pub fn grid_of(&self, component: usize, element: usize) -> Option<usize>
        ensures { result ≡ grid_of self.now.comps component element }
    {
        match self.parent(component, element) {
            Some(around) => self.grid_around(component, around),
            None => None,
        }
    }
}
