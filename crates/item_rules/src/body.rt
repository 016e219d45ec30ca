ghost use Rattle.std.specs.Prelude.{◌≡◌, ◌∷◌, [], IfOk};
ghost use Rattle.typed_tree.specs.Scopes.{ScopeValue};
ghost use Rattle.name_lookup.specs.Leads.{body_scope, lead_of, own_member};
ghost use Rattle.item_rules.specs.Items.{is_given};
ghost use Rattle.item_rules.specs.Rows.{named_row, rows_around};

use crate::rows::is_row_name;
use name_lookup::{Lead, lead_of, own_member};
use slint_base::{Memory, Name};
use source_elements::Written;
use sqlite_items::Items;
use std::alloc::Global;
use std::marker::Model;
use syntax_tree::Path;
use typed_tree::{Found, Names, RowNames, Scope, Site};
use value_types::Ty;

/// A body: the element or the global whose it is, with the elements of its component. Contracts see it as the scope of its names.
#[derive(Drop)]
pub(crate) struct Body<'a> {
    names: &'a Names,
    here: Site,
    elements: &'a [Written<'a>],
}

impl<'a> Model for Body<'a> {
    ghost use Rattle.std.specs.Coded.{codes};
    ghost use Rattle.std.specs.Prelude.{[]};
    ghost use Rattle.value_types.specs.contracts.types.Ty as ty_rows;
    ghost use Rattle.typed_tree.specs.Scopes.{ScopeValue};
    ghost use Rattle.name_lookup.specs.Leads.{body_scope};
    ghost use Rattle.item_rules.specs.Rows.{rows_around};

    ghost Value = { ScopeValue };

    ghost coded = { Prim.hlevel (codes, ty_rows.the_row.coded) };

    ghost view = { λ b. body_scope b.names.now b.here (rows_around b.elements.now b.here) };
}

impl<'a> Body<'a> {
    /// The body of an element of a component, or of a global, which has no elements.
    pub(crate) fn new(names: &'a Names, here: Site, elements: &'a [Written<'a>]) -> Body<'a>
        ensures { result ≡ body_scope names.now here (rows_around elements.now here) }
    {
        Body {
            names,
            here,
            elements,
        }
    }

    /// The element or the global whose body it is.
    pub(crate) fn here(&self) -> Site
        ensures { result ≡ self.now.site }
    {
        self.here
    }

    /// Whether the element has a member of a name from its type.
    pub(crate) fn is_given(&self, name: &Name) -> bool
        ensures { result ≡ is_given self.now.outline self.now.site name.now }
    {
        match self.here {
            Site::Element(component, element) => {
                self.names.has_given_member(component, element, name)
            }
            Site::Global(_) => false,
        }
    }

    /// The member of the element or the global that has a name.
    pub(crate) fn member(&self, alloc: Global, name: &Name) -> Result<Option<Found>, Memory>
        ensures { IfOk result (λ found. found ≡ own_member self.now name.now) }
    {
        let scope = Scope::new(self.names, self.here, &[], &[]);
        own_member(alloc, &scope, name)
    }

    /// Where a path leads.
    pub(crate) fn lead(&self, alloc: Global, path: &Path) -> Result<Lead, Memory>
        ensures { IfOk result (λ lead. lead ≡ lead_of self.now path.now) }
    {
        // All rows around are alike: a path whose first name is one of a row is lost.
        if is_row_name(self.elements, self.here, &path.first.name) {
            let rows = row_named(alloc, &path.first.name)?;
            lead_by(alloc, self.names, self.here, rows.as_slice(), path)
        } else {
            lead_by(alloc, self.names, self.here, &[], path)
        }
    }
}

/// Where a path leads where these are the names of repeaters around.
fn lead_by(
    alloc: Global,
    names: &Names,
    here: Site,
    rows: &[RowNames],
    path: &Path,
) -> Result<Lead, Memory>
    ensures { IfOk result (λ lead. lead ≡ lead_of (body_scope names.now here rows.now) path.now) }
{
    let scope = Scope::new(names, here, &[], rows);
    lead_of(alloc, &scope, path)
}

/// A row whose item has a name.
fn row_named(alloc: Global, name: &Name) -> Result<Items<RowNames>, Memory>
    ensures { IfOk result (λ rows. rows ≡ named_row name.now ∷ []) }
{
    let mut rows = Items::new(alloc);
    rows.push(RowNames {
        element: 0,
        item: name.copy()?,
        ty: Ty::Void,
        is_assignable: false,
        number: None,
    })?;
    Ok(rows)
}
