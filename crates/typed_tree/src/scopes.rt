ghost use Rattle.std.specs.Prelude.{◌≡◌, IfOk};
ghost use Rattle.std.specs.Option.{option_copied};

use crate::Names;
use slint_base::{Memory, Name};
use std::alloc::Global;
use std::marker::Model;
use value_types::Ty;

/// Where an expression stands: which names it can see. Contracts see it as the record of what it holds.
#[derive(Drop)]
pub struct Scope<'a> {
    names: &'a Names,
    site: Site,
    parameters: &'a [Local],
    rows: &'a [RowNames],
}

impl<'a> Model for Scope<'a> {
    ghost use Rattle.std.specs.Coded.{codes};
    ghost use Rattle.value_types.specs.contracts.types.Ty as ty_rows;
    ghost use Rattle.typed_tree.specs.Scopes.{ScopeValue};

    ghost Value = { ScopeValue };

    ghost coded = { Prim.hlevel (codes, ty_rows.the_row.coded) };

    ghost view = { λ s. record { outline = s.names.now; site = s.site; parameters = s.parameters.now; rows = s.rows.now } };
}

impl<'a> Scope<'a> {
    /// The scope of an expression: the declarations of its source, the body in which it stands, the parameters of the function or
    /// handler around it, and the names of the repeaters around it, innermost first.
    pub fn new(
        names: &'a Names,
        site: Site,
        parameters: &'a [Local],
        rows: &'a [RowNames],
    ) -> Scope<'a>
        ensures { result ≡ record { outline = names.now; site = site; parameters = parameters.now; rows = rows.now } }
    {
        Scope {
            names,
            site,
            parameters,
            rows,
        }
    }

    /// The declarations of the source.
    pub fn names(&self) -> &'a Names
        ensures { result.now ≡ self.now.outline }
    {
        self.names
    }

    /// The body in which the expression stands.
    pub fn site(&self) -> Site
        ensures { result ≡ self.now.site }
    {
        self.site
    }

    /// The parameters of the function or handler around it.
    pub fn parameters(&self) -> &'a [Local]
        ensures { result.now ≡ self.now.parameters }
    {
        self.parameters
    }

    /// The names of the repeaters around it, innermost first.
    pub fn rows(&self) -> &'a [RowNames]
        ensures { result.now ≡ self.now.rows }
    {
        self.rows
    }
}

/// The element or the global in whose body an expression stands.
#[derive(Clone, Copy)]
pub enum Site {
    /// A component, and an element of it. For a condition or a model it is the element around the repeated one.
    Element(usize, usize),
    Global(usize),
}

/// A parameter of the function or handler at hand.
#[derive(Drop)]
pub struct Local {
    pub name: Name,
    pub ty: Ty,
}

/// The names of a `for` around an expression.
#[derive(Drop)]
pub struct RowNames {
    /// The repeated element, by its number in the component.
    pub element: usize,
    pub item: Name,
    /// The item's type.
    pub ty: Ty,
    /// Whether the item may be assigned: the model is an array that can be assigned itself.
    pub is_assignable: bool,
    pub number: Option<Name>,
}

impl RowNames {
    /// The same names once more.
    pub fn copy(&self, alloc: Global) -> Result<RowNames, Memory>
        ensures { IfOk result (λ names. names ≡ self.now) }
    {
        let item = self.item.copy()?;
        let ty = self.ty.copy(alloc)?;
        let number = copy_if_any(self.number.as_ref())?;
        Ok(RowNames {
            element: self.element,
            item,
            ty,
            is_assignable: self.is_assignable,
            number,
        })
    }
}

/// The same name once more, if there is one.
fn copy_if_any(name: Option<&Name>) -> Result<Option<Name>, Memory>
    ensures { IfOk result (λ same. same ≡ option_copied name.entry) }
{
    match name {
        Some(name) => Ok(Some(name.copy()?)),
        None => Ok(None),
    }
}
