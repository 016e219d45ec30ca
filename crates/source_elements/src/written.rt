ghost use Rattle.std.specs.Prelude.{◌≡◌};
ghost use Rattle.std.specs.Option.{option_copied};
ghost use Rattle.source_elements.specs.Views.{how_often};

use std::marker::Model;
use syntax_tree::{For, Ident, IfElement, Item};

/// How often an element is there.
#[derive(Drop)]
pub enum Repeating<'a> {
    Once,
    /// While the condition of an `if` holds.
    If(&'a IfElement),
    /// For each row of the model of a `for`.
    For(&'a For),
}

/// An element as it is written. Contracts see it as the record of what it holds.
#[derive(Drop)]
pub struct Written<'a> {
    id: Option<&'a Ident>,
    type_name: Option<&'a Ident>,
    parent: Option<usize>,
    repeating: Repeating<'a>,
    body: &'a [Item],
}

impl<'a> Model for Written<'a> {
    ghost use Rattle.std.specs.Coded.{codes};
    ghost use Rattle.std.specs.Option.{option_copied};
    ghost use Rattle.syntax_tree.specs.contracts.expressions.Expr as expr_rows;
    ghost use Rattle.syntax_tree.specs.contracts.items.Item as item_rows;
    ghost use Rattle.syntax_tree.specs.contracts.statements.Else as statement_rows;
    ghost use Rattle.syntax_tree.specs.contracts.types.TypeName as type_rows;
    ghost use Rattle.source_elements.specs.Elements.{WrittenElement};
    ghost use Rattle.source_elements.specs.Views.{how_often};

    ghost Value = { WrittenElement };

    ghost coded = { Prim.hlevel (codes, expr_rows.the_row.coded, item_rows.the_row.coded, statement_rows.the_row.coded, type_rows.the_row.coded) };

    ghost view = { λ w. record { id = option_copied w.id; type_name = option_copied w.type_name; parent = w.parent; repeating = how_often w.repeating; body = w.body.now } };
}

impl<'a> Written<'a> {
    /// An element of this id, type, place and body.
    pub(crate) fn new(
        id: Option<&'a Ident>,
        type_name: Option<&'a Ident>,
        parent: Option<usize>,
        repeating: Repeating<'a>,
        body: &'a [Item],
    ) -> Written<'a>
        ensures { result ≡ record { id = option_copied id.entry; type_name = option_copied type_name.entry; parent = parent; repeating = how_often repeating.entry; body = body.now } }
    {
        Written {
            id,
            type_name,
            parent,
            repeating,
            body,
        }
    }

    /// The id, where one is written.
    pub fn id(&self) -> Option<&'a Ident>
        ensures { option_copied result ≡ self.now.id }
    {
        self.id
    }

    /// The name of its type. A component's root element has one where the component has a base.
    pub fn type_name(&self) -> Option<&'a Ident>
        ensures { option_copied result ≡ self.now.type_name }
    {
        self.type_name
    }

    /// The number of the element around it; none for the root element.
    pub fn parent(&self) -> Option<usize>
        ensures { result ≡ self.now.parent }
    {
        self.parent
    }

    /// How often it is there.
    pub fn repeating(&self) -> &Repeating<'a>
        ensures { how_often result.now ≡ self.now.repeating }
    {
        &self.repeating
    }

    /// The items of its body.
    pub fn body(&self) -> &'a [Item]
        ensures { result.now ≡ self.now.body }
    {
        self.body
    }
}
