ghost use Rattle.std.specs.Prelude.{◌≡◌, ℕ, ◌+◌, ◌<◌, pos, List, length, max, slice_index_or, IfOk, IfSome, MatchOption, false, Some, slice_get};
ghost use Rattle.std.specs.List.{All};
ghost use Rattle.first_evaluator.specs.Bindings.{has_name, names_of};
ghost use Rattle.first_evaluator.specs.Values.{World, assign, opening_world, property_value};
ghost use Rattle.first_evaluator.specs.Live.{Shows};
ghost use Rattle.first_evaluator.specs.Evaluated.{IsWithin, operand_value, operands_product, operands_sum, value_at, AreRight};

use crate::resolving::{Component, Operand, Product};
use slint_base::{Memory, Name, int_add, int_mul};
use std::alloc::Global;
use std::marker::Model;

/// The value of an operand, where the values of the properties before are given.
fn operand_value(values: &[i32], operand: Operand) -> i32
    requires { IsWithin (length values.now) operand }
    ensures { result ≡ operand_value values.now operand }
{
    match operand {
        Operand::Literal(value) => value,
        Operand::Property(place) => values[place],
    }
}

/// The value of a product, multiplied from the left.
fn product_value(values: &[i32], operands: &[Operand]) -> i32
    requires { All (IsWithin (length values.now)) operands.now }
    ensures { result ≡ operands_product values.now operands.now }
{
    let mut product = 1;
    for operand in operands {
        product = int_mul(product, operand_value(values, *operand));
    }
    product
}

/// The value of a sum, added from the left.
fn sum_value(values: &[i32], products: &[Product]) -> i32
    requires { All (All (IsWithin (length values.now))) products.now }
    ensures { result ≡ operands_sum values.now products.now }
{
    let mut sum = 0;
    for operands in products {
        sum = int_add(sum, product_value(values, operands.as_slice()));
    }
    sum
}

/// The value of the property at a place: its assignment, or else its sum over the values of the properties before it.
fn value_at(component: &Component, assigned: &[Option<i32>], values: &[i32], place: usize) -> i32
    requires within { place < length component.now.props }
    requires assigned { length assigned.now ≡ length component.now.props }
    requires values { length values.now ≡ length component.now.props }
    ensures { result ≡ value_at component.now assigned.now values.now place }
{
    match assigned[place] {
        Some(value) => value,
        None => sum_value(&values[..place], component.sum_at(place).as_slice()),
    }
}

/// Evaluates the properties from the first whose value isn't right yet up to a place, in the order of the text, and gives the value there.
fn evaluate(
    component: &Component,
    assigned: &[Option<i32>],
    values: &mut [i32],
    fresh: usize,
    place: usize,
) -> i32
    requires within { place < length component.now.props }
    requires assigned { length assigned.now ≡ length component.now.props }
    requires values { length values.old ≡ length component.now.props }
    requires right { AreRight component.now assigned.now values.old fresh }
    ensures right { AreRight component.now assigned.now values.new (max fresh (place + 1)) }
    ensures value { result ≡ slice_index_or values.new place (pos 0) }
{
    for at in fresh..place + 1 {
        values[at] = value_at(component, assigned, values, at);
    }
    values[place]
}

/// The values of a component's properties, each evaluated when it is asked for, and the assignments that replace bindings.
/// Contracts see the tree and the assignments.
#[derive(Debug, Drop)]
pub struct Evaluator {
    component: Component,
    assigned: Vec<Option<i32>>,
    values: Vec<i32>,
    /// So many values are right, from the first on.
    fresh: usize,
}

impl Model for Evaluator {
    ghost use Rattle.first_evaluator.specs.Live.{Live};

    ghost Value = { Live };

    ghost use Rattle.first_evaluator.specs.Evaluated.{IsEvaluated};

    ghost view = { λ e. record { file = e.component; assigned = e.assigned.items } };

    ghost invariant = { λ e. IsEvaluated e.component e.assigned.items e.values.items e.fresh };
}

impl Evaluator {
    /// Nothing is assigned yet.
    pub fn new(alloc: Global, component: Component) -> Result<Evaluator, Memory>
        ensures { IfOk result (λ made. (made.file ≡ component) × Shows made opening_world) }
    {
        let count = component.count();
        let assigned = vec![in alloc; None; count]?;
        let values = vec![in alloc; 0; count]?;
        Ok(Evaluator {
            component,
            assigned,
            values,
            fresh: 0,
        })
    }

    /// The place of a property in the order of the text; none where no property has the name.
    pub fn place_of(&self, name: &Name) -> Option<usize>
        ensures found { MatchOption result (has_name (names_of self.now.file.props) name.now ≡ false) (λ place. slice_get (names_of self.now.file.props) place ≡ Some name.now) }
        ensures within { IfSome result (λ place. place < length self.now.file.props) }
    {
        self.component.place_of(name)
    }

    /// The value of the property at a place. Each property before it that an assignment has touched is evaluated once.
    pub fn value(&mut self, place: usize) -> i32
        requires { place < length self.old.file.props }
        ensures same { self.new ≡ self.old }
        ensures value { (world : World) (name : List ℕ) → Shows self.old world → slice_get (names_of self.old.file.props) place ≡ Some name → result ≡ property_value self.old.file world name }
    {
        let value = evaluate(
            &self.component,
            &self.assigned,
            &mut self.values,
            self.fresh,
            place,
        );
        self.fresh = self.fresh.max(place + 1);
        value
    }

    /// Assigns a value to the property at a place, in the place of its binding.
    pub fn assign(&mut self, place: usize, value: i32)
        requires { place < length self.old.file.props }
        ensures same { self.new.file ≡ self.old.file }
        ensures shows { (world : World) (name : List ℕ) → Shows self.old world → slice_get (names_of self.old.file.props) place ≡ Some name → Shows self.new (assign world name value) }
    {
        self.assigned[place] = Some(value);
        self.fresh = self.fresh.min(place);
    }
}
