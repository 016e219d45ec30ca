ghost use Rattle.std.specs.Prelude.{◌≡◌, ◌<◌, [], length, false, IsTrue, IfOk, IfSome, MatchOption, Some, slice_get, slice_index_or};
ghost use Rattle.std.specs.BTreeMap.{get_by_text};
ghost use Rattle.first_evaluator.specs.Bindings.{are_bound, has_name, names_of, reserved_words};
ghost use Rattle.first_evaluator.specs.First.{bound_file, first_source};
ghost use Rattle.first_evaluator.specs.Resolved.{operand_of, product_of, sum_of, sums_of};

use crate::forms::first_file;
use crate::trees::{Factor, FirstFile};
use slint_base::{Memory, Name};
use sqlite_items::Items;
use std::alloc::Global;
use std::collections::BTreeMap;
use std::marker::Model;
use syntax_tree::File;

/// A factor whose name is resolved: a number, or the place of a property in the order of the text.
#[derive(Clone, Copy, Debug)]
pub enum Operand {
    Literal(i32),
    Property(usize),
}

/// A product of operands.
pub type Product = Items<Operand>;

/// A sum of products.
pub type Sum = Items<Product>;

/// The place of each name.
type Places = BTreeMap<String, usize>;

/// Whether the word names no property in an expression.
fn is_reserved(name: &str) -> bool
    ensures { result ≡ has_name reserved_words name.now }
{
    matches!(name, "true" | "false" | "root" | "self" | "parent")
}

/// A factor with its name resolved; none where the name is that of no earlier property, or a reserved word.
fn resolve_factor(places: &Places, factor: &Factor) -> Option<Operand>
    ensures { result ≡ operand_of (λ name. get_by_text places.now name) factor.now }
{
    match factor {
        Factor::Lit(value) => Some(Operand::Literal(*value)),
        Factor::Named(name) => {
            let name = name.as_str();
            if is_reserved(name) {
                return None;
            }
            let place = places.get(name)?;
            Some(Operand::Property(*place))
        }
    }
}

/// A product with each name resolved.
fn resolve_product(
    alloc: Global,
    places: &Places,
    factors: &[Factor],
) -> Result<Option<Product>, Memory>
    ensures { IfOk result (λ found. found ≡ product_of (λ name. get_by_text places.now name) factors.now) }
{
    let mut operands = Items::new(alloc);
    for factor in factors {
        match resolve_factor(places, factor) {
            Some(operand) => operands.push(operand)?,
            None => return Ok(None),
        }
    }
    Ok(Some(operands))
}

/// A sum with each name resolved.
fn resolve_sum(
    alloc: Global,
    places: &Places,
    terms: &[Items<Factor>],
) -> Result<Option<Sum>, Memory>
    ensures { IfOk result (λ found. found ≡ sum_of (λ name. get_by_text places.now name) terms.now) }
{
    let mut products = Items::new(alloc);
    for factors in terms {
        match resolve_product(alloc, places, factors.as_slice())? {
            Some(product) => products.push(product)?,
            None => return Ok(None),
        }
    }
    Ok(Some(products))
}

/// A component ready to be evaluated: its tree, the sum of each property with each name resolved, and the place of each name.
/// Contracts see the tree.
#[derive(Debug, Drop)]
pub struct Component {
    file: FirstFile,
    sums: Vec<Sum>,
    places: Places,
}

impl Model for Component {
    ghost use Rattle.first_evaluator.specs.declared.trees.FirstFile.{FirstFile};

    ghost Value = { FirstFile };

    ghost use Rattle.first_evaluator.specs.Resolved.{IsResolved};

    ghost view = { λ c. c.file };

    ghost invariant = { λ c. IsResolved c.file c.sums.items c.places };
}

/// The component of a tree, each factor of which is looked up once; none where the tree breaks a rule: two properties have one name, or a
/// name in a sum is a reserved word or no earlier property's.
pub fn resolve(alloc: Global, file: FirstFile) -> Result<Option<Component>, Memory>
    ensures { IfOk result (λ found. found ≡ bound_file file) }
{
    let mut sums = Vec::new(alloc);
    let mut places = Places::new(alloc);
    for prop in file.props.as_slice() {
        if places.contains_key(prop.name.as_str()) {
            return Ok(None);
        }
        let Some(sum) = resolve_sum(alloc, &places, prop.terms.as_slice())? else {
            return Ok(None);
        };
        let name = String::from_str(alloc, prop.name.as_str())?;
        places.insert(name, sums.len())?;
        sums.push(sum)?;
    }
    Ok(Some(Component { file, sums, places }))
}

/// The component of a file's tree; none where the tree is not of the first language, or breaks a rule of `resolve`.
pub fn component_of(alloc: Global, file: &File) -> Result<Option<Component>, Memory>
    ensures { IfOk result (λ found. found ≡ first_source file.now) }
{
    match first_file(alloc, file)? {
        Some(file) => resolve(alloc, file),
        None => Ok(None),
    }
}

impl Component {
    /// How many properties there are.
    pub(crate) fn count(&self) -> usize
        ensures count { result ≡ length self.now.props }
        ensures bound { IsTrue (are_bound [] self.now.props) }
    {
        self.file.props.len()
    }

    /// The place of a property in the order of the text; none where no property has the name.
    pub(crate) fn place_of(&self, name: &Name) -> Option<usize>
        ensures found { MatchOption result (has_name (names_of self.now.props) name.now ≡ false) (λ place. slice_get (names_of self.now.props) place ≡ Some name.now) }
        ensures within { IfSome result (λ place. place < length self.now.props) }
    {
        self.places.get(name.as_str()).copied()
    }

    /// The sum that the property at a place is bound to.
    pub(crate) fn sum_at(&self, place: usize) -> &Sum
        requires { place < length self.now.props }
        ensures sum { result.now ≡ slice_index_or (sums_of self.now) place [] }
        ensures bound { IsTrue (are_bound [] self.now.props) }
    {
        &self.sums[place]
    }
}
