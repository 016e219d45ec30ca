//! Which trees of files are of the first language, and what they are there.

ghost use Rattle.std.specs.Prelude.{◌≡◌, IfOk};
ghost use Rattle.slint_base.specs.Options.{onto_all, all_of};
ghost use Rattle.first_evaluator.specs.First as spec;

use crate::trees::{Factor, FirstFile, FirstProp, FirstProps, Terms};
use slint_base::Memory;
use slint_literals::Number;
use sqlite_items::Items;
use std::alloc::Global;
use syntax_tree::{
    BinaryOp, Component, Decl, Expr, File, FileItem, Ident, Item, Mark, Operand, PropValue,
    Property, TypeName, Value,
};

/// A plain number as a factor.
fn number_factor(number: Number) -> Option<Factor>
    ensures { result ≡ spec.number_factor number }
{
    match number {
        Number::Zero => Some(Factor::Lit(0)),
        Number::Int(value) => Some(Factor::Lit(value)),
        _ => None,
    }
}

/// A factor: a plain number, or a name.
fn factor_of(expr: &Expr) -> Result<Option<Factor>, Memory>
    ensures { IfOk result (λ found. found ≡ spec.factor_of expr.now) }
{
    match expr {
        Expr::Number(number, _) => Ok(number_factor(*number)),
        Expr::Name(ident, _) => Ok(Some(Factor::Named(ident.name.copy()?))),
        _ => Ok(None),
    }
}

/// The first operand of a chain, and the others. An expression of another form is a first operand alone.
fn chain_of(expr: &Expr) -> (&Expr, &[Operand])
    ensures first { result.0.now ≡ (spec.chain_of expr.now).0 }
    ensures others { result.1.now ≡ (spec.chain_of expr.now).1 }
{
    match expr {
        Expr::Chain(first, operands, _) => (first.get(), operands.as_slice()),
        _ => (expr, &[]),
    }
}

/// What stands behind a `*`, as a factor.
fn multiplied(operand: &Operand) -> Result<Option<Factor>, Memory>
    ensures { IfOk result (λ found. found ≡ spec.multiplied operand.now) }
{
    match operand.op {
        BinaryOp::Mul => factor_of(&operand.right),
        _ => Ok(None),
    }
}

/// A first factor, and those that stand behind a `*` each.
fn factors_from(
    alloc: Global,
    first: Factor,
    others: &[Operand],
) -> Result<Option<Items<Factor>>, Memory>
    ensures { IfOk result (λ found. found ≡ onto_all (Some first) (all_of spec.multiplied others.now)) }
{
    let mut factors = Items::new(alloc);
    factors.push(first)?;
    for operand in others {
        match multiplied(operand)? {
            Some(factor) => factors.push(factor)?,
            None => return Ok(None),
        }
    }
    Ok(Some(factors))
}

/// A product: factors with `*` between them.
fn product_of(alloc: Global, expr: &Expr) -> Result<Option<Items<Factor>>, Memory>
    ensures { IfOk result (λ found. found ≡ spec.product_of expr.now) }
{
    let (first, others) = chain_of(expr);
    match factor_of(first)? {
        Some(first) => factors_from(alloc, first, others),
        None => Ok(None),
    }
}

/// What stands behind a `+`, as a product.
fn added(alloc: Global, operand: &Operand) -> Result<Option<Items<Factor>>, Memory>
    ensures { IfOk result (λ found. found ≡ spec.added operand.now) }
{
    match operand.op {
        BinaryOp::Add => product_of(alloc, &operand.right),
        _ => Ok(None),
    }
}

/// A first product, and those that stand behind a `+` each.
fn terms_from(
    alloc: Global,
    first: Items<Factor>,
    others: &[Operand],
) -> Result<Option<Terms>, Memory>
    ensures { IfOk result (λ found. found ≡ onto_all (Some first) (all_of spec.added others.now)) }
{
    let mut terms = Items::new(alloc);
    terms.push(first)?;
    for operand in others {
        match added(alloc, operand)? {
            Some(product) => terms.push(product)?,
            None => return Ok(None),
        }
    }
    Ok(Some(terms))
}

/// Two products or more, with `+` between them.
fn terms_of(alloc: Global, expr: &Expr) -> Result<Option<Terms>, Memory>
    ensures { IfOk result (λ found. found ≡ spec.terms_of expr.now) }
{
    let (first, others) = chain_of(expr);
    match product_of(alloc, first)? {
        Some(first) => terms_from(alloc, first, others),
        None => Ok(None),
    }
}

/// A sum: products with `+` between them.
fn sum_of(alloc: Global, expr: &Expr) -> Result<Option<Terms>, Memory>
    ensures { IfOk result (λ found. found ≡ spec.sum_of expr.now) }
{
    match product_of(alloc, expr)? {
        Some(product) => terms_from(alloc, product, &[]),
        None => terms_of(alloc, expr),
    }
}

/// The sum that a property is bound to.
fn bound_sum(alloc: Global, value: &PropValue) -> Result<Option<Terms>, Memory>
    ensures { IfOk result (λ found. found ≡ spec.bound_sum value.now) }
{
    match value {
        PropValue::Value(Value::Expr(expr)) => sum_of(alloc, expr),
        PropValue::Value(Value::Block(_)) | PropValue::None | PropValue::Link(_) => Ok(None),
    }
}

/// Whether a property has no mark, or is marked `in-out`.
fn is_first_mark(mark: Mark) -> bool
    ensures { result ≡ spec.is_first_mark mark }
{
    match mark {
        Mark::None | Mark::InOut => true,
        Mark::Private | Mark::In | Mark::Out => false,
    }
}

/// Whether the type is the one named `int`.
fn is_int(ty: &Option<TypeName>) -> bool
    ensures { result ≡ spec.is_int ty.now }
{
    match ty {
        Some(TypeName::Named(ident)) => ident.name.as_str() == "int",
        _ => false,
    }
}

/// A property of type `int`, unmarked or `in-out`, that is bound to a sum.
fn first_prop(alloc: Global, property: &Property) -> Result<Option<FirstProp>, Memory>
    ensures { IfOk result (λ found. found ≡ spec.first_prop property.now) }
{
    if !is_first_mark(property.mark) || !is_int(&property.ty) {
        return Ok(None);
    }
    let Some(terms) = bound_sum(alloc, &property.value)? else {
        return Ok(None);
    };
    let name = property.name.name.copy()?;
    Ok(Some(FirstProp { name, terms }))
}

/// An item that is such a property.
fn first_item(alloc: Global, item: &Item) -> Result<Option<FirstProp>, Memory>
    ensures { IfOk result (λ found. found ≡ spec.first_item item.now) }
{
    match item {
        Item::Property(property) => first_prop(alloc, property),
        _ => Ok(None),
    }
}

/// The properties of a body that has nothing else.
fn first_props(alloc: Global, body: &[Item]) -> Result<Option<FirstProps>, Memory>
    ensures { IfOk result (λ found. found ≡ all_of spec.first_item body.now) }
{
    let mut props = Items::new(alloc);
    for item in body {
        match first_item(alloc, item)? {
            Some(prop) => props.push(prop)?,
            None => return Ok(None),
        }
    }
    Ok(Some(props))
}

/// Whether a component is based on nothing, or on `Window`.
fn is_first_base(base: &Option<Ident>) -> bool
    ensures { result ≡ spec.is_first_base base.now }
{
    match base {
        Some(base) => base.name.as_str() == "Window",
        None => true,
    }
}

/// A component based on nothing or on `Window`, of such properties alone.
fn first_component(alloc: Global, component: &Component) -> Result<Option<FirstFile>, Memory>
    ensures { IfOk result (λ found. found ≡ spec.first_component component.now) }
{
    if !is_first_base(&component.base) {
        return Ok(None);
    }
    match first_props(alloc, component.body.as_slice())? {
        Some(props) => Ok(Some(FirstFile { props })),
        None => Ok(None),
    }
}

/// The tree of a file as one of the first language; none where it has another form: the file is one component, exported or not, based
/// on nothing or on `Window`. Its items are properties of type `int`, unmarked or `in-out`, each bound to a sum of products of plain
/// numbers and names, without parentheses.
pub fn first_file(alloc: Global, file: &File) -> Result<Option<FirstFile>, Memory>
    ensures { IfOk result (λ found. found ≡ spec.first_file file.now) }
{
    match file.items.as_slice() {
        [FileItem::Decl(_, Decl::Component(component))] => first_component(alloc, component),
        _ => Ok(None),
    }
}
