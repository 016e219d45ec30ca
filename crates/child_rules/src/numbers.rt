ghost use Rattle.std.specs.Prelude.{◌≡◌, neg_ℤ};
ghost use Rattle.std.specs.Option.{option_copied};
ghost use Rattle.syntax_tree.specs.declared.expressions.Expr.{out-Expr};
ghost use Rattle.syntax_tree.specs.declared.items.Item.{out-Item};
ghost use Rattle.child_rules.specs.Numbers.{behind_prefix, bound_to, fits, given, is_between, is_cell_number, is_out, is_span, is_start, number_in, numbers_of, whole_in, whole_literal, whole_number};

use slint_base::Name;
use slint_literals::Number;
use syntax_tree::{Expr, Item, PrefixOp, Value};

/// The numbers that are given to a cell: its row and its column, counted from 0, and how many rows and columns it spans. Values that
/// aren't whole literals count as not given.
#[derive(Clone, Copy)]
pub struct Numbers {
    pub row: Option<i64>,
    pub column: Option<i64>,
    pub rowspan: Option<i64>,
    pub colspan: Option<i64>,
}

/// Whether a name is that of a cell's row or column.
fn is_start(name: &str) -> bool
    ensures { result ≡ is_start name.now }
{
    name == "row" || name == "col"
}

/// Whether a name is that of a cell's span.
fn is_span(name: &str) -> bool
    ensures { result ≡ is_span name.now }
{
    name == "rowspan" || name == "colspan"
}

/// Whether a name is that of one of the four numbers of a cell.
pub(crate) fn is_cell_number(name: &str) -> bool
    ensures { result ≡ is_cell_number name.now }
{
    is_start(name) || is_span(name)
}

/// A number that is whole and has no unit.
fn whole_number(number: Number) -> Option<i32>
    ensures { result ≡ whole_number number }
{
    match number {
        Number::Zero => Some(0),
        Number::Int(n) => Some(n),
        _ => None,
    }
}

/// An expression that is such a number.
fn number_in(e: &Expr) -> Option<i32>
    ensures { result ≡ number_in (out-Expr e.now) }
{
    match e {
        Expr::Number(number, _) => whole_number(*number),
        _ => None,
    }
}

/// The same number, among more numbers.
fn widened(number: Option<i32>) -> Option<i64>
    ensures { result ≡ number }
{
    match number {
        Some(n) => Some(n as i64),
        None => None,
    }
}

/// A number with a `-` before it.
fn negated(n: i32) -> i64
    ensures { result ≡ neg_ℤ n }
{
    -(n as i64)
}

/// The number behind a prefix: behind a `-`, and behind no other one.
fn behind_prefix(op: PrefixOp, e: &Expr) -> Option<i64>
    ensures { result ≡ behind_prefix op e.now }
{
    match op {
        PrefixOp::Minus => match number_in(e) {
            Some(n) => Some(negated(n)),
            None => None,
        },
        PrefixOp::Plus => None,
        PrefixOp::Not => None,
    }
}

/// An expression that is such a number, with or without a `-` before it.
fn whole_in(e: &Expr) -> Option<i64>
    ensures { result ≡ whole_in (out-Expr e.now) }
{
    match e {
        Expr::Number(number, _) => widened(whole_number(*number)),
        Expr::Prefix(op, of, _) => behind_prefix(*op, of.get()),
        _ => None,
    }
}

/// A value that is a whole literal.
pub(crate) fn whole_literal(value: &Value) -> Option<i64>
    ensures { result ≡ whole_literal value.now }
{
    match value {
        Value::Block(_) => None,
        Value::Expr(e) => whole_in(e),
    }
}

/// The value that an item binds a name to, if it does.
fn bound_to<'a>(name: &str, item: &'a Item) -> Option<&'a Value>
    ensures { option_copied result ≡ bound_to name.now (out-Item item.now) }
{
    match item {
        Item::Binding(binding) => {
            if binding.name.name.as_str() == name {
                Some(&binding.value)
            } else {
                None
            }
        }
        _ => None,
    }
}

/// The whole literal that a name is bound to in a body: of equal names the first counts.
fn given(name: &str, body: &[Item]) -> Option<i64>
    ensures { result ≡ given name.now body.now }
{
    for item in body {
        if let Some(value) = bound_to(name, item) {
            return whole_literal(value);
        }
    }
    None
}

/// The numbers that a cell's body gives it.
pub(crate) fn numbers_of(body: &[Item]) -> Numbers
    ensures { result ≡ numbers_of body.now }
{
    Numbers {
        row: given("row", body),
        column: given("col", body),
        rowspan: given("rowspan", body),
        colspan: given("colspan", body),
    }
}

/// Whether a number lies between two others or is one of them.
fn is_between(low: i64, high: i64, n: i64) -> bool
    ensures { result ≡ is_between low high n }
{
    !(n < low || high < n)
}

/// Whether a number is in the range of the one of that name.
fn fits(name: &str, n: i64) -> bool
    ensures { result ≡ fits name.now n }
{
    if is_start(name) {
        is_between(0, 999, n)
    } else {
        is_between(1, 1000, n)
    }
}

/// Whether a value that is given is out of the range of the number of that name.
pub(crate) fn is_out(name: &Name, value: Option<i64>) -> bool
    ensures { result ≡ is_out name.now value }
{
    match value {
        Some(n) => !fits(name.as_str(), n),
        None => false,
    }
}
