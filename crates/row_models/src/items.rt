ghost use Rattle.std.specs.Prelude.{◌≡◌, ◌↔◌, IsTrue, IfOk};

use slint_base::Memory;
use sqlite_items::at;
use std::alloc::Global;
use value_types::{Value, Values, same};

/// Whether two lists of values are the same.
pub fn same_items(a: &[Value], b: &[Value]) -> bool
    ensures { IsTrue result ↔ (a.now ≡ b.now) }
{
    if a.len() != b.len() {
        return false;
    }
    for (place, value) in a.iter().enumerate() {
        let Some(other) = at(b, place) else {
            return false;
        };
        if !same(value, other) {
            return false;
        }
    }
    true
}

/// The same values as a vector.
pub fn vector_of(alloc: Global, values: Values) -> Result<Vec<Value>, Memory>
    ensures { IfOk result (λ vector. vector.items ≡ values) }
{
    let mut values = values;
    let mut vector = Vec::new(alloc);
    while let Some(value) = values.pop() {
        vector.push(value)?;
    }
    vector.reverse();
    Ok(vector)
}
