ghost use Rattle.std.specs.Prelude.{◌≡◌, ◌<◌, ◌≤◌, ◌^◌, pos, ◌<ℤ◌, ◌+ℤ◌, ◌-ℤ◌, ◌*ℤ◌, unsigned_abs};
ghost use Rattle.slint_base.specs.Numbers.{to_int, sat, greatest_alike, near, near_positive};

/// The greatest value of a fractional type, in its smallest units; the least is its opposite.
pub const LIM: i64 = 9_000_000_000_000_000;

/// The sum of two values of the language's `int`, brought between the ends of the type.
pub fn int_add(a: i32, b: i32) -> i32
    ensures { result ≡ to_int (a +ℤ b) }
{
    a.saturating_add(b)
}

/// The difference of two values of the language's `int`, brought between the ends of the type.
pub fn int_sub(a: i32, b: i32) -> i32
    ensures { result ≡ to_int (a -ℤ b) }
{
    a.saturating_sub(b)
}

/// The product of two values of the language's `int`, brought between the ends of the type.
pub fn int_mul(a: i32, b: i32) -> i32
    ensures { result ≡ to_int (a *ℤ b) }
{
    a.saturating_mul(b)
}

/// A number of units brought between the ends of a type of whole units.
fn saturated(exact: i128) -> i64
    ensures { result ≡ sat exact }
{
    exact.clamp(-i128::from(LIM), i128::from(LIM)) as i64
}

/// The sum of two values of a type of whole units, brought between -LIM and LIM.
pub fn sat_add(a: i64, b: i64) -> i64
    ensures { result ≡ sat (a +ℤ b) }
{
    saturated(i128::from(a) + i128::from(b))
}

/// The difference of two values of a type of whole units, brought between -LIM and LIM.
pub fn sat_sub(a: i64, b: i64) -> i64
    ensures { result ≡ sat (a -ℤ b) }
{
    saturated(i128::from(a) - i128::from(b))
}

/// A number over a positive one, rounded to nearest, ties away from zero, and brought between -LIM and LIM.
fn over_positive(number: i128, by: u64) -> i64
    requires positive { 0 < by }
    requires size { unsigned_abs number ≤ 2 ^ 126 }
    ensures { result ≡ sat (near_positive number by) }
{
    let by = u128::from(by);
    let size = (2 * number.unsigned_abs() + by) / (2 * by);
    let size = size.min(LIM as u128) as i64;
    if number < 0 { -size } else { size }
}

/// The greatest value of a number's sign, and 0 for 0.
fn greatest_alike(number: i128) -> i64
    ensures { result ≡ greatest_alike number }
{
    match number {
        0 => 0,
        1.. => LIM,
        _ => -LIM,
    }
}

/// A number over another, rounded to nearest, ties away from zero, and brought between -LIM and LIM. Over 0 it is the greatest
/// value of the number's sign.
fn nearest(number: i128, by: i64) -> i64
    requires { unsigned_abs number ≤ 2 ^ 126 }
    ensures { result ≡ sat (near number by) }
{
    match by {
        0 => greatest_alike(number),
        1.. => over_positive(number, by.unsigned_abs()),
        _ => over_positive(-number, by.unsigned_abs()),
    }
}

/// The product of two values, of which one counts in parts of which `unit` are 1: `a * b / unit`, rounded to nearest, ties away from
/// zero, and brought between -LIM and LIM.
pub fn sat_mul(a: i64, b: i64, unit: i64) -> i64
    requires { pos 0 <ℤ unit }
    ensures { result ≡ sat (near (a *ℤ b) unit) }
{
    nearest(i128::from(a) * i128::from(b), unit)
}

/// The quotient of two values, of which the second counts in parts of which `unit` are 1: `a * unit / b`, rounded to nearest, ties
/// away from zero, and brought between -LIM and LIM. `a / 0` is the greatest value of a's sign, and `0 / 0` is 0.
pub fn sat_div(a: i64, b: i64, unit: i64) -> i64
    requires { pos 0 <ℤ unit }
    ensures { result ≡ sat (near (a *ℤ unit) b) }
{
    nearest(i128::from(a) * i128::from(unit), b)
}
