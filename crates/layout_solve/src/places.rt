ghost use Rattle.std.specs.Prelude.{◌≡◌, ◌^◌, ◌<◌, neg_ℤ, pos, ◌≤ℤ◌, length, All};
ghost use Rattle.slint_base.specs.Numbers.{sat};
ghost use Rattle.layout_solve.specs.Items.{IsWithinLimits};
ghost use Rattle.layout_solve.specs.Sizes.{total};
ghost use Rattle.layout_solve.specs.Places.{room_left, shift, offsets};

use slint_base::LIM;

/// What becomes of the room that the items of a box leave.
#[derive(Clone, Copy, Debug, PartialEq, Eq)]
pub enum Align {
    /// The items were sized to take it; what is left even so lies behind them.
    Stretch,
    /// Half of it lies before them, truncated to whole units.
    Center,
    /// It lies behind them.
    Start,
    /// It lies before them.
    End,
    /// It is shared among the gaps between them.
    SpaceBetween,
    /// Each of them has an equal whole part of it before and after it.
    SpaceAround,
}

/// An exact number brought into the limits.
pub fn saturated(exact: i128) -> i64
    ensures { result ≡ sat exact }
{
    exact.clamp(-i128::from(LIM), i128::from(LIM)) as i64
}

/// The exact sum of sizes.
fn sum(sizes: &[i64]) -> i128
    requires { All IsWithinLimits sizes.now }
    ensures sum { result ≡ total sizes.now }
    ensures low { neg_ℤ (pos (2 ^ 118)) ≤ℤ result }
    ensures high { result ≤ℤ pos (2 ^ 118) }
{
    let mut sum = 0;
    for size in sizes {
        sum += i128::from(*size);
    }
    sum
}

/// What the sizes leave of the room, at least 0.
fn room_left(sizes: &[i64], room: i64) -> u128
    requires sizes { All IsWithinLimits sizes.now }
    requires room { IsWithinLimits room }
    ensures left { result ≡ room_left sizes.now room }
    ensures small { result < 2 ^ 119 }
{
    (i128::from(room) - sum(sizes)).max(0).unsigned_abs()
}

/// How much of the room that is left lies before item `i` of `count`.
fn shift(align: Align, count: usize, left: u128, i: usize) -> u128
    requires within { i < count }
    requires small { left < 2 ^ 119 }
    ensures shift { result ≡ shift align count left i }
    ensures small { result < 2 ^ 119 }
{
    let before = i as u128;
    let all = count as u128;
    match align {
        Align::Stretch | Align::Start => 0,
        Align::Center => left / 2,
        Align::End => left,
        Align::SpaceBetween if count == 1 => 0,
        Align::SpaceBetween => before * (left / (all - 1)) + before.min(left % (all - 1)),
        Align::SpaceAround => (2 * before + 1) * (left / (2 * all)),
    }
}

/// Writes where items of these sizes stand, one behind the other with the spacing between, counted from where the room begins: the
/// offset of each. `room` is without the spacings. What the sizes leave of it, at least 0, lies where `align` says. Sums are exact,
/// and each offset is brought into the limits.
pub fn place(align: Align, sizes: &[i64], room: i64, spacing: i64, out: &mut [i64])
    requires same_length { length out.old ≡ length sizes.now }
    requires sizes { All IsWithinLimits sizes.now }
    requires room { IsWithinLimits room }
    requires spacing { IsWithinLimits spacing }
    ensures { out.new ≡ offsets align sizes.now room spacing }
{
    let left = room_left(sizes, room);
    let mut start = 0;
    for (i, size) in sizes.iter().enumerate() {
        let part = shift(align, sizes.len(), left, i) as i128;
        out[i] = saturated(start + part);
        start += i128::from(*size + spacing);
    }
}
