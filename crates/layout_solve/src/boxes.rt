ghost use Rattle.std.specs.Prelude.{◌≡◌, pos, ◌≤ℤ◌, ◌+ℤ◌, length, All};
ghost use Rattle.std.specs.Int.{int_min};
ghost use Rattle.layout_solve.specs.Items.{IsItem, IsWithinLimits};
ghost use Rattle.layout_solve.specs.Sizes.{are_weightless, size_at, more_at, shared, IsSizing, SharesRoom};

use crate::levels::{greatest_growth, least_shrinking, total};
use crate::{Item, Sizing};

/// Whether all weights are 0.
fn are_weightless(items: &[Item]) -> bool
    ensures { result ≡ are_weightless items.now }
{
    items.iter().all(|item| item.weight <= 0)
}

/// The way in which the items are sized.
fn sizing_for(items: &[Item], room: i64, grow: bool) -> Sizing
    requires { All IsItem items.now }
    ensures { IsSizing items.now room grow result }
{
    let wide_room = i128::from(room);
    if total(items, Sizing::Preferred) <= wide_room {
        if grow {
            let even = are_weightless(items);
            let by = greatest_growth(items, even, room);
            Sizing::Grown { even, by }
        } else {
            Sizing::Preferred
        }
    } else if total(items, Sizing::Least) > wide_room {
        Sizing::Least
    } else {
        let by = least_shrinking(items, room);
        Sizing::Shrunk { by }
    }
}

/// What an item gets of what is left of the room.
fn gift(sizing: Sizing, item: &Item, left: i128) -> i64
    requires item { IsItem item.now }
    requires left { pos 0 ≤ℤ left }
    ensures value { result ≡ int_min left (more_at sizing item.now) }
    ensures some { pos 0 ≤ℤ result }
    ensures light { (size_at sizing item.now +ℤ result) ≤ℤ (item.now.max +ℤ pos 1) }
{
    left.min(i128::from(sizing.more(item))) as i64
}

/// Writes each item's size, and gives the rest in item order, to each item up to what it may get more.
fn share(items: &[Item], sizing: Sizing, rest: i128, out: &mut [i64])
    requires same_length { length out.old ≡ length items.now }
    requires items { All IsItem items.now }
    requires rest { pos 0 ≤ℤ rest }
    ensures { out.new ≡ shared sizing rest items.now }
{
    let mut left = rest;
    for (i, item) in items.iter().enumerate() {
        let more = gift(sizing, item, left);
        out[i] = sizing.size(item) + more;
        left -= i128::from(more);
    }
}

/// Shares the room along an axis among the items, and writes their sizes. Where the preferred sizes fit in it, the items keep
/// them, or, where they `grow`, grow by the same number of weights, as many as fit, each up to its greatest size; all weights of 0
/// count as 1. Where the preferred sizes don't fit, the items shrink by the same number of units, as few as needed, each down to
/// its least size. What a whole level leaves goes in item order: of a growth to each item up to its weight and its greatest size,
/// of a shrinking one unit to each that isn't at its least size already. Sums are exact. Where not even the least sizes fit, the
/// items get those. `room` may be negative.
pub fn solve_box(items: &[Item], room: i64, grow: bool, out: &mut [i64])
    requires same_length { length out.old ≡ length items.now }
    requires items { All IsItem items.now }
    requires room { IsWithinLimits room }
    ensures { SharesRoom items.now room grow out.new }
{
    let sizing = sizing_for(items, room, grow);
    let rest = i128::from(room) - total(items, sizing);
    share(items, sizing, rest.max(0), out);
}
