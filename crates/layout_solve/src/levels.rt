ghost use Rattle.std.specs.Prelude.{◌≡◌, ℕ, pos, neg_ℤ, ◌^◌, ◌≤ℤ◌, ◌<ℤ◌, map, All};
ghost use Rattle.std.specs.Bool.{MatchBool};
ghost use Rattle.layout_solve.specs.Items.{IsItem};
ghost use Rattle.layout_solve.specs.Sizes.{total, size_at, are_weightless, preferred_sum, least_sum, FitsGrown, FitsShrunk, IsGreatest, IsLeast};

use crate::{Item, Sizing};
use slint_base::LIM;

/// The exact sum of the items' sizes.
pub fn total(items: &[Item], sizing: Sizing) -> i128
    requires { All IsItem items.now }
    ensures sum { result ≡ total (map (size_at sizing) items.now) }
    ensures low { neg_ℤ (pos (2 ^ 118)) ≤ℤ result }
    ensures high { result ≤ℤ pos (2 ^ 118) }
{
    let mut sum = 0;
    for item in items {
        sum += i128::from(sizing.size(item));
    }
    sum
}

/// Whether the items fit in the room when they are sized so.
fn fits(items: &[Item], sizing: Sizing, room: i64) -> bool
    requires { All IsItem items.now }
    ensures { let needed = total (map (size_at sizing) items.now) in MatchBool result (needed ≤ℤ room) (room <ℤ needed) }
{
    total(items, sizing) <= i128::from(room)
}

/// The greatest number of weights, within the limits, that the items can grow by and still fit in the room. Found by halving.
pub fn greatest_growth(items: &[Item], even: bool, room: i64) -> u64
    requires items { All IsItem items.now }
    requires even { even ≡ are_weightless items.now }
    requires room { preferred_sum items.now ≤ℤ room }
    ensures { IsGreatest (FitsGrown items.now room) result }
{
    let mut low = 0;
    let mut high = LIM as u64;
    while low < high {
        let middle = high - (high - low) / 2;
        if fits(items, Sizing::Grown { even, by: middle }, room) {
            low = middle;
        } else {
            high = middle - 1;
        }
    }
    low
}

/// The least number of units that the items have to shrink by to fit in the room. Found by halving.
pub fn least_shrinking(items: &[Item], room: i64) -> u64
    requires items { All IsItem items.now }
    requires room { least_sum items.now ≤ℤ room }
    ensures { IsLeast (FitsShrunk items.now room) result }
{
    let mut low = 0;
    let mut high = 2 * LIM as u64;
    while low < high {
        let middle = low + (high - low) / 2;
        if fits(items, Sizing::Shrunk { by: middle }, room) {
            high = middle;
        } else {
            low = middle + 1;
        }
    }
    low
}
