ghost use Rattle.std.specs.Prelude.{◌≡◌, pos, ◌-ℤ◌, int_le};
ghost use Rattle.layout_solve.specs.Items.{IsItem};
ghost use Rattle.layout_solve.specs.Sizes.{weight_in, grown, shrunk, size_at, more_at};

use crate::Item;

/// How the size of an item follows from the item alone.
#[derive(Clone, Copy)]
pub enum Sizing {
    /// Its least size.
    Least,
    /// Its preferred size.
    Preferred,
    /// Its preferred size and so many weights more, up to its greatest size. Where `even`, each weight counts as 1.
    Grown { even: bool, by: u64 },
    /// Its preferred size less so many units, down to its least size.
    Shrunk { by: u64 },
}

/// The weight that counts.
fn weight_in(even: bool, item: &Item) -> i64
    ensures { result ≡ weight_in even item.now }
{
    if even { 1 } else { item.weight }
}

/// The size of an item that grows by so many weights.
fn grown(even: bool, by: u64, item: &Item) -> i64
    requires { IsItem item.now }
    ensures { result ≡ grown even by item.now }
{
    let wanted = i128::from(item.pref) + i128::from(by) * i128::from(weight_in(even, item));
    i128::from(item.max).min(wanted) as i64
}

/// The size of an item that shrinks by so many units.
fn shrunk(by: u64, item: &Item) -> i64
    requires { IsItem item.now }
    ensures { result ≡ shrunk by item.now }
{
    let wanted = i128::from(item.pref) - i128::from(by);
    i128::from(item.min).max(wanted) as i64
}

/// How much more an item may get that grew by so many weights.
fn growth_left(even: bool, by: u64, item: &Item) -> i64
    requires { IsItem item.now }
    ensures { result ≡ more_at (Sizing.Grown even by) item.now }
{
    let left = item.max - grown(even, by, item);
    weight_in(even, item).min(left)
}

/// Whether an item that shrank by so many units isn't below its least size.
fn is_above_least(by: u64, item: &Item) -> bool
    requires { IsItem item.now }
    ensures { result ≡ int_le item.now.min (item.now.pref -ℤ pos by) }
{
    i128::from(item.min) <= i128::from(item.pref) - i128::from(by)
}

impl Sizing {
    /// The item's size.
    pub fn size(self, item: &Item) -> i64
        requires { IsItem item.now }
        ensures { result ≡ size_at self item.now }
    {
        match self {
            Sizing::Least => item.min,
            Sizing::Preferred => item.pref,
            Sizing::Grown { even, by } => grown(even, by, item),
            Sizing::Shrunk { by } => shrunk(by, item),
        }
    }

    /// How much more the item may get of what is left of the room.
    pub fn more(self, item: &Item) -> i64
        requires { IsItem item.now }
        ensures { result ≡ more_at self item.now }
    {
        match self {
            Sizing::Least | Sizing::Preferred => 0,
            Sizing::Grown { even, by } => growth_left(even, by, item),
            Sizing::Shrunk { by } => i64::from(is_above_least(by, item)),
        }
    }
}
