/// What a layout knows of an item along an axis, in units: its least, preferred and greatest size, and the weight by which it
/// grows. `min <= pref <= max`, all within the limits, and the weight is from 0 to 1,000,000.
#[derive(Clone, Copy, Debug, PartialEq, Eq)]
pub struct Item {
    pub min: i64,
    pub pref: i64,
    pub max: i64,
    pub weight: i64,
}

/// An item in a grid, along an axis: it stands in `span` tracks from `first` on, of which there is at least one.
#[derive(Clone, Copy, Debug, PartialEq, Eq)]
pub struct Cell {
    pub item: Item,
    pub first: u32,
    pub span: u32,
}
