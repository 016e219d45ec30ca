/// What of a value is read: all of it, the length of an array, or one item of it.
#[derive(Clone, Copy, Debug, PartialEq, Eq)]
pub enum Facet {
    Whole,
    Length,
    /// The item at a place, counted from 0.
    Row(u32),
}
