use crate::Spot;

/// Where items are written.
#[derive(Clone, Copy)]
pub enum Holder {
    /// In a global, by its number.
    Global(usize),
    /// At an element of a body.
    Element(Spot),
}
