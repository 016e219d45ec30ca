use crate::Spot;
use element_tables::ElementKind;

/// An element of the expanded tree. Elements are numbered in instance order.
#[derive(Clone, Copy)]
pub struct ExpandedElement {
    /// Where it is used: its outermost layer. The further ones are the root elements of the bodies inside.
    pub spot: Spot,
    /// The built-in element that its innermost layer is.
    pub kind: ElementKind,
    /// The element in which it lands; none for the root element.
    pub parent: Option<usize>,
    /// How many repeaters are around it, its own included.
    pub repeaters: usize,
}
