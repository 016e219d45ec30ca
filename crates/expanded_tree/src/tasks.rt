use crate::Spot;

/// What is around something on the way through the expanded tree: an element of it, if there is one, and so many repeaters.
#[derive(Clone, Copy)]
pub struct Around {
    pub element: Option<usize>,
    pub repeaters: usize,
}

/// What is left to do on the way through the expanded tree in instance order.
#[derive(Clone, Copy)]
pub enum Task {
    /// An element and all that is inside it, by its outermost layer.
    Enter(Spot, Around),
    /// What is written where a body's component is used.
    Placed(usize, Around),
}
