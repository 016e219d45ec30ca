/// A component's body where the component is used. Contracts and passes name it by its number: body 0 is that of the root component, and
/// behind each body stand those of its bases, in a row.
#[derive(Clone, Copy)]
pub struct Body {
    /// The component, by its number.
    pub comp: usize,
    /// Where it is used: an element of another body, whose type it is; none for the root component. A base is used at the root element of
    /// the component that inherits it.
    pub spot: Option<Spot>,
    /// The number of its first place. Its places are numbered as its elements are.
    pub first: usize,
    /// How many bodies are around it.
    pub depth: usize,
}

/// An element as it is written in a body: the body's number, and the element's number in its component.
#[derive(Clone, Copy)]
pub struct Spot {
    pub body: usize,
    pub element: usize,
}

/// An element as it is written in a body, and what it is in the expanded tree.
#[derive(Clone, Copy)]
pub struct Place {
    pub body: usize,
    pub element: usize,
    /// The body of the component that stands there, if its type is a component.
    pub inner: Option<usize>,
    /// The element of the expanded tree of which it is a layer, by its number.
    pub expanded: usize,
}
