/// A member of the expanded tree.
#[derive(Clone, Copy)]
pub enum ExpandedMember {
    /// Built into an element's kind: the element, and the member's number there.
    BuiltIn(usize, u32),
    /// Declared in a body: the body, and the member's number in its component.
    Declared(usize, usize),
    /// Of a global: the global, and the member's number in it.
    Global(usize, usize),
}
