use expanded_tree::Holder;
use slint_base::Span;

/// What could be chosen for the class of a member: a binding, a handler or a default.
#[derive(Clone, Copy)]
pub struct Candidate {
    /// The member, by its number.
    pub member: usize,
    /// Where it is written; of a default, the element of which the member is, at its outermost layer.
    pub holder: Holder,
    /// Its place among the holder's items; of a default, the number of the built-in member.
    pub item: usize,
    /// How many bodies are around the one in which it is written.
    pub depth: usize,
    /// The stretch of a binding's value, of a whole handler, or of an element's type name.
    pub span: Span,
    /// How many repeaters are around the holder's element, its own included.
    pub repeaters: usize,
}
