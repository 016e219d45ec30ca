use crate::Rule;

/// A stretch of a source: the file's number, its first byte and the byte just past it, both counted from 0.
#[derive(Clone, Copy, Debug, PartialEq, Eq)]
pub struct Span {
    pub file: u32,
    pub start: u32,
    pub end: u32,
}

/// A rule of the language that a source breaks, and the stretch of the source where it does.
#[derive(Clone, Copy, Debug, PartialEq, Eq)]
pub struct Fault {
    pub rule: Rule,
    pub span: Span,
}
