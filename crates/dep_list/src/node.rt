/// Where a node lies. It owns nothing.
#[derive(Clone, Copy)]
pub struct Place {
    pub(crate) ptr: *mut Node,
}

/// A node's neighbours in one of the two lists in which it stands.
#[derive(Clone, Copy)]
pub struct Link {
    pub(crate) prev: Option<Place>,
    pub(crate) next: Option<Place>,
}

/// The two ends of a list of nodes.
#[derive(Clone, Copy)]
pub struct Ends {
    pub(crate) first: Option<Place>,
    pub(crate) last: Option<Place>,
}

/// Each node stands in two lists: that of its reader and that of its point.
#[derive(Clone, Copy)]
pub enum Side {
    Reader,
    Point,
}

/// A pair, with its neighbours in its reader's list and in its point's; or a spare node, whose `by_reader.next` is the spare one below it.
#[derive(Clone, Copy, Drop)]
pub struct Node {
    pub(crate) linked: bool,
    pub(crate) reader: usize,
    pub(crate) point: usize,
    pub(crate) by_reader: Link,
    pub(crate) by_point: Link,
}
