//! The lists of readers and points, over nodes that it owns. Nothing here follows a raw pointer.
ghost use Rattle.std.specs.Prelude.{◌≡◌, ◌<◌, length};
ghost use Rattle.dep_list.specs.Cells.{places, Apart};
ghost use Rattle.dep_list.specs.Lists.{state, ends_of, ends_at, with_ends, next_set, prev_set, pushed, cut_ends, cut, FoundIf};

use crate::node::{Ends, Link, Place, Side};
use crate::nodes::Nodes;
use crate::steps::{leading_back, leading_on};

pub struct Lists {
    pub(crate) nodes: Nodes,
    pub(crate) readers: Vec<Ends>,
    pub(crate) points: Vec<Ends>,
    pub(crate) top: Option<Place>,
    pub(crate) spare: usize,
    pub(crate) count: usize,
}

impl Lists {
    // The two ends of one list.
    pub(crate) fn ends(&self, side: Side, key: usize) -> Ends
        requires { key < length (ends_of side (state self.now)) }
        ensures { result ≡ ends_at side key (state self.now) }
    {
        match side {
            Side::Reader => self.readers[key],
            Side::Point => self.points[key],
        }
    }

    fn set_ends(&mut self, side: Side, key: usize, ends: Ends)
        requires { key < length (ends_of side (state self.old)) }
        ensures { state self.new ≡ with_ends side key ends (state self.old) }
    {
        match side {
            Side::Reader => self.readers[key] = ends,
            Side::Point => self.points[key] = ends,
        }
    }

    // The node at `at`, if any, leads on to `to`.
    fn set_next(&mut self, side: Side, at: Option<Place>, to: Option<Place>)
        requires apart { Apart (places (state self.old).cells) }
        requires there { FoundIf at (state self.old).cells }
        ensures { state self.new ≡ next_set side at to (state self.old) }
    {
        if let Some(at) = at {
            let node = leading_on(*self.nodes.get(at), side, to);
            self.nodes.set(at, node);
        }
    }

    // The node at `at`, if any, leads back to `to`.
    fn set_prev(&mut self, side: Side, at: Option<Place>, to: Option<Place>)
        requires apart { Apart (places (state self.old).cells) }
        requires there { FoundIf at (state self.old).cells }
        ensures { state self.new ≡ prev_set side at to (state self.old) }
    {
        if let Some(at) = at {
            let node = leading_back(*self.nodes.get(at), side, to);
            self.nodes.set(at, node);
        }
    }

    // A node comes behind the last of one list.
    pub(crate) fn push_end(&mut self, side: Side, key: usize, at: Place)
        requires inside { key < length (ends_of side (state self.old)) }
        requires apart { Apart (places (state self.old).cells) }
        requires there { FoundIf (ends_at side key (state self.old)).last (state self.old).cells }
        ensures { state self.new ≡ pushed side key at.ptr (state self.old) }
    {
        let ends = self.ends(side, key);
        self.set_next(side, ends.last, Some(at));
        let first = match ends.first {
            None => Some(at),
            Some(first) => Some(first),
        };
        let last = Some(at);
        self.set_ends(side, key, Ends { first, last });
    }

    // The neighbours of a node that goes out of one list lead to each other.
    pub(crate) fn cut_out(&mut self, side: Side, key: usize, link: Link)
        requires inside { key < length (ends_of side (state self.old)) }
        requires apart { Apart (places (state self.old).cells) }
        requires prev { FoundIf link.prev (state self.old).cells }
        requires next { FoundIf link.next (state self.old).cells }
        ensures { state self.new ≡ cut side key link (state self.old) }
    {
        let ends = self.ends(side, key);
        self.set_next(side, link.prev, link.next);
        self.set_prev(side, link.next, link.prev);
        let ends = ends_without(link, ends);
        self.set_ends(side, key, ends);
    }
}

// The ends of a list out of which a node with these neighbours goes.
fn ends_without(link: Link, ends: Ends) -> Ends
    ensures { result ≡ cut_ends link ends }
{
    let first = match link.prev {
        None => link.next,
        Some(_) => ends.first,
    };
    let last = match link.next {
        None => link.prev,
        Some(_) => ends.last,
    };
    Ends { first, last }
}
