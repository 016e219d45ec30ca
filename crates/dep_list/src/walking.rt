//! A reader's pairs, or a point's, one after the other.
ghost use Rattle.std.specs.Prelude.{◌≡◌, [], ◌∷◌, None, MatchOption, IsTrue, ◌↔◌, length};
ghost use Rattle.dep_list.specs.Pairs.{In};
ghost use Rattle.dep_list.specs.Lists.{Held, state, ends_of, row, others_of, pairs_of, first_or, other_of, link_of};

use crate::lists::Lists;
use crate::node::{Link, Node, Place, Side};
use std::marker::Model;

/// The other ends of a reader's or a point's pairs that are still to come, in order of linking. Contracts see their list.
#[derive(Drop)]
pub struct Others<'a> {
    lists: &'a Lists,
    side: Side,
    key: usize,
    at: Option<Place>,
}

impl<'a> Model for Others<'a> {
    ghost use Rattle.std.specs.Prelude.{List, ℕ};

    ghost Value = { List ℕ };

    ghost use Rattle.dep_list.specs.Lists.{state, Held, row, rest, others, FoundIf};

    ghost view = { λ r. others (rest (row r.side r.key (state r.lists.now).cells) r.at) };

    ghost invariant = { λ r. Held (state r.lists.now) × FoundIf r.at (row r.side r.key (state r.lists.now).cells) };
}

impl Lists {
    // How many readers or points are admitted.
    fn admitted(&self, side: Side) -> usize
        ensures { result ≡ length (ends_of side (state self.now)) }
    {
        match side {
            Side::Reader => self.readers.len(),
            Side::Point => self.points.len(),
        }
    }

    // The first node of a list, if there is one.
    fn start(&self, side: Side, key: usize) -> Option<Place>
        requires { Held (state self.now) }
        ensures { result ≡ first_or None (row side key (state self.now).cells) }
    {
        if key < self.admitted(side) {
            return self.ends(side, key).first;
        }
        None
    }

    pub(crate) fn others(&self, side: Side, key: usize) -> Others<'_>
        requires { Held (state self.now) }
        ensures { result ≡ others_of side key (pairs_of (state self.now)) }
    {
        let at = self.start(side, key);
        Others {
            lists: self,
            side,
            key,
            at,
        }
    }

    // It goes along both lists in step, and stops where either ends.
    pub(crate) fn has(&self, reader: usize, point: usize) -> bool
        requires { Held (state self.now) }
        ensures { IsTrue result ↔ In (reader, point) (pairs_of (state self.now)) }
    {
        let mut points = self.others(Side::Reader, reader);
        let mut readers = self.others(Side::Point, point);
        while let Some(next) = points.next() {
            if next == point {
                return true;
            }
            let Some(next) = readers.next() else {
                return false;
            };
            if next == reader {
                return true;
            }
        }
        false
    }
}

// The other end of a node's pair, and its neighbours on a side.
fn step_of(node: &Node, side: Side) -> (usize, Link)
    ensures other { result.0 ≡ other_of side node.now }
    ensures link { result.1 ≡ link_of side node.now }
{
    match side {
        Side::Reader => (node.point, node.by_reader),
        Side::Point => (node.reader, node.by_point),
    }
}

impl<'a> Others<'a> {
    /// The next one, which is then no longer to come.
    pub fn next(&mut self) -> Option<usize>
        ensures { MatchOption result ((self.old ≡ []) × (self.new ≡ [])) (λ other. self.old ≡ other ∷ self.new) }
    {
        let Some(at) = self.at else {
            return None;
        };
        let (other, link) = step_of(self.lists.nodes.get(at), self.side);
        self.at = link.next;
        Some(other)
    }
}
