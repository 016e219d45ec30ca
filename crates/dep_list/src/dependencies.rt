//! The pairs as callers have them.
ghost use Rattle.std.specs.Prelude.{◌≡◌, ◌+◌, ◌<◌, ◌≤◌, ◌↔◌, [], ◌∷◌, ◌++◌, length, IsTrue, OnOk};
ghost use Rattle.dep_list.specs.Pairs.{In, no_pairs, readers_of, points_of, drop_reader, drop_point, SameEnds, MoreEnds};

use crate::lists::Lists;
use crate::node::Side;
use crate::walking::Others;
use slint_base::Memory;
use std::alloc::Global;
use std::marker::Model;

/// Pairs of a reader and a point that it has read, both numbers, in order of linking, with room for further ones.
/// A reader's pairs, and a point's, are gone through and taken out without going through the others.
pub struct Deps {
    alloc: Global,
    lists: Lists,
}

impl Model for Deps {
    ghost use Rattle.dep_list.specs.Pairs.{Pairs};

    ghost Value = { Pairs };

    ghost use Rattle.dep_list.specs.Lists.{seen, state, Held};

    ghost view = { λ d. seen (state d.lists) };

    ghost invariant = { λ d. Held (state d.lists) };
}

impl Deps {
    /// No pair, no room, and neither a reader nor a point that is admitted.
    pub fn new(alloc: Global) -> Deps
        ensures { result ≡ no_pairs }
    {
        Deps {
            alloc,
            lists: Lists::new(alloc),
        }
    }

    /// Makes the room at least this large. After want of memory it may be larger than before, and never smaller.
    pub fn reserve(&mut self, pairs: usize) -> Result<(), Memory>
        ensures ok { OnOk result (pairs ≤ self.new.spare) }
        ensures pairs { self.new.pairs ≡ self.old.pairs }
        ensures spare { self.old.spare ≤ self.new.spare }
        ensures ends { SameEnds self.old self.new }
    {
        self.lists.reserve(self.alloc, pairs)
    }

    /// Admits the readers and the points below these numbers, beside those that are admitted.
    pub fn reserve_ends(&mut self, readers: usize, points: usize) -> Result<(), Memory>
        ensures readers { OnOk result (readers ≤ self.new.readers) }
        ensures points { OnOk result (points ≤ self.new.points) }
        ensures kept { MoreEnds self.old self.new }
    {
        self.lists.reserve_ends(readers, points)
    }

    /// Whether the pair is there. It takes as many steps as the shorter of the reader's and the point's list has pairs, at most.
    pub fn has(&self, reader: usize, point: usize) -> bool
        ensures { IsTrue result ↔ In (reader, point) self.now.pairs }
    {
        self.lists.has(reader, point)
    }

    /// Appends the pair, which takes one from the room.
    pub fn link(&mut self, reader: usize, point: usize)
        requires reader { reader < self.old.readers }
        requires point { point < self.old.points }
        requires new { ¬ In (reader, point) self.old.pairs }
        requires room { 0 < self.old.spare }
        ensures pairs { self.new.pairs ≡ self.old.pairs ++ (reader, point) ∷ [] }
        ensures spare { self.new.spare + 1 ≡ self.old.spare }
        ensures ends { SameEnds self.old self.new }
    {
        self.lists.link(reader, point)
    }

    /// Takes out exactly the reader's pairs, whose number is added to the room.
    pub fn unlink_reader(&mut self, reader: usize)
        requires { reader < self.old.readers }
        ensures pairs { self.new.pairs ≡ drop_reader reader self.old.pairs }
        ensures spare { self.new.spare + length self.new.pairs ≡ self.old.spare + length self.old.pairs }
        ensures ends { SameEnds self.old self.new }
    {
        self.lists.unlink(Side::Reader, reader)
    }

    /// Takes out exactly the point's pairs, whose number is added to the room.
    pub fn unlink_point(&mut self, point: usize)
        requires { point < self.old.points }
        ensures pairs { self.new.pairs ≡ drop_point point self.old.pairs }
        ensures spare { self.new.spare + length self.new.pairs ≡ self.old.spare + length self.old.pairs }
        ensures ends { SameEnds self.old self.new }
    {
        self.lists.unlink(Side::Point, point)
    }

    /// The readers of the point, in order of linking.
    pub fn readers(&self, point: usize) -> Others<'_>
        ensures { result ≡ readers_of point self.now.pairs }
    {
        self.lists.others(Side::Point, point)
    }

    /// The points of the reader, in order of linking.
    pub fn points(&self, reader: usize) -> Others<'_>
        ensures { result ≡ points_of reader self.now.pairs }
    {
        self.lists.others(Side::Reader, reader)
    }

    /// How many pairs there are.
    pub fn pairs(&self) -> u64
        ensures { result ≡ length self.now.pairs }
    {
        self.lists.count as u64
    }
}

impl Drop for Deps {
    fn drop(self) {
        let Deps { alloc, lists } = self;
        lists.free(alloc);
    }
}
