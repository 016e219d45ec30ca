//! Room is made for more pairs, readers and points, and given back at the end.
ghost use Rattle.std.specs.Prelude.{◌≡◌, ◌+◌, ◌^◌, ◌<◌, ◌≤◌, [], length, OnOk, OnErr, IsOk, vec_len, replicate, ◌++◌, ◌-◌};
ghost use Rattle.dep_list.specs.Lists.{Held, state, pairs_of, no_lists, no_ends, SamePairs, IsSpare};

use crate::lists::Lists;
use crate::loose::Loose;
use crate::node::{Ends, Side};
use crate::nodes::Nodes;
use crate::steps::spare_node;
use slint_base::Memory;
use std::alloc::Global;

impl Lists {
    pub(crate) fn new(alloc: Global) -> Lists
        ensures { state result ≡ no_lists }
    {
        Lists {
            nodes: Nodes::new(),
            readers: Vec::new(alloc),
            points: Vec::new(alloc),
            top: None,
            spare: 0,
            count: 0,
        }
    }

    // One more spare node.
    fn add_spare(&mut self, alloc: Global) -> Result<(), Memory>
        requires held { Held (state self.old) }
        requires small { self.old.spare + self.old.count + 1 < 2 ^ 64 }
        ensures held { Held (state self.new) }
        ensures pairs { SamePairs (state self.old) (state self.new) }
        ensures count { self.new.count ≡ self.old.count }
        ensures ok { OnOk result (self.new.spare ≡ self.old.spare + 1) }
        ensures err { OnErr result (self.new.spare ≡ self.old.spare) }
    {
        let node = Box::new(alloc, spare_node(self.top))?;
        let at = self.nodes.adopt(Loose::of(node));
        self.nodes.renew(at, spare_node(self.top));
        self.top = Some(at);
        self.spare += 1;
        Ok(())
    }

    // Spare nodes up to this many.
    pub(crate) fn reserve(&mut self, alloc: Global, pairs: usize) -> Result<(), Memory>
        requires { Held (state self.old) }
        ensures held { Held (state self.new) }
        ensures pairs { SamePairs (state self.old) (state self.new) }
        ensures ok { OnOk result (pairs ≤ self.new.spare) }
        ensures grown { self.old.spare ≤ self.new.spare }
    {
        if self.count.checked_add(pairs).is_none() {
            return Err(Memory);
        }
        while self.spare < pairs {
            self.add_spare(alloc)?;
        }
        Ok(())
    }

    // Readers below one number and points below another are admitted.
    pub(crate) fn reserve_ends(&mut self, readers: usize, points: usize) -> Result<(), Memory>
        requires { Held (state self.old) }
        ensures held { Held (state self.new) }
        ensures pairs { pairs_of (state self.new) ≡ pairs_of (state self.old) }
        ensures spare { self.new.spare ≡ self.old.spare }
        ensures readers { length (state self.old).readers ≤ length (state self.new).readers }
        ensures points { length (state self.old).points ≤ length (state self.new).points }
        ensures ok_readers { OnOk result (readers ≤ length (state self.new).readers) }
        ensures ok_points { OnOk result (points ≤ length (state self.new).points) }
    {
        admit(&mut self.readers, readers)?;
        admit(&mut self.points, points)?;
        Ok(())
    }

    // Every pair is taken out.
    fn clear(&mut self)
        requires { Held (state self.old) }
        ensures held { Held (state self.new) }
        ensures pairs { pairs_of (state self.new) ≡ [] }
    {
        for reader in 0..self.readers.len() {
            self.unlink(Side::Reader, reader);
        }
    }

    // Frees all nodes, which are spare.
    fn free_spare(&mut self, alloc: Global)
        requires { IsSpare (state self.old) }
        ensures { (state self.new).cells ≡ [] }
    {
        while let Some(at) = self.top {
            self.top = self.nodes.get(at).by_reader.next;
            let node = self.nodes.release(at, alloc).into_box();
            drop(node);
        }
    }

    // Frees all nodes.
    pub(crate) fn free(mut self, alloc: Global)
        requires { Held (state self) }
    {
        self.clear();
        self.free_spare(alloc);
        let Lists {
            nodes,
            readers: _,
            points: _,
            top: _,
            spare: _,
            count: _,
        } = self;
        nodes.finish();
    }
}

// Empty lists are added up to this many.
fn admit(ends: &mut Vec<Ends>, count: usize) -> Result<(), Memory>
    ensures items { ends.new.items ≡ ends.old.items ++ replicate (vec_len ends.new - vec_len ends.old) no_ends }
    ensures grown { length ends.old.items ≤ length ends.new.items }
    ensures ok { OnOk result (count ≤ length ends.new.items) }
{
    if ends.len() < count {
        ends.resize(
            count,
            Ends {
                first: None,
                last: None,
            },
        )?;
    }
    Ok(())
}
