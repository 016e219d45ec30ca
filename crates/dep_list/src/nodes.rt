//! The one owner of all nodes, and the only calls that follow a raw pointer.
ghost use Rattle.std.specs.Prelude.{◌≡◌, List, [], ◌∷◌, ◌++◌, Some, None, IsSome};
ghost use denote.RawPtr.{Ptr};
ghost use Rattle.dep_list.specs.declared.node.Node.{Node};

use crate::loose::Loose;
use crate::node::{Node, Place};
use std::alloc::Global;
use std::marker::{Model, PhantomData};

/// Owns every node, linked or spare, and takes no space. `cells` has each node with its place, in the order of linking:
/// a node that is written by `renew` is the last from then on.
pub struct Nodes {
    mark: PhantomData<*mut Node>,
    ghost cells: { List (Ptr × Node) },
}

impl Model for Nodes {
    ghost use Rattle.dep_list.specs.Ownership.{cells_own, cells_lent};

    ghost also_owns = { λ n. cells_own n.cells };

    ghost also_shares = { λ n _ κ. cells_lent n.cells κ };
}

impl Nodes {
    ghost use Rattle.dep_list.specs.Cells.{find, put, take_out};

    pub(crate) fn new() -> Nodes
        ensures { result.cells ≡ [] }
    {
        Nodes { mark: PhantomData }
    }

    // Nothing is left to free.
    pub(crate) fn finish(self)
        requires { self.cells ≡ [] }
    {
        let Nodes { mark: _ } = self;
    }

    pub(crate) fn get(&self, at: Place) -> &Node
        requires { IsSome (find self.now.cells at.ptr) }
        ensures { find self.now.cells at.ptr ≡ Some result.now }
    {
        unsafe { &*at.ptr }
    }

    // Writes the node, which keeps its place in the order.
    pub(crate) fn set(&mut self, at: Place, node: Node)
        requires { IsSome (find self.old.cells at.ptr) }
        ensures { self.new.cells ≡ put self.old.cells at.ptr node }
    {
        let ptr = at.ptr;
        unsafe {
            *ptr = node;
        }
    }

    // Writes the node, which is the last in the order from then on.
    pub(crate) fn renew(&mut self, at: Place, node: Node)
        requires { IsSome (find self.old.cells at.ptr) }
        ensures { self.new.cells ≡ take_out self.old.cells at.ptr ++ (at.ptr, node) ∷ [] }
    {
        let ptr = at.ptr;
        unsafe {
            *ptr = node;
        }
    }

    // Takes a node over, as the first in the order.
    pub(crate) fn adopt(&mut self, node: Loose<Node, Global>) -> Place
        ensures fresh { find self.old.cells result.ptr ≡ None }
        ensures cells { self.new.cells ≡ (result.ptr, node.value) ∷ self.old.cells }
    {
        let Loose { at, alloc: _ } = node;
        Place { ptr: at }
    }

    // Gives a node away, to be freed.
    pub(crate) fn release(&mut self, at: Place, alloc: Global) -> Loose<Node, Global>
        requires { IsSome (find self.old.cells at.ptr) }
        ensures value { find self.old.cells at.ptr ≡ Some result.value }
        ensures cells { self.new.cells ≡ take_out self.old.cells at.ptr }
    {
        Loose { at: at.ptr, alloc }
    }
}
