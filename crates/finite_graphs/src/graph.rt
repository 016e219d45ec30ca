ghost use Rattle.std.specs.Prelude.{◌≡◌, ◌<◌, [], ◌∷◌, ◌++◌, OnOk, OnErr, length};
ghost use Rattle.finite_graphs.specs.Graphs.{edge, EdgesWithin};

use crate::Edge;
use slint_base::Memory;
use sqlite_items::Items;
use std::alloc::Global;
use std::marker::Model;

/// Nodes that are numbered from 0, and the edges between them in the order in which they were added.
#[derive(Drop)]
pub struct Graph {
    nodes: usize,
    edges: Items<Edge>,
}

impl Model for Graph {
    ghost use Rattle.finite_graphs.specs.Graphs.{Drawn, EdgesWithin};

    ghost Value = { Drawn };

    ghost view = { λ g. record { nodes = g.nodes; edges = g.edges } };

    ghost invariant = { λ g. EdgesWithin g.nodes g.edges };
}

impl Graph {
    /// A graph of so many nodes, with no edge.
    pub fn new(alloc: Global, nodes: usize) -> Graph
        ensures { result ≡ record { nodes = nodes; edges = [] } }
    {
        Graph {
            nodes,
            edges: Items::new(alloc),
        }
    }

    /// Adds an edge behind those that are there.
    pub fn push(&mut self, from: usize, to: usize) -> Result<(), Memory>
        requires from { from < self.old.nodes }
        requires to { to < self.old.nodes }
        ensures ok { OnOk result (self.new ≡ record self.old { edges = self.old.edges ++ edge from to ∷ [] }) }
        ensures err { OnErr result (self.new ≡ self.old) }
    {
        self.edges.push(Edge { from, to })?;
        Ok(())
    }

    /// How many nodes there are.
    pub fn nodes(&self) -> usize
        ensures { result ≡ self.now.nodes }
    {
        self.nodes
    }

    /// The edges, in the order in which they were added.
    pub fn edges(&self) -> &[Edge]
        ensures all { result.now ≡ self.now.edges }
        ensures within { EdgesWithin self.now.nodes self.now.edges }
    {
        self.edges.as_slice()
    }
}
