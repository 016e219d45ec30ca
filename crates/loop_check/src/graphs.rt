ghost use Rattle.std.specs.Prelude.{◌≡◌, ◌<◌, ◌++◌, IfOk, OnOk, map, slice_get};
ghost use Rattle.std.specs.List.{flat_map};
ghost use Rattle.loop_check.specs.Bodies.{bodies_in};
ghost use Rattle.loop_check.specs.Graphs.{Spreads, Within, edge_of, edges_in, edges_of, inferred_at, is_marked, is_reached, mark_or_not, number_at};

use crate::kinds::{has_no_mark, is_impure_by_marks};
use crate::numbers::{Numbers, number_members};
use crate::{Act, Body, Place, Routine};
use finite_graphs::{Graph, reached_from};
use slint_base::Memory;
use sqlite_items::Items;
use std::alloc::Global;
use typed_tree::TypedTree;

/// What is impure: numbers, and a mark for each number.
#[derive(Drop)]
pub(crate) struct Spread {
    numbers: Numbers,
    reached: Items<bool>,
}

impl Spread {
    /// What is impure in a source, whose bodies these are.
    pub(crate) fn new(alloc: Global, tree: &TypedTree, bodies: &[Body]) -> Result<Spread, Memory>
        requires { bodies.now ≡ bodies_in tree.now }
        ensures { IfOk result (λ spread. Spreads tree.now spread) }
    {
        let numbering = number_members(alloc, tree)?;
        let numbers = numbering.numbers;
        let things = numbering.things;
        let marks = marks_of(alloc, tree, things.as_slice())?;
        let mut graph = Graph::new(alloc, things.len());
        add_bodies(tree, &numbers, &mut graph, bodies)?;
        let reached = reached_from(alloc, &graph, marks.as_slice())?;
        Ok(Spread { numbers, reached })
    }

    /// Whether what is called is impure.
    pub(crate) fn is_reached(&self, calls: Option<Routine>) -> bool
        ensures { result ≡ is_reached self.now calls }
    {
        match self.numbers.number_called(calls) {
            Some(number) => mark_at(self.reached.as_slice(), number),
            None => false,
        }
    }
}

/// A mark at a place, false behind the end.
fn mark_at(marks: &[bool], number: usize) -> bool
    ensures { result ≡ mark_or_not (slice_get marks.now number) }
{
    match marks.get(number) {
        Some(mark) => *mark,
        None => false,
    }
}

/// A mark for each thing that is impure by its marks, or in any case.
fn marks_of(
    alloc: Global,
    tree: &TypedTree,
    things: &[Option<Routine>],
) -> Result<Items<bool>, Memory>
    ensures { IfOk result (λ marks. marks ≡ map (is_marked tree.now) things.now) }
{
    let mut marks = Items::new(alloc);
    for thing in things {
        marks.push(is_marked(tree, *thing))?;
    }
    Ok(marks)
}

/// Whether a thing is impure by its marks, or in any case.
fn is_marked(tree: &TypedTree, thing: Option<Routine>) -> bool
    ensures { result ≡ is_marked tree.now thing }
{
    match thing {
        None => true,
        Some(routine) => is_impure_by_marks(tree, routine),
    }
}

/// Adds the edges of bodies.
fn add_bodies(
    tree: &TypedTree,
    numbers: &Numbers,
    graph: &mut Graph,
    bodies: &[Body],
) -> Result<(), Memory>
    requires { Within numbers.now graph.old.nodes }
    ensures { OnOk result (graph.new ≡ record graph.old { edges = graph.old.edges ++ edges_in tree.now numbers.now bodies.now }) }
{
    for body in bodies {
        add_body(tree, numbers, graph, body)?;
    }
    Ok(())
}

/// Adds the edges of a body.
fn add_body(
    tree: &TypedTree,
    numbers: &Numbers,
    graph: &mut Graph,
    body: &Body,
) -> Result<(), Memory>
    requires { Within numbers.now graph.old.nodes }
    ensures { OnOk result (graph.new ≡ record graph.old { edges = graph.old.edges ++ edges_of tree.now numbers.now body.now }) }
{
    match number_at(numbers, inferred_at(tree, body.place)) {
        Some(to) => add_acts(numbers, graph, body.acts.as_slice(), to),
        None => Ok(()),
    }
}

/// The function of which a place is the body, where it depends on its acts whether it is impure.
fn inferred_at(tree: &TypedTree, place: Place) -> Option<Routine>
    ensures { result ≡ inferred_at tree.now place }
{
    match place {
        Place::Value => None,
        Place::Run(routine) => {
            if has_no_mark(tree, routine) {
                Some(routine)
            } else {
                None
            }
        }
    }
}

/// The number of a function that may be there.
fn number_at(numbers: &Numbers, routine: Option<Routine>) -> Option<usize>
    ensures { result ≡ number_at numbers.now routine }
{
    match routine {
        None => None,
        Some(routine) => numbers.number_of(routine),
    }
}

/// Adds the edges of acts, to what does them.
fn add_acts(numbers: &Numbers, graph: &mut Graph, acts: &[Act], to: usize) -> Result<(), Memory>
    requires within { Within numbers.now graph.old.nodes }
    requires to { to < graph.old.nodes }
    ensures { OnOk result (graph.new ≡ record graph.old { edges = graph.old.edges ++ flat_map (edge_of numbers.now to) acts.now }) }
{
    for act in acts {
        add_act(numbers, graph, act, to)?;
    }
    Ok(())
}

/// Adds the edge of an act, from what is called.
fn add_act(numbers: &Numbers, graph: &mut Graph, act: &Act, to: usize) -> Result<(), Memory>
    requires within { Within numbers.now graph.old.nodes }
    requires to { to < graph.old.nodes }
    ensures { OnOk result (graph.new ≡ record graph.old { edges = graph.old.edges ++ edge_of numbers.now to act.now }) }
{
    match numbers.number_called(act.calls) {
        Some(from) => graph.push(from, to),
        None => Ok(()),
    }
}
