ghost use Rattle.std.specs.Prelude.{◌≡◌, ◌++◌, [], ◌∷◌, IfOk, OnOk, insert, length, map, reverse, slice_get};
ghost use Rattle.expanded_tree.specs.Components.{elements_at, slot_at};
ghost use Rattle.expanded_tree.specs.Order.{at_root, children_of, elements_in_order, entering, in_order, inside, parts, placed_behind, placed_in, repeated_at, repeaters_at, told, with_placed, with_slot};
ghost use Rattle.expanded_tree.specs.declared.tasks.Task.TheVariants as task;
ghost use Rattle.typed_tree.specs.Bases.{kind_of};
ghost use Rattle.inliner.specs.Children.{AreChildren};

use crate::children::{all_children, row_of};
use crate::counting::sum;
use crate::repeaters::count_of;
use element_tables::ElementKind;
use expanded_tree::{
    Around, Body, ExpandedElement, Place, Spot, Task, elements_at, innermost, slot_at, type_at,
};
use slint_base::Memory;
use sqlite_items::{Items, at};
use std::alloc::Global;
use typed_tree::{ElementType, Repeat, Slot, TypedComponent};

/// What the way through the expanded tree goes by: the components, and the elements that are written directly in each of their elements;
/// the bodies and places.
#[derive(Clone, Copy)]
struct Ways<'a> {
    comps: &'a [TypedComponent],
    children: &'a [Items<Items<usize>>],
    bodies: &'a [Body],
    places: &'a [Place],
}

/// How many children of an element stand before what is placed there, if anything is.
fn placed_behind(slot: Option<Slot>, element: usize, count: usize) -> Option<usize>
    ensures { result ≡ placed_behind slot element count }
{
    match slot {
        Some(slot) => {
            if slot.element == element {
                Some(slot.before)
            } else {
                None
            }
        }
        None => { if element == 0 { Some(count) } else { None } }
    }
}

/// Tasks that enter elements of a body.
fn entering(
    alloc: Global,
    body: usize,
    around: Around,
    children: &[usize],
) -> Result<Items<Task>, Memory>
    ensures { IfOk result (λ tasks. tasks ≡ map (entering body around) children.now) }
{
    let mut tasks = Items::new(alloc);
    for element in children {
        let spot = Spot {
            body,
            element: *element,
        };
        tasks.push(Task::Enter(spot, around))?;
    }
    Ok(tasks)
}

/// These tasks from a place on are put behind others.
fn push_from(tasks: &mut Items<Task>, more: &[Task]) -> Result<(), Memory>
    ensures { OnOk result (tasks.new ≡ tasks.old ++ more.now) }
{
    for task in more {
        tasks.push(*task)?;
    }
    Ok(())
}

/// The tasks, and among them at a place one more, if there is a place for it.
fn with_placed(
    alloc: Global,
    place: Option<usize>,
    placed: Task,
    tasks: Items<Task>,
) -> Result<Items<Task>, Memory>
    ensures { IfOk result (λ all. all ≡ with_placed place placed tasks) }
{
    match place {
        Some(place) => {
            let all = placed_at(alloc, place, placed, tasks)?;
            Ok(all)
        }
        None => Ok(tasks),
    }
}

/// The tasks, and among them at a place one more.
fn placed_at(
    alloc: Global,
    place: usize,
    placed: Task,
    tasks: Items<Task>,
) -> Result<Items<Task>, Memory>
    ensures { IfOk result (λ all. all ≡ insert tasks place placed) }
{
    if tasks.len() <= place {
        let mut all = tasks;
        all.push(placed)?;
        return Ok(all);
    }
    let (front, back) = tasks.as_slice().split_at(place);
    let mut all = Items::new(alloc);
    push_from(&mut all, front)?;
    all.push(placed)?;
    push_from(&mut all, back)?;
    Ok(all)
}

/// What is written in an element of a body, with what comes there from outside the body.
fn inside_body(
    alloc: Global,
    ways: &Ways<'_>,
    spot: Spot,
    around: Around,
    comp: usize,
) -> Result<Items<Task>, Memory>
    requires { AreChildren ways.now.comps.now ways.now.children.now }
    ensures { IfOk result (λ tasks. tasks ≡ with_slot spot.body spot.element around (slot_at ways.now.comps.now comp) (map (entering spot.body around) (children_of (elements_at ways.now.comps.now comp) spot.element))) }
{
    let children = row_of(ways.children, comp, spot.element);
    let tasks = entering(alloc, spot.body, around, children)?;
    let place = placed_behind(slot_at(ways.comps, comp), spot.element, tasks.len());
    let placed = Task::Placed(spot.body, around);
    let all = with_placed(alloc, place, placed, tasks)?;
    Ok(all)
}

/// What is written at a spot, with what comes there from outside its body.
fn inside(alloc: Global, ways: &Ways<'_>, spot: Spot, around: Around) -> Result<Items<Task>, Memory>
    requires { AreChildren ways.now.comps.now ways.now.children.now }
    ensures { IfOk result (λ tasks. tasks ≡ inside ways.now.comps.now ways.now.bodies.now spot around) }
{
    match at(ways.bodies, spot.body) {
        Some(body) => {
            let tasks = inside_body(alloc, ways, spot, around, body.comp)?;
            Ok(tasks)
        }
        None => Ok(Items::new(alloc)),
    }
}

/// What is written where a body's component is used.
fn placed_in(
    alloc: Global,
    ways: &Ways<'_>,
    body: usize,
    around: Around,
) -> Result<Items<Task>, Memory>
    requires { AreChildren ways.now.comps.now ways.now.children.now }
    ensures { IfOk result (λ tasks. tasks ≡ placed_in ways.now.comps.now ways.now.bodies.now around (slice_get ways.now.bodies.now body)) }
{
    let Some(found) = at(ways.bodies, body) else {
        return Ok(Items::new(alloc));
    };
    match found.spot {
        Some(spot) => {
            let tasks = inside(alloc, ways, spot, around)?;
            Ok(tasks)
        }
        None => Ok(Items::new(alloc)),
    }
}

/// Whether the element at a spot is repeated.
fn repeated_at(ways: &Ways<'_>, spot: Spot) -> bool
    ensures { result ≡ repeated_at ways.now.comps.now ways.now.bodies.now spot }
{
    let Some(body) = at(ways.bodies, spot.body) else {
        return false;
    };
    match at(elements_at(ways.comps, body.comp), spot.element) {
        Some(element) => match &element.repeat {
            Repeat::Once => false,
            Repeat::If(_) => true,
            Repeat::For(_, _, _) => true,
        },
        None => false,
    }
}

/// How many repeaters are around the element at a spot, its own included.
fn repeaters_at(ways: &Ways<'_>, spot: Spot, around: Around) -> Result<usize, Memory>
    ensures { IfOk result (λ count. count ≡ repeaters_at ways.now.comps.now ways.now.bodies.now spot around) }
{
    sum(around.repeaters, count_of(repeated_at(ways, spot)))
}

/// The kind of the element at a spot where its type is built in.
fn kind_of(ty: ElementType) -> ElementKind
    ensures { result ≡ kind_of ty }
{
    match ty {
        ElementType::BuiltIn(kind) => kind,
        ElementType::Component(_) => ElementKind::Empty,
    }
}

/// Enters an element: what is inside it.
fn enter(
    alloc: Global,
    ways: &Ways<'_>,
    elements: &mut Items<ExpandedElement>,
    spot: Spot,
    around: Around,
) -> Result<Items<Task>, Memory>
    requires { AreChildren ways.now.comps.now ways.now.children.now }
    ensures tasks { IfOk result (λ tasks. tasks ≡ parts ways.now.comps.now ways.now.bodies.now ways.now.places.now (length elements.old) (task.Enter spot around)) }
    ensures elements { OnOk result (elements.new ≡ told ways.now.comps.now ways.now.bodies.now ways.now.places.now elements.old (task.Enter spot around)) }
{
    let last = innermost(ways.bodies, ways.places, spot);
    let repeaters = repeaters_at(ways, spot, around)?;
    let element = Some(elements.len());
    let tasks = inside(alloc, ways, last, Around { element, repeaters })?;
    elements.push(ExpandedElement {
        spot,
        kind: kind_of(type_at(ways.comps, ways.bodies, last)),
        parent: around.element,
        repeaters,
    })?;
    Ok(tasks)
}

/// Does a task: its parts.
fn step(
    alloc: Global,
    ways: &Ways<'_>,
    elements: &mut Items<ExpandedElement>,
    task: Task,
) -> Result<Items<Task>, Memory>
    requires { AreChildren ways.now.comps.now ways.now.children.now }
    ensures tasks { IfOk result (λ tasks. tasks ≡ parts ways.now.comps.now ways.now.bodies.now ways.now.places.now (length elements.old) task) }
    ensures elements { OnOk result (elements.new ≡ told ways.now.comps.now ways.now.bodies.now ways.now.places.now elements.old task) }
{
    match task {
        Task::Enter(spot, around) => {
            let tasks = enter(alloc, ways, elements, spot, around)?;
            Ok(tasks)
        }
        Task::Placed(body, around) => {
            let tasks = placed_in(alloc, ways, body, around)?;
            Ok(tasks)
        }
    }
}

/// Puts tasks on a stack, the first one on top.
fn push_all(stack: &mut Items<Task>, mut tasks: Items<Task>) -> Result<(), Memory>
    ensures { OnOk result (reverse stack.new ≡ tasks ++ reverse stack.old) }
{
    'pushes: while let Some(task) = tasks.pop() {
        stack.push(task)?;
    }
    Ok(())
}

/// The elements that so many tasks add, with the root element's first.
fn elements_along(
    alloc: Global,
    ways: &Ways<'_>,
    steps: usize,
) -> Result<Items<ExpandedElement>, Memory>
    requires { AreChildren ways.now.comps.now ways.now.children.now }
    ensures { IfOk result (λ elements. elements ≡ in_order steps ways.now.comps.now ways.now.bodies.now ways.now.places.now [] (at_root ∷ [])) }
{
    let mut elements = Items::new(alloc);
    let mut stack = Items::new(alloc);
    stack.push(at_root())?;
    for _ in 0..steps {
        let Some(task) = stack.pop() else {
            return Ok(elements);
        };
        let more = step(alloc, ways, &mut elements, task)?;
        push_all(&mut stack, more)?;
    }
    Ok(elements)
}

/// The first task.
fn at_root() -> Task
    ensures { result ≡ at_root }
{
    let spot = Spot {
        body: 0,
        element: 0,
    };
    let around = Around {
        element: None,
        repeaters: 0,
    };
    Task::Enter(spot, around)
}

/// The elements of the expanded tree in instance order.
pub(crate) fn elements_in_order(
    alloc: Global,
    comps: &[TypedComponent],
    bodies: &[Body],
    places: &[Place],
) -> Result<Items<ExpandedElement>, Memory>
    ensures { IfOk result (λ elements. elements ≡ elements_in_order comps.now bodies.now places.now) }
{
    let children = all_children(alloc, comps)?;
    let steps = sum(places.len(), bodies.len())?;
    let ways = Ways {
        comps,
        children: children.as_slice(),
        bodies,
        places,
    };
    let elements = elements_along(alloc, &ways, steps)?;
    Ok(elements)
}
