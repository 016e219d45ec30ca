ghost use Rattle.std.specs.Prelude.{◌≡◌, IfOk, reverse};
ghost use Rattle.type_resolver.specs.Resolves.{tree_of, with_bodies, with_elements};

use slint_base::Memory;
use sqlite_items::Items;
use std::alloc::Global;
use typed_tree::{
    ComponentOutline, GlobalOutline, Outline, TypedComponent, TypedElement, TypedGlobal, TypedItem,
    TypedTree,
};

/// The same items from the last one to the first, from where they can be taken one by one.
fn reversed<T: Drop>(alloc: Global, mut items: Items<T>) -> Result<Items<T>, Memory>
    ensures { IfOk result (λ made. made ≡ reverse items) }
{
    let mut made = Items::new(alloc);
    while let Some(item) = items.pop() {
        made.push(item)?;
    }
    Ok(made)
}

/// Components with what is written in their elements; both stand from the last one to the first.
fn join_elements(
    alloc: Global,
    mut comps: Items<ComponentOutline>,
    mut bodies: Items<Items<TypedElement>>,
) -> Result<Items<TypedComponent>, Memory>
    ensures { IfOk result (λ made. made ≡ with_elements (reverse comps) (reverse bodies)) }
{
    let mut made = Items::new(alloc);
    while let Some(outline) = comps.pop() {
        let Some(elements) = bodies.pop() else {
            return Ok(made);
        };
        made.push(TypedComponent { outline, elements })?;
    }
    Ok(made)
}

/// Components with what is written in their elements.
fn with_elements(
    alloc: Global,
    comps: Items<ComponentOutline>,
    bodies: Items<Items<TypedElement>>,
) -> Result<Items<TypedComponent>, Memory>
    ensures { IfOk result (λ made. made ≡ with_elements comps bodies) }
{
    let comps = reversed(alloc, comps)?;
    let bodies = reversed(alloc, bodies)?;
    let made = join_elements(alloc, comps, bodies)?;
    Ok(made)
}

/// Globals with what is written in them; both stand from the last one to the first.
fn join_bodies(
    alloc: Global,
    mut globals: Items<GlobalOutline>,
    mut bodies: Items<Items<TypedItem>>,
) -> Result<Items<TypedGlobal>, Memory>
    ensures { IfOk result (λ made. made ≡ with_bodies (reverse globals) (reverse bodies)) }
{
    let mut made = Items::new(alloc);
    while let Some(outline) = globals.pop() {
        let Some(items) = bodies.pop() else {
            return Ok(made);
        };
        made.push(TypedGlobal { outline, items })?;
    }
    Ok(made)
}

/// Globals with what is written in them.
fn with_bodies(
    alloc: Global,
    globals: Items<GlobalOutline>,
    bodies: Items<Items<TypedItem>>,
) -> Result<Items<TypedGlobal>, Memory>
    ensures { IfOk result (λ made. made ≡ with_bodies globals bodies) }
{
    let globals = reversed(alloc, globals)?;
    let bodies = reversed(alloc, bodies)?;
    let made = join_bodies(alloc, globals, bodies)?;
    Ok(made)
}

/// The tree of an outline with what is written in its components and globals.
pub(crate) fn tree_of(
    alloc: Global,
    outline: Outline,
    root: usize,
    elements: Items<Items<TypedElement>>,
    bodies: Items<Items<TypedItem>>,
) -> Result<TypedTree, Memory>
    ensures { IfOk result (λ tree. tree ≡ tree_of outline root (elements, bodies)) }
{
    let Outline {
        files: _,
        comps,
        globals,
        enums,
    } = outline;
    let comps = with_elements(alloc, comps, elements)?;
    let globals = with_bodies(alloc, globals, bodies)?;
    Ok(TypedTree {
        comps,
        globals,
        enums,
        root,
    })
}
