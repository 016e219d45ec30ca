ghost use Rattle.std.specs.Prelude.{◌≡◌, IfOk, None};
ghost use Rattle.std.specs.Option.{option_copied};
ghost use Rattle.fault_order.specs.Order.{FirstIfAny, NoFault};
ghost use Rattle.import_resolver.specs.Loaded.{rows_of};
ghost use Rattle.item_types.specs.Judging.{Tells, both_told};
ghost use Rattle.source_scopes.specs.Declarations.{components_of, globals_of};
ghost use Rattle.declaration_rules.specs.Declarations.{DeclarationFault};
ghost use Rattle.source_outline.specs.Following.{outline as outline_of};
ghost use Rattle.type_resolver.specs.Bodies.{bodies};
ghost use Rattle.type_resolver.specs.Resolves.{BodyFault, ItemFault, Resolves, SecondPass, passed};

use crate::adding::earlier_fault;
use crate::sources::{Bodies, Elements, judge_components, judge_globals};
use crate::trees::tree_of;
use child_rules::child_fault;
use declaration_rules::declaration_fault;
use fault_order::earlier;
use import_resolver::Loaded;
use item_rules::item_fault;
use item_types::{one_condition, one_item, one_model};
use slint_base::{End, Fault, Memory, Name};
use source_outline::{Sketch, sketch_roughly, sketch_source};
use source_scopes::Scopes;
use sqlite_items::Items;
use std::alloc::Global;
use typed_tree::{Names, Outline, TypedElement, TypedItem, TypedTree};

/// The first fault of the second pass but for endless links.
fn fault_in_bodies(alloc: Global, scopes: &Scopes<'_>) -> Result<Option<Fault>, Memory>
    ensures { IfOk result (λ fault. FirstIfAny (BodyFault scopes.now) fault) }
{
    let outline = sketch_roughly(alloc, scopes)?;
    let names = Names::new(alloc, outline)?;
    let of_names = item_fault(alloc, scopes, &names)?;
    let of_children = child_fault(alloc, scopes, &names)?;
    Ok(earlier(of_names, of_children))
}

/// What the second pass comes to, by the first fault in bodies and by what the source is sketched as.
fn passed(in_bodies: Option<Fault>, sketch: Sketch) -> Result<Outline, Fault>
    ensures { result ≡ passed in_bodies sketch }
{
    match (in_bodies, sketch) {
        (None, Sketch::Whole(outline)) => Ok(outline),
        (Some(fault), Sketch::Whole(_)) => Err(fault),
        (None, Sketch::Endless(link)) => Err(link),
        (Some(fault), Sketch::Endless(link)) => Err(earlier_fault(fault, link)),
    }
}

/// The outline of a source, or the first fault of the second pass.
fn second_pass(alloc: Global, scopes: &Scopes<'_>) -> Result<Result<Outline, Fault>, Memory>
    ensures { IfOk result (λ told. SecondPass scopes.now told) }
{
    let in_bodies = fault_in_bodies(alloc, scopes)?;
    let sketch = sketch_source(alloc, scopes)?;
    Ok(passed(in_bodies, sketch))
}

/// What is written in the components and in the globals of a source.
type Typed = (Items<Items<TypedElement>>, Items<Items<TypedItem>>);

/// What is told of components and of globals.
fn both_told(elements: Elements, bodies: Bodies) -> Result<Typed, Fault>
    ensures { result ≡ both_told elements bodies }
{
    match (elements, bodies) {
        (Ok(elements), Ok(bodies)) => Ok((elements, bodies)),
        (Ok(_), Err(fault)) => Err(fault),
        (Err(fault), Ok(_)) => Err(fault),
        (Err(first), Err(second)) => Err(earlier_fault(first, second)),
    }
}

/// What is written in the components and globals of a source, or the first fault of the third pass.
fn third_pass(
    alloc: Global,
    scopes: &Scopes<'_>,
    names: &Names,
) -> Result<Result<Typed, Fault>, Memory>
    ensures { IfOk result (λ told. Tells (bodies names.now (components_of scopes.now) (globals_of scopes.now)) told) }
{
    one_item();
    one_condition();
    one_model();
    let components = scopes.components(alloc)?;
    let elements = judge_components(alloc, names, components.as_slice())?;
    let globals = scopes.globals(alloc)?;
    let bodies = judge_globals(alloc, names, globals.as_slice())?;
    Ok(both_told(elements, bodies))
}

/// The typed tree of a source in whose declarations and bodies nothing is broken, or the first fault of the third pass.
fn resolve_sound(
    alloc: Global,
    scopes: &Scopes<'_>,
    component: Option<&Name>,
    outline: Outline,
) -> Result<TypedTree, End<Fault>>
    requires declared { NoFault (DeclarationFault scopes.now (option_copied component)) }
    requires sound { NoFault (ItemFault scopes.now) }
    requires outline { outline ≡ outline_of scopes.now }
    ensures { Resolves scopes.now (option_copied component.entry) result }
{
    let Some(root) = scopes.root(alloc, component)? else {
        unreachable!();
    };
    let names = Names::new(alloc, outline)?;
    let (elements, bodies) = match third_pass(alloc, scopes, &names)? {
        Ok(typed) => typed,
        Err(fault) => return Err(End::Fault(fault)),
    };
    let tree = tree_of(alloc, names.into_outline(), root, elements, bodies)?;
    Ok(tree)
}

/// The typed tree of a source in whose declarations nothing is broken, or the first fault of the first pass that has one.
fn resolve_declared(
    alloc: Global,
    scopes: &Scopes<'_>,
    component: Option<&Name>,
) -> Result<TypedTree, End<Fault>>
    requires { NoFault (DeclarationFault scopes.now (option_copied component)) }
    ensures { Resolves scopes.now (option_copied component.entry) result }
{
    match second_pass(alloc, scopes)? {
        Ok(outline) => resolve_sound(alloc, scopes, component, outline),
        Err(fault) => Err(End::Fault(fault)),
    }
}

/// The typed tree of a loaded source: its names are looked up, and each expression has a type. `component` is the name of the component
/// that is to be its root, if one is asked for.
///
/// # Errors
///
/// The first fault of the first pass in which anything is broken: of declarations, of what is written in bodies, of expressions. `Memory`.
pub fn resolve(
    alloc: Global,
    loaded: &Loaded,
    component: Option<&Name>,
) -> Result<TypedTree, End<Fault>>
    ensures { Resolves (rows_of loaded.now) (option_copied component.entry) result }
{
    let scopes = Scopes::new(alloc, loaded)?;
    match declaration_fault(alloc, &scopes, component)? {
        Some(fault) => Err(End::Fault(fault)),
        None => resolve_declared(alloc, &scopes, component),
    }
}
