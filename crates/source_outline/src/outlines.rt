ghost use Rattle.std.specs.Prelude.{◌≡◌, IfOk, Some, map};
ghost use Rattle.std.specs.Option.{option_copied};
ghost use Rattle.source_elements.specs.Elements.{EachRow};
ghost use Rattle.source_elements.specs.Views.{how_often};
ghost use Rattle.source_scopes.specs.Shown.{shown_component, shown_global};
ghost use Rattle.source_outline.specs.Outlines.{component_outline, element_outline, element_ty, files_from, global_outline, outline_with, repeat_of, rough_outline, ty_span};

use crate::members::{copy_ident, element_members, push_members};
use crate::slots::slot_of;
use element_tables::ElementKind;
use slint_base::{Memory, Span};
use source_elements::{Repeating, Written, written_in};
use source_scopes::{FileComponent, FileGlobal, Scopes};
use sqlite_items::Items;
use std::alloc::Global;
use syntax_tree::{For, Ident};
use typed_tree::{
    ComponentOutline, ElementOutline, ElementType, FileOutline, GlobalOutline, Outline, Repeat,
};

/// The same name once more, if there is one.
fn copy_if_any(ident: Option<&Ident>) -> Result<Option<Ident>, Memory>
    ensures { IfOk result (λ same. same ≡ option_copied ident.entry) }
{
    match ident {
        Some(ident) => {
            let same = copy_ident(ident)?;
            Ok(Some(same))
        }
        None => Ok(None),
    }
}

/// What an element is, by the name of its type.
fn element_ty(scopes: &Scopes<'_>, file: usize, name: Option<&Ident>) -> ElementType
    ensures { result ≡ element_ty scopes.now file (option_copied name.entry) }
{
    match name {
        Some(name) => match scopes.element(file, &name.name) {
            Some(ty) => ty,
            None => ElementType::BuiltIn(ElementKind::Empty),
        },
        None => ElementType::BuiltIn(ElementKind::Empty),
    }
}

/// The stretch of the name of its type; of a component without a base the component's name.
fn ty_span(component: &Ident, name: Option<&Ident>) -> Span
    ensures { result ≡ ty_span component.now (option_copied name.entry) }
{
    match name {
        Some(name) => name.span,
        None => component.span,
    }
}

/// The names of a repeater.
fn repeat_for(repeated: &For) -> Result<Repeat, Memory>
    ensures { IfOk result (λ repeat. repeat ≡ repeat_of (EachRow repeated.now)) }
{
    let item = copy_ident(&repeated.item)?;
    let number = copy_if_any(repeated.number.as_ref())?;
    Ok(Repeat::For(item, number, repeated.word))
}

/// How often an element is there.
fn repeat_of(repeating: &Repeating<'_>) -> Result<Repeat, Memory>
    ensures { IfOk result (λ repeat. repeat ≡ repeat_of (how_often repeating.now)) }
{
    match repeating {
        Repeating::Once => Ok(Repeat::Once),
        Repeating::If(conditional) => Ok(Repeat::If(conditional.word)),
        Repeating::For(repeated) => repeat_for(repeated),
    }
}

/// An element of a component of this name.
fn element_outline(
    scopes: &Scopes<'_>,
    file: usize,
    component: &Ident,
    written: &Written<'_>,
) -> Result<ElementOutline, Memory>
    ensures { IfOk result (λ made. made ≡ element_outline scopes.now file component.now written.now) }
{
    let id = copy_if_any(written.id())?;
    let ty = element_ty(scopes, file, written.type_name());
    let ty_span = ty_span(component, written.type_name());
    let repeat = repeat_of(written.repeating())?;
    Ok(ElementOutline {
        id,
        ty,
        ty_span,
        parent: written.parent(),
        repeat,
    })
}

/// The elements of a component of this name.
fn element_outlines(
    alloc: Global,
    scopes: &Scopes<'_>,
    file: usize,
    component: &Ident,
    written: &[Written<'_>],
) -> Result<Items<ElementOutline>, Memory>
    ensures { IfOk result (λ made. made ≡ map (element_outline scopes.now file component.now) written.now) }
{
    let mut made = Items::new(alloc);
    for one in written {
        made.push(element_outline(scopes, file, component, one)?)?;
    }
    Ok(made)
}

/// A component of this name, by its elements as they are written.
fn outline_with(
    alloc: Global,
    scopes: &Scopes<'_>,
    file: usize,
    name: &Ident,
    written: &[Written<'_>],
) -> Result<ComponentOutline, Memory>
    ensures { IfOk result (λ made. made ≡ outline_with scopes.now file name.now written.now) }
{
    let members = element_members(alloc, scopes, file, written)?;
    let elements = element_outlines(alloc, scopes, file, name, written)?;
    let slot = slot_of(alloc, written)?;
    let name = copy_ident(name)?;
    Ok(ComponentOutline {
        name,
        file,
        members,
        elements,
        slot,
    })
}

/// A component.
fn component_outline(
    alloc: Global,
    scopes: &Scopes<'_>,
    component: &FileComponent<'_>,
) -> Result<ComponentOutline, Memory>
    ensures { IfOk result (λ made. made ≡ component_outline scopes.now (shown_component component.now)) }
{
    let written = written_in(alloc, component.component)?;
    let name = &component.component.name;
    let made = outline_with(alloc, scopes, component.file, name, written.as_slice())?;
    Ok(made)
}

/// A global.
fn global_outline(
    alloc: Global,
    scopes: &Scopes<'_>,
    global: &FileGlobal<'_>,
) -> Result<GlobalOutline, Memory>
    ensures { IfOk result (λ made. made ≡ global_outline scopes.now (shown_global global.now)) }
{
    let file = global.file;
    let mut members = Items::new(alloc);
    push_members(
        alloc,
        scopes,
        file,
        0,
        global.global.items.as_slice(),
        &mut members,
    )?;
    let name = copy_ident(&global.global.name)?;
    Ok(GlobalOutline {
        name,
        file,
        members,
    })
}

/// All components.
fn component_outlines(
    alloc: Global,
    scopes: &Scopes<'_>,
    components: &[FileComponent<'_>],
) -> Result<Items<ComponentOutline>, Memory>
    ensures { IfOk result (λ made. made ≡ map (component_outline scopes.now) (map shown_component components.now)) }
{
    let mut made = Items::new(alloc);
    for component in components {
        made.push(component_outline(alloc, scopes, component)?)?;
    }
    Ok(made)
}

/// All globals.
fn global_outlines(
    alloc: Global,
    scopes: &Scopes<'_>,
    globals: &[FileGlobal<'_>],
) -> Result<Items<GlobalOutline>, Memory>
    ensures { IfOk result (λ made. made ≡ map (global_outline scopes.now) (map shown_global globals.now)) }
{
    let mut made = Items::new(alloc);
    for global in globals {
        made.push(global_outline(alloc, scopes, global)?)?;
    }
    Ok(made)
}

/// The names of all files.
fn file_outlines(alloc: Global, scopes: &Scopes<'_>) -> Result<Items<FileOutline>, Memory>
    ensures { IfOk result (λ made. made ≡ files_from scopes.now 0 scopes.now) }
{
    let mut made = Items::new(alloc);
    for file in 0..scopes.file_count() {
        let names = scopes.file_names(alloc, file)?;
        made.push(FileOutline { names })?;
    }
    Ok(made)
}

/// The outline of a source in which a property that leaves its type out has the type void, and a callback that is declared by a link takes and
/// gives nothing.
pub fn sketch_roughly(alloc: Global, scopes: &Scopes<'_>) -> Result<Outline, Memory>
    ensures { IfOk result (λ outline. outline ≡ rough_outline scopes.now) }
{
    let files = file_outlines(alloc, scopes)?;
    let components = scopes.components(alloc)?;
    let comps = component_outlines(alloc, scopes, components.as_slice())?;
    let globals = scopes.globals(alloc)?;
    let globals = global_outlines(alloc, scopes, globals.as_slice())?;
    let enums = scopes.enums(alloc)?;
    Ok(Outline {
        files,
        comps,
        globals,
        enums,
    })
}
