ghost use Rattle.std.specs.Prelude.{◌≡◌, ◌+◌, ◌-◌, IfOk, if◌then◌else◌, length, map};
ghost use Rattle.typed_tree.specs.Bases.{AreAfter, AreBases, go, kind_by, kind_of, root_type};

use crate::{ComponentOutline, ElementType};
use element_tables::ElementKind;
use slint_base::Memory;
use sqlite_items::{Items, at};
use std::alloc::Global;

/// What components are built on.
#[derive(Drop)]
pub(crate) struct Bases {
    /// The type of each component's root element.
    pub types: Items<ElementType>,
    /// The built-in kind below each component.
    pub kinds: Items<ElementKind>,
}

impl Bases {
    /// The built-in kind below a type.
    pub fn kind(&self, ty: ElementType) -> ElementKind
        ensures { result ≡ kind_by self.now ty }
    {
        match ty {
            ElementType::BuiltIn(kind) => kind,
            ElementType::Component(component) => match at(self.kinds.as_slice(), component) {
                Some(kind) => *kind,
                None => ElementKind::Empty,
            },
        }
    }
}

/// What components are built on.
pub(crate) fn bases_of(alloc: Global, comps: &[ComponentOutline]) -> Result<Bases, Memory>
    ensures { IfOk result (λ bases. AreBases comps.now bases) }
{
    let types = root_types(alloc, comps)?;
    let ends = ends_below(alloc, comps, types.as_slice())?;
    let kinds = kinds_of(alloc, ends.as_slice())?;
    Ok(Bases { types, kinds })
}

/// The type of each component's root element.
fn root_types(alloc: Global, comps: &[ComponentOutline]) -> Result<Items<ElementType>, Memory>
    ensures { IfOk result (λ types. types ≡ map root_type comps.now) }
{
    let mut types = Items::new(alloc);
    for comp in comps {
        types.push(root_type(comp))?;
    }
    Ok(types)
}

/// The type of a component's root element.
fn root_type(comp: &ComponentOutline) -> ElementType
    ensures { result ≡ root_type comp.now }
{
    match at(comp.elements.as_slice(), 0) {
        Some(element) => element.ty,
        None => ElementType::BuiltIn(ElementKind::Empty),
    }
}

/// Where the bases of each component lead: by steps whose length doubles, since bases may be many.
fn ends_below(
    alloc: Global,
    comps: &[ComponentOutline],
    types: &[ElementType],
) -> Result<Items<ElementType>, Memory>
    requires { types.now ≡ map root_type comps.now }
    ensures { IfOk result (λ ends. AreAfter (1 + (length comps.now - 1)) comps.now ends) }
{
    let mut ends = Items::from_slice(alloc, types)?;
    let mut jumps = Items::from_slice(alloc, types)?;
    let mut left = types.len().saturating_sub(1);
    while left > 0 {
        ends = after_if(alloc, left % 2 == 1, ends, jumps.as_slice())?;
        jumps = after(alloc, jumps.as_slice(), jumps.as_slice())?;
        left /= 2;
    }
    Ok(ends)
}

/// The same types, or where a jump leads from each of them.
fn after_if(
    alloc: Global,
    goes: bool,
    types: Items<ElementType>,
    jumps: &[ElementType],
) -> Result<Items<ElementType>, Memory>
    ensures { IfOk result (λ made. made ≡ (if goes then map (go jumps.now) types else types)) }
{
    if goes {
        after(alloc, types.as_slice(), jumps)
    } else {
        Ok(types)
    }
}

/// Where a jump leads from each of some types.
fn after(
    alloc: Global,
    types: &[ElementType],
    jumps: &[ElementType],
) -> Result<Items<ElementType>, Memory>
    ensures { IfOk result (λ made. made ≡ map (go jumps.now) types.now) }
{
    let mut made = Items::new(alloc);
    for ty in types {
        made.push(go(jumps, *ty))?;
    }
    Ok(made)
}

/// Where a jump leads from a type.
pub(crate) fn go(jumps: &[ElementType], ty: ElementType) -> ElementType
    ensures { result ≡ go jumps.now ty }
{
    match ty {
        ElementType::BuiltIn(_) => ty,
        ElementType::Component(component) => match at(jumps, component) {
            Some(next) => *next,
            None => ElementType::BuiltIn(ElementKind::Empty),
        },
    }
}

/// The kinds of types, where no component below them is looked at.
fn kinds_of(alloc: Global, types: &[ElementType]) -> Result<Items<ElementKind>, Memory>
    ensures { IfOk result (λ kinds. kinds ≡ map kind_of types.now) }
{
    let mut kinds = Items::new(alloc);
    for ty in types {
        kinds.push(kind_of(*ty))?;
    }
    Ok(kinds)
}

/// The kind of a type, where no component below it is looked at.
fn kind_of(ty: ElementType) -> ElementKind
    ensures { result ≡ kind_of ty }
{
    match ty {
        ElementType::BuiltIn(kind) => kind,
        ElementType::Component(_) => ElementKind::Empty,
    }
}
