ghost use Rattle.std.specs.Prelude.{◌≡◌};
ghost use Rattle.inliner.specs.Extents.{deep_at, extent_at, extent_of, unknown};

use expanded_tree::MOST_ELEMENTS;
use slint_base::Fault;
use sqlite_items::{Items, at};
use std::alloc::Global;
use typed_tree::ElementType;

/// How large what stands for a type in the expanded tree is.
#[derive(Drop)]
pub(crate) struct Extent {
    /// Whether all components that are contained there are known.
    pub is_whole: bool,
    /// How many elements it has; more than there may be count as one more.
    pub size: usize,
    /// How many bodies stand in a row for it.
    pub height: usize,
    /// For each number of repeaters around it, up to one more than there may be, the first of the repeaters in it that are too many.
    pub deep: Items<Option<Fault>>,
}

/// That of a component of which nothing is known.
pub(crate) fn unknown(alloc: Global) -> Extent
    ensures { result ≡ unknown }
{
    Extent {
        is_whole: false,
        size: MOST_ELEMENTS + 1,
        height: 0,
        deep: Items::new(alloc),
    }
}

/// Whether that of a type is whole, by a table of components.
pub(crate) fn is_whole(table: &[Extent], ty: ElementType) -> bool
    ensures { result ≡ (extent_of (extent_at table.now) ty).is_whole }
{
    match ty {
        ElementType::BuiltIn(_) => true,
        ElementType::Component(component) => match at(table, component) {
            Some(extent) => extent.is_whole,
            None => false,
        },
    }
}

/// How many elements stand for a type.
pub(crate) fn size_of(table: &[Extent], ty: ElementType) -> usize
    ensures { result ≡ (extent_of (extent_at table.now) ty).size }
{
    match ty {
        ElementType::BuiltIn(_) => 1,
        ElementType::Component(component) => match at(table, component) {
            Some(extent) => extent.size,
            None => MOST_ELEMENTS + 1,
        },
    }
}

/// How many bodies stand in a row for a type.
pub(crate) fn height_of(table: &[Extent], ty: ElementType) -> usize
    ensures { result ≡ (extent_of (extent_at table.now) ty).height }
{
    match ty {
        ElementType::BuiltIn(_) => 0,
        ElementType::Component(component) => match at(table, component) {
            Some(extent) => extent.height,
            None => 0,
        },
    }
}

/// The first of the repeaters that are too many in what stands for a type, where so many are around it.
pub(crate) fn deep_of(table: &[Extent], ty: ElementType, depth: usize) -> Option<Fault>
    ensures { result ≡ deep_at (extent_of (extent_at table.now) ty) depth }
{
    match ty {
        ElementType::BuiltIn(_) => None,
        ElementType::Component(component) => match at(table, component) {
            Some(extent) => deep_at(extent, depth),
            None => None,
        },
    }
}

/// The first of the repeaters that are too many, where so many are around.
pub(crate) fn deep_at(extent: &Extent, depth: usize) -> Option<Fault>
    ensures { result ≡ deep_at extent.now depth }
{
    match at(extent.deep.as_slice(), depth) {
        Some(fault) => *fault,
        None => None,
    }
}
