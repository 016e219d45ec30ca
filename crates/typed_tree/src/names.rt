ghost use Rattle.std.specs.Prelude.{◌≡◌, ◌<◌, ◌^◌, ℕ, IfOk, IsTrue, length, position, slice_get};
ghost use Rattle.std.specs.Str.{bytes_eq};
ghost use Rattle.std.specs.Option.{is_some, option_copied};
ghost use Rattle.typed_tree.specs.Declarers.{declares, first_declaring};
ghost use Rattle.typed_tree.specs.Elements.{elements_of, id_seen, is_among, lineage, parent_element, type_of};
ghost use Rattle.typed_tree.specs.Files.{declared_among, file_of, names_in, value_number, values_in};
ghost use Rattle.typed_tree.specs.MemberIndexes.{is_named};
ghost use Rattle.typed_tree.specs.Members.{component_of_site, declared_by, element_member_named, given_by, global_member_named, global_members_in, inherits, member_found, members_in};

use crate::bases::{Bases, bases_of, go};
use crate::built_ins::{built_in_at, built_in_of};
use crate::declarers::{declarers, is_among};
use crate::elements::{elements_of, first_seen, parent_of, type_of};
use crate::finding::{declared_at, declared_found, first_in, places_in};
use crate::member_indexes::{MemberIndex, member_indexes, number_in};
use crate::name_lists::{NameLists, name_lists};
use crate::{
    Declared, ElementMember, ElementType, FileName, Found, Member, MemberRef, Outline, Owner, Site,
};
use element_tables::{ElementKind, member_named};
use name_index::{NumbersByName, numbers_of};
use slint_base::{Memory, Name};
use sqlite_items::{Items, at};
use std::alloc::Global;
use std::marker::Model;
use value_types::EnumNames;

/// As many numbers are compared in about the time in which a name is found.
const FEW: usize = 16;

/// An outline with indexes by which its names are found. Contracts see it as the outline.
#[derive(Drop)]
pub struct Names {
    outline: Outline,
    lists: NameLists,
    members: Items<MemberIndex>,
    declarers: NumbersByName,
    bases: Bases,
}

impl Model for Names {
    ghost use Rattle.std.specs.Coded.{codes};
    ghost use Rattle.typed_tree.specs.contracts.outlines.Outline as outline_rows;
    ghost use Rattle.typed_tree.specs.declared.outlines.Outline.{Outline as OutlineValue};

    ghost Value = { OutlineValue };

    ghost coded = { Prim.hlevel (codes, outline_rows.the_row.coded) };

    ghost view = { λ n. n.outline };

    ghost use Rattle.typed_tree.specs.Indexed.{IsIndexed};

    ghost invariant = { λ n. IsIndexed n.outline n.lists n.members n.declarers n.bases };
}

impl Names {
    /// The names of an outline.
    pub fn new(alloc: Global, outline: Outline) -> Result<Names, Memory>
        ensures { IfOk result (λ names. names ≡ outline) }
    {
        if !values_are_few(outline.enums.as_slice()) {
            return Err(Memory);
        }
        let lists = name_lists(alloc, &outline)?;
        let members = member_indexes(alloc, outline.comps.as_slice())?;
        let declarers = declarers(alloc, outline.comps.as_slice())?;
        let bases = bases_of(alloc, outline.comps.as_slice())?;
        Ok(Names {
            outline,
            lists,
            members,
            declarers,
            bases,
        })
    }

    /// The outline.
    pub fn outline(&self) -> &Outline
        ensures { result.now ≡ self.now }
    {
        &self.outline
    }

    /// The outline, without its indexes.
    pub fn into_outline(self) -> Outline
        ensures { result ≡ self }
    {
        self.outline
    }

    /// The member of an element of a component that has a name, if there is one: declared in its body, or in the root element of a
    /// component that it is built on, or built in.
    pub fn element_member(
        &self,
        alloc: Global,
        component: usize,
        element: usize,
        name: &Name,
    ) -> Result<Option<Found>, Memory>
        ensures { IfOk result (λ found. found ≡ element_member_named self.now.comps component element name.now) }
    {
        match self.declared_member(alloc, element, component, element, name)? {
            Some(found) => Ok(Some(found)),
            None => self.given_member(alloc, component, element, name),
        }
    }

    /// The member of a name that an element of a component has from its type, if there is one: declared in the root element of a
    /// component that it is built on, or built in.
    pub fn given_member(
        &self,
        alloc: Global,
        component: usize,
        element: usize,
        name: &Name,
    ) -> Result<Option<Found>, Memory>
        ensures { IfOk result (λ found. found ≡ given_by self.now.comps element name.now (lineage self.now.comps (type_of self.now.comps component element))) }
    {
        let ty = type_of(self.outline.comps.as_slice(), component, element);
        self.member_of_type(alloc, element, ty, name)
    }

    /// The member of a name that an element of a type has from it.
    fn member_of_type(
        &self,
        alloc: Global,
        element: usize,
        ty: ElementType,
        name: &Name,
    ) -> Result<Option<Found>, Memory>
        ensures { IfOk result (λ found. found ≡ given_by self.now.comps element name.now (lineage self.now.comps ty)) }
    {
        match self.declaring_base(ty, name) {
            Some(base) => self.declared_member(alloc, element, base, 0, name),
            None => built_in_of(alloc, element, self.kind_of_type(ty), name),
        }
    }

    /// Whether an element of a component has a member of a name from its type.
    pub fn has_given_member(&self, component: usize, element: usize, name: &Name) -> bool
        ensures { result ≡ is_some (given_by self.now.comps element name.now (lineage self.now.comps (type_of self.now.comps component element))) }
    {
        let ty = type_of(self.outline.comps.as_slice(), component, element);
        match self.declaring_base(ty, name) {
            Some(_) => true,
            None => member_named(self.kind_of_type(ty), name.as_str()).is_some(),
        }
    }

    /// Of the components that a type is built on the first that declares a member of a name in its root element.
    fn declaring_base(&self, ty: ElementType, name: &Name) -> Option<usize>
        ensures { result ≡ first_declaring self.now.comps name.now (lineage self.now.comps ty).comps }
    {
        let declarers = numbers_of(&self.declarers, name);
        if declarers.is_empty() {
            return None;
        }
        self.first_declaring(ty, name, declarers)
    }

    /// The same, where these are the components that do.
    fn first_declaring(&self, ty: ElementType, name: &Name, declarers: &[usize]) -> Option<usize>
        requires { (c : ℕ) → is_among declarers.now c ≡ declares self.now.comps name.now c }
        ensures { result ≡ first_declaring self.now.comps name.now (lineage self.now.comps ty).comps }
    {
        let types = self.bases.types.as_slice();
        let mut below = ty;
        for _ in 0..types.len() {
            let ElementType::Component(base) = below else {
                return None;
            };
            if self.declares(base, name, declarers) {
                return Some(base);
            }
            below = go(types, below);
        }
        None
    }

    /// Whether a component declares a member of a name in its root element, where these are the components that do.
    fn declares(&self, component: usize, name: &Name, declarers: &[usize]) -> bool
        requires { (c : ℕ) → is_among declarers.now c ≡ declares self.now.comps name.now c }
        ensures { result ≡ declares self.now.comps name.now component }
    {
        // Few numbers are compared sooner than a name is found.
        if declarers.len() <= FEW {
            is_among(declarers, component)
        } else {
            self.member_number(component, 0, name).is_some()
        }
    }

    /// A member that an element has as an instance of a component, which declares it in the body of one of its elements.
    fn declared_member(
        &self,
        alloc: Global,
        element: usize,
        component: usize,
        inside: usize,
        name: &Name,
    ) -> Result<Option<Found>, Memory>
        ensures { IfOk result (λ found. found ≡ declared_by self.now.comps element component inside name.now) }
    {
        let Some(number) = self.member_number(component, inside, name) else {
            return Ok(None);
        };
        let member = MemberRef::Element(element, ElementMember::Declared(component, number));
        let found = at(self.members_of(component), number);
        declared_found(alloc, member, Owner::Component(component), found)
    }

    /// The member of a global that has a name, if there is one.
    pub fn global_member(
        &self,
        alloc: Global,
        global: usize,
        name: &Name,
    ) -> Result<Option<Found>, Memory>
        ensures { IfOk result (λ found. found ≡ global_member_named self.now.globals global name.now) }
    {
        let Some(number) = self.global_number(global, name) else {
            return Ok(None);
        };
        let member = MemberRef::Global(global, number);
        let found = at(self.members_of_global(global), number);
        declared_found(alloc, member, Owner::Global(global), found)
    }

    /// The member that a reference in a body names, if it is there.
    pub fn member(
        &self,
        alloc: Global,
        body: Site,
        member: MemberRef,
    ) -> Result<Option<Found>, Memory>
        ensures { IfOk result (λ found. found ≡ member_found self.now body member) }
    {
        match member {
            MemberRef::Element(element, ElementMember::BuiltIn(number)) => {
                let kind = self.kind(component_of(body), element);
                built_in_at(alloc, member, kind, number)
            }
            MemberRef::Element(_, ElementMember::Declared(component, number)) => {
                let found = at(self.members_of(component), number);
                declared_found(alloc, member, Owner::Component(component), found)
            }
            MemberRef::Global(global, number) => {
                let found = at(self.members_of_global(global), number);
                declared_found(alloc, member, Owner::Global(global), found)
            }
        }
    }

    /// The built-in kind of an element: its own, or that below the components that it is built on.
    pub fn kind(&self, component: usize, element: usize) -> ElementKind
        ensures { result ≡ (lineage self.now.comps (type_of self.now.comps component element)).kind }
    {
        self.kind_of_type(type_of(self.outline.comps.as_slice(), component, element))
    }

    /// The built-in kind below a type.
    pub fn kind_of_type(&self, ty: ElementType) -> ElementKind
        ensures { result ≡ (lineage self.now.comps ty).kind }
    {
        self.bases.kind(ty)
    }

    /// Whether a body is that of a component that inherits the owner of a member.
    pub fn inherits(&self, body: Site, owner: Owner) -> bool
        ensures { result ≡ inherits self.now.comps body owner }
    {
        match (body, owner) {
            (Site::Element(component, _), Owner::Component(other)) => {
                let ty = type_of(self.outline.comps.as_slice(), component, 0);
                self.is_built_on(ty, other)
            }
            _ => false,
        }
    }

    /// Whether a component is among those that a type is built on.
    fn is_built_on(&self, ty: ElementType, component: usize) -> bool
        ensures { result ≡ is_among (lineage self.now.comps ty).comps component }
    {
        let types = self.bases.types.as_slice();
        let mut below = ty;
        for _ in 0..types.len() {
            let ElementType::Component(base) = below else {
                return false;
            };
            if base == component {
                return true;
            }
            below = go(types, below);
        }
        false
    }

    /// The number of the element of the component at hand whose id a name is, if one is seen from a body: of those the first.
    pub fn id(&self, body: Site, name: &Name) -> Option<usize>
        ensures { result ≡ id_seen self.now.comps body name.now }
    {
        match body {
            Site::Element(component, from) => {
                let elements = elements_of(self.outline.comps.as_slice(), component);
                let places = places_in(self.lists.ids.as_slice(), component, name);
                first_seen(elements, from, name, places)
            }
            Site::Global(_) => None,
        }
    }

    /// The parent of an element: none of a root element, and of an element in a `Row` the grid.
    pub fn parent_element(&self, component: usize, element: usize) -> Option<usize>
        ensures { result ≡ parent_element self.now component element }
    {
        let elements = elements_of(self.outline.comps.as_slice(), component);
        let parent = parent_of(elements, element)?;
        match self.kind(component, parent) {
            ElementKind::Row => parent_of(elements, parent),
            _ => Some(parent),
        }
    }

    /// What a name of a file's scope stands for, if the file declares or imports it.
    pub fn declared(&self, file: usize, name: &Name) -> Option<&Declared>
        ensures { option_copied result ≡ declared_among name.now (names_in (slice_get self.now.files file)) }
    {
        match first_in(self.lists.files.as_slice(), file, name) {
            Some(number) => declared_at(self.names_of_file(file), number),
            None => None,
        }
    }

    /// The number of the file in which a body stands.
    pub fn file_of(&self, body: Site) -> usize
        ensures { result ≡ file_of self.now body }
    {
        match body {
            Site::Element(component, _) => match at(self.outline.comps.as_slice(), component) {
                Some(comp) => comp.file,
                None => 0,
            },
            Site::Global(global) => match at(self.outline.globals.as_slice(), global) {
                Some(global) => global.file,
                None => 0,
            },
        }
    }

    /// The number of an enum's value that has a name, if there is one.
    pub fn enum_value(&self, enum_number: u32, name: &Name) -> Option<u32>
        ensures { result ≡ value_number self.now.enums enum_number name.now }
    {
        match first_in(self.lists.values.as_slice(), enum_number as usize, name) {
            Some(number) => Some(number as u32),
            None => None,
        }
    }

    /// The members that a component declares.
    fn members_of(&self, component: usize) -> &[Member]
        ensures { result.now ≡ members_in (slice_get self.now.comps component) }
    {
        match at(self.outline.comps.as_slice(), component) {
            Some(comp) => comp.members.as_slice(),
            None => &[],
        }
    }

    /// The number of the first member of a name that is declared in the body of a component's element.
    fn member_number(&self, component: usize, element: usize, name: &Name) -> Option<usize>
        ensures { result ≡ position (is_named element name.now) (members_in (slice_get self.now.comps component)) }
    {
        number_in(self.members.as_slice(), component, element, name)
    }

    /// The number of the first member of a global that has a name.
    fn global_number(&self, global: usize, name: &Name) -> Option<usize>
        ensures { result ≡ position (λ m. bytes_eq m.name.name name.now) (global_members_in (slice_get self.now.globals global)) }
    {
        first_in(self.lists.globals.as_slice(), global, name)
    }

    /// The names of a file's scope.
    fn names_of_file(&self, file: usize) -> &[FileName]
        ensures { result.now ≡ names_in (slice_get self.now.files file) }
    {
        match at(self.outline.files.as_slice(), file) {
            Some(file) => file.names.as_slice(),
            None => &[],
        }
    }

    /// The members of a global.
    fn members_of_global(&self, global: usize) -> &[Member]
        ensures { result.now ≡ global_members_in (slice_get self.now.globals global) }
    {
        match at(self.outline.globals.as_slice(), global) {
            Some(global) => global.members.as_slice(),
            None => &[],
        }
    }
}

/// Whether each enum has so few values that they can be numbered.
fn values_are_few(enums: &[EnumNames]) -> bool
    ensures { IsTrue result → (k : ℕ) → length (values_in (slice_get enums.now k)) < 2 ^ 32 }
{
    for names in enums {
        if names.values.len() > u32::MAX as usize {
            return false;
        }
    }
    true
}

/// The component of a body; of a global, which has none, it is 0.
fn component_of(body: Site) -> usize
    ensures { result ≡ component_of_site body }
{
    match body {
        Site::Element(component, _) => component,
        Site::Global(_) => 0,
    }
}
