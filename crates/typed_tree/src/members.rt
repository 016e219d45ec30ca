ghost use Rattle.std.specs.Prelude.{◌≡◌, IfOk};
ghost use Rattle.typed_tree.specs.Members.{is_inside};

use crate::Site;
use slint_base::{Memory, Span};
use sqlite_items::Items;
use std::alloc::Global;
use syntax_tree::{Access, Ident, Mark};
use value_types::Ty;

/// A member of an element of the component at hand, or of a global.
#[derive(Clone, Copy)]
pub enum MemberRef {
    /// Of an element, by its number in the component.
    Element(usize, ElementMember),
    /// Of a global: the global's number, and the member's number in it.
    Global(usize, usize),
}

/// Which member of an element it is.
#[derive(Clone, Copy)]
pub enum ElementMember {
    /// A member that is built into the element's kind, by its number there.
    BuiltIn(u32),
    /// A declared one: the component in whose body it is declared, and its number among all members that are declared there.
    Declared(usize, usize),
}

/// A declared property, callback or function.
#[derive(Drop)]
pub struct Member {
    pub name: Ident,
    /// The element in whose body it is declared, by its number in the component. In a global it is 0.
    pub element: usize,
    pub kind: MemberKind,
    /// The stretch of the whole item.
    pub span: Span,
}

/// What a member is.
#[derive(Drop)]
pub enum MemberKind {
    /// A property: who may use it, and its type. No mark means `private`.
    Property(Mark, Ty),
    /// A callback: whether it is `pure`.
    Callback(bool, Signature),
    /// A function: whether it is marked `pure`, and who may call it.
    Function(bool, Access, Signature),
}

/// What a callback or function takes and gives.
#[derive(Drop)]
pub struct Signature {
    pub parameters: Items<Ty>,
    /// `Ty::Void` where it gives nothing.
    pub result: Ty,
}

/// Who owns a member: the component or the global in whose body it is declared. Nobody owns a built-in one.
#[derive(Clone, Copy)]
pub enum Owner {
    Nobody,
    Component(usize),
    Global(usize),
}

/// A member that a name leads to: how trees name it, what it is, and who owns it.
#[derive(Drop)]
pub struct Found {
    pub member: MemberRef,
    pub kind: MemberKind,
    pub owner: Owner,
}

impl Member {
    /// The same member once more.
    pub fn copy(&self, alloc: Global) -> Result<Member, Memory>
        ensures { IfOk result (λ member. member ≡ self.now) }
    {
        let name = Ident {
            name: self.name.name.copy()?,
            span: self.name.span,
        };
        let kind = self.kind.copy(alloc)?;
        Ok(Member {
            name,
            element: self.element,
            kind,
            span: self.span,
        })
    }
}

impl MemberKind {
    /// The same once more.
    pub fn copy(&self, alloc: Global) -> Result<MemberKind, Memory>
        ensures { IfOk result (λ kind. kind ≡ self.now) }
    {
        match self {
            MemberKind::Property(mark, ty) => {
                let ty = ty.copy(alloc)?;
                Ok(MemberKind::Property(*mark, ty))
            }
            MemberKind::Callback(is_pure, signature) => {
                let signature = signature.copy(alloc)?;
                Ok(MemberKind::Callback(*is_pure, signature))
            }
            MemberKind::Function(is_pure, access, signature) => {
                let signature = signature.copy(alloc)?;
                Ok(MemberKind::Function(*is_pure, *access, signature))
            }
        }
    }
}

impl Signature {
    /// The same signature once more.
    pub fn copy(&self, alloc: Global) -> Result<Signature, Memory>
        ensures { IfOk result (λ signature. signature ≡ self.now) }
    {
        let mut parameters = Items::new(alloc);
        for ty in self.parameters.as_slice() {
            parameters.push(ty.copy(alloc)?)?;
        }
        let result = self.result.copy(alloc)?;
        Ok(Signature { parameters, result })
    }
}

impl Found {
    /// The same once more.
    pub fn copy(&self, alloc: Global) -> Result<Found, Memory>
        ensures { IfOk result (λ found. found ≡ self.now) }
    {
        let kind = self.kind.copy(alloc)?;
        Ok(Found {
            member: self.member,
            kind,
            owner: self.owner,
        })
    }
}

/// Whether a body is that of a member's owner.
pub fn is_inside(at: Site, owner: Owner) -> bool
    ensures { result ≡ is_inside at owner }
{
    match (at, owner) {
        (Site::Element(component, _), Owner::Component(other)) => component == other,
        (Site::Global(global), Owner::Global(other)) => global == other,
        _ => false,
    }
}
