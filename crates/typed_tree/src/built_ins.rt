ghost use Rattle.std.specs.Prelude.{◌≡◌, ◌∷◌, ◌++◌, [], IfOk, OnOk};
ghost use Rattle.slint_base.specs.Names.{normal_name};
ghost use Rattle.element_tables.specs.Members.{members, row_numbered};
ghost use Rattle.typed_tree.specs.BuiltIns.{built_in_ty, enum_number, key_event, modifiers};
ghost use Rattle.typed_tree.specs.Members.{built_in_named, built_in_of, kind_of, mark_of, parameters_of, result_of, signature_of};

use crate::{ElementMember, Found, MemberKind, MemberRef, Owner, Signature};
use element_tables::{BuiltInEnum, BuiltInType, ElementKind, member_at, member_named};
use slint_base::{Memory, Name};
use sqlite_items::Items;
use std::alloc::Global;
use syntax_tree::{Access, Mark};
use value_types::{Fields, Ty};

/// The number of a built-in enum among the enums of each source.
pub fn built_in_enum(of: BuiltInEnum) -> u32
    ensures { result ≡ enum_number of }
{
    match of {
        BuiltInEnum::TextHorizontalAlignment => 0,
        BuiltInEnum::TextVerticalAlignment => 1,
        BuiltInEnum::TextWrap => 2,
        BuiltInEnum::TextOverflow => 3,
        BuiltInEnum::ImageFit => 4,
        BuiltInEnum::EventResult => 5,
        BuiltInEnum::LayoutAlignment => 6,
    }
}

/// The type of the language that a built-in type is.
pub fn built_in_type(alloc: Global, ty: BuiltInType) -> Result<Ty, Memory>
    ensures { IfOk result (λ made. made ≡ built_in_ty ty) }
{
    match ty {
        BuiltInType::Int => Ok(Ty::Int),
        BuiltInType::Float => Ok(Ty::Float),
        BuiltInType::Percent => Ok(Ty::Percent),
        BuiltInType::Bool => Ok(Ty::Bool),
        BuiltInType::Str => Ok(Ty::Str),
        BuiltInType::Color => Ok(Ty::Color),
        BuiltInType::Length => Ok(Ty::Length),
        BuiltInType::Duration => Ok(Ty::Duration),
        BuiltInType::Angle => Ok(Ty::Angle),
        BuiltInType::Image => Ok(Ty::Image),
        BuiltInType::Enum(of) => Ok(Ty::Enum(built_in_enum(of))),
        BuiltInType::KeyEvent => key_event(alloc),
        BuiltInType::KeyboardModifiers => modifiers(alloc),
    }
}

/// Puts a field behind others.
fn push_field(alloc: Global, fields: &mut Fields, name: &str, ty: Ty) -> Result<(), Memory>
    ensures { OnOk result (fields.new ≡ fields.old ++ (normal_name name.now, ty) ∷ []) }
{
    let name = Name::normal(alloc, name)?;
    fields.push((name, ty))?;
    Ok(())
}

/// The type of the keys that are held.
fn modifiers(alloc: Global) -> Result<Ty, Memory>
    ensures { IfOk result (λ made. made ≡ modifiers) }
{
    let mut fields = Items::new(alloc);
    push_field(alloc, &mut fields, "alt", Ty::Bool)?;
    push_field(alloc, &mut fields, "control", Ty::Bool)?;
    push_field(alloc, &mut fields, "meta", Ty::Bool)?;
    push_field(alloc, &mut fields, "shift", Ty::Bool)?;
    Ok(Ty::Struct(fields))
}

/// The type of what a key does.
fn key_event(alloc: Global) -> Result<Ty, Memory>
    ensures { IfOk result (λ made. made ≡ key_event) }
{
    let held = modifiers(alloc)?;
    let mut fields = Items::new(alloc);
    push_field(alloc, &mut fields, "modifiers", held)?;
    push_field(alloc, &mut fields, "repeat", Ty::Bool)?;
    push_field(alloc, &mut fields, "text", Ty::Str)?;
    Ok(Ty::Struct(fields))
}

/// A mark of a built-in property as one that is written.
fn mark_of(mark: element_tables::Mark) -> Mark
    ensures { result ≡ mark_of mark }
{
    match mark {
        element_tables::Mark::In => Mark::In,
        element_tables::Mark::Out => Mark::Out,
    }
}

/// The parameters of a built-in callback or function.
fn parameters_of(alloc: Global, parameter: Option<BuiltInType>) -> Result<Items<Ty>, Memory>
    ensures { IfOk result (λ made. made ≡ parameters_of parameter) }
{
    let mut parameters = Items::new(alloc);
    if let Some(ty) = parameter {
        parameters.push(built_in_type(alloc, ty)?)?;
    }
    Ok(parameters)
}

/// What a built-in callback or function gives.
fn result_of(alloc: Global, ty: Option<BuiltInType>) -> Result<Ty, Memory>
    ensures { IfOk result (λ made. made ≡ result_of ty) }
{
    match ty {
        None => Ok(Ty::Void),
        Some(ty) => built_in_type(alloc, ty),
    }
}

/// The signature of a built-in callback or function.
fn signature_of(alloc: Global, signature: element_tables::Signature) -> Result<Signature, Memory>
    ensures { IfOk result (λ made. made ≡ signature_of signature) }
{
    let parameters = parameters_of(alloc, signature.parameter)?;
    let result = result_of(alloc, signature.result)?;
    Ok(Signature { parameters, result })
}

/// What a built-in member is.
pub(crate) fn kind_of(alloc: Global, kind: element_tables::MemberKind) -> Result<MemberKind, Memory>
    ensures { IfOk result (λ made. made ≡ kind_of kind) }
{
    match kind {
        element_tables::MemberKind::Property(ty, mark, _) => {
            let ty = built_in_type(alloc, ty)?;
            Ok(MemberKind::Property(mark_of(mark), ty))
        }
        element_tables::MemberKind::Callback(signature) => {
            let signature = signature_of(alloc, signature)?;
            Ok(MemberKind::Callback(false, signature))
        }
        element_tables::MemberKind::Function(signature) => {
            let signature = signature_of(alloc, signature)?;
            Ok(MemberKind::Function(false, Access::Public, signature))
        }
    }
}

/// The member of a name that is built into an element's kind.
pub(crate) fn built_in_of(
    alloc: Global,
    element: usize,
    kind: ElementKind,
    name: &Name,
) -> Result<Option<Found>, Memory>
    ensures { IfOk result (λ found. found ≡ built_in_of element kind name.now) }
{
    match member_named(kind, name.as_str()) {
        Some(member) => {
            let kind = kind_of(alloc, member.kind)?;
            Ok(Some(Found {
                member: MemberRef::Element(element, ElementMember::BuiltIn(member.number)),
                kind,
                owner: Owner::Nobody,
            }))
        }
        None => Ok(None),
    }
}

/// The member of a number that is built into an element's kind, as a reference names it.
pub(crate) fn built_in_at(
    alloc: Global,
    reference: MemberRef,
    kind: ElementKind,
    number: u32,
) -> Result<Option<Found>, Memory>
    ensures { IfOk result (λ found. found ≡ built_in_named reference (row_numbered number (members kind))) }
{
    match member_at(kind, number) {
        Some(row) => {
            let kind = kind_of(alloc, row.1.kind)?;
            Ok(Some(Found {
                member: reference,
                kind,
                owner: Owner::Nobody,
            }))
        }
        None => Ok(None),
    }
}
