ghost use Rattle.std.specs.Prelude.{◌≡◌, ◌==◌, if◌then◌else◌};
ghost use Rattle.value_types.specs.declared.types.Ty.{out-Ty};
ghost use Rattle.value_types.specs.declared.types.Ty.TheVariants as ty_of;
ghost use Rattle.value_types.specs.CommonTypes.{zero_with, int_with, float_with, text_with, percent_with, void_with, bool_with, color_with, length_with, duration_with, angle_with, image_with, enum_with};

use crate::Ty;

/// What a literal of zeros and another type have in common.
pub(crate) fn zero_with(other: &Ty) -> Option<Ty>
    ensures { result ≡ zero_with (out-Ty other.now) }
{
    match other {
        Ty::Zero => Some(Ty::Zero),
        Ty::Int => Some(Ty::Int),
        Ty::Float => Some(Ty::Float),
        Ty::Percent => Some(Ty::Float),
        Ty::Str => Some(Ty::Str),
        Ty::Length => Some(Ty::Length),
        Ty::Duration => Some(Ty::Duration),
        Ty::Angle => Some(Ty::Angle),
        _ => None,
    }
}

/// What an int and another type have in common.
pub(crate) fn int_with(other: &Ty) -> Option<Ty>
    ensures { result ≡ int_with (out-Ty other.now) }
{
    match other {
        Ty::Zero => Some(Ty::Int),
        Ty::Int => Some(Ty::Int),
        Ty::Float => Some(Ty::Float),
        Ty::Percent => Some(Ty::Float),
        Ty::Str => Some(Ty::Str),
        _ => None,
    }
}

/// What a float and another type have in common.
pub(crate) fn float_with(other: &Ty) -> Option<Ty>
    ensures { result ≡ float_with (out-Ty other.now) }
{
    match other {
        Ty::Zero => Some(Ty::Float),
        Ty::Int => Some(Ty::Float),
        Ty::Float => Some(Ty::Float),
        Ty::Percent => Some(Ty::Float),
        Ty::Str => Some(Ty::Str),
        _ => None,
    }
}

/// What a text and another type have in common.
pub(crate) fn text_with(other: &Ty) -> Option<Ty>
    ensures { result ≡ text_with (out-Ty other.now) }
{
    match other {
        Ty::Zero => Some(Ty::Str),
        Ty::Int => Some(Ty::Str),
        Ty::Float => Some(Ty::Str),
        Ty::Percent => Some(Ty::Str),
        Ty::Str => Some(Ty::Str),
        _ => None,
    }
}

/// What a percent and another type have in common.
pub(crate) fn percent_with(other: &Ty) -> Option<Ty>
    ensures { result ≡ percent_with (out-Ty other.now) }
{
    match other {
        Ty::Percent => Some(Ty::Percent),
        _ => float_with(other),
    }
}

/// What no value and another type have in common.
pub(crate) fn void_with(other: &Ty) -> Option<Ty>
    ensures { result ≡ void_with (out-Ty other.now) }
{
    match other {
        Ty::Void => Some(Ty::Void),
        _ => None,
    }
}

/// What a truth value and another type have in common.
pub(crate) fn bool_with(other: &Ty) -> Option<Ty>
    ensures { result ≡ bool_with (out-Ty other.now) }
{
    match other {
        Ty::Bool => Some(Ty::Bool),
        _ => None,
    }
}

/// What a colour and another type have in common.
pub(crate) fn color_with(other: &Ty) -> Option<Ty>
    ensures { result ≡ color_with (out-Ty other.now) }
{
    match other {
        Ty::Color => Some(Ty::Color),
        _ => None,
    }
}

/// What a length and another type have in common.
pub(crate) fn length_with(other: &Ty) -> Option<Ty>
    ensures { result ≡ length_with (out-Ty other.now) }
{
    match other {
        Ty::Length => Some(Ty::Length),
        Ty::Zero => Some(Ty::Length),
        _ => None,
    }
}

/// What a duration and another type have in common.
pub(crate) fn duration_with(other: &Ty) -> Option<Ty>
    ensures { result ≡ duration_with (out-Ty other.now) }
{
    match other {
        Ty::Duration => Some(Ty::Duration),
        Ty::Zero => Some(Ty::Duration),
        _ => None,
    }
}

/// What an angle and another type have in common.
pub(crate) fn angle_with(other: &Ty) -> Option<Ty>
    ensures { result ≡ angle_with (out-Ty other.now) }
{
    match other {
        Ty::Angle => Some(Ty::Angle),
        Ty::Zero => Some(Ty::Angle),
        _ => None,
    }
}

/// What an image and another type have in common.
pub(crate) fn image_with(other: &Ty) -> Option<Ty>
    ensures { result ≡ image_with (out-Ty other.now) }
{
    match other {
        Ty::Image => Some(Ty::Image),
        _ => None,
    }
}

/// What an enum and another type have in common.
pub(crate) fn enum_with(number: u32, other: &Ty) -> Option<Ty>
    ensures { result ≡ enum_with number (out-Ty other.now) }
{
    match other {
        Ty::Enum(same) => same_enum(number, *same),
        _ => None,
    }
}

/// An enum, where another is the same.
fn same_enum(number: u32, other: u32) -> Option<Ty>
    ensures { result ≡ (if number == other then Some (ty_of.Enum number) else None) }
{
    if number == other {
        Some(Ty::Enum(number))
    } else {
        None
    }
}
