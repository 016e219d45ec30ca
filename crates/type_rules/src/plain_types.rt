ghost use Rattle.std.specs.Prelude.{◌≡◌};
ghost use Rattle.value_types.specs.declared.types.Ty.{out-Ty};
ghost use Rattle.type_rules.specs.Conversions.{is_angle, is_bool, is_color, is_duration, is_empty, is_enum, is_float, is_image, is_int, is_length, is_percent, is_text, is_void, is_zero};

use value_types::Ty;

/// Whether a type is that of what gives no value.
pub fn is_void(ty: &Ty) -> bool
    ensures { result ≡ is_void (out-Ty ty.now) }
{
    matches!(ty, Ty::Void)
}

/// Whether a type is that of a literal of zeros.
pub(crate) fn is_zero(ty: &Ty) -> bool
    ensures { result ≡ is_zero (out-Ty ty.now) }
{
    matches!(ty, Ty::Zero)
}

/// Whether a type is int.
pub(crate) fn is_int(ty: &Ty) -> bool
    ensures { result ≡ is_int (out-Ty ty.now) }
{
    matches!(ty, Ty::Int)
}

/// Whether a type is float.
pub(crate) fn is_float(ty: &Ty) -> bool
    ensures { result ≡ is_float (out-Ty ty.now) }
{
    matches!(ty, Ty::Float)
}

/// Whether a type is percent.
pub(crate) fn is_percent(ty: &Ty) -> bool
    ensures { result ≡ is_percent (out-Ty ty.now) }
{
    matches!(ty, Ty::Percent)
}

/// Whether a type is bool.
pub(crate) fn is_bool(ty: &Ty) -> bool
    ensures { result ≡ is_bool (out-Ty ty.now) }
{
    matches!(ty, Ty::Bool)
}

/// Whether a type is string.
pub(crate) fn is_text(ty: &Ty) -> bool
    ensures { result ≡ is_text (out-Ty ty.now) }
{
    matches!(ty, Ty::Str)
}

/// Whether a type is color.
pub(crate) fn is_color(ty: &Ty) -> bool
    ensures { result ≡ is_color (out-Ty ty.now) }
{
    matches!(ty, Ty::Color)
}

/// Whether a type is length.
pub(crate) fn is_length(ty: &Ty) -> bool
    ensures { result ≡ is_length (out-Ty ty.now) }
{
    matches!(ty, Ty::Length)
}

/// Whether a type is duration.
pub(crate) fn is_duration(ty: &Ty) -> bool
    ensures { result ≡ is_duration (out-Ty ty.now) }
{
    matches!(ty, Ty::Duration)
}

/// Whether a type is angle.
pub(crate) fn is_angle(ty: &Ty) -> bool
    ensures { result ≡ is_angle (out-Ty ty.now) }
{
    matches!(ty, Ty::Angle)
}

/// Whether a type is image.
pub(crate) fn is_image(ty: &Ty) -> bool
    ensures { result ≡ is_image (out-Ty ty.now) }
{
    matches!(ty, Ty::Image)
}

/// Whether a type is that of `[]`.
pub(crate) fn is_empty(ty: &Ty) -> bool
    ensures { result ≡ is_empty (out-Ty ty.now) }
{
    matches!(ty, Ty::Empty)
}

/// Whether a type is an enum, by the enum's number.
pub(crate) fn is_enum(number: u32, ty: &Ty) -> bool
    ensures { result ≡ is_enum number (out-Ty ty.now) }
{
    match ty {
        Ty::Enum(other) => number == *other,
        _ => false,
    }
}
