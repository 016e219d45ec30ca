ghost use Rattle.std.specs.Prelude.{◌≡◌, ◌<◌, ◌≤◌, IfSome};
ghost use Rattle.std.specs.Str.{bytes_eq};
ghost use Rattle.slint_literals.specs.Numbers.{measure_of};

/// A type whose values are whole numbers of a smallest unit.
#[derive(Clone, Copy, Debug, PartialEq, Eq)]
pub(crate) enum Quantity {
    Float,
    Percent,
    Length,
    Duration,
    Angle,
}

/// What one of a unit is: `factor / divisor` smallest units of a type.
#[derive(Clone, Copy, Debug, PartialEq, Eq)]
pub(crate) struct Measure {
    pub(crate) quantity: Quantity,
    pub(crate) factor: u32,
    pub(crate) divisor: u32,
}

/// Whether a unit has this name.
fn is(unit: &[u8], name: &str) -> bool
    ensures { result ≡ bytes_eq unit.now name.now }
{
    unit == name.as_bytes()
}

/// What one of a unit is, by the unit's name.
pub(crate) fn measure_of(unit: &[u8]) -> Option<Measure>
    ensures value { result ≡ measure_of unit.now }
{
    let (quantity, factor, divisor) = if is(unit, "") {
        (Quantity::Float, 1_000_000, 1)
    } else if is(unit, "%") {
        (Quantity::Percent, 1_000_000, 1)
    } else if is(unit, "px") || is(unit, "phx") {
        (Quantity::Length, 1_000, 1)
    } else if is(unit, "in") {
        (Quantity::Length, 96_000, 1)
    } else if is(unit, "pt") {
        (Quantity::Length, 96_000, 72)
    } else if is(unit, "cm") {
        (Quantity::Length, 9_600_000, 254)
    } else if is(unit, "mm") {
        (Quantity::Length, 960_000, 254)
    } else if is(unit, "ms") {
        (Quantity::Duration, 1, 1)
    } else if is(unit, "s") {
        (Quantity::Duration, 1_000, 1)
    } else if is(unit, "deg") {
        (Quantity::Angle, 1_000, 1)
    } else if is(unit, "grad") {
        (Quantity::Angle, 900, 1)
    } else if is(unit, "turn") {
        (Quantity::Angle, 360_000, 1)
    } else {
        return None;
    };
    Some(Measure {
        quantity,
        factor,
        divisor,
    })
}
