ghost use Rattle.std.specs.Prelude.{◌≡◌, position, slice_get};
ghost use Rattle.std.specs.Option.{option_copied};
ghost use Rattle.std.specs.Str.{bytes_eq};
ghost use Rattle.element_tables.specs.Rows.{named, texts_of};
ghost use Rattle.element_tables.specs.Types.{types, enum_in, values_of};

use crate::names::NameTable;

/// A type that has a name without a declaration.
#[derive(Clone, Copy, Debug, PartialEq, Eq)]
pub enum BuiltInType {
    Int,
    Float,
    Percent,
    Bool,
    Str,
    Color,
    Length,
    Duration,
    Angle,
    Image,
    Enum(BuiltInEnum),
    /// `{ text: string, modifiers: KeyboardModifiers, repeat: bool }`.
    KeyEvent,
    /// `{ alt: bool, control: bool, meta: bool, shift: bool }`.
    KeyboardModifiers,
}

/// A built-in enum.
#[derive(Clone, Copy, Debug, PartialEq, Eq)]
pub enum BuiltInEnum {
    TextHorizontalAlignment,
    TextVerticalAlignment,
    TextWrap,
    TextOverflow,
    ImageFit,
    EventResult,
    LayoutAlignment,
}

const TYPES: [(&str, BuiltInType); 20] = [
    ("EventResult", BuiltInType::Enum(BuiltInEnum::EventResult)),
    ("ImageFit", BuiltInType::Enum(BuiltInEnum::ImageFit)),
    ("KeyEvent", BuiltInType::KeyEvent),
    ("KeyboardModifiers", BuiltInType::KeyboardModifiers),
    (
        "LayoutAlignment",
        BuiltInType::Enum(BuiltInEnum::LayoutAlignment),
    ),
    (
        "TextHorizontalAlignment",
        BuiltInType::Enum(BuiltInEnum::TextHorizontalAlignment),
    ),
    ("TextOverflow", BuiltInType::Enum(BuiltInEnum::TextOverflow)),
    (
        "TextVerticalAlignment",
        BuiltInType::Enum(BuiltInEnum::TextVerticalAlignment),
    ),
    ("TextWrap", BuiltInType::Enum(BuiltInEnum::TextWrap)),
    ("angle", BuiltInType::Angle),
    ("bool", BuiltInType::Bool),
    ("brush", BuiltInType::Color),
    ("color", BuiltInType::Color),
    ("duration", BuiltInType::Duration),
    ("float", BuiltInType::Float),
    ("image", BuiltInType::Image),
    ("int", BuiltInType::Int),
    ("length", BuiltInType::Length),
    ("percent", BuiltInType::Percent),
    ("string", BuiltInType::Str),
];

/// The built-in type of a name, `None` where there is none. `brush` and `color` are one type.
pub fn type_named(name: &str) -> Option<BuiltInType>
    ensures { result ≡ named name.now types }
{
    NameTable { rows: &TYPES }.find(name)
}

/// The built-in enum of a name, `None` where there is none.
pub fn enum_named(name: &str) -> Option<BuiltInEnum>
    ensures { result ≡ enum_in (named name.now types) }
{
    match type_named(name) {
        Some(BuiltInType::Enum(found)) => Some(found),
        _ => None,
    }
}

impl BuiltInEnum {
    /// The names of the values in order. The first one is the default.
    pub fn values(self) -> &'static [&'static str]
        ensures { texts_of result.now ≡ values_of self }
    {
        match self {
            BuiltInEnum::TextHorizontalAlignment => &["left", "center", "right"],
            BuiltInEnum::TextVerticalAlignment => &["top", "center", "bottom"],
            BuiltInEnum::TextWrap => &["no-wrap", "word-wrap"],
            BuiltInEnum::TextOverflow => &["clip", "elide"],
            BuiltInEnum::ImageFit => &["fill", "contain", "cover", "preserve"],
            BuiltInEnum::EventResult => &["reject", "accept"],
            BuiltInEnum::LayoutAlignment => {
                &[
                    "stretch",
                    "center",
                    "start",
                    "end",
                    "space-between",
                    "space-around",
                ]
            }
        }
    }

    /// The number of a value, by its name: its place among the values, counted from 0.
    pub fn value_named(self, name: &str) -> Option<usize>
        ensures { result ≡ position (λ value. bytes_eq value name.now) (values_of self) }
    {
        place_of(self.values(), name)
    }

    /// The name of a value, by its number.
    pub fn value_name(self, number: usize) -> Option<&'static str>
        ensures { option_copied result ≡ slice_get (values_of self) number }
    {
        self.values().get(number).copied()
    }
}

/// The place of a name in a list, if it is there.
fn place_of(names: &[&str], name: &str) -> Option<usize>
    ensures { result ≡ position (λ value. bytes_eq value.now name.now) names.now }
{
    names.iter().position(|value| *value == name)
}
