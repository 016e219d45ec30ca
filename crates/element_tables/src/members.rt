ghost use Rattle.std.specs.Prelude.{◌≡◌, ◌==◌, find};
ghost use Rattle.std.specs.Option.{option_map};
ghost use Rattle.element_tables.specs.Members.{members, numbered, common_of, own_of, further_of, row_numbered};
ghost use Rattle.element_tables.specs.Rows.{named, in_byte_order, row_of, rows_of};

use crate::elements::ElementKind;
use crate::names::NameTable;
use crate::types::{BuiltInEnum, BuiltInType};
use slint_base::LIM;

/// A member of a built-in element.
#[derive(Clone, Copy, Debug, PartialEq, Eq)]
pub struct Member {
    /// Its place among the element's members, counted from 0: properties come first, then callbacks, then functions.
    pub number: u32,
    pub kind: MemberKind,
}

/// What a member is.
#[derive(Clone, Copy, Debug, PartialEq, Eq)]
pub enum MemberKind {
    /// A property: its type, who sets it, and its value where nothing is bound to it.
    Property(BuiltInType, Mark, PropertyDefault),
    /// A callback, which isn't `pure`.
    Callback(Signature),
    /// A function, which is `public` and not `pure`.
    Function(Signature),
}

/// Who sets a built-in property.
#[derive(Clone, Copy, Debug, PartialEq, Eq)]
pub enum Mark {
    /// The source that uses the element.
    In,
    /// The program, while it runs; a source only reads it.
    Out,
}

/// The value of a property to which nothing is bound.
#[derive(Clone, Copy, Debug, PartialEq, Eq)]
pub enum PropertyDefault {
    /// The default of its type.
    OfType,
    /// `true`.
    True,
    Int(i32),
    /// In millionths.
    Float(i64),
    /// In thousandths of a px.
    Length(i64),
    /// What the rules on places, sizes and layouts give, which depends on the element and on other properties.
    Geometry,
}

/// The parameter of a callback or function, if it has one, and its result, if it gives one.
#[derive(Clone, Copy, Debug, PartialEq, Eq)]
pub struct Signature {
    pub parameter: Option<BuiltInType>,
    pub result: Option<BuiltInType>,
}

/// The number of the first member that isn't common to all elements.
const OWN: u32 = 19;

/// The number of the first member of a layout behind those that all layouts have.
const FURTHER: u32 = OWN + 6;

/// No parameter and no result.
const PLAIN: Signature = Signature {
    parameter: None,
    result: None,
};

/// A key event, and whether it was accepted.
const KEY_HANDLER: Signature = Signature {
    parameter: Some(BuiltInType::KeyEvent),
    result: Some(BuiltInType::Enum(BuiltInEnum::EventResult)),
};

/// A property by number and type: set by the source and with the default of its type, unless a mark and a default follow.
macro_rules! property {
    ($number:expr, enum $of:ident) => {
        property!($number, Enum(BuiltInEnum::$of), In, OfType)
    };
    ($number:expr, $ty:ident) => {
        property!($number, $ty, In, OfType)
    };
    ($number:expr, $ty:ident, out) => {
        property!($number, $ty, Out, OfType)
    };
    ($number:expr, $ty:ident, $default:ident $(($value:expr))?) => {
        property!($number, $ty, In, $default $(($value))?)
    };
    ($number:expr, $ty:ident $(($of:expr))?, $mark:ident, $default:ident $(($value:expr))?) => {
        Member {
            number: $number,
            kind: MemberKind::Property(
                BuiltInType::$ty $(($of))?,
                Mark::$mark,
                PropertyDefault::$default $(($value))?,
            ),
        }
    };
}

/// A callback by number and signature.
macro_rules! callback {
    ($number:expr, $signature:expr) => {
        Member { number: $number, kind: MemberKind::Callback($signature) }
    };
}

/// A function by number and signature.
macro_rules! function {
    ($number:expr, $signature:expr) => {
        Member { number: $number, kind: MemberKind::Function($signature) }
    };
}

/// The members of every element but Row.
const COMMON: [(&str, Member); 19] = [
    ("clip", property!(14, Bool)),
    ("col", property!(16, Int)),
    ("colspan", property!(18, Int)),
    ("height", property!(3, Length, Geometry)),
    ("horizontal-stretch", property!(10, Float, Geometry)),
    ("max-height", property!(8, Length, Length(LIM))),
    ("max-width", property!(5, Length, Length(LIM))),
    ("min-height", property!(7, Length, Geometry)),
    ("min-width", property!(4, Length, Geometry)),
    ("opacity", property!(13, Float, Float(1_000_000))),
    ("preferred-height", property!(9, Length, Geometry)),
    ("preferred-width", property!(6, Length, Geometry)),
    ("row", property!(15, Int)),
    ("rowspan", property!(17, Int)),
    ("vertical-stretch", property!(11, Float, Geometry)),
    ("visible", property!(12, Bool, True)),
    ("width", property!(2, Length, Geometry)),
    ("x", property!(0, Length, Geometry)),
    ("y", property!(1, Length, Geometry)),
];

const WINDOW: [(&str, Member); 7] = [
    ("always-on-top", property!(OWN + 4, Bool)),
    ("background", property!(OWN + 1, Color)),
    ("default-font-family", property!(OWN + 6, Str)),
    ("default-font-size", property!(OWN + 5, Length)),
    ("icon", property!(OWN + 2, Image)),
    ("no-frame", property!(OWN + 3, Bool)),
    ("title", property!(OWN, Str)),
];

const RECTANGLE: [(&str, Member); 4] = [
    ("background", property!(OWN, Color)),
    ("border-color", property!(OWN + 1, Color)),
    ("border-radius", property!(OWN + 3, Length)),
    ("border-width", property!(OWN + 2, Length)),
];

const TEXT: [(&str, Member); 9] = [
    ("color", property!(OWN + 1, Color)),
    ("font-family", property!(OWN + 4, Str)),
    ("font-size", property!(OWN + 2, Length, Length(16_000))),
    ("font-weight", property!(OWN + 3, Int, Int(400))),
    (
        "horizontal-alignment",
        property!(OWN + 5, enum TextHorizontalAlignment),
    ),
    ("overflow", property!(OWN + 8, enum TextOverflow)),
    ("text", property!(OWN, Str)),
    (
        "vertical-alignment",
        property!(OWN + 6, enum TextVerticalAlignment),
    ),
    ("wrap", property!(OWN + 7, enum TextWrap)),
];

const IMAGE: [(&str, Member); 3] = [
    ("colorize", property!(OWN + 2, Color)),
    ("image-fit", property!(OWN + 1, enum ImageFit)),
    ("source", property!(OWN, Image)),
];

const TOUCH_AREA: [(&str, Member); 9] = [
    ("clicked", callback!(OWN + 7, PLAIN)),
    ("enabled", property!(OWN, Bool, True)),
    ("has-hover", property!(OWN + 2, Bool, out)),
    ("mouse-x", property!(OWN + 3, Length, out)),
    ("mouse-y", property!(OWN + 4, Length, out)),
    ("moved", callback!(OWN + 8, PLAIN)),
    ("pressed", property!(OWN + 1, Bool, out)),
    ("pressed-x", property!(OWN + 5, Length, out)),
    ("pressed-y", property!(OWN + 6, Length, out)),
];

const FOCUS_SCOPE: [(&str, Member); 5] = [
    ("enabled", property!(OWN, Bool, True)),
    ("focus", function!(OWN + 4, PLAIN)),
    ("has-focus", property!(OWN + 1, Bool, out)),
    ("key-pressed", callback!(OWN + 2, KEY_HANDLER)),
    ("key-released", callback!(OWN + 3, KEY_HANDLER)),
];

/// The members of every layout.
const LAYOUT: [(&str, Member); 6] = [
    ("padding", property!(OWN + 1, Length)),
    ("padding-bottom", property!(OWN + 5, Length, Geometry)),
    ("padding-left", property!(OWN + 2, Length, Geometry)),
    ("padding-right", property!(OWN + 3, Length, Geometry)),
    ("padding-top", property!(OWN + 4, Length, Geometry)),
    ("spacing", property!(OWN, Length)),
];

/// The further member of the layouts along one axis.
const BOX: [(&str, Member); 1] = [("alignment", property!(FURTHER, enum LayoutAlignment))];

/// The further members of the grid.
const GRID: [(&str, Member); 2] = [
    ("spacing-horizontal", property!(FURTHER, Length, Geometry)),
    ("spacing-vertical", property!(FURTHER + 1, Length, Geometry)),
];

/// The members that an element has in common with others.
fn common(element: ElementKind) -> NameTable<'static, Member>
    ensures { rows_of result.rows.now ≡ in_byte_order (numbered 0 (common_of element)) }
{
    match element {
        ElementKind::Row => NameTable { rows: &[] },
        _ => NameTable { rows: &COMMON },
    }
}

/// The members of an element besides the common ones.
fn own(element: ElementKind) -> NameTable<'static, Member>
    ensures { rows_of result.rows.now ≡ in_byte_order (numbered OWN (own_of element)) }
{
    match element {
        ElementKind::Empty => NameTable { rows: &[] },
        ElementKind::Window => NameTable { rows: &WINDOW },
        ElementKind::Rectangle => NameTable { rows: &RECTANGLE },
        ElementKind::Text => NameTable { rows: &TEXT },
        ElementKind::Image => NameTable { rows: &IMAGE },
        ElementKind::TouchArea => NameTable { rows: &TOUCH_AREA },
        ElementKind::FocusScope => NameTable { rows: &FOCUS_SCOPE },
        ElementKind::HorizontalLayout => NameTable { rows: &LAYOUT },
        ElementKind::VerticalLayout => NameTable { rows: &LAYOUT },
        ElementKind::GridLayout => NameTable { rows: &LAYOUT },
        ElementKind::Row => NameTable { rows: &[] },
    }
}

/// The members of a layout besides those of every layout.
fn further(element: ElementKind) -> NameTable<'static, Member>
    ensures { rows_of result.rows.now ≡ in_byte_order (numbered FURTHER (further_of element)) }
{
    match element {
        ElementKind::HorizontalLayout => NameTable { rows: &BOX },
        ElementKind::VerticalLayout => NameTable { rows: &BOX },
        ElementKind::GridLayout => NameTable { rows: &GRID },
        _ => NameTable { rows: &[] },
    }
}

/// The member of an element that has a name, `None` where it has none of that name.
pub fn member_named(element: ElementKind, name: &str) -> Option<Member>
    ensures { result ≡ named name.now (members element) }
{
    match common(element).find(name) {
        Some(member) => Some(member),
        None => match own(element).find(name) {
            Some(member) => Some(member),
            None => further(element).find(name),
        },
    }
}

/// The row of a number in a table of members.
fn row_at(table: NameTable<'static, Member>, number: u32) -> Option<(&'static str, Member)>
    ensures { result ≡ find (λ row. row.1.number == number) table.entry.rows.now }
{
    table
        .rows
        .iter()
        .copied()
        .find(|row| row.1.number == number)
}

/// The member of an element that has a number, with its name; `None` from the number of its members on.
pub fn member_at(element: ElementKind, number: u32) -> Option<(&'static str, Member)>
    ensures { option_map row_of result ≡ row_numbered number (members element) }
{
    match row_at(common(element), number) {
        Some(row) => Some(row),
        None => match row_at(own(element), number) {
            Some(row) => Some(row),
            None => row_at(further(element), number),
        },
    }
}
