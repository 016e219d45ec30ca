use element_tables::{
    BuiltInEnum, BuiltInType, ElementKind, element_named, enum_named, key_named, type_named,
};
use value_reading::color_named;

/// Each element, and names before, between and behind them.
const ELEMENTS: [(&str, Option<ElementKind>); 38] = [
    ("Empty", Some(ElementKind::Empty)),
    ("Window", Some(ElementKind::Window)),
    ("Rectangle", Some(ElementKind::Rectangle)),
    ("Text", Some(ElementKind::Text)),
    ("Image", Some(ElementKind::Image)),
    ("TouchArea", Some(ElementKind::TouchArea)),
    ("FocusScope", Some(ElementKind::FocusScope)),
    ("HorizontalLayout", Some(ElementKind::HorizontalLayout)),
    ("VerticalLayout", Some(ElementKind::VerticalLayout)),
    ("GridLayout", Some(ElementKind::GridLayout)),
    ("Row", Some(ElementKind::Row)),
    ("", None),
    ("Empty-", None),
    ("Empt", None),
    ("Window-", None),
    ("Windo", None),
    ("Rectangle-", None),
    ("Rectangl", None),
    ("Text-", None),
    ("Tex", None),
    ("Image-", None),
    ("Imag", None),
    ("TouchArea-", None),
    ("TouchAre", None),
    ("FocusScope-", None),
    ("FocusScop", None),
    ("HorizontalLayout-", None),
    ("HorizontalLayou", None),
    ("VerticalLayout-", None),
    ("VerticalLayou", None),
    ("GridLayout-", None),
    ("GridLayou", None),
    ("Row-", None),
    ("Ro", None),
    ("A", None),
    ("rectangle", None),
    ("row", None),
    ("~", None),
];

/// Each named type, and names before, between and behind them.
const TYPES: [(&str, Option<BuiltInType>); 64] = [
    ("int", Some(BuiltInType::Int)),
    ("float", Some(BuiltInType::Float)),
    ("percent", Some(BuiltInType::Percent)),
    ("bool", Some(BuiltInType::Bool)),
    ("string", Some(BuiltInType::Str)),
    ("color", Some(BuiltInType::Color)),
    ("brush", Some(BuiltInType::Color)),
    ("length", Some(BuiltInType::Length)),
    ("duration", Some(BuiltInType::Duration)),
    ("angle", Some(BuiltInType::Angle)),
    ("image", Some(BuiltInType::Image)),
    (
        "TextHorizontalAlignment",
        Some(BuiltInType::Enum(BuiltInEnum::TextHorizontalAlignment)),
    ),
    (
        "TextVerticalAlignment",
        Some(BuiltInType::Enum(BuiltInEnum::TextVerticalAlignment)),
    ),
    ("TextWrap", Some(BuiltInType::Enum(BuiltInEnum::TextWrap))),
    (
        "TextOverflow",
        Some(BuiltInType::Enum(BuiltInEnum::TextOverflow)),
    ),
    ("ImageFit", Some(BuiltInType::Enum(BuiltInEnum::ImageFit))),
    (
        "EventResult",
        Some(BuiltInType::Enum(BuiltInEnum::EventResult)),
    ),
    (
        "LayoutAlignment",
        Some(BuiltInType::Enum(BuiltInEnum::LayoutAlignment)),
    ),
    ("KeyEvent", Some(BuiltInType::KeyEvent)),
    ("KeyboardModifiers", Some(BuiltInType::KeyboardModifiers)),
    ("", None),
    ("int-", None),
    ("in", None),
    ("float-", None),
    ("floa", None),
    ("percent-", None),
    ("percen", None),
    ("bool-", None),
    ("boo", None),
    ("string-", None),
    ("strin", None),
    ("color-", None),
    ("colo", None),
    ("brush-", None),
    ("brus", None),
    ("length-", None),
    ("lengt", None),
    ("duration-", None),
    ("duratio", None),
    ("angle-", None),
    ("angl", None),
    ("image-", None),
    ("imag", None),
    ("TextHorizontalAlignment-", None),
    ("TextHorizontalAlignmen", None),
    ("TextVerticalAlignment-", None),
    ("TextVerticalAlignmen", None),
    ("TextWrap-", None),
    ("TextWra", None),
    ("TextOverflow-", None),
    ("TextOverflo", None),
    ("ImageFit-", None),
    ("ImageFi", None),
    ("EventResult-", None),
    ("EventResul", None),
    ("LayoutAlignment-", None),
    ("LayoutAlignmen", None),
    ("KeyEvent-", None),
    ("KeyEven", None),
    ("KeyboardModifiers-", None),
    ("KeyboardModifier", None),
    ("void", None),
    ("Int", None),
    ("~", None),
];

/// Each key, and names before, between and behind them.
const KEYS: [(&str, Option<char>); 30] = [
    ("Return", Some('\u{a}')),
    ("Tab", Some('\u{9}')),
    ("Backspace", Some('\u{8}')),
    ("Escape", Some('\u{1b}')),
    ("Delete", Some('\u{7f}')),
    ("UpArrow", Some('\u{f700}')),
    ("DownArrow", Some('\u{f701}')),
    ("LeftArrow", Some('\u{f702}')),
    ("RightArrow", Some('\u{f703}')),
    ("", None),
    ("Return-", None),
    ("Retur", None),
    ("Tab-", None),
    ("Ta", None),
    ("Backspace-", None),
    ("Backspac", None),
    ("Escape-", None),
    ("Escap", None),
    ("Delete-", None),
    ("Delet", None),
    ("UpArrow-", None),
    ("UpArro", None),
    ("DownArrow-", None),
    ("DownArro", None),
    ("LeftArrow-", None),
    ("LeftArro", None),
    ("RightArrow-", None),
    ("RightArro", None),
    ("return", None),
    ("~", None),
];

/// Each colour, and names before, between and behind them.
const COLOURS: [(&str, Option<u32>); 54] = [
    ("aqua", Some(0x00ff_ffff)),
    ("black", Some(0x0000_00ff)),
    ("blue", Some(0x0000_ffff)),
    ("fuchsia", Some(0xff00_ffff)),
    ("gray", Some(0x8080_80ff)),
    ("green", Some(0x0080_00ff)),
    ("lime", Some(0x00ff_00ff)),
    ("maroon", Some(0x8000_00ff)),
    ("navy", Some(0x0000_80ff)),
    ("olive", Some(0x8080_00ff)),
    ("purple", Some(0x8000_80ff)),
    ("red", Some(0xff00_00ff)),
    ("silver", Some(0xc0c0_c0ff)),
    ("teal", Some(0x0080_80ff)),
    ("white", Some(0xffff_ffff)),
    ("yellow", Some(0xffff_00ff)),
    ("transparent", Some(0x0000_0000)),
    ("", None),
    ("aqua-", None),
    ("aqu", None),
    ("black-", None),
    ("blac", None),
    ("blue-", None),
    ("blu", None),
    ("fuchsia-", None),
    ("fuchsi", None),
    ("gray-", None),
    ("gra", None),
    ("green-", None),
    ("gree", None),
    ("lime-", None),
    ("lim", None),
    ("maroon-", None),
    ("maroo", None),
    ("navy-", None),
    ("nav", None),
    ("olive-", None),
    ("oliv", None),
    ("purple-", None),
    ("purpl", None),
    ("red-", None),
    ("re", None),
    ("silver-", None),
    ("silve", None),
    ("teal-", None),
    ("tea", None),
    ("white-", None),
    ("whit", None),
    ("yellow-", None),
    ("yello", None),
    ("transparent-", None),
    ("transparen", None),
    ("grey", None),
    ("~", None),
];

/// Each value of each enum with its number.
const VALUES: [(BuiltInEnum, &str, usize); 22] = [
    (BuiltInEnum::TextHorizontalAlignment, "left", 0),
    (BuiltInEnum::TextHorizontalAlignment, "center", 1),
    (BuiltInEnum::TextHorizontalAlignment, "right", 2),
    (BuiltInEnum::TextVerticalAlignment, "top", 0),
    (BuiltInEnum::TextVerticalAlignment, "center", 1),
    (BuiltInEnum::TextVerticalAlignment, "bottom", 2),
    (BuiltInEnum::TextWrap, "no-wrap", 0),
    (BuiltInEnum::TextWrap, "word-wrap", 1),
    (BuiltInEnum::TextOverflow, "clip", 0),
    (BuiltInEnum::TextOverflow, "elide", 1),
    (BuiltInEnum::ImageFit, "fill", 0),
    (BuiltInEnum::ImageFit, "contain", 1),
    (BuiltInEnum::ImageFit, "cover", 2),
    (BuiltInEnum::ImageFit, "preserve", 3),
    (BuiltInEnum::EventResult, "reject", 0),
    (BuiltInEnum::EventResult, "accept", 1),
    (BuiltInEnum::LayoutAlignment, "stretch", 0),
    (BuiltInEnum::LayoutAlignment, "center", 1),
    (BuiltInEnum::LayoutAlignment, "start", 2),
    (BuiltInEnum::LayoutAlignment, "end", 3),
    (BuiltInEnum::LayoutAlignment, "space-between", 4),
    (BuiltInEnum::LayoutAlignment, "space-around", 5),
];

/// Names that are values of no enum.
const NO_VALUES: [&str; 44] = [
    "",
    "left-",
    "lef",
    "center-",
    "cente",
    "right-",
    "righ",
    "top-",
    "to",
    "bottom-",
    "botto",
    "no-wrap-",
    "no-wra",
    "word-wrap-",
    "word-wra",
    "clip-",
    "cli",
    "elide-",
    "elid",
    "fill-",
    "fil",
    "contain-",
    "contai",
    "cover-",
    "cove",
    "preserve-",
    "preserv",
    "reject-",
    "rejec",
    "accept-",
    "accep",
    "stretch-",
    "stretc",
    "start-",
    "star",
    "end-",
    "en",
    "space-between-",
    "space-betwee",
    "space-around-",
    "space-aroun",
    "char-wrap",
    "space-evenly",
    "~",
];

/// Each enum with the count of its values.
const COUNTS: [(BuiltInEnum, usize); 7] = [
    (BuiltInEnum::TextHorizontalAlignment, 3),
    (BuiltInEnum::TextVerticalAlignment, 3),
    (BuiltInEnum::TextWrap, 2),
    (BuiltInEnum::TextOverflow, 2),
    (BuiltInEnum::ImageFit, 4),
    (BuiltInEnum::EventResult, 2),
    (BuiltInEnum::LayoutAlignment, 6),
];

#[test]
fn elements_by_name(rt: HostRuntime) {
    for (name, want) in &ELEMENTS {
        assert_eq!(rt; element_named(name), *want, "at {name}");
    }
}

#[test]
fn types_by_name(rt: HostRuntime) {
    for (name, want) in &TYPES {
        assert_eq!(rt; type_named(name), *want, "at {name}");
    }
}

#[test]
fn enums_by_name(rt: HostRuntime) {
    assert_eq!(rt; enum_named("TextWrap"), Some(BuiltInEnum::TextWrap));
    assert_eq!(rt; enum_named("KeyEvent"), None);
    assert_eq!(rt; enum_named("int"), None);
    assert_eq!(rt; enum_named("TextWra"), None);
}

#[test]
fn keys_by_name(rt: HostRuntime) {
    for (name, want) in &KEYS {
        assert_eq!(rt; key_named(name), *want, "at {name}");
    }
}

#[test]
fn colours_by_name(rt: HostRuntime) {
    for (name, want) in &COLOURS {
        assert_eq!(rt; color_named(name), *want, "at {name}");
    }
}

#[test]
fn values_of_enums(rt: HostRuntime) {
    for (of, name, number) in &VALUES {
        assert_eq!(rt; of.value_named(name), Some(*number), "at {of:?}.{name}");
        assert!(rt; of.value_name(*number) == Some(*name), "at {of:?}.{name}");
    }
    for (of, count) in &COUNTS {
        assert!(rt; of.value_name(*count).is_none(), "at {of:?}");
        for name in &NO_VALUES {
            assert_eq!(rt; of.value_named(name), None, "at {of:?}.{name}");
        }
    }
}
