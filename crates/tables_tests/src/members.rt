use element_tables::{
    BuiltInEnum, BuiltInType, ElementKind, Mark, Member, MemberKind, PropertyDefault, Signature,
    member_at, member_named,
};

/// A member: its name, and what it is.
type Row = (&'static str, MemberKind);

/// No parameter and no result.
const PLAIN: Signature = Signature {
    parameter: None,
    result: None,
};

/// A key event, and whether it was accepted.
const KEY_HANDLER: Signature = Signature {
    parameter: Some(BuiltInType::KeyEvent),
    result: Some(BuiltInType::Enum(BuiltInEnum::EventResult)),
};

/// The members that each element but Row has, in their order.
const COMMON: [Row; 19] = [
    (
        "x",
        MemberKind::Property(BuiltInType::Length, Mark::In, PropertyDefault::Geometry),
    ),
    (
        "y",
        MemberKind::Property(BuiltInType::Length, Mark::In, PropertyDefault::Geometry),
    ),
    (
        "width",
        MemberKind::Property(BuiltInType::Length, Mark::In, PropertyDefault::Geometry),
    ),
    (
        "height",
        MemberKind::Property(BuiltInType::Length, Mark::In, PropertyDefault::Geometry),
    ),
    (
        "min-width",
        MemberKind::Property(BuiltInType::Length, Mark::In, PropertyDefault::Geometry),
    ),
    (
        "max-width",
        MemberKind::Property(
            BuiltInType::Length,
            Mark::In,
            PropertyDefault::Length(9000000000000000),
        ),
    ),
    (
        "preferred-width",
        MemberKind::Property(BuiltInType::Length, Mark::In, PropertyDefault::Geometry),
    ),
    (
        "min-height",
        MemberKind::Property(BuiltInType::Length, Mark::In, PropertyDefault::Geometry),
    ),
    (
        "max-height",
        MemberKind::Property(
            BuiltInType::Length,
            Mark::In,
            PropertyDefault::Length(9000000000000000),
        ),
    ),
    (
        "preferred-height",
        MemberKind::Property(BuiltInType::Length, Mark::In, PropertyDefault::Geometry),
    ),
    (
        "horizontal-stretch",
        MemberKind::Property(BuiltInType::Float, Mark::In, PropertyDefault::Geometry),
    ),
    (
        "vertical-stretch",
        MemberKind::Property(BuiltInType::Float, Mark::In, PropertyDefault::Geometry),
    ),
    (
        "visible",
        MemberKind::Property(BuiltInType::Bool, Mark::In, PropertyDefault::True),
    ),
    (
        "opacity",
        MemberKind::Property(
            BuiltInType::Float,
            Mark::In,
            PropertyDefault::Float(1000000),
        ),
    ),
    (
        "clip",
        MemberKind::Property(BuiltInType::Bool, Mark::In, PropertyDefault::OfType),
    ),
    (
        "row",
        MemberKind::Property(BuiltInType::Int, Mark::In, PropertyDefault::OfType),
    ),
    (
        "col",
        MemberKind::Property(BuiltInType::Int, Mark::In, PropertyDefault::OfType),
    ),
    (
        "rowspan",
        MemberKind::Property(BuiltInType::Int, Mark::In, PropertyDefault::OfType),
    ),
    (
        "colspan",
        MemberKind::Property(BuiltInType::Int, Mark::In, PropertyDefault::OfType),
    ),
];

/// Those that an element has besides, in their order.
const WINDOW: [Row; 7] = [
    (
        "title",
        MemberKind::Property(BuiltInType::Str, Mark::In, PropertyDefault::OfType),
    ),
    (
        "background",
        MemberKind::Property(BuiltInType::Color, Mark::In, PropertyDefault::OfType),
    ),
    (
        "icon",
        MemberKind::Property(BuiltInType::Image, Mark::In, PropertyDefault::OfType),
    ),
    (
        "no-frame",
        MemberKind::Property(BuiltInType::Bool, Mark::In, PropertyDefault::OfType),
    ),
    (
        "always-on-top",
        MemberKind::Property(BuiltInType::Bool, Mark::In, PropertyDefault::OfType),
    ),
    (
        "default-font-size",
        MemberKind::Property(BuiltInType::Length, Mark::In, PropertyDefault::OfType),
    ),
    (
        "default-font-family",
        MemberKind::Property(BuiltInType::Str, Mark::In, PropertyDefault::OfType),
    ),
];

/// Those that an element has besides, in their order.
const RECTANGLE: [Row; 4] = [
    (
        "background",
        MemberKind::Property(BuiltInType::Color, Mark::In, PropertyDefault::OfType),
    ),
    (
        "border-color",
        MemberKind::Property(BuiltInType::Color, Mark::In, PropertyDefault::OfType),
    ),
    (
        "border-width",
        MemberKind::Property(BuiltInType::Length, Mark::In, PropertyDefault::OfType),
    ),
    (
        "border-radius",
        MemberKind::Property(BuiltInType::Length, Mark::In, PropertyDefault::OfType),
    ),
];

/// Those that an element has besides, in their order.
const TEXT: [Row; 9] = [
    (
        "text",
        MemberKind::Property(BuiltInType::Str, Mark::In, PropertyDefault::OfType),
    ),
    (
        "color",
        MemberKind::Property(BuiltInType::Color, Mark::In, PropertyDefault::OfType),
    ),
    (
        "font-size",
        MemberKind::Property(
            BuiltInType::Length,
            Mark::In,
            PropertyDefault::Length(16000),
        ),
    ),
    (
        "font-weight",
        MemberKind::Property(BuiltInType::Int, Mark::In, PropertyDefault::Int(400)),
    ),
    (
        "font-family",
        MemberKind::Property(BuiltInType::Str, Mark::In, PropertyDefault::OfType),
    ),
    (
        "horizontal-alignment",
        MemberKind::Property(
            BuiltInType::Enum(BuiltInEnum::TextHorizontalAlignment),
            Mark::In,
            PropertyDefault::OfType,
        ),
    ),
    (
        "vertical-alignment",
        MemberKind::Property(
            BuiltInType::Enum(BuiltInEnum::TextVerticalAlignment),
            Mark::In,
            PropertyDefault::OfType,
        ),
    ),
    (
        "wrap",
        MemberKind::Property(
            BuiltInType::Enum(BuiltInEnum::TextWrap),
            Mark::In,
            PropertyDefault::OfType,
        ),
    ),
    (
        "overflow",
        MemberKind::Property(
            BuiltInType::Enum(BuiltInEnum::TextOverflow),
            Mark::In,
            PropertyDefault::OfType,
        ),
    ),
];

/// Those that an element has besides, in their order.
const IMAGE: [Row; 3] = [
    (
        "source",
        MemberKind::Property(BuiltInType::Image, Mark::In, PropertyDefault::OfType),
    ),
    (
        "image-fit",
        MemberKind::Property(
            BuiltInType::Enum(BuiltInEnum::ImageFit),
            Mark::In,
            PropertyDefault::OfType,
        ),
    ),
    (
        "colorize",
        MemberKind::Property(BuiltInType::Color, Mark::In, PropertyDefault::OfType),
    ),
];

/// Those that an element has besides, in their order.
const TOUCH_AREA: [Row; 9] = [
    (
        "enabled",
        MemberKind::Property(BuiltInType::Bool, Mark::In, PropertyDefault::True),
    ),
    (
        "pressed",
        MemberKind::Property(BuiltInType::Bool, Mark::Out, PropertyDefault::OfType),
    ),
    (
        "has-hover",
        MemberKind::Property(BuiltInType::Bool, Mark::Out, PropertyDefault::OfType),
    ),
    (
        "mouse-x",
        MemberKind::Property(BuiltInType::Length, Mark::Out, PropertyDefault::OfType),
    ),
    (
        "mouse-y",
        MemberKind::Property(BuiltInType::Length, Mark::Out, PropertyDefault::OfType),
    ),
    (
        "pressed-x",
        MemberKind::Property(BuiltInType::Length, Mark::Out, PropertyDefault::OfType),
    ),
    (
        "pressed-y",
        MemberKind::Property(BuiltInType::Length, Mark::Out, PropertyDefault::OfType),
    ),
    ("clicked", MemberKind::Callback(PLAIN)),
    ("moved", MemberKind::Callback(PLAIN)),
];

/// Those that an element has besides, in their order.
const FOCUS_SCOPE: [Row; 5] = [
    (
        "enabled",
        MemberKind::Property(BuiltInType::Bool, Mark::In, PropertyDefault::True),
    ),
    (
        "has-focus",
        MemberKind::Property(BuiltInType::Bool, Mark::Out, PropertyDefault::OfType),
    ),
    ("key-pressed", MemberKind::Callback(KEY_HANDLER)),
    ("key-released", MemberKind::Callback(KEY_HANDLER)),
    ("focus", MemberKind::Function(PLAIN)),
];

/// Those that an element has besides, in their order.
const BOX: [Row; 7] = [
    (
        "spacing",
        MemberKind::Property(BuiltInType::Length, Mark::In, PropertyDefault::OfType),
    ),
    (
        "padding",
        MemberKind::Property(BuiltInType::Length, Mark::In, PropertyDefault::OfType),
    ),
    (
        "padding-left",
        MemberKind::Property(BuiltInType::Length, Mark::In, PropertyDefault::Geometry),
    ),
    (
        "padding-right",
        MemberKind::Property(BuiltInType::Length, Mark::In, PropertyDefault::Geometry),
    ),
    (
        "padding-top",
        MemberKind::Property(BuiltInType::Length, Mark::In, PropertyDefault::Geometry),
    ),
    (
        "padding-bottom",
        MemberKind::Property(BuiltInType::Length, Mark::In, PropertyDefault::Geometry),
    ),
    (
        "alignment",
        MemberKind::Property(
            BuiltInType::Enum(BuiltInEnum::LayoutAlignment),
            Mark::In,
            PropertyDefault::OfType,
        ),
    ),
];

/// Those that an element has besides, in their order.
const GRID: [Row; 8] = [
    (
        "spacing",
        MemberKind::Property(BuiltInType::Length, Mark::In, PropertyDefault::OfType),
    ),
    (
        "padding",
        MemberKind::Property(BuiltInType::Length, Mark::In, PropertyDefault::OfType),
    ),
    (
        "padding-left",
        MemberKind::Property(BuiltInType::Length, Mark::In, PropertyDefault::Geometry),
    ),
    (
        "padding-right",
        MemberKind::Property(BuiltInType::Length, Mark::In, PropertyDefault::Geometry),
    ),
    (
        "padding-top",
        MemberKind::Property(BuiltInType::Length, Mark::In, PropertyDefault::Geometry),
    ),
    (
        "padding-bottom",
        MemberKind::Property(BuiltInType::Length, Mark::In, PropertyDefault::Geometry),
    ),
    (
        "spacing-horizontal",
        MemberKind::Property(BuiltInType::Length, Mark::In, PropertyDefault::Geometry),
    ),
    (
        "spacing-vertical",
        MemberKind::Property(BuiltInType::Length, Mark::In, PropertyDefault::Geometry),
    ),
];

/// Names of no member of any element: before, between and behind their names.
const NO_MEMBERS: [&str; 126] = [
    "",
    "x-",
    "y-",
    "width-",
    "widt",
    "height-",
    "heigh",
    "min-width-",
    "min-widt",
    "max-width-",
    "max-widt",
    "preferred-width-",
    "preferred-widt",
    "min-height-",
    "min-heigh",
    "max-height-",
    "max-heigh",
    "preferred-height-",
    "preferred-heigh",
    "horizontal-stretch-",
    "horizontal-stretc",
    "vertical-stretch-",
    "vertical-stretc",
    "visible-",
    "visibl",
    "opacity-",
    "opacit",
    "clip-",
    "cli",
    "row-",
    "ro",
    "col-",
    "co",
    "rowspan-",
    "rowspa",
    "colspan-",
    "colspa",
    "title-",
    "titl",
    "background-",
    "backgroun",
    "icon-",
    "ico",
    "no-frame-",
    "no-fram",
    "always-on-top-",
    "always-on-to",
    "default-font-size-",
    "default-font-siz",
    "default-font-family-",
    "default-font-famil",
    "border-color-",
    "border-colo",
    "border-width-",
    "border-widt",
    "border-radius-",
    "border-radiu",
    "text-",
    "tex",
    "color-",
    "colo",
    "font-size-",
    "font-siz",
    "font-weight-",
    "font-weigh",
    "font-family-",
    "font-famil",
    "horizontal-alignment-",
    "horizontal-alignmen",
    "vertical-alignment-",
    "vertical-alignmen",
    "wrap-",
    "wra",
    "overflow-",
    "overflo",
    "source-",
    "sourc",
    "image-fit-",
    "image-fi",
    "colorize-",
    "coloriz",
    "enabled-",
    "enable",
    "pressed-",
    "presse",
    "has-hover-",
    "has-hove",
    "mouse-x-",
    "mouse-",
    "mouse-y-",
    "pressed-x-",
    "pressed-y-",
    "clicked-",
    "clicke",
    "moved-",
    "move",
    "has-focus-",
    "has-focu",
    "key-pressed-",
    "key-presse",
    "key-released-",
    "key-release",
    "focus-",
    "focu",
    "spacing-",
    "spacin",
    "padding-",
    "paddin",
    "padding-left-",
    "padding-lef",
    "padding-right-",
    "padding-righ",
    "padding-top-",
    "padding-to",
    "padding-bottom-",
    "padding-botto",
    "alignment-",
    "alignmen",
    "spacing-horizontal-",
    "spacing-horizonta",
    "spacing-vertical-",
    "spacing-vertica",
    "init",
    "min",
    "focus-gained",
    "~",
];

/// Whether an element has this member at a number and by its name.
fn is_member(element: ElementKind, number: u32, name: &str, kind: MemberKind) -> bool {
    let want = Member { number, kind };
    let by_name = member_named(element, name) == Some(want);
    match member_at(element, number) {
        Some((named, found)) => by_name && named == name && found == want,
        None => false,
    }
}

/// Whether an element has these members with numbers from a first one on.
fn has_members(element: ElementKind, first: u32, rows: &[Row]) -> bool {
    let mut good = true;
    let mut number = first;
    for (name, kind) in rows {
        good = good && is_member(element, number, name, *kind);
        number = number.saturating_add(1);
    }
    good
}

/// Whether an element has no member from a number on, and none of the names that are no member's.
fn has_no_others(element: ElementKind, count: u32) -> bool {
    let mut good = member_at(element, count).is_none() && member_at(element, u32::MAX).is_none();
    for name in &NO_MEMBERS {
        good = good && member_named(element, name).is_none();
    }
    good
}

#[test]
fn elements_have_their_members(rt: HostRuntime) {
    for (element, own, count) in [
        (ElementKind::Empty, [].as_slice(), 19),
        (ElementKind::Window, WINDOW.as_slice(), 26),
        (ElementKind::Rectangle, RECTANGLE.as_slice(), 23),
        (ElementKind::Text, TEXT.as_slice(), 28),
        (ElementKind::Image, IMAGE.as_slice(), 22),
        (ElementKind::TouchArea, TOUCH_AREA.as_slice(), 28),
        (ElementKind::FocusScope, FOCUS_SCOPE.as_slice(), 24),
        (ElementKind::HorizontalLayout, BOX.as_slice(), 26),
        (ElementKind::VerticalLayout, BOX.as_slice(), 26),
        (ElementKind::GridLayout, GRID.as_slice(), 27),
    ] {
        assert!(rt;
            has_members(element, 0, COMMON.as_slice()),
            "common of {element:?}"
        );
        assert!(rt; has_members(element, 19, own), "own of {element:?}");
        assert!(rt; has_no_others(element, count), "others of {element:?}");
    }
}

#[test]
fn a_row_has_no_members(rt: HostRuntime) {
    assert!(rt; has_no_others(ElementKind::Row, 0));
    for (name, _) in &COMMON {
        assert!(rt; member_named(ElementKind::Row, name).is_none(), "at {name}");
    }
}

#[test]
fn members_of_other_elements(rt: HostRuntime) {
    for (element, name) in [
        (ElementKind::Empty, "background"),
        (ElementKind::Window, "border-width"),
        (ElementKind::Rectangle, "title"),
        (ElementKind::Text, "source"),
        (ElementKind::Image, "text"),
        (ElementKind::TouchArea, "key-pressed"),
        (ElementKind::FocusScope, "clicked"),
        (ElementKind::HorizontalLayout, "spacing-horizontal"),
        (ElementKind::GridLayout, "alignment"),
    ] {
        assert!(rt; member_named(element, name).is_none(), "{element:?}.{name}");
    }
}
