ghost use Rattle.std.specs.Prelude.{◌≡◌};
ghost use Rattle.element_tables.specs.Members.{elements};
ghost use Rattle.element_tables.specs.Rows.{named};

use crate::names::NameTable;

/// A built-in element.
#[derive(Clone, Copy, Debug, PartialEq, Eq)]
pub enum ElementKind {
    Empty,
    Window,
    Rectangle,
    Text,
    Image,
    TouchArea,
    FocusScope,
    HorizontalLayout,
    VerticalLayout,
    GridLayout,
    Row,
}

const ELEMENTS: [(&str, ElementKind); 11] = [
    ("Empty", ElementKind::Empty),
    ("FocusScope", ElementKind::FocusScope),
    ("GridLayout", ElementKind::GridLayout),
    ("HorizontalLayout", ElementKind::HorizontalLayout),
    ("Image", ElementKind::Image),
    ("Rectangle", ElementKind::Rectangle),
    ("Row", ElementKind::Row),
    ("Text", ElementKind::Text),
    ("TouchArea", ElementKind::TouchArea),
    ("VerticalLayout", ElementKind::VerticalLayout),
    ("Window", ElementKind::Window),
];

/// The built-in element of a name, `None` where there is none.
pub fn element_named(name: &str) -> Option<ElementKind>
    ensures { result ≡ named name.now elements }
{
    NameTable { rows: &ELEMENTS }.find(name)
}
