use slint_base::Name;
use sqlite_items::Items;

/// An enum: its name, and the names of its values in order. The values differ, and there is at least one.
#[derive(Debug, Drop)]
pub struct EnumNames {
    pub name: Name,
    pub values: Items<Name>,
}

/// The enums of a program. Types and values name an enum by its place here, counted from 0.
pub type Enums = Items<EnumNames>;
