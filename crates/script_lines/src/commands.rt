use slint_base::{Name, Text};
use sqlite_items::Items;

/// A step of a path: a name, and the row number where one is written behind it.
#[derive(Debug, Drop)]
pub struct PathStep {
    pub name: Name,
    pub row: Option<u32>,
}

/// A path from `root` or a global to what a command speaks of.
pub type Path = Items<PathStep>;

/// A line of a script that asks for something.
#[derive(Debug, Drop)]
pub enum Command {
    /// `get P` asks for the value of a property.
    Get(Path),
    /// `set P V` assigns a property; the value is still unread.
    Set(Path, Text),
}

/// Why a line is no command and isn't passed over.
#[derive(Clone, Copy, Debug, PartialEq, Eq)]
pub enum BadLine {
    /// It has over 4,096 bytes.
    TooLong,
    /// It isn't UTF-8, or fits no command.
    Unread,
}
