ghost use Rattle.std.specs.Prelude.{◌≡◌};
ghost use Rattle.element_tables.specs.Keys.{keys};
ghost use Rattle.element_tables.specs.Rows.{named};

use crate::names::NameTable;

const KEYS: [(&str, char); 9] = [
    ("Backspace", '\u{8}'),
    ("Delete", '\u{7f}'),
    ("DownArrow", '\u{f701}'),
    ("Escape", '\u{1b}'),
    ("LeftArrow", '\u{f702}'),
    ("Return", '\n'),
    ("RightArrow", '\u{f703}'),
    ("Tab", '\t'),
    ("UpArrow", '\u{f700}'),
];

/// The character of a key, by the key's name as a member of `Key`; `None` where there is no such key.
pub fn key_named(name: &str) -> Option<char>
    ensures { result ≡ named name.now keys }
{
    NameTable { rows: &KEYS }.find(name)
}
