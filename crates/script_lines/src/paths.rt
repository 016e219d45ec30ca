ghost use Rattle.std.specs.Prelude.{◌≡◌, ◌++◌, ◌==◌, ◌∷◌, [], ℕ, List, Option, IfOk};
ghost use Rattle.std.specs.List.{slice_split};
ghost use Rattle.std.specs.Option.{option_map};
ghost use Rattle.script_lines.specs.Paths.{is_path_name, before_bracket, from_bracket, before_close, bracketed, row_number, row_of, step_of, steps_of, path_from, path_of};

use crate::{Path, PathStep};
use slint_base::{Memory, Name};
use sqlite_items::Items;
use std::alloc::Global;
use unicode_ident::{is_xid_continue, is_xid_start};

/// The most digits that a row number has.
const MOST_ROW_DIGITS: usize = 9;

/// The path that a text spells, `None` where it spells none: names with points between them, the first alone, each
/// other one with or without a row number behind it, as `root.list[3].name`.
pub(crate) fn read_path(alloc: Global, text: &str) -> Result<Option<Path>, Memory>
    ensures { IfOk result (λ path. path ≡ path_of text.now) }
{
    match text.split_once('.') {
        Some((first, others)) => match start_path(alloc, first)? {
            Some(path) => continue_path(alloc, path, others),
            None => Ok(None),
        },
        None => start_path(alloc, text),
    }
}

/// A path of one name alone.
fn start_path(alloc: Global, name: &str) -> Result<Option<Path>, Memory>
    ensures { IfOk result (λ path. path ≡ path_from (name.now ∷ [])) }
{
    if !is_path_name(name) {
        return Ok(None);
    }
    let name = Name::normal(alloc, name)?;
    let mut path = Items::new(alloc);
    path.push(PathStep { name, row: None })?;
    Ok(Some(path))
}

/// A path with the steps behind it that a text spells between points.
fn continue_path(alloc: Global, mut path: Path, text: &str) -> Result<Option<Path>, Memory>
    ensures { IfOk result (λ longer. longer ≡ option_map (λ steps. path ++ steps) (steps_of (slice_split (λ b. b == 46) text.now))) }
{
    for part in text.split('.') {
        match read_step(alloc, part)? {
            Some(step) => path.push(step)?,
            None => return Ok(None),
        }
    }
    Ok(Some(path))
}

/// The step that a text spells: a name, with or without a row number in brackets behind it.
fn read_step(alloc: Global, text: &str) -> Result<Option<PathStep>, Memory>
    ensures { IfOk result (λ step. step ≡ step_of text.now) }
{
    match split_row(text) {
        Some((name, row)) if is_path_name(name) => {
            let name = Name::normal(alloc, name)?;
            Ok(Some(PathStep { name, row }))
        }
        _ => Ok(None),
    }
}

/// What stands before a text's first `[`, and the row number that it begins. `None` where it begins none.
fn split_row(text: &str) -> Option<(&str, Option<u32>)>
    ensures { option_map {U = List ℕ × Option ℕ} (λ parts. (parts.0.now, parts.1)) result ≡ option_map {U = List ℕ × Option ℕ} (λ row. (before_bracket text.now, row)) (row_of (from_bracket text.now)) }
{
    match text.split_once('[') {
        Some((name, behind)) => Some((name, Some(read_row(behind)?))),
        None => Some((text, None)),
    }
}

/// The row number that a text spells in front of a `]` at its end.
fn read_row(behind: &str) -> Option<u32>
    ensures { result ≡ bracketed (before_close behind.now) }
{
    row_number(behind.strip_suffix(']')?)
}

/// The row number that digits spell.
fn row_number(digits: &str) -> Option<u32>
    ensures { result ≡ row_number digits.now }
{
    if digits.len() > MOST_ROW_DIGITS || !digits.bytes().all(|digit| digit.is_ascii_digit()) {
        return None;
    }
    digits.parse().ok()
}

/// Whether a text is a name of the language.
fn is_path_name(text: &str) -> bool
    ensures { result ≡ is_path_name text.now }
{
    let mut chars = text.chars();
    match chars.next() {
        Some(first) => {
            (is_xid_start(first) || first == '_')
                && chars.all(|ch| is_xid_continue(ch) || ch == '-')
        }
        None => false,
    }
}
