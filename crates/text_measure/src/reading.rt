ghost use Rattle.std.specs.Prelude.{◌≡◌, ◌<◌, ◌^◌, ℕ, List, Result, MatchResult, length};
ghost use Rattle.slint_base.specs.Answers.{Gives};
ghost use Rattle.text_measure.specs.Tables.{Table};
ghost use Rattle.text_measure.specs.Reading.{lines_in, heading_line, number_line, head_in, pairs_from, with_pairs, read_as};
ghost use Rattle.text_measure.specs.declared.faults.BadTable.{BadTable};

use crate::lines::{Lines, MOST_TABLE_BYTES};
use crate::words::{number_behind, pair_of};
use crate::{BadTable, TextTable};
use slint_base::End;
use std::alloc::Global;

/// Reads the first line.
fn read_heading(lines: &mut Lines, end: u32) -> Result<(), BadTable>
    requires { lines.old.at ≡ 0 }
    ensures { (go : ℕ → List (List ℕ) → Result Table BadTable) → MatchResult result
        (λ _. heading_line end (lines_in lines.old.cut lines.old.bytes.now) go ≡ go lines.new.at (lines_in lines.new.cut lines.new.bytes.now))
        (λ bad. heading_line end (lines_in lines.old.cut lines.old.bytes.now) go ≡ Err bad) }
{
    let Some(line) = lines.next() else {
        return Err(BadTable { at: end });
    };
    if line != b"texttable 1".as_slice() {
        return Err(BadTable { at: 0 });
    }
    Ok(())
}

/// Reads a line that is a word and a number.
fn read_number(word: &[u8], lines: &mut Lines, end: u32) -> Result<u32, BadTable>
    ensures { (go : ℕ → ℕ → List (List ℕ) → Result Table BadTable) → MatchResult result
        (λ n. number_line end word.now lines.old.at (lines_in lines.old.cut lines.old.bytes.now) go ≡ go n lines.new.at (lines_in lines.new.cut lines.new.bytes.now))
        (λ bad. number_line end word.now lines.old.at (lines_in lines.old.cut lines.old.bytes.now) go ≡ Err bad) }
{
    let at = lines.at;
    let Some(line) = lines.next() else {
        return Err(BadTable { at: end });
    };
    match number_behind(word, line) {
        Some(number) => Ok(number),
        None => Err(BadTable { at: at as u32 }),
    }
}

/// Reads the first three lines: the height of a line, and the width of characters that aren't listed.
fn read_head(lines: &mut Lines, end: u32) -> Result<(u32, u32), BadTable>
    requires { lines.old.at ≡ 0 }
    ensures { (go : ℕ → ℕ → ℕ → List (List ℕ) → Result Table BadTable) → MatchResult result
        (λ n. head_in end (lines_in lines.old.cut lines.old.bytes.now) go ≡ go n.0 n.1 lines.new.at (lines_in lines.new.cut lines.new.bytes.now))
        (λ bad. head_in end (lines_in lines.old.cut lines.old.bytes.now) go ≡ Err bad) }
{
    read_heading(lines, end)?;
    let height = read_number(b"line ", lines, end)?;
    let default = read_number(b"default ", lines, end)?;
    Ok((height, default))
}

/// Reads the lines of characters.
fn read_pairs(
    alloc: Global,
    lines: &mut Lines,
    height: u32,
    default: u32,
) -> Result<TextTable, End<BadTable>>
    ensures { Gives (λ table. table) result (with_pairs height default (pairs_from lines.old.at 0 (lines_in lines.old.cut lines.old.bytes.now))) }
{
    let mut table = TextTable::new(alloc, height, default);
    let mut at = lines.at;
    while let Some(line) = lines.next() {
        let Some((character, width)) = pair_of(line) else {
            return Err(End::Fault(BadTable { at: at as u32 }));
        };
        if !table.is_above_all(character) {
            return Err(End::Fault(BadTable { at: at as u32 }));
        }
        table.push(character, width)?;
        at = lines.at;
    }
    Ok(table)
}

/// Reads a text table. Its lines are `texttable 1`, `line N`, `default N`, then for each character `U+H N`, where H is the
/// character's scalar value in 4 to 6 upper hexadecimal digits, rising strictly. N is 1 to 6 digits and at most 100,000. Each line
/// ends at U+000A, the last one optionally.
pub fn read_table(alloc: Global, bytes: &[u8]) -> Result<TextTable, End<BadTable>>
    requires { length bytes.now < 2 ^ 32 }
    ensures { Gives (λ table. table) result (read_as bytes.now) }
{
    let end = bytes.len().min(MOST_TABLE_BYTES) as u32;
    let mut lines = Lines::of(bytes);
    let (height, default) = match read_head(&mut lines, end) {
        Ok(numbers) => numbers,
        Err(bad) => return Err(End::Fault(bad)),
    };
    let table = read_pairs(alloc, &mut lines, height, default)?;
    if MOST_TABLE_BYTES < bytes.len() {
        return Err(End::Fault(BadTable { at: end }));
    }
    Ok(table)
}
