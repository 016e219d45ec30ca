ghost use Rattle.std.specs.Prelude.{◌≡◌, ◌+◌, ◌<◌, ◌≤◌, ◌^◌, ◌==◌, [], ◌∷◌, ◌++◌, IfOk, OnOk, length, nat_le, if◌then◌else◌};
ghost use Rattle.std.specs.List.{count_by};
ghost use Rattle.source_lines.specs.Starts.{last_upto, line_starts, place_by};

use slint_base::{Memory, Place};
use std::alloc::Global;

/// The first byte of each line, counted from 0. A line ends behind its line feed.
pub fn line_starts(alloc: Global, bytes: &[u8]) -> Result<Vec<u32>, Memory>
    requires { length bytes.now < 2 ^ 32 }
    ensures { IfOk result (λ starts. starts.items ≡ line_starts bytes.now) }
{
    let mut starts = Vec::new(alloc);
    starts.push(0)?;
    for (at, byte) in bytes.iter().enumerate() {
        push_start(&mut starts, at, *byte)?;
    }
    Ok(starts)
}

/// Notes the start of a line behind this byte of that number, where it is a line feed.
fn push_start(starts: &mut Vec<u32>, at: usize, byte: u8) -> Result<(), Memory>
    requires { at + 1 < 2 ^ 32 }
    ensures { OnOk result (starts.new.items ≡ starts.old.items ++ (if byte == 10 then (at + 1) ∷ [] else [])) }
{
    if byte != b'\n' {
        return Ok(());
    }
    starts.push(at as u32 + 1)?;
    Ok(())
}

/// How many of the starts are no greater than a byte's number.
fn lines_upto(starts: &[u32], at: u32) -> usize
    ensures { result ≡ count_by (λ start. nat_le start at) starts.now }
{
    starts.iter().filter(|start| **start <= at).count()
}

/// The start of the line of a byte.
fn last_upto(starts: &[u32], at: u32) -> u32
    ensures value { result ≡ last_upto 0 starts.now at }
    ensures within { result ≤ at }
{
    let mut found = 0;
    for start in starts {
        if *start > at {
            return found;
        }
        found = *start;
    }
    found
}

/// The place of the byte with this number in a file, counted from 0, by the starts of the file's lines.
pub fn place_by(starts: &[u32], at: u32) -> Place
    requires { length starts.now < 2 ^ 32 }
    ensures { result ≡ place_by starts.now at }
{
    Place {
        line: lines_upto(starts, at) as u32,
        column: (at - last_upto(starts, at)).saturating_add(1),
    }
}
