ghost use Rattle.slint_base.specs.Answers.{Gives};
ghost use Rattle.script_lines.specs.Lines.{line_reading, read_text, read_words, read_get, read_set};

use crate::paths::read_path;
use crate::words::{is_passed_over, split_word, trimmed};
use crate::{BadLine, Command};
use slint_base::{End, Text};
use std::alloc::Global;

/// The most bytes that a line has, without its end.
const MOST_LINE_BYTES: usize = 4096;

/// The command that a line is, `None` where the line asks for nothing. The line stands without its line feed; one
/// carriage return at its end is part of its end.
///
/// A line of over 4,096 bytes is `TooLong`, whatever they are. A line that is empty, has only blanks or begins with `//`
/// asks for nothing, even if it isn't UTF-8. Every other line that isn't UTF-8, or that is neither `get PATH` nor
/// `set PATH VALUE`, is `Unread`.
pub fn read_line(alloc: Global, line: &[u8]) -> Result<Option<Command>, End<BadLine>>
    ensures { Gives (λ command. command) result (line_reading line.now) }
{
    read_text(alloc, line.strip_suffix(b"\r").unwrap_or(line))
}

/// The command that a line without its end is.
fn read_text(alloc: Global, line: &[u8]) -> Result<Option<Command>, End<BadLine>>
    ensures { Gives (λ command. command) result (read_text line.now) }
{
    if line.len() > MOST_LINE_BYTES {
        return Err(End::Fault(BadLine::TooLong));
    }
    if is_passed_over(line) {
        return Ok(None);
    }
    match str::from_utf8(line) {
        Ok(text) => read_words(alloc, trimmed(text)),
        Err(_) => Err(End::Fault(BadLine::Unread)),
    }
}

/// The command that a text without blanks around it is.
fn read_words(alloc: Global, text: &str) -> Result<Option<Command>, End<BadLine>>
    ensures { Gives (λ command. command) result (read_words text.now) }
{
    let (command, words) = split_word(text);
    match command {
        "get" => read_get(alloc, words),
        "set" => read_set(alloc, words),
        _ => Err(End::Fault(BadLine::Unread)),
    }
}

/// What follows `get`: a path is all that is left.
fn read_get(alloc: Global, words: &str) -> Result<Option<Command>, End<BadLine>>
    ensures { Gives (λ command. command) result (read_get words.now) }
{
    match read_path(alloc, words)? {
        Some(path) => Ok(Some(Command::Get(path))),
        None => Err(End::Fault(BadLine::Unread)),
    }
}

/// What follows `set`: a path is the first word, and a value all that is left behind it.
fn read_set(alloc: Global, words: &str) -> Result<Option<Command>, End<BadLine>>
    ensures { Gives (λ command. command) result (read_set words.now) }
{
    let (path, value) = split_word(words);
    if value.is_empty() {
        return Err(End::Fault(BadLine::Unread));
    }
    match read_path(alloc, path)? {
        Some(path) => Ok(Some(Command::Set(path, Text::from_str(alloc, value)?))),
        None => Err(End::Fault(BadLine::Unread)),
    }
}
