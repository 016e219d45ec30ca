ghost use Rattle.std.specs.Prelude.{◌≡◌, ◌<◌, ◌≤◌, ℕ, List, length, take, drop, IfOk, string_bytes};
ghost use Rattle.std.specs.Str.Parse.{digits_value};
ghost use Rattle.std.specs.Char.{is_ascii_hexdigit};
ghost use Rattle.std.specs.List.{prefix_len};
ghost use Rattle.slint_literals.specs.Strings.{braced_char, unicode_look, escape_look, plain_look, text_look, IsWithin, Takes, IsRun};

use crate::characters::{char_len, text_of};
use crate::hexadecimal::hex_value;
use slint_base::{Memory, Text};
use std::alloc::Global;

/// What lies at the front of the inside of a string.
#[derive(Clone, Copy, Debug, PartialEq, Eq)]
pub enum Look {
    /// A character that stands for itself, and how many bytes it has.
    Plain(usize),
    /// An escape: the character that it stands for, and how many bytes it has.
    Escape(char, usize),
    /// The quote that ends the string.
    Quote,
    /// The backslash and brace that begin a hole.
    Hole,
    /// A backslash without a listed escape, and how many bytes it and the character behind it have.
    BadEscape(usize),
    /// A byte that begins no well-formed character.
    NotUtf8,
    /// The end of the bytes.
    End,
}

/// The characters and escapes at the front of the inside of a string.
#[derive(Debug, Drop)]
pub struct Run {
    /// The text that they spell.
    pub text: Text,
    /// How many bytes they have.
    pub length: usize,
}

/// The number of hex digits at the front.
fn hex_digits(bytes: &[u8]) -> usize
    ensures { result ≡ prefix_len is_ascii_hexdigit bytes.now }
{
    bytes.iter().take_while(|b| b.is_ascii_hexdigit()).count()
}

/// The character whose code the first `count` hex digits are, where they are 1 to 6 and a closing brace stands behind them.
fn braced_char(bytes: &[u8], count: usize) -> Option<char>
    requires { count ≡ prefix_len is_ascii_hexdigit bytes.now }
    ensures { result ≡ braced_char count bytes.now }
{
    if count == 0 || count > 6 || bytes.get(count) != Some(&b'}') {
        return None;
    }
    char::from_u32(hex_value(&bytes[..count]))
}

/// What `\u` does before these bytes.
fn unicode_look(bytes: &[u8]) -> Look
    ensures { result ≡ unicode_look bytes.now }
{
    let Some((b'{', inside)) = bytes.split_first() else {
        return Look::BadEscape(2);
    };
    let count = hex_digits(inside);
    match braced_char(inside, count) {
        Some(ch) => Look::Escape(ch, count + 4),
        None => Look::BadEscape(2),
    }
}

/// What a backslash does before these bytes.
fn escape_look(bytes: &[u8]) -> Look
    ensures { result ≡ escape_look bytes.now }
{
    let Some((first, behind)) = bytes.split_first() else {
        return Look::BadEscape(1);
    };
    match first {
        b'"' => Look::Escape('"', 2),
        b'\\' => Look::Escape('\\', 2),
        b'n' => Look::Escape('\n', 2),
        b'{' => Look::Hole,
        b'u' => unicode_look(behind),
        _ => Look::BadEscape(1 + char_len(bytes)),
    }
}

/// What a character of so many bytes is.
fn plain_look(length: usize) -> Look
    ensures { result ≡ plain_look length }
{
    if length == 0 {
        Look::NotUtf8
    } else {
        Look::Plain(length)
    }
}

/// What lies at the front of the inside of a string.
pub fn text_look(bytes: &[u8]) -> Look
    ensures value { result ≡ text_look bytes.now }
    ensures within { IsWithin result (length bytes.now) }
{
    let Some((first, behind)) = bytes.split_first() else {
        return Look::End;
    };
    match first {
        b'"' => Look::Quote,
        b'\\' => escape_look(behind),
        _ => plain_look(char_len(bytes)),
    }
}

/// Appends the character that lies at the front or that the escape there stands for, and tells how many bytes it has; 0 where neither lies there.
fn take_char(text: &mut String, bytes: &[u8]) -> Result<usize, Memory>
    ensures within { IfOk result (λ n. n ≤ length bytes.now) }
    ensures takes { IfOk result (λ n. Takes (string_bytes text.old) bytes.now (string_bytes text.new) n) }
{
    match text_look(bytes) {
        Look::Plain(length) => {
            text.push_str(text_of(&bytes[..length]))?;
            Ok(length)
        }
        Look::Escape(ch, length) => {
            text.push(ch)?;
            Ok(length)
        }
        _ => Ok(0),
    }
}

/// The characters and escapes at the front of the inside of a string, up to the first thing that is neither.
pub fn text_run(alloc: Global, bytes: &[u8]) -> Result<Run, Memory>
    ensures within { IfOk result (λ run. run.length ≤ length bytes.now) }
    ensures run { IfOk result (λ run. IsRun bytes.now run.text (drop run.length bytes.now)) }
{
    let mut text = String::new(alloc);
    let mut at = 0;
    loop {
        let length = take_char(&mut text, &bytes[at..])?;
        if length == 0 {
            let text = Text::from_str(alloc, text.as_str())?;
            return Ok(Run { text, length: at });
        }
        at += length;
    }
}
