ghost use Rattle.std.specs.Prelude.{◌≡◌, ◌+◌, ◌<◌, ◌≤◌, ◌∷◌, ℕ, List, drop, length, IfOk, IsTrue, MatchBool, MatchOption};
ghost use Rattle.std.specs.Char.{is_ascii_alphanumeric};
ghost use Rattle.std.specs.List.{prefix_len, take_while};
ghost use Rattle.slint_literals.specs.Numbers.{number_length, starts_with_digit};
ghost use Rattle.slint_literals.specs.Strings.{IsRun};
ghost use Rattle.value_reading.specs.declared.parts.Part.TheVariants as word_of;
ghost use Rattle.value_reading.specs.Parts.{is_word_start, is_word_byte, is_mark, front_of, number_part, color_part, spelled, IsStringOf, Finds, SplitsInto};

use slint_base::{Memory, Text};
use slint_literals::{Number, number_length, read_colour, read_number, text_run};
use sqlite_items::Items;
use std::alloc::Global;

/// A part of a value's text.
#[derive(Drop)]
pub enum Part {
    Number(Number),
    Color(u32),
    /// A string, by the text that it stands for.
    Str(Text),
    /// A word, spelled as names are compared.
    Word(Items<u8>),
    /// A mark, by its byte.
    Mark(u8),
}

/// What begins with a byte.
#[derive(Clone, Copy)]
pub enum Front {
    Digit,
    Hash,
    Quote,
    Letter,
    Mark,
    Other,
}

/// Whether a word may begin with a byte.
fn is_word_start(byte: u8) -> bool
    ensures { result ≡ is_word_start byte }
{
    byte.is_ascii_alphabetic() || byte == b'_' || byte >= 128
}

/// Whether a word may go on with a byte.
fn is_word_byte(byte: u8) -> bool
    ensures { result ≡ is_word_byte byte }
{
    is_word_start(byte) || byte.is_ascii_digit() || byte == b'-'
}

/// Whether a byte is a mark.
fn is_mark(byte: u8) -> bool
    ensures { result ≡ is_mark byte }
{
    matches!(
        byte,
        b'-' | b'.' | b',' | b':' | b'@' | b'(' | b')' | b'[' | b']' | b'{' | b'}'
    )
}

/// What begins with a byte.
fn front_of(byte: u8) -> Front
    ensures { result ≡ front_of byte }
{
    if byte.is_ascii_digit() {
        Front::Digit
    } else if byte == b'#' {
        Front::Hash
    } else if byte == b'"' {
        Front::Quote
    } else if is_word_start(byte) {
        Front::Letter
    } else if is_mark(byte) {
        Front::Mark
    } else {
        Front::Other
    }
}

/// How many letters and digits lie at the front.
fn digits_length(bytes: &[u8]) -> usize
    ensures value { result ≡ prefix_len is_ascii_alphanumeric bytes.now }
    ensures within { result ≤ length bytes.now }
{
    bytes
        .iter()
        .take_while(|b| b.is_ascii_alphanumeric())
        .count()
}

/// How many bytes of a word lie at the front.
fn word_length(bytes: &[u8]) -> usize
    ensures value { result ≡ prefix_len is_word_byte bytes.now }
    ensures within { result ≤ length bytes.now }
{
    bytes.iter().take_while(|b| is_word_byte(**b)).count()
}

/// A part, and how many bytes it has.
#[derive(Drop)]
pub struct Found {
    pub part: Part,
    pub length: usize,
}

/// The number at the front of a text that begins with a digit.
fn number_found(bytes: &[u8]) -> Option<Found>
    requires { IsTrue (starts_with_digit bytes.now) }
    ensures { MatchOption result (number_part bytes.now ≡ None) (λ found. (number_part bytes.now ≡ Some found.part) × (found.length ≡ number_length bytes.now) × (found.length ≤ length bytes.now)) }
{
    let length = number_length(bytes);
    let value = read_number(bytes.split_at(length).0)?;
    Some(Found {
        part: Part::Number(value),
        length,
    })
}

/// The colour at the front of a text, behind its `#`.
fn color_found(bytes: &[u8]) -> Option<Found>
    ensures { MatchOption result (color_part bytes.now ≡ None) (λ found. (color_part bytes.now ≡ Some found.part) × (found.length ≡ prefix_len is_ascii_alphanumeric bytes.now + 1) × (found.length ≤ length bytes.now + 1)) }
{
    let length = digits_length(bytes);
    let color = read_colour(bytes.split_at(length).0)?;
    Some(Found {
        part: Part::Color(color),
        length: length + 1,
    })
}

/// A word as names are compared.
fn spelled(alloc: Global, word: &[u8]) -> Result<Items<u8>, Memory>
    ensures { IfOk result (λ made. made ≡ spelled word.now) }
{
    let mut made = Vec::new(alloc);
    let Some((first, others)) = word.split_first() else {
        return Ok(Items::from_vec(made));
    };
    made.push(*first)?;
    for byte in others {
        made.push(if *byte == b'_' { b'-' } else { *byte })?;
    }
    Ok(Items::from_vec(made))
}

/// The word at the front of a text.
fn word_found(alloc: Global, bytes: &[u8]) -> Result<Found, Memory>
    ensures part { IfOk result (λ found. found.part ≡ word_of.Word (spelled (take_while is_word_byte bytes.now))) }
    ensures length { IfOk result (λ found. found.length ≡ prefix_len is_word_byte bytes.now) }
    ensures within { IfOk result (λ found. found.length ≤ length bytes.now) }
{
    let length = word_length(bytes);
    let word = spelled(alloc, bytes.split_at(length).0)?;
    Ok(Found {
        part: Part::Word(word),
        length,
    })
}

/// Whether a quote lies at the front.
fn is_quoted(bytes: &[u8]) -> bool
    ensures { MatchBool result ((rest : List ℕ) × (bytes.now ≡ 34 ∷ rest)) ((rest : List ℕ) → bytes.now ≡ 34 ∷ rest → ⊥) }
{
    match bytes {
        [b'"', ..] => true,
        _ => false,
    }
}

/// The string at the front of a text, behind its first quote; none where no string ends there.
fn string_found(alloc: Global, bytes: &[u8]) -> Result<Option<Found>, Memory>
    ensures { IfOk result (λ answer. MatchOption answer ((t rest : List ℕ) → IsRun bytes.now t (34 ∷ rest) → ⊥)
        (λ found. (t : List ℕ) × (n : ℕ) × IsStringOf bytes.now t n found)) }
{
    let run = text_run(alloc, bytes)?;
    if !is_quoted(bytes.split_at(run.length).1) {
        return Ok(None);
    }
    let text = Text::cut(alloc, run.text.as_str())?;
    Ok(Some(Found {
        part: Part::Str(text),
        length: run.length + 2,
    }))
}

/// The part at the front of a text with a byte, if one lies there.
fn part_found(alloc: Global, bytes: &[u8]) -> Result<Option<Found>, Memory>
    requires { 0 < length bytes.now }
    ensures { IfOk result (λ answer. Finds bytes.now answer) }
{
    let Some((first, behind)) = bytes.split_first() else {
        return Ok(None);
    };
    match front_of(*first) {
        Front::Digit => Ok(number_found(bytes)),
        Front::Hash => Ok(color_found(behind)),
        Front::Quote => {
            let found = string_found(alloc, behind)?;
            Ok(found)
        }
        Front::Letter => Ok(Some(word_found(alloc, bytes)?)),
        Front::Mark => Ok(Some(Found {
            part: Part::Mark(*first),
            length: 1,
        })),
        Front::Other => Ok(None),
    }
}

/// The parts of a text, if it has such.
pub(crate) fn split_parts(alloc: Global, text: &[u8]) -> Result<Option<Items<Part>>, Memory>
    ensures { IfOk result (λ answer. SplitsInto text.now answer) }
{
    let mut made = Items::new(alloc);
    let mut at = 0;
    while at < text.len() {
        if text[at] == b' ' {
            at += 1;
        } else {
            let Some(found) = part_found(alloc, text.split_at(at).1)? else {
                return Ok(None);
            };
            at += found.length;
            made.push(found.part)?;
        }
    }
    Ok(Some(made))
}
