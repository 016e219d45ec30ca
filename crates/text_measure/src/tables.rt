ghost use Rattle.std.specs.Prelude.{◌≡◌, ◌≤◌, [], ◌∷◌, ◌++◌, length, nat_le, OnOk, OnErr};
ghost use Rattle.text_measure.specs.Tables.{Table, IsRising, pairs_of, plain_table, advance_in, least_from};

use slint_base::Memory;
use std::alloc::Global;
use std::marker::Model;

/// How high a line is and how wide characters are, in thousandths of the font size. Contracts see the height of a line, the width
/// of a character that isn't listed, and the list of characters with their widths, whose characters rise strictly.
#[derive(Debug, Drop)]
pub struct TextTable {
    line: u32,
    default: u32,
    characters: Vec<char>,
    widths: Vec<u32>,
}

impl Model for TextTable {
    ghost use Rattle.std.specs.Prelude.{◌≡◌, vec_len};
    ghost use Rattle.text_measure.specs.Tables.{Table, pairs_of, IsRising};

    ghost Value = { Table };

    ghost view = { λ t. record { line = t.line; default = t.default; pairs = pairs_of t.characters.items t.widths.items } };

    ghost invariant = { λ t. (vec_len t.characters ≡ vec_len t.widths) × IsRising t.characters.items };
}

/// The width beside a character, or the one for characters that aren't listed.
fn width_of(characters: &[char], widths: &[u32], default: u32, ch: char) -> u32
    requires same_length { length characters.now ≡ length widths.now }
    requires rising { IsRising characters.now }
    ensures { result ≡ advance_in (pairs_of characters.now widths.now) default ch }
{
    match characters.binary_search(&ch) {
        Ok(i) => widths[i],
        Err(_) => default,
    }
}

impl TextTable {
    /// The table that holds where none is given: each character is half as wide as the font is high, and a line 1.2 times as high.
    pub fn plain(alloc: Global) -> TextTable
        ensures { result ≡ plain_table }
    {
        TextTable {
            line: 1200,
            default: 500,
            characters: Vec::new(alloc),
            widths: Vec::new(alloc),
        }
    }

    /// A table without characters.
    pub(crate) fn new(alloc: Global, line: u32, default: u32) -> TextTable
        ensures { result ≡ record { line = line; default = default; pairs = [] } }
    {
        TextTable {
            line,
            default,
            characters: Vec::new(alloc),
            widths: Vec::new(alloc),
        }
    }

    /// Whether a character is above all that are listed.
    pub(crate) fn is_above_all(&self, ch: char) -> bool
        ensures { result ≡ nat_le (least_from 0 self.now.pairs) ch }
    {
        match self.characters.last() {
            None => true,
            Some(last) => *last < ch,
        }
    }

    /// Lists a character that is above all others.
    pub(crate) fn push(&mut self, ch: char, width: u32) -> Result<(), Memory>
        requires { least_from 0 self.old.pairs ≤ ch }
        ensures ok { OnOk result (self.new ≡ record self.old { pairs = self.old.pairs ++ (ch, width) ∷ [] }) }
        ensures err { OnErr result (self.new ≡ self.old) }
    {
        self.characters.push(ch)?;
        if self.widths.push(width).is_err() {
            let _ = self.characters.pop();
            return Err(Memory);
        }
        Ok(())
    }

    /// The height of a line.
    pub fn line(&self) -> u32
        ensures { result ≡ self.now.line }
    {
        self.line
    }

    /// The width of a character. It is looked up by halving.
    pub fn advance(&self, ch: char) -> u32
        ensures { result ≡ advance_in self.now.pairs self.now.default ch }
    {
        width_of(&self.characters, &self.widths, self.default, ch)
    }
}
