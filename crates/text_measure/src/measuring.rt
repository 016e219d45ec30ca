ghost use Rattle.std.specs.Prelude.{◌≡◌, ℕ, int_le, ◌+◌, ◌*◌, ◌-◌, ◌^◌, min, max, pos, None, Some, MatchOption};
ghost use Rattle.std.specs.Bool.{MatchBool};
ghost use Rattle.std.specs.Str.{chars};
ghost use Rattle.slint_base.specs.Numbers.{sat};
ghost use Rattle.text_measure.specs.Measures.{font_size, scaled, char_width, fits, text_width, text_rows, measured};

use crate::TextTable;
use slint_base::LIM;

/// The size of a text, in units of length.
#[derive(Clone, Copy, Debug, PartialEq, Eq)]
pub struct Size {
    pub width: i64,
    pub height: i64,
}

/// What rows are made with.
#[derive(Clone, Copy)]
struct Ruler {
    /// The width of a space.
    space: u64,
    /// The greatest width at which a row fits.
    room: i128,
}

/// What is known of a text so far. A number past 64 bits stands as the greatest that they hold, which is far past all limits.
#[derive(Clone, Copy)]
struct Pen {
    /// The width of the widest line before the current one.
    widest: u64,
    /// The width of the current line.
    line: u64,
    /// The rows that ended.
    rows: u64,
    /// The width of the current row before the current word and the space before it; none at a line's first word.
    row: Option<u64>,
    /// The width of the current word.
    word: u64,
}

/// A font size, or 0 for a negative one.
fn font_size(font: i64) -> u64
    ensures { result ≡ font_size font }
{
    font.max(0).unsigned_abs()
}

/// A number of thousandths of the font size, rounded to nearest.
fn scaled(size: u64, thousandths: u32) -> u64
    ensures { result ≡ min (scaled size thousandths) (2 ^ 64 - 1) }
{
    let exact = u128::from(thousandths) * u128::from(size);
    ((2 * exact + 1000) / 2000).min(u64::MAX as u128) as u64
}

/// The width of a character.
fn char_width(table: &TextTable, size: u64, ch: char) -> u64
    ensures { result ≡ min (char_width table.now size ch) (2 ^ 64 - 1) }
{
    scaled(size, table.advance(ch))
}

/// The greatest width at which a row fits, if widths past 64 bits stand as the greatest that they hold.
fn room_of(width: Option<i64>) -> i128
    ensures { (row : ℕ) → int_le (pos (min row (2 ^ 64 - 1))) result ≡ fits width row }
{
    match width {
        None => u64::MAX as i128,
        Some(room) => i128::from(room),
    }
}

impl Pen {
    /// The pen after a character that is part of a word.
    fn add(self, width: u64) -> Pen
        ensures { result ≡ record self { line = min (self.line + width) (2 ^ 64 - 1); word = min (self.word + width) (2 ^ 64 - 1) } }
    {
        Pen {
            line: self.line.saturating_add(width),
            word: self.word.saturating_add(width),
            ..self
        }
    }

    /// The pen when its word ends: on the row behind a space where it fits, else on a new one.
    fn end_word(self, ruler: &Ruler) -> Pen
        ensures { MatchOption self.row (result ≡ record self { row = Some self.word; word = 0 }) (λ row.
            let whole = min (min (row + ruler.now.space) (2 ^ 64 - 1) + self.word) (2 ^ 64 - 1) in
            MatchBool (int_le (pos whole) ruler.now.room)
            (result ≡ record self { row = Some whole; word = 0 })
            (result ≡ record self { rows = min (self.rows + 1) (2 ^ 64 - 1); row = Some self.word; word = 0 })) }
    {
        let Some(row) = self.row else {
            return Pen {
                row: Some(self.word),
                word: 0,
                ..self
            };
        };
        let whole = row.saturating_add(ruler.space).saturating_add(self.word);
        if i128::from(whole) <= ruler.room {
            Pen {
                row: Some(whole),
                word: 0,
                ..self
            }
        } else {
            let rows = self.rows.saturating_add(1);
            let first = self.word;
            Pen {
                rows,
                row: Some(first),
                word: 0,
                ..self
            }
        }
    }

    /// The pen after a space behind a word.
    fn add_space(self, space: u64) -> Pen
        ensures { result ≡ record self { line = min (self.line + space) (2 ^ 64 - 1) } }
    {
        Pen {
            line: self.line.saturating_add(space),
            ..self
        }
    }

    /// The pen when its line ends.
    fn end_line(self) -> Pen
        ensures { result ≡ record { widest = max self.widest self.line; line = 0; rows = min (self.rows + 1) (2 ^ 64 - 1); row = None; word = 0 } }
    {
        Pen {
            widest: self.widest.max(self.line),
            line: 0,
            rows: self.rows.saturating_add(1),
            row: None,
            word: 0,
        }
    }
}

/// The pen after a text.
fn written(table: &TextTable, text: &str, size: u64, width: Option<i64>) -> Pen
    ensures width { min result.widest (2 ^ 64 - 1) ≡ min (text_width table.now size (chars text.now)) (2 ^ 64 - 1) }
    ensures rows { min result.rows (2 ^ 64 - 1) ≡ min (text_rows table.now size width (chars text.now)) (2 ^ 64 - 1) }
{
    let ruler = Ruler {
        space: char_width(table, size, ' '),
        room: room_of(width),
    };
    let mut pen = Pen {
        widest: 0,
        line: 0,
        rows: 0,
        row: None,
        word: 0,
    };
    for ch in text.chars() {
        pen = if ch == '\n' {
            pen.end_word(&ruler).end_line()
        } else if ch == ' ' {
            pen.end_word(&ruler).add_space(ruler.space)
        } else {
            pen.add(char_width(table, size, ch))
        };
    }
    pen.end_word(&ruler).end_line()
}

/// A number brought into the limits.
fn saturated(exact: u128) -> i64
    ensures { result ≡ sat (pos exact) }
{
    exact.min(LIM as u128) as i64
}

/// The size of a text in a font of this size. Its width is that of the widest line, and lines end at U+000A. Its height is the height
/// of a line times the number of rows. Where a `width` is given, each line is wrapped: its words are the parts between single
/// U+0020, and a word that doesn't fit on the row in that width, behind one space, begins a new one. Sums are exact and brought into
/// the limits once, at the end. A negative font size counts as 0.
pub fn measure(table: &TextTable, text: &str, font: i64, width: Option<i64>) -> Size
    ensures { result ≡ measured table.now text.now font width }
{
    let size = font_size(font);
    let pen = written(table, text, size, width);
    Size {
        width: saturated(u128::from(pen.widest)),
        height: saturated(u128::from(pen.rows) * u128::from(scaled(size, table.line()))),
    }
}
