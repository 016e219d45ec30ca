ghost use Rattle.std.specs.Prelude.{◌≡◌, ◌==◌, ◌+◌, ◌-◌, ◌<◌, ◌≤◌, ◌^◌, [], ◌∷◌, length, take, nat_lt, MatchOption, IfSome, OnSome};
ghost use Rattle.std.specs.List.{position};
ghost use Rattle.text_measure.specs.Reading.{most_table_bytes, lines_in, behind_line};

/// The most bytes of a table. Of a longer file only the lines that end among so many bytes are looked at.
pub const MOST_TABLE_BYTES: usize = 262_144;

/// The lines of a file that are still to be read.
#[derive(Drop)]
pub struct Lines<'a> {
    pub bytes: &'a [u8],
    /// Where they begin.
    pub at: usize,
    /// Whether the file goes on behind the bytes.
    pub cut: bool,
    pub ghost placed: { 0 < length bytes.now → at + length bytes.now < 2 ^ 32 },
}

/// The bytes of a file that are looked at.
fn looked_at(file: &[u8]) -> &[u8]
    ensures { result.now ≡ take most_table_bytes file.now }
{
    if file.len() <= MOST_TABLE_BYTES {
        return file;
    }
    file.split_at(MOST_TABLE_BYTES).0
}

/// Where the first U+000A stands.
fn line_end(bytes: &[u8]) -> Option<usize>
    ensures { result ≡ position (λ b. b == 10) bytes.now }
{
    bytes.iter().position(|b| *b == b'\n')
}

/// The first line of some bytes, and what stands behind it.
fn first_line(bytes: &[u8], cut: bool) -> Option<(&[u8], &[u8])>
    ensures lines { MatchOption result (lines_in cut bytes.now ≡ []) (λ p. lines_in cut bytes.now ≡ p.0.now ∷ lines_in cut p.1.now) }
    ensures lengths { IfSome result (λ p. (0 < length bytes.now) × (length p.0.now ≤ length bytes.now) × (length p.1.now ≡ length bytes.now - (length p.0.now + 1))) }
{
    match line_end(bytes) {
        Some(end) => Some((bytes.split_at(end).0, bytes.split_at(end + 1).1)),
        None => {
            if cut || bytes.is_empty() {
                return None;
            }
            Some((bytes, bytes.split_at(bytes.len()).1))
        }
    }
}

impl<'a> Lines<'a> {
    /// All lines of a file that are looked at.
    pub fn of(file: &'a [u8]) -> Lines<'a>
        requires { length file.now < 2 ^ 32 }
        ensures bytes { result.bytes.now ≡ take most_table_bytes file.now }
        ensures at { result.at ≡ 0 }
        ensures cut { result.cut ≡ nat_lt most_table_bytes (length file.now) }
    {
        Lines {
            bytes: looked_at(file),
            at: 0,
            cut: MOST_TABLE_BYTES < file.len(),
        }
    }

    /// The first of them, which is then read.
    pub fn next(&mut self) -> Option<&'a [u8]>
        ensures line { MatchOption result (lines_in self.old.cut self.old.bytes.now ≡ []) (λ line. lines_in self.old.cut self.old.bytes.now ≡ line.now ∷ lines_in self.new.cut self.new.bytes.now) }
        ensures at { IfSome result (λ line. self.new.at ≡ behind_line self.old.at line.now) }
        ensures shorter { OnSome result (length self.new.bytes.now < length self.old.bytes.now) }
        ensures begins { OnSome result (self.old.at < 2 ^ 32) }
    {
        let (line, rest) = first_line(self.bytes, self.cut)?;
        self.at += line.len() + 1;
        self.bytes = rest;
        Some(line)
    }
}
