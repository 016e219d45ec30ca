ghost use Rattle.std.specs.Prelude.{◌≡◌, ◌-◌, ◌<◌, ◌≤◌, ◌^◌, ◌==◌, length, not};
ghost use Rattle.std.specs.List.{count_by, suffix_len};
ghost use Rattle.slint_base.specs.Places.{place_of};

/// A place in a file, as refusals name it. The first byte stands at line 1, column 1.
#[derive(Clone, Copy, Debug, PartialEq, Eq)]
pub struct Place {
    /// One more than the line feeds before the place.
    pub line: u32,
    /// One more than the bytes since the line's start.
    pub column: u32,
}

/// How many line feeds there are.
fn line_feeds(bytes: &[u8]) -> usize
    ensures { result ≡ count_by (λ b. b == 10) bytes.now }
{
    bytes.iter().filter(|byte| **byte == b'\n').count()
}

#[tactic(auto, using(crate::proofs::LastLines::suffix_len_within))]
/// How many bytes stand behind the last line feed, or at all where there is none.
fn last_line_length(bytes: &[u8]) -> usize
    ensures value { result ≡ suffix_len (λ b. not (b == 10)) bytes.now }
    ensures within { result ≤ length bytes.now }
{
    bytes
        .iter()
        .rev()
        .take_while(|byte| **byte != b'\n')
        .count()
}

impl Place {
    /// The place of the byte with this number in a file, counted from 0; of the file's end where the file has no such byte.
    pub fn of_byte(bytes: &[u8], at: u32) -> Place
        requires { length bytes.now < 2 ^ 32 - 1 }
        ensures { result ≡ place_of bytes.now at }
    {
        let before = &bytes[..bytes.len().min(at as usize)];
        Place {
            line: line_feeds(before) as u32 + 1,
            column: last_line_length(before) as u32 + 1,
        }
    }
}
