ghost use Rattle.std.specs.Prelude.{◌≡◌, ◌<◌, ◌∷◌, length};
ghost use Rattle.script_lines.specs.Lines.{lines_of, whole_lines};

/// The first line of a text that isn't empty, without its line feed, and the text behind it.
pub fn cut_line(text: &[u8]) -> (&[u8], &[u8])
    requires { 0 < length text.now }
    ensures lines { lines_of text.now ≡ result.0.now ∷ lines_of result.1.now }
    ensures shorter { length result.1.now < length text.now }
{
    for (i, b) in text.iter().enumerate() {
        if *b == b'\n' {
            return (&text[..i], &text[i + 1..]);
        }
    }
    (text, &text[text.len()..])
}

/// The front of a text up to its last line feed, with it.
pub fn whole_part(text: &[u8]) -> &[u8]
    ensures { lines_of result.now ≡ whole_lines text.now }
{
    let mut end = text.len();
    while end > 0 && text[end - 1] != b'\n' {
        end -= 1;
    }
    &text[..end]
}
