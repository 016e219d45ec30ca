ghost use Rattle.std.specs.Prelude.{◌≡◌};
ghost use Rattle.script_lines.specs.Lines.{is_blank, is_passed_over, trimmed, word_of, after_word};

/// What parts words. A carriage return or a wider space is no blank.
const BLANKS: [char; 2] = [' ', '\t'];

/// Whether a byte of a line is a blank.
fn is_blank(byte: u8) -> bool
    ensures { result ≡ is_blank byte }
{
    byte == b' ' || byte == b'\t'
}

/// Whether a line asks for nothing: it is empty, has only blanks or begins with `//`.
pub(crate) fn is_passed_over(line: &[u8]) -> bool
    ensures { result ≡ is_passed_over line.now }
{
    line.iter().all(|byte| is_blank(*byte)) || line.starts_with(b"//")
}

/// A text without the blanks around it.
pub(crate) fn trimmed(text: &str) -> &str
    ensures { result.now ≡ trimmed text.now }
{
    text.trim_end_matches(BLANKS).trim_start_matches(BLANKS)
}

/// A text's first word, and what follows the blanks behind it.
pub(crate) fn split_word(text: &str) -> (&str, &str)
    ensures word { result.0.now ≡ word_of text.now }
    ensures rest { result.1.now ≡ after_word text.now }
{
    match text.split_once(BLANKS) {
        Some((word, rest)) => (word, rest.trim_start_matches(BLANKS)),
        None => (text, ""),
    }
}
