ghost use Rattle.std.specs.Prelude.{◌≡◌, take};
ghost use Rattle.std.specs.Str.{IsAscii, IsUtf8, is_utf8};
ghost use Rattle.slint_literals.specs.Characters.{char_len, front_char};

/// The first `count` bytes, or all where there are fewer.
fn front(bytes: &[u8], count: usize) -> &[u8]
    ensures { result.now ≡ take count bytes.now }
{
    if bytes.len() <= count {
        bytes
    } else {
        &bytes[..count]
    }
}

/// Whether the bytes are UTF-8.
fn is_text(bytes: &[u8]) -> bool
    ensures { result ≡ is_utf8 bytes.now }
{
    match std::str::from_utf8(bytes) {
        Ok(_) => true,
        Err(_) => false,
    }
}

/// The text that bytes of UTF-8 are.
pub fn text_of(bytes: &[u8]) -> &str
    requires { IsUtf8 bytes.now }
    ensures { result.now ≡ bytes.now }
{
    match std::str::from_utf8(bytes) {
        Ok(text) => text,
        Err(_) => unreachable!(),
    }
}

/// The text that ASCII bytes spell.
pub(crate) fn ascii_text(bytes: &[u8]) -> &str
    requires { IsAscii bytes.now }
    ensures { result.now ≡ bytes.now }
{
    match std::str::from_utf8(bytes) {
        Ok(text) => text,
        Err(_) => unreachable!(),
    }
}

/// How many bytes the character at the front has; 0 where no well-formed character lies there.
pub fn char_len(bytes: &[u8]) -> usize
    ensures { result ≡ char_len bytes.now }
{
    if bytes.is_empty() {
        0
    } else if is_text(front(bytes, 1)) {
        1
    } else if is_text(front(bytes, 2)) {
        2
    } else if is_text(front(bytes, 3)) {
        3
    } else if is_text(front(bytes, 4)) {
        4
    } else {
        0
    }
}

/// The character at the front, where a well-formed one lies there.
pub fn front_char(bytes: &[u8]) -> Option<char>
    ensures { result ≡ front_char bytes.now }
{
    let length = char_len(bytes);
    if length == 0 {
        return None;
    }
    text_of(front(bytes, length)).chars().next()
}
