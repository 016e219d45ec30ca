ghost use Rattle.std.specs.Prelude.{◌≡◌, ◌≤◌, length, codes, IsTrue, ◌==◌};
ghost use Rattle.std.specs.Option.{option_copied};
ghost use Rattle.std.specs.List.{list_all, position};
ghost use Rattle.text_measure.specs.Grammar.{is_digit, is_hex, hex_value, decimal, hexadecimal, number_of, character_of, behind_word, number_in, pair_of};

/// Whether a byte is a decimal digit.
fn is_digit(byte: u8) -> bool
    ensures { result ≡ is_digit byte }
{
    b'0' <= byte && byte <= b'9'
}

/// Whether a byte is an upper hexadecimal digit.
fn is_hex(byte: u8) -> bool
    ensures { result ≡ is_hex byte }
{
    is_digit(byte) || (b'A' <= byte && byte <= b'F')
}

/// The value of an upper hexadecimal digit.
fn hex_value(byte: u8) -> u32
    requires { IsTrue (is_hex byte) }
    ensures { result ≡ hex_value byte }
{
    if byte <= b'9' {
        u32::from(byte - b'0')
    } else {
        u32::from(byte - b'A') + 10
    }
}

/// The number that a few digits spell.
fn decimal(digits: &[u8]) -> u32
    requires short { length digits.now ≤ 6 }
    requires digits { IsTrue (list_all is_digit digits.now) }
    ensures { result ≡ decimal digits.now }
{
    let mut number = 0;
    for digit in digits {
        number = 10 * number + u32::from(*digit - b'0');
    }
    number
}

/// The number that a few upper hexadecimal digits spell.
fn hexadecimal(digits: &[u8]) -> u32
    requires short { length digits.now ≤ 6 }
    requires digits { IsTrue (list_all is_hex digits.now) }
    ensures { result ≡ hexadecimal digits.now }
{
    let mut number = 0;
    for digit in digits {
        number = 16 * number + hex_value(*digit);
    }
    number
}

/// Whether all bytes are decimal digits.
fn are_digits(word: &[u8]) -> bool
    ensures { result ≡ list_all is_digit word.now }
{
    word.iter().all(|b| is_digit(*b))
}

/// Whether all bytes are upper hexadecimal digits.
fn are_hex(word: &[u8]) -> bool
    ensures { result ≡ list_all is_hex word.now }
{
    word.iter().all(|b| is_hex(*b))
}

/// Where the first space stands.
fn space_in(bytes: &[u8]) -> Option<usize>
    ensures { result ≡ position (λ b. b == 32) bytes.now }
{
    bytes.iter().position(|b| *b == b' ')
}

/// The number that a word is: 1 to 6 digits, at most 100,000.
pub fn number_of(word: &[u8]) -> Option<u32>
    ensures { result ≡ number_of word.now }
{
    if word.is_empty() || word.len() > 6 || !are_digits(word) {
        return None;
    }
    let number = decimal(word);
    if number <= 100_000 {
        Some(number)
    } else {
        None
    }
}

/// The character that a word is: 4 to 6 upper hexadecimal digits of a scalar value.
pub fn character_of(word: &[u8]) -> Option<char>
    ensures { result ≡ character_of word.now }
{
    if word.len() < 4 || word.len() > 6 || !are_hex(word) {
        return None;
    }
    char::from_u32(hexadecimal(word))
}

/// What stands behind a word at the head of a line.
fn behind_word<'a>(word: &[u8], line: &'a [u8]) -> Option<&'a [u8]>
    ensures { option_copied result ≡ behind_word word.now line.now }
{
    if !line.starts_with(word) {
        return None;
    }
    Some(line.split_at(word.len()).1)
}

/// The number behind a word.
pub fn number_behind(word: &[u8], line: &[u8]) -> Option<u32>
    ensures { result ≡ number_in (behind_word word.now line.now) }
{
    number_of(behind_word(word, line)?)
}

/// The character and the number of a line for a character.
pub fn pair_of(line: &[u8]) -> Option<(char, u32)>
    ensures { result ≡ pair_of line.now }
{
    let pair = behind_word(b"U+", line)?;
    let space = space_in(pair)?;
    let character = character_of(&pair[..space])?;
    let number = number_of(&pair[space + 1..])?;
    Some((character, number))
}
