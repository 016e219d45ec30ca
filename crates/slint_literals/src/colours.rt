ghost use Rattle.std.specs.Prelude.{◌≡◌};
ghost use Rattle.std.specs.Char.{is_ascii_hexdigit};
ghost use Rattle.std.specs.List.{list_all};
ghost use Rattle.slint_literals.specs.Colours.{eight_digits, colour_value};

use crate::hexadecimal::hex_value;

/// Two digits each of red, green, blue and alpha.
fn eight_digits(digits: &[u8]) -> Option<[u8; 8]>
    ensures { result ≡ eight_digits digits.now }
{
    match digits {
        [r, g, b] => Some([*r, *r, *g, *g, *b, *b, b'f', b'f']),
        [r, g, b, a] => Some([*r, *r, *g, *g, *b, *b, *a, *a]),
        [r, s, g, h, b, c] => Some([*r, *s, *g, *h, *b, *c, b'f', b'f']),
        [r, s, g, h, b, c, a, d] => Some([*r, *s, *g, *h, *b, *c, *a, *d]),
        _ => None,
    }
}

/// Whether all are hex digits.
fn are_hex(digits: &[u8]) -> bool
    ensures { result ≡ list_all is_ascii_hexdigit digits.now }
{
    digits.iter().all(|digit| digit.is_ascii_hexdigit())
}

/// The colour, as `rrggbbaa`, that the text behind a `#` writes: 3, 4, 6 or 8 hex digits.
pub fn read_colour(digits: &[u8]) -> Option<u32>
    ensures { result ≡ colour_value digits.now }
{
    if !are_hex(digits) {
        return None;
    }
    let eight = eight_digits(digits)?;
    Some(hex_value(&eight))
}
