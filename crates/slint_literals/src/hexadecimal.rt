ghost use Rattle.std.specs.Prelude.{◌≡◌, ◌<◌, ◌≤◌, length, IsTrue};
ghost use Rattle.std.specs.Char.{is_ascii_hexdigit};
ghost use Rattle.std.specs.List.{list_all};
ghost use Rattle.std.specs.Str.Parse.{digits_value};

use crate::characters::ascii_text;

/// What one to eight hex digits write.
pub(crate) fn hex_value(digits: &[u8]) -> u32
    requires hex { IsTrue (list_all is_ascii_hexdigit digits.now) }
    requires some { 0 < length digits.now }
    requires few { length digits.now ≤ 8 }
    ensures { result ≡ digits_value 16 digits.now }
{
    match u32::from_str_radix(ascii_text(digits), 16) {
        Ok(value) => value,
        Err(_) => unreachable!(),
    }
}
