ghost use Rattle.std.specs.Prelude.{◌≡◌};
ghost use Rattle.script_lines.specs.Ints.{int_reading};

/// The `int` that a text spells: an optional `-` and one or more digits, between -2147483648 and 2147483647. Leading
/// zeros count for nothing; every other text, also one with a `+`, spells none.
pub fn read_int(text: &str) -> Option<i32>
    ensures { result ≡ int_reading text.now }
{
    if text.starts_with('+') {
        return None;
    }
    text.parse().ok()
}
