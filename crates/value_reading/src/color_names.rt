ghost use Rattle.std.specs.Prelude.{◌≡◌};
ghost use Rattle.value_reading.specs.ColourNames.{color_named};

/// The colour of a name, as `rrggbbaa`.
pub fn color_named(name: &str) -> Option<u32>
    ensures { result ≡ color_named name.now }
{
    color_spelled(name.as_bytes())
}

/// The colour of a name that bytes spell, as `rrggbbaa`.
pub(crate) fn color_spelled(name: &[u8]) -> Option<u32>
    ensures { result ≡ color_named name.now }
{
    if name == b"aqua".as_slice() {
        Some(0x00ff_ffff)
    } else if name == b"black".as_slice() {
        Some(0x0000_00ff)
    } else if name == b"blue".as_slice() {
        Some(0x0000_ffff)
    } else if name == b"fuchsia".as_slice() {
        Some(0xff00_ffff)
    } else if name == b"gray".as_slice() {
        Some(0x8080_80ff)
    } else if name == b"green".as_slice() {
        Some(0x0080_00ff)
    } else if name == b"lime".as_slice() {
        Some(0x00ff_00ff)
    } else if name == b"maroon".as_slice() {
        Some(0x8000_00ff)
    } else if name == b"navy".as_slice() {
        Some(0x0000_80ff)
    } else if name == b"olive".as_slice() {
        Some(0x8080_00ff)
    } else if name == b"purple".as_slice() {
        Some(0x8000_80ff)
    } else if name == b"red".as_slice() {
        Some(0xff00_00ff)
    } else if name == b"silver".as_slice() {
        Some(0xc0c0_c0ff)
    } else if name == b"teal".as_slice() {
        Some(0x0080_80ff)
    } else if name == b"white".as_slice() {
        Some(0xffff_ffff)
    } else if name == b"yellow".as_slice() {
        Some(0xffff_00ff)
    } else if name == b"transparent".as_slice() {
        Some(0)
    } else {
        None
    }
}
