ghost use Rattle.std.specs.Prelude.{◌≡◌};
ghost use Rattle.slint_meaning.specs.Endings.{ending_number};

/// How a run ends by itself, neither for want of memory nor by a fault of the outside, under the number that its status has.
#[derive(Clone, Copy, Debug, PartialEq, Eq)]
pub enum Ending {
    /// The script was read to its end, and every command is answered.
    Done = 0,
    /// The words of the command line can't be read.
    Words = 2,
    /// The source is refused.
    Refused = 3,
    /// The script has over 16,777,216 bytes.
    ScriptLong = 8,
}

impl Ending {
    /// The number that the process ends with.
    pub fn number(self) -> u8
        ensures { result ≡ ending_number self }
    {
        self as u8
    }
}
