ghost use Rattle.std.specs.Prelude.{◌≡◌};
ghost use Rattle.slint_meaning.specs.Refusals.{refusal_number};

/// Why a line is refused, under the number that its reply gives.
#[derive(Clone, Copy, Debug, PartialEq, Eq)]
pub enum LineRefusal {
    BadLine = 1,
    UnknownPath = 2,
    WrongKind = 3,
    BadValue = 4,
    LineTooLong = 7,
}

impl LineRefusal {
    /// The number in the reply.
    pub fn number(self) -> u8
        ensures { result ≡ refusal_number self }
    {
        self as u8
    }
}
