//! Why the program ends early.
use slint_base::Memory;
use std::alloc::AllocError;

/// What ends the program early, under the number that the process ends with.
#[derive(Clone, Copy, Debug, PartialEq, Eq)]
pub enum Stop {
    /// Memory could not be had.
    Memory = 1,
    /// There are neither no words nor two.
    Words = 2,
    /// No net has this name.
    Shape = 3,
    /// This is no number of rounds, or one that is too great.
    Rounds = 4,
    /// The text could not be written.
    Output = 7,
}

impl Stop {
    /// The number that the process ends with.
    pub fn number(self) -> u8 {
        self as u8
    }

    /// What is told of it.
    pub fn line(self) -> &'static str {
        match self {
            Stop::Memory => "memory is wanting",
            Stop::Words => "two words are wanted, a net and a number of rounds, or none",
            Stop::Shape => "the first word must be chain, fan or grid",
            Stop::Rounds => "the second word must be a number from 0 to 1000000",
            Stop::Output => "the text could not be written",
        }
    }
}

impl From<Memory> for Stop {
    fn from(_e: Memory) -> Stop {
        Stop::Memory
    }
}

impl From<AllocError> for Stop {
    fn from(_e: AllocError) -> Stop {
        Stop::Memory
    }
}
