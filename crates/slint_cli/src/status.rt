ghost use Rattle.std.specs.Prelude.{◌≡◌};
ghost use Rattle.slint_cli.specs.Statuses.{status_number, stop_number};

use io_edge::SourceEnd;
use slint_base::Memory;
use slint_meaning::Ending;
use std::alloc::AllocError;

/// What stops a run before it has written all that it comes to, under the number that the process ends with.
#[derive(Clone, Copy, Debug, PartialEq, Eq)]
pub enum Stop {
    /// Memory could not be had; what was written is a front of the whole.
    Memory = 1,
    /// A read of the files or of the script failed; nothing is written.
    ReadFault = 6,
    /// A write failed; what was written is a front of the whole.
    SinkFault = 7,
}

impl Stop {
    /// The number that the process ends with.
    pub fn number(self) -> u8
        ensures { result ≡ stop_number self }
    {
        self as u8
    }
}

impl From<Memory> for Stop {
    ghost use Rattle.slint_cli.specs.declared.status.Stop.TheVariants.{Memory as memory_stop};

    ghost from_gives = { λ _ e. e ≡ memory_stop };

    fn from(_e: Memory) -> Stop {
        Stop::Memory
    }
}

impl From<AllocError> for Stop {
    ghost use Rattle.slint_cli.specs.declared.status.Stop.TheVariants.{Memory as memory_stop};

    ghost from_gives = { λ _ e. e ≡ memory_stop };

    fn from(_e: AllocError) -> Stop {
        Stop::Memory
    }
}

impl From<SourceEnd> for Stop {
    ghost use Rattle.slint_cli.specs.Running.{stop_of_source};

    ghost from_gives = { λ end stop. stop ≡ stop_of_source end };

    fn from(end: SourceEnd) -> Stop {
        match end {
            SourceEnd::Failed => Stop::ReadFault,
            SourceEnd::Memory => Stop::Memory,
        }
    }
}

/// How a run of the program ended.
#[derive(Clone, Copy, Debug, PartialEq, Eq)]
pub enum Status {
    /// By itself; all that it answers is written.
    Ended(Ending),
    /// Something stopped it.
    Stopped(Stop),
}

impl Status {
    /// The number that the process ends with.
    pub fn number(self) -> u8
        ensures { result ≡ status_number self }
    {
        match self {
            Status::Ended(end) => end.number(),
            Status::Stopped(stop) => stop.number(),
        }
    }
}
