ghost use Rattle.std.specs.Prelude.{◌≡◌, ◌↔◌, IsTrue, if◌then◌else◌};
ghost use Rattle.io_edge.specs.Planned.{FailsNext, failed, passed, planned};

use std::marker::Model;

/// The calls that an object in memory had, some of which fail by plan.
#[derive(Debug, Drop)]
pub(crate) struct Calls {
    /// The numbers of the calls that fail, from 0.
    fail: Vec<u64>,
    /// How many calls there were; the count stays at 2^64 - 1 once it is there.
    made: u64,
    /// How many of them failed; the count stays at 2^64 - 1 once it is there.
    faults: u64,
}

impl Model for Calls {
    ghost use Rattle.io_edge.specs.Planned.{Plan};

    ghost Value = { Plan };

    ghost view = { λ c. record { fail = c.fail.items; made = c.made; faults = c.faults } };
}

impl Calls {
    pub(crate) fn new(fail: Vec<u64>) -> Calls
        ensures { result ≡ planned fail.items }
    {
        Calls {
            fail,
            made: 0,
            faults: 0,
        }
    }

    /// Counts one more call, and says whether it fails.
    pub(crate) fn is_failing(&mut self) -> bool
        ensures fails { IsTrue result ↔ FailsNext self.old }
        ensures after { self.new ≡ if result then failed self.old else passed self.old }
    {
        let fails = self.fail.contains(&self.made);
        self.made = self.made.saturating_add(1);
        if fails {
            self.faults = self.faults.saturating_add(1);
        }
        fails
    }

    pub(crate) fn faults(&self) -> u64
        ensures { result ≡ self.now.faults }
    {
        self.faults
    }
}
