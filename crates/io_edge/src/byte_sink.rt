ghost use Rattle.std.specs.Prelude.{◌≡◌, ℕ, ◌≤◌, List, Option, IfOk, OnErr, length, take};
ghost use Rattle.std.specs.Io.KnownBytes.{Appends};
ghost use Rattle.io_edge.specs.Counts.{IsQuiet};
ghost use Rattle.io_edge.specs.Streams.{SinkCount};

/// Why nothing could be written.
#[derive(Clone, Copy, Debug, PartialEq, Eq)]
pub enum SinkEnd {
    Failed,
    Memory,
}

/// Bytes that are written at the end.
pub trait Sink {
    /// The bytes that were taken, where they are told.
    ghost taken: { Self → Option (List ℕ) };

    /// How many calls failed; the count stays at 2^64 - 1 once it is there.
    ghost faults: { Self → ℕ };

    /// No call fails from here on.
    ghost is_steady: { Self → Type 0 };

    /// Takes a front of `buf`, and says how many bytes it took. None of a buffer that isn't empty is a
    /// failure, which is counted.
    fn write(&mut self, buf: &[u8]) -> Result<usize, SinkEnd>
        ensures bound { IfOk result (λ n. n ≤ length buf.now) }
        ensures added { IfOk result (λ n. Appends (taken self.old) (taken self.new) (take n buf.now)) }
        ensures kept { OnErr result (taken self.new ≡ taken self.old) }
        ensures counted { SinkCount result (length buf.now) (faults self.old) (faults self.new) }
        ensures steady { is_steady self.old → IsQuiet (is_steady self.new) (faults self.old) (faults self.new) };
}
