ghost use Rattle.std.specs.Prelude.{◌≡◌, ℕ, ◌≤◌, List, Option, IfOk, OnErr, length, take};
ghost use Rattle.std.specs.Io.KnownBytes.{Consumes};
ghost use Rattle.io_edge.specs.Counts.{IsQuiet};
ghost use Rattle.io_edge.specs.Streams.{EndsOnly, SourceCount};

/// A read failed; it took nothing.
#[derive(Clone, Copy, Debug, PartialEq, Eq)]
pub struct Failed;

/// Bytes that are read from the front.
pub trait Source {
    /// The bytes that are left, where they are told.
    ghost left: { Self → Option (List ℕ) };

    /// How many calls failed; the count stays at 2^64 - 1 once it is there.
    ghost faults: { Self → ℕ };

    /// No call fails from here on.
    ghost is_steady: { Self → Type 0 };

    /// Fills the front of `buf` with the next bytes, and says with how many. None for a buffer that
    /// isn't empty means the end.
    fn read(&mut self, buf: &mut [u8]) -> Result<usize, Failed>
        ensures bound { IfOk result (λ n. n ≤ length buf.new) }
        ensures taken { IfOk result (λ n. Consumes (left self.old) (left self.new) (take n buf.new)) }
        ensures ended { IfOk result (λ n. EndsOnly n (length buf.new) (left self.new)) }
        ensures kept { OnErr result (left self.new ≡ left self.old) }
        ensures counted { SourceCount result (faults self.old) (faults self.new) }
        ensures steady { is_steady self.old → IsQuiet (is_steady self.new) (faults self.old) (faults self.new) };
}
