ghost use Rattle.std.specs.Prelude.{◌≡◌, ℕ, ◌<◌, ◌≤◌, List, [], Some, Option, IfOk, OnErr, length, take};
ghost use Rattle.std.specs.Io.KnownBytes.{Appends};
ghost use Rattle.io_edge.specs.Counts.{IsQuiet};
ghost use Rattle.io_edge.specs.Streams.{SinkCount};
ghost use Rattle.io_edge.specs.Planned.{planned, WritesAsPlanned};

use crate::byte_sink::{Sink, SinkEnd};
use crate::calls::Calls;
use std::alloc::Global;
use std::marker::Model;

/// Bytes in memory that are written at the end, where the calls with given numbers fail.
#[derive(Debug, Drop)]
pub struct MemSink {
    taken: Vec<u8>,
    piece: usize,
    calls: Calls,
}

impl Model for MemSink {
    ghost use Rattle.std.specs.Prelude.{◌<◌};
    ghost use Rattle.io_edge.specs.Planned.{Stream};

    ghost Value = { Stream };

    ghost view = { λ s. record { bytes = s.taken.items; piece = s.piece; plan = s.calls } };

    ghost invariant = { λ s. 0 < s.piece };
}

impl MemSink {
    /// A sink that took nothing yet. It takes at most `piece` bytes a call, and fails at the calls whose
    /// numbers, from 0, `fail` has.
    pub fn new(alloc: Global, piece: usize, fail: Vec<u64>) -> MemSink
        requires { 0 < piece }
        ensures made { result ≡ record { bytes = []; piece = piece; plan = planned fail.items } }
        ensures taken { ⟦<MemSink as Sink>⟧.taken result ≡ Some [] }
        ensures faults { ⟦<MemSink as Sink>⟧.faults result ≡ 0 }
        ensures steady { fail.items ≡ [] → ⟦<MemSink as Sink>⟧.is_steady result }
    {
        MemSink {
            taken: Vec::new(alloc),
            piece,
            calls: Calls::new(fail),
        }
    }

    /// The bytes that were taken.
    pub fn bytes(&self) -> &[u8]
        ensures { ⟦<MemSink as Sink>⟧.taken self.now ≡ Some result.now }
    {
        &self.taken
    }

    /// How many calls failed.
    pub fn faults(&self) -> u64
        ensures { result ≡ ⟦<MemSink as Sink>⟧.faults self.now }
    {
        self.calls.faults()
    }
}

impl Sink for MemSink {
    ghost taken = { λ s. Some s.bytes };

    ghost faults = { λ s. s.plan.faults };

    ghost is_steady = { λ s. s.plan.fail ≡ [] };

    fn write(&mut self, buf: &[u8]) -> Result<usize, SinkEnd>
        ensures planned { WritesAsPlanned self.old buf.now result self.new }
        ensures bound { IfOk result (λ n. n ≤ length buf.now) }
        ensures added { IfOk result (λ n. Appends (Some self.old.bytes) (Some self.new.bytes) (take n buf.now)) }
        ensures kept { OnErr result (Some self.new.bytes ≡ Some self.old.bytes) }
        ensures counted { SinkCount result (length buf.now) self.old.plan.faults self.new.plan.faults }
        ensures steady { self.old.plan.fail ≡ [] → IsQuiet (self.new.plan.fail ≡ []) self.old.plan.faults self.new.plan.faults }
    {
        if self.calls.is_failing() {
            return Err(SinkEnd::Failed);
        }
        let count = buf.len().min(self.piece);
        match self.taken.extend_from_slice(&buf[..count]) {
            Ok(()) => Ok(count),
            Err(_) => Err(SinkEnd::Memory),
        }
    }
}
