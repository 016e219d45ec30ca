ghost use Rattle.std.specs.Prelude.{◌≡◌, ℕ, ◌<◌, ◌≤◌, List, [], Some, Option, IfOk, OnErr, drop, length, take, vec_len};
ghost use Rattle.std.specs.Io.KnownBytes.{Consumes};
ghost use Rattle.io_edge.specs.Counts.{IsQuiet};
ghost use Rattle.io_edge.specs.Streams.{EndsOnly, SourceCount};
ghost use Rattle.io_edge.specs.Planned.{planned, ReadsAsPlanned};

use crate::byte_source::{Failed, Source};
use crate::calls::Calls;
use std::alloc::Global;
use std::marker::Model;

/// Bytes in memory that are read from the front, where the calls with given numbers fail.
#[derive(Debug, Drop)]
pub struct MemSource {
    alloc: Global,
    bytes: Vec<u8>,
    at: usize,
    piece: usize,
    calls: Calls,
}

impl Model for MemSource {
    ghost use Rattle.std.specs.Prelude.{◌<◌, ◌≤◌, drop, vec_len};
    ghost use Rattle.io_edge.specs.Planned.{Stream};

    ghost Value = { Stream };

    ghost view = { λ s. record { bytes = drop s.at s.bytes.items; piece = s.piece; plan = s.calls } };

    ghost invariant = { λ s. (0 < s.piece) × (s.at ≤ vec_len s.bytes) };
}

impl MemSource {
    /// A source of `bytes` that gives at most `piece` bytes a call, and fails at the calls whose
    /// numbers, from 0, `fail` has.
    pub fn new(alloc: Global, bytes: Vec<u8>, piece: usize, fail: Vec<u64>) -> MemSource
        requires { 0 < piece }
        ensures made { result ≡ record { bytes = bytes.items; piece = piece; plan = planned fail.items } }
        ensures left { ⟦<MemSource as Source>⟧.left result ≡ Some bytes.items }
        ensures faults { ⟦<MemSource as Source>⟧.faults result ≡ 0 }
        ensures steady { fail.items ≡ [] → ⟦<MemSource as Source>⟧.is_steady result }
    {
        MemSource {
            alloc,
            bytes,
            at: 0,
            piece,
            calls: Calls::new(fail),
        }
    }

    /// The bytes that are left.
    pub fn left(&self) -> &[u8]
        ensures { ⟦<MemSource as Source>⟧.left self.now ≡ Some result.now }
    {
        &self.bytes[self.at..]
    }

    /// How many calls failed.
    pub fn faults(&self) -> u64
        ensures { result ≡ ⟦<MemSource as Source>⟧.faults self.now }
    {
        self.calls.faults()
    }
}

impl Source for MemSource {
    ghost left = { λ s. Some s.bytes };

    ghost faults = { λ s. s.plan.faults };

    ghost is_steady = { λ s. s.plan.fail ≡ [] };

    fn read(&mut self, buf: &mut [u8]) -> Result<usize, Failed>
        ensures planned { ReadsAsPlanned self.old buf.old result buf.new self.new }
        ensures bound { IfOk result (λ n. n ≤ length buf.new) }
        ensures taken { IfOk result (λ n. Consumes (Some self.old.bytes) (Some self.new.bytes) (take n buf.new)) }
        ensures ended { IfOk result (λ n. EndsOnly n (length buf.new) (Some self.new.bytes)) }
        ensures kept { OnErr result (Some self.new.bytes ≡ Some self.old.bytes) }
        ensures counted { SourceCount result self.old.plan.faults self.new.plan.faults }
        ensures steady { self.old.plan.fail ≡ [] → IsQuiet (self.new.plan.fail ≡ []) self.old.plan.faults self.new.plan.faults }
    {
        if self.calls.is_failing() {
            return Err(Failed);
        }
        let rest = &self.bytes[self.at..];
        let count = rest.len().min(buf.len()).min(self.piece);
        buf[..count].copy_from_slice(&rest[..count]);
        self.at += count;
        Ok(count)
    }
}
