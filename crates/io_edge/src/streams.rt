ghost use Rattle.std.specs.Prelude.{◌≡◌, ℕ, ◌≤◌, ◌<◌, List, None, Option, IfErr, IfOk, OnErr, length, take};
ghost use Rattle.std.specs.Io.KnownBytes.{Appends, Consumes, IsAtEnd, Keeps, ReadConsumes, WriteAppends};
ghost use Rattle.io_edge.specs.Counts.{IsQuiet};
ghost use Rattle.io_edge.specs.Streams.{EndsOnly, SinkCount, SourceCount};

use crate::byte_sink::{Sink, SinkEnd};
use crate::byte_source::{Failed, Source};
use std::io;
use std::io::{ErrorKind, Read, Write};
use std::marker::Model;

/// A reader as a source, which tells no bytes to who calls it as one; its own clauses say what became of those that the reader tells.
/// A read that a signal interrupts is tried again.
#[derive(Debug, Drop)]
pub struct StreamSource<R: Read> {
    inner: R,
    faults: u64,
}

impl<R: Read> Model for StreamSource<R> {
    ghost use Rattle.io_edge.specs.Streams.{Carried};

    ghost Value = { Carried };

    ghost view = { λ s. record { bytes = R.remaining s.inner; faults = s.faults } };
}

impl<R: Read> StreamSource<R> {
    pub fn new(inner: R) -> StreamSource<R>
        ensures carries { result.bytes ≡ R.remaining inner }
        ensures left { ⟦<StreamSource<R> as Source>⟧.left result ≡ None }
        ensures faults { ⟦<StreamSource<R> as Source>⟧.faults result ≡ 0 }
    {
        StreamSource { inner, faults: 0 }
    }

    /// How many calls failed.
    pub fn faults(&self) -> u64
        ensures { result ≡ ⟦<StreamSource<R> as Source>⟧.faults self.now }
    {
        self.faults
    }
}

impl<R: Read> Source for StreamSource<R> {
    ghost left = { λ _. None };

    ghost faults = { λ s. s.faults };

    // a reader may fail at any call
    ghost is_steady = { λ _. ⊥ };

    fn read(&mut self, buf: &mut [u8]) -> Result<usize, Failed>
        ensures carried { ReadConsumes self.old.bytes self.new.bytes result buf.new }
        ensures bound { IfOk result (λ n. n ≤ length buf.new) }
        ensures counted { SourceCount result self.old.faults self.new.faults }
    {
        match read_through(&mut self.inner, buf) {
            Ok(count) => Ok(count),
            Err(_) => {
                self.faults = self.faults.saturating_add(1);
                Err(Failed)
            }
        }
    }
}

/// A writer as a sink, which tells no bytes to who calls it as one; its own clauses say what became of those that the writer tells.
/// A write that a signal interrupts is tried again, and one that takes nothing of
/// some bytes has failed.
#[derive(Debug, Drop)]
pub struct StreamSink<W: Write> {
    inner: W,
    faults: u64,
}

impl<W: Write> Model for StreamSink<W> {
    ghost use Rattle.io_edge.specs.Streams.{Carried};

    ghost Value = { Carried };

    ghost view = { λ s. record { bytes = W.contents s.inner; faults = s.faults } };
}

impl<W: Write> StreamSink<W> {
    pub fn new(inner: W) -> StreamSink<W>
        ensures carries { result.bytes ≡ W.contents inner }
        ensures taken { ⟦<StreamSink<W> as Sink>⟧.taken result ≡ None }
        ensures faults { ⟦<StreamSink<W> as Sink>⟧.faults result ≡ 0 }
    {
        StreamSink { inner, faults: 0 }
    }

    /// How many calls failed.
    pub fn faults(&self) -> u64
        ensures { result ≡ ⟦<StreamSink<W> as Sink>⟧.faults self.now }
    {
        self.faults
    }
}

impl<W: Write> Sink for StreamSink<W> {
    ghost taken = { λ _. None };

    ghost faults = { λ s. s.faults };

    // a writer may fail at any call
    ghost is_steady = { λ _. ⊥ };

    fn write(&mut self, buf: &[u8]) -> Result<usize, SinkEnd>
        ensures carried { WriteAppends self.old.bytes self.new.bytes result buf.now }
        ensures bound { IfOk result (λ n. n ≤ length buf.now) }
        ensures counted { SinkCount result (length buf.now) self.old.faults self.new.faults }
        // It takes no memory, so what stops it is a failure, and counted.
        ensures failed { IfErr result (λ end. end ≡ SinkEnd.Failed) }
    {
        match write_through(&mut self.inner, buf) {
            Ok(count) if count > 0 || buf.is_empty() => Ok(count),
            _ => {
                self.faults = self.faults.saturating_add(1);
                Err(SinkEnd::Failed)
            }
        }
    }
}

/// One read, tried again while a signal interrupts it.
fn read_through<R: Read>(reader: &mut R, buf: &mut [u8]) -> io::Result<usize>
    ensures bound { IfOk result (λ n. n ≤ length buf.new) }
    ensures taken { IfOk result (λ n. Consumes (R.remaining reader.old) (R.remaining reader.new) (take n buf.new)) }
    ensures ended { IfOk result (λ n. n ≡ 0 → 0 < length buf.new → IsAtEnd (R.remaining reader.new)) }
    ensures kept { OnErr result (Keeps (R.remaining reader.old) (R.remaining reader.new)) }
{
    for _ in 0..u64::MAX {
        match reader.read(buf) {
            Ok(count) => return Ok(count),
            Err(e) => {
                if e.kind() != ErrorKind::Interrupted {
                    return Err(e);
                }
            }
        }
    }
    Err(io::Error::from(ErrorKind::Interrupted))
}

/// One write, tried again while a signal interrupts it.
fn write_through<W: Write>(writer: &mut W, buf: &[u8]) -> io::Result<usize>
    ensures bound { IfOk result (λ n. n ≤ length buf.now) }
    ensures added { IfOk result (λ n. Appends (W.contents writer.old) (W.contents writer.new) (take n buf.now)) }
    ensures kept { OnErr result (Keeps (W.contents writer.old) (W.contents writer.new)) }
{
    for _ in 0..u64::MAX {
        match writer.write(buf) {
            Ok(count) => return Ok(count),
            Err(e) => {
                if e.kind() != ErrorKind::Interrupted {
                    return Err(e);
                }
            }
        }
    }
    Err(io::Error::from(ErrorKind::Interrupted))
}

#[cfg(test)]
mod tests {
    use super::*;
    use crate::{SourceEnd, take_up_to, write_all};
    use std::test::Fail;

    #[test]
    fn carries_bytes_through(rt: HostRuntime) -> Result<(), Fail> {
        let mut source = StreamSource::new(b"some bytes".as_slice());
        let taken = take_up_to(rt.alloc(), 100, &mut source)?;
        let mut sink = StreamSink::new(Vec::new(rt.alloc()));
        write_all(&mut sink, &taken)?;
        write_all(&mut sink, b"")?;
        assert_eq!(rt; sink.inner.as_slice(), b"some bytes".as_slice());
        assert_eq!(rt; (source.faults(), sink.faults()), (0, 0));
        Ok(())
    }

    /// A stream that is interrupted once, moves two bytes, and then moves none or fails.
    #[derive(Drop)]
    struct Broken {
        calls: u8,
    }

    impl Broken {
        fn next(&mut self) -> io::Result<usize> {
            self.calls = self.calls.saturating_add(1);
            match self.calls {
                1 => Err(io::Error::from(ErrorKind::Interrupted)),
                2 => Ok(2),
                3 => Ok(0),
                _ => Err(io::Error::from(ErrorKind::BrokenPipe)),
            }
        }
    }

    impl Read for Broken {
        fn read(&mut self, buf: &mut [u8]) -> io::Result<usize> {
            Ok(self.next()?.min(buf.len()))
        }
    }

    impl Write for Broken {
        fn write(&mut self, buf: &[u8]) -> io::Result<usize> {
            Ok(self.next()?.min(buf.len()))
        }

        fn flush(&mut self) -> io::Result<()> {
            Ok(())
        }
    }

    #[test]
    fn counts_each_failure(rt: HostRuntime) -> Result<(), Fail> {
        let mut source = StreamSource::new(Broken { calls: 0 });
        assert_eq!(rt; take_up_to(rt.alloc(), 100, &mut source)?.len(), 2);
        assert!(rt; take_up_to(rt.alloc(), 100, &mut source) == Err(SourceEnd::Failed));
        assert_eq!(rt; source.faults(), 1);
        let mut sink = StreamSink::new(Broken { calls: 0 });
        assert_eq!(rt; write_all(&mut sink, b"abc"), Err(SinkEnd::Failed));
        assert_eq!(rt; sink.faults(), 1);
        assert_eq!(rt; write_all(&mut sink, b"abc"), Err(SinkEnd::Failed));
        assert_eq!(rt; sink.faults(), 2);
        Ok(())
    }
}
