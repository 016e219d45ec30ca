ghost use Rattle.std.specs.Prelude.{◌≡◌, ℕ, ◌<◌, ◌≤◌, List, ◌++◌, IfOk, OnOk, OnErr, length, vec_len};
ghost use Rattle.std.specs.Io.KnownBytes.{Appends, Consumes, IsAtEnd};
ghost use Rattle.io_edge.specs.Counts.{IsQuiet};
ghost use Rattle.io_edge.specs.Streams.{TakesFront};
ghost use Rattle.io_edge.specs.Whole.{TakesPiece, TakeCount, WriteCount};

use crate::byte_sink::{Sink, SinkEnd};
use crate::byte_source::{Failed, Source};
use std::alloc::{AllocError, Global};

/// Writes all the bytes. At an error a front of them was taken.
pub fn write_all<K: Sink>(out: &mut K, bytes: &[u8]) -> Result<(), SinkEnd>
    ensures whole { OnOk result (Appends (K.taken out.old) (K.taken out.new) bytes.now) }
    ensures front { OnErr result (TakesFront (K.taken out.old) (K.taken out.new) bytes.now) }
    ensures counted { WriteCount result (K.faults out.old) (K.faults out.new) }
    ensures steady { K.is_steady out.old → IsQuiet (K.is_steady out.new) (K.faults out.old) (K.faults out.new) }
{
    let mut at = 0;
    while at < bytes.len() {
        let count = out.write(&bytes[at..])?;
        if count == 0 {
            return Err(SinkEnd::Failed);
        }
        at += count;
    }
    Ok(())
}

/// Why a source could not be read to its end.
#[derive(Clone, Copy, Debug, PartialEq, Eq)]
pub enum SourceEnd {
    Failed,
    Memory,
}

impl From<Failed> for SourceEnd {
    ghost use Rattle.io_edge.specs.declared.whole.SourceEnd.TheVariants.{Failed as FailedEnd};

    ghost from_gives = { λ _ e. e ≡ FailedEnd };

    fn from(_: Failed) -> SourceEnd {
        SourceEnd::Failed
    }
}

impl From<AllocError> for SourceEnd {
    ghost use Rattle.io_edge.specs.declared.whole.SourceEnd.TheVariants.{Memory};

    ghost from_gives = { λ _ e. e ≡ Memory };

    fn from(_: AllocError) -> SourceEnd {
        SourceEnd::Memory
    }
}

/// The most bytes that one read asks for.
const PIECE: usize = 64 * 1024;

/// Reads until the end, or until there are more than `limit` bytes.
pub fn take_up_to<S: Source>(
    alloc: Global,
    limit: usize,
    source: &mut S,
) -> Result<Vec<u8>, SourceEnd>
    ensures taken { IfOk result (λ v. Consumes (S.left source.old) (S.left source.new) v.items) }
    ensures ended { IfOk result (λ v. vec_len v ≤ limit → IsAtEnd (S.left source.new)) }
    ensures taken_before { OnErr result ((bs : List ℕ) × Consumes (S.left source.old) (S.left source.new) bs) }
    ensures counted { TakeCount result (S.faults source.old) (S.faults source.new) }
    ensures steady { S.is_steady source.old → IsQuiet (S.is_steady source.new) (S.faults source.old) (S.faults source.new) }
{
    let mut taken = Vec::new(alloc);
    let mut piece = room_for(alloc, PIECE)?;
    while taken.len() <= limit {
        if take_piece(source, &mut piece, &mut taken)? == 0 {
            break;
        }
    }
    Ok(taken)
}

/// Room for that many bytes.
fn room_for(alloc: Global, count: usize) -> Result<Vec<u8>, AllocError>
    ensures { IfOk result (λ v. vec_len v ≡ count) }
{
    vec![in alloc; 0; count]
}

/// Reads one piece behind what is taken, and says how long it is; it is empty only at the end.
fn take_piece<S: Source>(
    source: &mut S,
    piece: &mut [u8],
    taken: &mut Vec<u8>,
) -> Result<usize, SourceEnd>
    requires { 0 < length piece.old }
    ensures taken { IfOk result (TakesPiece (S.left source.old) (S.left source.new) taken.old.items taken.new.items) }
    ensures ended { IfOk result (λ n. n ≡ 0 → IsAtEnd (S.left source.new)) }
    ensures taken_before { OnErr result ((bs : List ℕ) × Consumes (S.left source.old) (S.left source.new) bs) }
    ensures counted { TakeCount result (S.faults source.old) (S.faults source.new) }
    ensures steady { S.is_steady source.old → IsQuiet (S.is_steady source.new) (S.faults source.old) (S.faults source.new) }
{
    let count = source.read(piece)?;
    taken.extend_from_slice(&piece[..count])?;
    Ok(count)
}

#[cfg(test)]
mod tests {
    use super::*;
    use crate::{MemSink, MemSource};
    use std::test::Fail;

    #[test]
    fn reads_and_writes_in_pieces(rt: HostRuntime) -> Result<(), Fail> {
        for (piece, limit, want) in [
            (1, 4, "01234"),
            (3, 4, "012345"),
            (64, 4, "0123456789"),
            (3, 9, "0123456789"),
            (1, 10, "0123456789"),
        ] {
            let bytes = Vec::from_slice(rt.alloc(), b"0123456789")?;
            let mut source = MemSource::new(rt.alloc(), bytes, piece, Vec::new(rt.alloc()));
            let taken = take_up_to(rt.alloc(), limit, &mut source)?;
            let mut sink = MemSink::new(rt.alloc(), piece, Vec::new(rt.alloc()));
            write_all(&mut sink, &taken)?;
            write_all(&mut sink, source.left())?;
            assert_eq!(rt; taken.as_slice(), want.as_bytes(), "{piece} to {limit}");
            assert_eq!(rt;
                sink.bytes(),
                b"0123456789".as_slice(),
                "{piece} to {limit}"
            );
        }
        Ok(())
    }

    #[test]
    fn goes_on_after_a_failing_call(rt: HostRuntime) -> Result<(), Fail> {
        let bytes = Vec::from_slice(rt.alloc(), b"0123456789")?;
        let mut source = MemSource::new(rt.alloc(), bytes, 3, vec![in rt.alloc(); 2, 9]?);
        let failed = take_up_to(rt.alloc(), 100, &mut source);
        assert!(rt; failed == Err(SourceEnd::Failed));
        assert_eq!(rt; (source.left(), source.faults()), (b"6789".as_slice(), 1));
        let rest = take_up_to(rt.alloc(), 100, &mut source)?;
        assert_eq!(rt; (rest.as_slice(), source.faults()), (b"6789".as_slice(), 1));

        let mut sink = MemSink::new(rt.alloc(), 3, vec![in rt.alloc(); 1]?);
        assert_eq!(rt; write_all(&mut sink, b"01234"), Err(SinkEnd::Failed));
        assert_eq!(rt; (sink.bytes(), sink.faults()), (b"012".as_slice(), 1));
        write_all(&mut sink, b"34")?;
        assert_eq!(rt; (sink.bytes(), sink.faults()), (b"01234".as_slice(), 1));
        Ok(())
    }
}
