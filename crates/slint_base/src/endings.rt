ghost use Rattle.std.specs.Prelude.{◌≡◌};
ghost use Rattle.slint_base.specs.declared.endings.End.TheVariants.{Memory as memory_end};

use std::alloc::{AllocError, AllocFailed};

/// Memory could not be had. It is the one answer that no clause rules out.
#[derive(Clone, Copy, Debug, PartialEq, Eq)]
pub struct Memory;

impl From<AllocError> for Memory {
    fn from(_e: AllocError) -> Memory {
        Memory
    }
}

impl<T: Drop> From<AllocFailed<T>> for Memory {
    fn from(_e: AllocFailed<T>) -> Memory {
        Memory
    }
}

/// How a call that may be faulted ends when it gives no value: by the fault, or for want of memory.
#[derive(Debug, Drop)]
pub enum End<E> {
    Fault(E),
    Memory,
}

impl<E> From<Memory> for End<E> {
    ghost from_gives = { λ _ e. e ≡ memory_end };

    fn from(_e: Memory) -> End<E> {
        End::Memory
    }
}

impl<E> From<AllocError> for End<E> {
    ghost from_gives = { λ _ e. e ≡ memory_end };

    fn from(_e: AllocError) -> End<E> {
        End::Memory
    }
}

impl<T: Drop, E> From<AllocFailed<T>> for End<E> {
    ghost from_gives = { λ _ e. e ≡ memory_end };

    fn from(_e: AllocFailed<T>) -> End<E> {
        End::Memory
    }
}
