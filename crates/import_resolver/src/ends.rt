ghost use Rattle.std.specs.Prelude.{◌≡◌};

use io_edge::FilesEnd;
use slint_base::{Memory, Refusal};
use std::alloc::{AllocError, AllocFailed};

/// Why the files of a source weren't loaded.
#[derive(Debug, Drop)]
pub enum LoadEnd {
    /// A file breaks a rule: the first fault that is met.
    Refused(Refusal),
    /// A file couldn't be read.
    ReadFault,
    Memory,
}

impl From<Memory> for LoadEnd {
    ghost use Rattle.import_resolver.specs.declared.ends.LoadEnd.TheVariants.{Memory as memory_end};

    ghost from_gives = { λ _ e. e ≡ memory_end };

    fn from(_e: Memory) -> LoadEnd {
        LoadEnd::Memory
    }
}

impl From<AllocError> for LoadEnd {
    ghost use Rattle.import_resolver.specs.declared.ends.LoadEnd.TheVariants.{Memory as memory_end};

    ghost from_gives = { λ _ e. e ≡ memory_end };

    fn from(_e: AllocError) -> LoadEnd {
        LoadEnd::Memory
    }
}

impl<T: Drop> From<AllocFailed<T>> for LoadEnd {
    ghost use Rattle.import_resolver.specs.declared.ends.LoadEnd.TheVariants.{Memory as memory_end};

    ghost from_gives = { λ _ e. e ≡ memory_end };

    fn from(_e: AllocFailed<T>) -> LoadEnd {
        LoadEnd::Memory
    }
}

impl From<FilesEnd> for LoadEnd {
    ghost use Rattle.import_resolver.specs.Ends.{end_of_files};

    ghost from_gives = { λ end e. e ≡ end_of_files end };

    fn from(end: FilesEnd) -> LoadEnd {
        match end {
            FilesEnd::Failed => LoadEnd::ReadFault,
            FilesEnd::Memory => LoadEnd::Memory,
        }
    }
}
