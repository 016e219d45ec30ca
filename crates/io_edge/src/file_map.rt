ghost use Rattle.std.specs.Prelude.{◌≡◌, ℕ, List, Option, IfOk};
ghost use Rattle.io_edge.specs.Counts.{IsQuiet};
ghost use Rattle.io_edge.specs.Files.{Finds, FilesCount};

use std::alloc::Global;

/// The most bytes of one file that are read: one more than a source may have.
pub const MOST_READ: usize = 262_145;

/// What there is under a name.
#[derive(Debug, Drop)]
pub enum Found {
    /// The file's bytes, or its first 262,145 where it has more.
    Bytes(Vec<u8>),
    Missing,
}

/// Why a file could not be read.
#[derive(Clone, Copy, Debug, PartialEq, Eq)]
pub enum FilesEnd {
    Failed,
    Memory,
}

/// A finite map from names to bytes, which no call changes.
pub trait Files {
    /// The map, where it is told, as pairs of a name and its bytes; of equal names the first counts.
    ghost held: { Self → Option (List (List ℕ × List ℕ)) };

    /// How many calls failed, and how many found nothing; a count stays at 2^64 - 1 once it is there.
    ghost faults: { Self → ℕ };

    ghost misses: { Self → ℕ };

    /// No call fails from here on.
    ghost is_steady: { Self → Type 0 };

    /// Reads the file of that name. A count rises at `Failed` and at `Missing`, and at no other answer.
    fn read(&mut self, alloc: Global, name: &str) -> Result<Found, FilesEnd>
        ensures found { IfOk result (Finds (held self.old) name.now) }
        ensures same_map { held self.new ≡ held self.old }
        ensures counted { FilesCount result (faults self.old) (faults self.new) (misses self.old) (misses self.new) }
        ensures steady { is_steady self.old → IsQuiet (is_steady self.new) (faults self.old) (faults self.new) };
}
