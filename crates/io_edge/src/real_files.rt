ghost use Rattle.std.specs.Prelude.{◌≡◌, ℕ, ◌≤◌, None, IfOk, vec_len};
ghost use Rattle.io_edge.specs.Files.{most_read};

use crate::file_map::{Files, FilesEnd, Found, MOST_READ};
use std::alloc::Global;
use std::fs::File;
use std::io::{ErrorKind, Read};
use std::{io, rt};

/// The files of the system, each found by its path as it is given.
#[derive(Debug, Drop)]
pub struct DiskFiles<R> {
    rt: R,
    faults: u64,
    misses: u64,
}

impl<R: rt::Files> DiskFiles<R> {
    pub fn new(rt: R) -> DiskFiles<R>
        ensures held { ⟦<DiskFiles<R> as Files>⟧.held result ≡ None }
        ensures faults { ⟦<DiskFiles<R> as Files>⟧.faults result ≡ 0 }
        ensures misses { ⟦<DiskFiles<R> as Files>⟧.misses result ≡ 0 }
    {
        DiskFiles {
            rt,
            faults: 0,
            misses: 0,
        }
    }

    /// How many reads failed.
    pub fn faults(&self) -> u64
        ensures { result ≡ ⟦<DiskFiles<R> as Files>⟧.faults self.now }
    {
        self.faults
    }

    /// How many reads found nothing.
    pub fn misses(&self) -> u64
        ensures { result ≡ ⟦<DiskFiles<R> as Files>⟧.misses self.now }
    {
        self.misses
    }
}

impl<R: rt::Files> Files for DiskFiles<R> {
    ghost held = { λ _. None };

    ghost faults = { λ s. s.faults };

    ghost misses = { λ s. s.misses };

    // the system may fail at any call
    ghost is_steady = { λ _. ⊥ };

    fn read(&mut self, alloc: Global, name: &str) -> Result<Found, FilesEnd> {
        match read_front(&self.rt, alloc, name) {
            Ok(bytes) => Ok(Found::Bytes(bytes)),
            Err(e) => match e.kind() {
                ErrorKind::NotFound | ErrorKind::NotADirectory => {
                    self.misses = self.misses.saturating_add(1);
                    Ok(Found::Missing)
                }
                ErrorKind::OutOfMemory => Err(FilesEnd::Memory),
                _ => {
                    self.faults = self.faults.saturating_add(1);
                    Err(FilesEnd::Failed)
                }
            },
        }
    }
}

/// The file at that path, or its first `MOST_READ` bytes.
fn read_front<R: rt::Files>(rt: &R, alloc: Global, path: &str) -> io::Result<Vec<u8>>
    ensures { IfOk result (λ v. vec_len v ≤ most_read) }
{
    let mut bytes = Vec::new(alloc);
    File::open(rt, path)?
        .take(MOST_READ as u64)
        .read_to_end(&mut bytes)?;
    bytes.truncate(MOST_READ);
    Ok(bytes)
}

#[cfg(test)]
mod tests {
    use super::*;

    #[test]
    fn tells_missing_from_failed(rt: HostRuntime) {
        let mut files = DiskFiles::new(&rt);
        for (path, want, misses, faults) in [
            ("/dev/null", Ok(Some(0)), 0, 0),
            ("/dev/zero", Ok(Some(262_145)), 0, 0),
            ("/dev/no such file", Ok(None), 1, 0),
            ("/dev/null/below", Ok(None), 2, 0),
            ("/", Err(FilesEnd::Failed), 2, 1),
            ("/dev/null\0", Err(FilesEnd::Failed), 2, 2),
        ] {
            let len = files.read(rt.alloc(), path).map(len_of);
            assert_eq!(rt; len, want, "{path}");
            assert_eq!(rt;
                (files.misses(), files.faults()),
                (misses, faults),
                "{path}"
            );
        }
    }

    fn len_of(found: Found) -> Option<usize> {
        match found {
            Found::Bytes(bytes) => Some(bytes.len()),
            Found::Missing => None,
        }
    }
}
