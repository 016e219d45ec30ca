ghost use Rattle.std.specs.Prelude.{◌≡◌, ℕ, List, [], Some, Option, IfOk, MatchOption, IsSome, option_map, take, length};
ghost use Rattle.io_edge.specs.Counts.{IsQuiet};
ghost use Rattle.io_edge.specs.Files.{bytes_named, most_read, Finds, FilesCount};
ghost use Rattle.io_edge.specs.Planned.{planned, FindsAsPlanned};
ghost use Rattle.io_edge.specs.FileList.{file_list};

use crate::calls::Calls;
use crate::file_map::{Files, FilesEnd, Found, MOST_READ};
use std::alloc::{AllocError, Global};
use std::marker::Model;

/// Files in memory, where the calls with given numbers fail.
#[derive(Debug, Drop)]
pub struct MemFiles {
    alloc: Global,
    files: Vec<(String, Vec<u8>)>,
    misses: u64,
    calls: Calls,
}

impl Model for MemFiles {
    ghost use Rattle.io_edge.specs.FileList.{file_list};
    ghost use Rattle.io_edge.specs.Planned.{Folder};

    ghost Value = { Folder };

    ghost view = { λ s. record { files = file_list s.files.items; misses = s.misses; plan = s.calls } };
}

impl MemFiles {
    /// These files by their names, of equal names the first; a read fails at the calls whose numbers,
    /// from 0, `fail` has.
    pub fn new(alloc: Global, files: Vec<(String, Vec<u8>)>, fail: Vec<u64>) -> MemFiles
        ensures made { result ≡ record { files = file_list files.items; misses = 0; plan = planned fail.items } }
        ensures held { ⟦<MemFiles as Files>⟧.held result ≡ Some (file_list files.items) }
        ensures faults { ⟦<MemFiles as Files>⟧.faults result ≡ 0 }
        ensures misses { ⟦<MemFiles as Files>⟧.misses result ≡ 0 }
        ensures steady { fail.items ≡ [] → ⟦<MemFiles as Files>⟧.is_steady result }
    {
        MemFiles {
            alloc,
            files,
            misses: 0,
            calls: Calls::new(fail),
        }
    }

    /// How many reads failed.
    pub fn faults(&self) -> u64
        ensures { result ≡ ⟦<MemFiles as Files>⟧.faults self.now }
    {
        self.calls.faults()
    }

    /// How many reads found nothing.
    pub fn misses(&self) -> u64
        ensures { result ≡ ⟦<MemFiles as Files>⟧.misses self.now }
    {
        self.misses
    }
}

impl Files for MemFiles {
    ghost held = { λ s. Some s.files };

    ghost faults = { λ s. s.plan.faults };

    ghost misses = { λ s. s.misses };

    ghost is_steady = { λ s. s.plan.fail ≡ [] };

    fn read(&mut self, alloc: Global, name: &str) -> Result<Found, FilesEnd>
        ensures planned { FindsAsPlanned self.old result self.new }
        ensures found { IfOk result (Finds (Some self.old.files) name.now) }
        ensures same_map { Some self.new.files ≡ Some self.old.files }
        ensures counted { FilesCount result self.old.plan.faults self.new.plan.faults self.old.misses self.new.misses }
        ensures steady { self.old.plan.fail ≡ [] → IsQuiet (self.new.plan.fail ≡ []) self.old.plan.faults self.new.plan.faults }
    {
        if self.calls.is_failing() {
            return Err(FilesEnd::Failed);
        }
        let Some(bytes) = bytes_of(&self.files, name) else {
            self.misses = self.misses.saturating_add(1);
            return Ok(Found::Missing);
        };
        match copy_front(alloc, bytes) {
            Ok(copy) => Ok(Found::Bytes(copy)),
            Err(_) => Err(FilesEnd::Memory),
        }
    }
}

/// The bytes of the first file of that name.
fn bytes_of<'a>(files: &'a [(String, Vec<u8>)], name: &str) -> Option<&'a Vec<u8>>
    ensures { option_map (λ v. v.now.items) result ≡ bytes_named (file_list files.entry.now) name.now }
{
    for file in files {
        if file.0.as_str() == name {
            return Some(&file.1);
        }
    }
    None
}

/// The bytes, or the first `MOST_READ` of them.
fn copy_front(alloc: Global, bytes: &[u8]) -> Result<Vec<u8>, AllocError>
    ensures { IfOk result (λ v. v.items ≡ take most_read bytes.now) }
{
    Vec::from_slice(alloc, &bytes[..MOST_READ.min(bytes.len())])
}

#[cfg(test)]
mod tests {
    use super::*;
    use std::test::Fail;

    #[test]
    fn finds_the_first_of_a_name(rt: HostRuntime) -> Result<(), Fail> {
        let mut list = Vec::new(rt.alloc());
        for (name, len) in [("a", 3), ("b", 262_146), ("a", 5), ("", 0)] {
            list.push((
                String::from_str(rt.alloc(), name)?,
                vec![in rt.alloc(); 7u8; len]?,
            ))?;
        }
        let mut files = MemFiles::new(rt.alloc(), list, vec![in rt.alloc(); 5]?);
        for (name, want, misses, faults) in [
            ("a", Ok(Some(3)), 0, 0),
            ("b", Ok(Some(262_145)), 0, 0),
            ("A", Ok(None), 1, 0),
            ("", Ok(Some(0)), 1, 0),
            ("c", Ok(None), 2, 0),
            ("a", Err(FilesEnd::Failed), 2, 1),
            ("a", Ok(Some(3)), 2, 1),
        ] {
            let len = files.read(rt.alloc(), name).map(len_of);
            assert_eq!(rt; len, want, "{name}");
            assert_eq!(rt;
                (files.misses(), files.faults()),
                (misses, faults),
                "{name}"
            );
        }
        Ok(())
    }

    fn len_of(found: Found) -> Option<usize> {
        match found {
            Found::Bytes(bytes) => Some(bytes.len()),
            Found::Missing => None,
        }
    }
}
