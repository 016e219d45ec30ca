ghost use Rattle.std.specs.Prelude.{◌≡◌, ◌∷◌, ◌++◌, [], IfOk};
ghost use Rattle.std.specs.Option.{option_copied};
ghost use Rattle.source_scopes.specs.Entries.{entry_meaning, entry_named, has_entry, meaning_in, with_entry};

use crate::{Entry, Meaning};
use name_index::NameIndex;
use slint_base::{Memory, Name};
use sqlite_items::Items;
use std::alloc::Global;
use std::marker::Model;

impl Entry {
    /// The same entry once more.
    pub(crate) fn copy(&self) -> Result<Entry, Memory>
        ensures { IfOk result (λ entry. entry ≡ self.now) }
    {
        let name = self.name.copy()?;
        Ok(Entry {
            name,
            meaning: self.meaning,
        })
    }
}

/// Names with what they stand for, of which one is found by an index. Contracts see them as a list.
#[derive(Drop)]
pub(crate) struct Entries {
    entries: Items<Entry>,
    index: NameIndex,
}

impl Model for Entries {
    ghost use Rattle.std.specs.Prelude.{◌≡◌, List, map};
    ghost use Rattle.source_scopes.specs.declared.meanings.Entry.{Entry as EntryValue};
    ghost use Rattle.source_scopes.specs.Entries.{name_of_entry};

    ghost Value = { List EntryValue };

    ghost view = { λ es. es.entries };

    ghost invariant = { λ es. es.index ≡ map name_of_entry es.entries };
}

impl Entries {
    /// No names.
    pub fn new(alloc: Global) -> Entries
        ensures { result ≡ [] }
    {
        Entries {
            entries: Items::new(alloc),
            index: NameIndex::new(alloc),
        }
    }

    /// These names, and one behind them.
    pub fn with(self, entry: Entry) -> Result<Entries, Memory>
        ensures { IfOk result (λ more. more ≡ self ++ entry ∷ []) }
    {
        let Entries {
            mut entries,
            mut index,
        } = self;
        index.push(&entry.name)?;
        entries.push(entry)?;
        Ok(Entries { entries, index })
    }

    /// These names, and one behind them unless it is among them.
    pub fn with_new(self, entry: Entry) -> Result<Entries, Memory>
        ensures { IfOk result (λ more. more ≡ with_entry self entry) }
    {
        if self.contains(&entry.name) {
            return Ok(self);
        }
        self.with(entry)
    }

    /// Whether a name is among these.
    fn contains(&self, name: &Name) -> bool
        ensures { result ≡ has_entry self.now name.now }
    {
        self.index.contains(name)
    }

    /// The first entry of a name.
    pub fn find(&self, name: &Name) -> Option<&Entry>
        ensures { option_copied result ≡ entry_named name.now self.now }
    {
        match self.index.first(name) {
            Some(place) => self.entries.get(place),
            None => None,
        }
    }

    /// What a name stands for among these, if anything.
    pub fn meaning(&self, name: &Name) -> Option<Meaning>
        ensures { result ≡ meaning_in self.now name.now }
    {
        match self.find(name) {
            Some(entry) => entry.meaning,
            None => None,
        }
    }

    /// All entries in their order.
    pub fn as_slice(&self) -> &[Entry]
        ensures { result.now ≡ self.now }
    {
        self.entries.as_slice()
    }
}
