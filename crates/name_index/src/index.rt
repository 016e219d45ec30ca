ghost use Rattle.std.specs.Prelude.{◌≡◌, ◌∷◌, ◌++◌, [], length, position, OnErr, OnOk};
ghost use Rattle.std.specs.List.{list_any};
ghost use Rattle.std.specs.Str.{bytes_eq};
ghost use Rattle.name_index.specs.Places.{Adds, Keeps, places_at, places_of};

use slint_base::{Memory, Name};
use sqlite_items::Items;
use std::alloc::Global;
use std::collections::BTreeMap;
use std::marker::Model;

/// Numbers by name: of each name a list.
pub type NumbersByName = BTreeMap<String, Vec<usize>>;

/// A list of names in which each name is found by an index. Contracts see it as the list.
#[derive(Drop)]
pub struct NameIndex {
    alloc: Global,
    names: Items<Name>,
    /// The places of each name, rising.
    places: NumbersByName,
}

impl Model for NameIndex {
    ghost use Rattle.std.specs.Prelude.{List, ℕ};
    ghost use Rattle.name_index.specs.Places.{Places};

    ghost Value = { List (List ℕ) };

    ghost view = { λ index. index.names };

    ghost invariant = { λ index. Places index.places index.names };
}

impl NameIndex {
    /// No names.
    pub fn new(alloc: Global) -> NameIndex
        ensures { result ≡ [] }
    {
        NameIndex {
            alloc,
            names: Items::new(alloc),
            places: BTreeMap::new(alloc),
        }
    }

    /// Puts a name behind those that are there. Its place is the number of names before.
    pub fn push(&mut self, name: &Name) -> Result<(), Memory>
        ensures { OnOk result (self.new ≡ self.old ++ name.now ∷ []) }
    {
        let place = self.names.len();
        self.names.push(name.copy()?)?;
        if add_number(self.alloc, &mut self.places, name, place).is_err() {
            let _ = self.names.pop();
            return Err(Memory);
        }
        Ok(())
    }

    /// How many names there are.
    pub fn len(&self) -> usize
        ensures { result ≡ length self.now }
    {
        self.names.len()
    }

    /// Whether a name stands in the list.
    pub fn contains(&self, name: &Name) -> bool
        ensures { result ≡ list_any (λ x. bytes_eq x name.now) self.now }
    {
        self.first(name).is_some()
    }

    /// The first place at which a name stands.
    pub fn first(&self, name: &Name) -> Option<usize>
        ensures { result ≡ position (λ x. bytes_eq x name.now) self.now }
    {
        self.places(name).first().copied()
    }

    /// All places at which a name stands, rising.
    pub fn places(&self, name: &Name) -> &[usize]
        ensures { result.now ≡ places_of name.now self.now }
    {
        numbers_of(&self.places, name)
    }
}

/// Puts a number behind those of a name.
pub fn add_number(
    alloc: Global,
    numbers: &mut NumbersByName,
    name: &Name,
    number: usize,
) -> Result<(), Memory>
    ensures ok { OnOk result (Adds numbers.old numbers.new name.now number) }
    ensures err { OnErr result (Keeps numbers.old numbers.new) }
{
    let key = String::from_str(alloc, name.as_str())?;
    numbers.entry(key)?.or_default().push(number)?;
    Ok(())
}

/// The numbers of a name, in the order in which they were put there.
pub fn numbers_of<'a>(numbers: &'a NumbersByName, name: &Name) -> &'a [usize]
    ensures { result.now ≡ places_at numbers.now name.now }
{
    match numbers.get(name.as_str()) {
        Some(found) => found.as_slice(),
        None => &[],
    }
}
