ghost use Rattle.std.specs.Prelude.{◌≡◌, ◌+◌, ◌<◌, ◌≤◌, ◌^◌, length, slice_get, IfOk, OnOk, OnErr, MatchResult, Some};
ghost use Rattle.row_models.specs.Rows.{RowList, keys_gone, rows_by_place, with_row, without_row, with_item, IsReplaced, InsertEnds, ResetEnds};

use crate::items::{same_items, vector_of};
use crate::keys::{keys_from, keys_gone};
use crate::{NoRow, RowEnd};
use slint_base::Memory;
use std::alloc::Global;
use std::marker::Model;
use std::mem::replace;
use value_types::{Value, Values};

/// The most rows that an edit by a script may make.
pub const MOST_ROWS: usize = 1000;

/// The rows of an array. Contracts see the list of the items, and that of the keys beside them.
#[derive(Drop)]
pub struct Rows {
    items: Vec<Value>,
    keys: Vec<u64>,
}

impl Model for Rows {
    ghost use Rattle.std.specs.Prelude.{◌≡◌, vec_len};
    ghost use Rattle.row_models.specs.Rows.{RowList};
    ghost use Rattle.std.specs.Coded.{codes};
    ghost use Rattle.value_types.specs.contracts.values.Value as value_rows;

    ghost Value = { RowList };

    ghost coded = { Prim.hlevel (codes, value_rows.the_row.coded) };

    ghost view = { λ rows. record { items = rows.items.items; keys = rows.keys.items } };

    ghost invariant = { λ rows. vec_len rows.items ≡ vec_len rows.keys };
}

impl Rows {
    /// The rows of an array whose keys are their places.
    pub fn by_place(alloc: Global, items: Values) -> Result<Rows, Memory>
        ensures { IfOk result (λ rows. rows ≡ rows_by_place items) }
    {
        let items = vector_of(alloc, items)?;
        let keys = keys_from(alloc, 0, items.len())?;
        Ok(Rows { items, keys })
    }

    /// The items, in order.
    pub fn items(&self) -> &[Value]
        ensures { result.now ≡ self.now.items }
    {
        &self.items
    }

    /// The keys of the rows, in order.
    pub fn keys(&self) -> &[u64]
        ensures { result.now ≡ self.now.keys }
    {
        &self.keys
    }

    /// Inserts a row with a fresh key, before the row at a place or behind all.
    pub fn insert(&mut self, next: &mut u64, i: u32, value: Value) -> Result<(), RowEnd>
        requires { next.old + 1 < 2 ^ 64 }
        ensures ends { InsertEnds (length self.old.items) i result }
        ensures ok { OnOk result ((self.new ≡ with_row self.old i value next.old) × (next.new ≡ next.old + 1)) }
        ensures err { OnErr result ((self.new ≡ self.old) × (next.new ≡ next.old)) }
    {
        let at = i as usize;
        if self.items.len() < at {
            return Err(RowEnd::NoRow);
        }
        if MOST_ROWS <= self.items.len() {
            return Err(RowEnd::TooManyRows);
        }
        self.keys.insert(at, *next)?;
        if self.items.insert(at, value).is_err() {
            self.keys.remove(at);
            return Err(RowEnd::Memory);
        }
        *next += 1;
        Ok(())
    }

    /// Takes a row out, and gives its item.
    pub fn remove(&mut self, i: u32) -> Result<Value, NoRow>
        ensures { MatchResult result
            (λ value. (slice_get self.old.items i ≡ Some value) × (self.new ≡ without_row self.old i))
            (λ _. (length self.old.items ≤ i) × (self.new ≡ self.old)) }
    {
        let at = i as usize;
        if self.items.len() <= at {
            return Err(NoRow);
        }
        self.keys.remove(at);
        Ok(self.items.remove(at))
    }

    /// Gives a row another item, and gives back the old one.
    pub fn set_row(&mut self, i: u32, value: Value) -> Result<Value, NoRow>
        ensures { MatchResult result
            (λ old. (slice_get self.old.items i ≡ Some old) × (self.new ≡ with_item self.old i value))
            (λ _. (length self.old.items ≤ i) × (self.new ≡ self.old)) }
    {
        let at = i as usize;
        if self.items.len() <= at {
            return Err(NoRow);
        }
        Ok(replace(&mut self.items[at], value))
    }

    /// Puts an array in the place of the old one, by a script. Where it has the same items all keys stay, else all are fresh.
    pub fn reset(&mut self, next: &mut u64, items: Values) -> Result<(), RowEnd>
        requires { next.old + length items < 2 ^ 64 }
        ensures ends { ResetEnds (length items) result }
        ensures ok { OnOk result (IsReplaced self.old next.old items self.new next.new) }
        ensures err { OnErr result ((self.new ≡ self.old) × (next.new ≡ next.old)) }
    {
        if MOST_ROWS < items.len() {
            return Err(RowEnd::TooManyRows);
        }
        self.replace(next, items)?;
        Ok(())
    }

    /// Puts an array in the place of the old one, by code: as `reset`, whatever the number of rows.
    pub fn replace(&mut self, next: &mut u64, items: Values) -> Result<(), Memory>
        requires { next.old + length items < 2 ^ 64 }
        ensures ok { OnOk result (IsReplaced self.old next.old items self.new next.new) }
        ensures err { OnErr result ((self.new ≡ self.old) × (next.new ≡ next.old)) }
    {
        if same_items(items.as_slice(), &self.items) {
            return Ok(());
        }
        let alloc = *self.keys.allocator();
        let items = vector_of(alloc, items)?;
        let keys = keys_from(alloc, *next, items.len())?;
        *next += items.len() as u64;
        self.items = items;
        self.keys = keys;
        Ok(())
    }

    /// The old keys that no row has now, in old order.
    pub fn gone(&self, old: &[u64]) -> Result<Vec<u64>, Memory>
        ensures { IfOk result (λ gone. gone.items ≡ keys_gone self.now.keys old.now) }
    {
        keys_gone(*self.keys.allocator(), &self.keys, old)
    }
}
