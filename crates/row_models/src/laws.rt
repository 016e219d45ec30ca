ghost use Rattle.std.specs.Prelude.{◌+◌, ◌<◌, ◌≤◌, ℕ, List, length};
ghost use Rattle.value_types.specs.declared.values.Value.{Value};
ghost use Rattle.row_models.specs.Rows.{RowList, AreApart, rows_by_place, fresh_rows, with_row, without_row};

/// A law, which does nothing when it is called: keys that differ and lie below the next fresh one are so behind each edit too, and at
/// first if there are no more rows than that key. So each key is one row's for good.
pub fn keys_stay_apart()
    ensures by_place { (items : List Value) (next : ℕ) → length items ≤ next → AreApart (rows_by_place items).keys next }
    ensures fresh { (items : List Value) (next : ℕ) → AreApart (fresh_rows next items).keys (next + length items) }
    ensures more { (rows : RowList) (at next : ℕ) (value : Value) → AreApart rows.keys next → AreApart (with_row rows at value next).keys (next + 1) }
    ensures less { (rows : RowList) (at next : ℕ) → at < length rows.keys → AreApart rows.keys next → AreApart (without_row rows at).keys next }
{}
