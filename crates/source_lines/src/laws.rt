ghost use Rattle.std.specs.Prelude.{◌≡◌, ◌-◌, ◌<◌, ◌≤◌, ◌^◌, ℕ, List, length};
ghost use Rattle.slint_base.specs.Places.{place_of};
ghost use Rattle.source_lines.specs.Starts.{line_starts, place_by};

/// A law, which does nothing when it is called: the starts of a file's lines tell the place of each of its bytes, and of its end, as the bytes do.
pub fn places_by_starts()
    ensures { (bytes : List ℕ) (at : ℕ) → length bytes < 2 ^ 32 - 1 → at ≤ length bytes → place_by (line_starts bytes) at ≡ place_of bytes at }
{}
