ghost use Rattle.std.specs.Prelude.{◌≡◌, ◌<◌, ◌≤◌, ℕ, List, length};
ghost use Rattle.std.specs.Str.{IsUtf8};
ghost use Rattle.slint_base.specs.Numbers.{near_size, IsNearest};
ghost use Rattle.slint_base.specs.Texts.{most_text_bytes, cut_text};

/// A law, which does nothing when it is called: what is rounded comes to the nearest whole number, and of two that are as near to the
/// one further from zero.
pub fn rounding_is_to_nearest()
    ensures { (n d : ℕ) → 0 < d → IsNearest n d (near_size n d) }
{}

/// A law, which does nothing when it is called: a text of at most 65,535 bytes stays whole where texts are cut.
pub fn short_texts_stay_whole()
    ensures { (text : List ℕ) → IsUtf8 text → length text ≤ most_text_bytes → cut_text text ≡ text }
{}
