ghost use Rattle.std.specs.Prelude.{ℕ, List};
ghost use Rattle.std.specs.Str.{IsUtf8};
ghost use Rattle.slint_literals.specs.Strings.{IsRun};

/// A law, which does nothing when it is called: what the characters and escapes of a string spell is a text.
pub fn runs_are_texts()
    ensures { (bytes text behind : List ℕ) → IsRun bytes text behind → IsUtf8 text }
{}
