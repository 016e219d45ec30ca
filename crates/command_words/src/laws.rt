ghost use Rattle.std.specs.Prelude.{ℕ, List, [], ◌∷◌, ◌++◌, Some, None, codes};
ghost use Rattle.command_words.specs.Laws.{IsPlain, Asks, IsUnreadable};

/// A law, which does nothing when it is called: one word behind the program's own, which doesn't begin with a dash, is the file.
pub fn a_word_alone_is_the_file()
    ensures { (own word : List ℕ) → IsPlain word → Asks (own ∷ word ∷ []) word None }
{}

/// A law, which does nothing when it is called: behind `--` any word is the file, one with a dash too.
pub fn words_behind_dashes_are_files()
    ensures { (own word : List ℕ) → Asks (own ∷ codes "--" ∷ word ∷ []) word None }
{}

/// A law, which does nothing when it is called: the component may be named before the file or behind it.
pub fn a_component_is_named_before_or_behind()
    ensures before { (own name word : List ℕ) → IsPlain name → IsPlain word
        → Asks (own ∷ codes "--component" ∷ name ∷ word ∷ []) word (Some name) }
    ensures behind { (own name word : List ℕ) → IsPlain name → IsPlain word
        → Asks (own ∷ word ∷ codes "--component" ∷ name ∷ []) word (Some name) }
{}

/// A law, which does nothing when it is called: what stands behind `--component=` is the name, whatever it is, nothing too.
pub fn a_joined_value_is_taken_as_it_stands()
    ensures { (own name word : List ℕ) → IsPlain word → Asks (own ∷ (codes "--component=" ++ name) ∷ word ∷ []) word (Some name) }
{}

/// A law, which does nothing when it is called: words that name two components can't be read, whatever follows.
pub fn a_component_is_named_once()
    ensures { (own name other : List ℕ) (others : List (List ℕ))
        → IsUnreadable (own ∷ (codes "--component=" ++ name) ∷ (codes "--component=" ++ other) ∷ others) }
{}

/// A law, which does nothing when it is called: words that begin with two files can't be read, whatever follows.
pub fn a_file_is_named_once()
    ensures { (own word other : List ℕ) (others : List (List ℕ)) → IsPlain word → IsPlain other
        → IsUnreadable (own ∷ word ∷ other ∷ others) }
{}

/// A law, which does nothing when it is called: without a file the words can't be read.
pub fn words_without_a_file_are_unreadable()
    ensures none { IsUnreadable [] }
    ensures own { (own : List ℕ) → IsUnreadable (own ∷ []) }
    ensures component { (own name : List ℕ) → IsUnreadable (own ∷ (codes "--component=" ++ name) ∷ []) }
{}
