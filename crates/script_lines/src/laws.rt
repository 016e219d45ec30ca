ghost use Rattle.std.specs.Prelude.{◌≡◌, ◌<◌, ℕ, List, [], ◌∷◌, ◌++◌, Some, length};
ghost use Rattle.script_lines.specs.declared.commands.PathStep.{PathStep as Step};
ghost use Rattle.script_lines.specs.Lines.{lines_of, whole_lines};
ghost use Rattle.script_lines.specs.Paths.{path_of};
ghost use Rattle.script_lines.specs.Written.{HasNoFeed, IsPath, path_text};

/// A law, which does nothing when it is called: what the lines of a text are. A text without line feeds is one line, if it has a byte,
/// and the lines of a text, a line feed and another text are those of the one, up to that line feed, and then those of the other.
pub fn lines_are_parts()
    ensures none { lines_of [] ≡ [] }
    ensures last { (line : List ℕ) → HasNoFeed line → 0 < length line → lines_of line ≡ line ∷ [] }
    ensures first { (line rest : List ℕ) → HasNoFeed line → lines_of (line ++ 10 ∷ rest) ≡ line ∷ lines_of rest }
    ensures joined { (text rest : List ℕ) → lines_of (text ++ 10 ∷ rest) ≡ lines_of (text ++ 10 ∷ []) ++ lines_of rest }
{}

/// A law, which does nothing when it is called: the whole lines of a text are all its lines up to its last line feed.
pub fn whole_lines_are_parts()
    ensures none { (line : List ℕ) → HasNoFeed line → whole_lines line ≡ [] }
    ensures first { (line rest : List ℕ) → HasNoFeed line → whole_lines (line ++ 10 ∷ rest) ≡ line ∷ whole_lines rest }
    ensures ended { (text rest : List ℕ) → HasNoFeed rest → whole_lines (text ++ 10 ∷ rest) ≡ lines_of (text ++ 10 ∷ []) }
{}

/// A law, which does nothing when it is called: a path that is written out and read is the same path.
pub fn a_written_path_is_read()
    ensures { (first : Step) (others : List Step) → IsPath first others → path_of (path_text (first ∷ others)) ≡ Some (first ∷ others) }
{}
