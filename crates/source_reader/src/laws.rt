ghost use Rattle.std.specs.Prelude.{◌≡◌, ℕ, List, IsTrue, Result, Ok, Err, take};
ghost use Rattle.slint_base.specs.declared.faults.Fault.{Fault as ItsFault};
ghost use Rattle.slint_base.specs.Refusals.{refusal_of};
ghost use Rattle.syntax_tree.specs.declared.files.File.{File as SourceFile};
ghost use Rattle.source_reader.specs.Sources.{IsRead, front_bytes, is_reading_rule};

use slint_grammar::{one_fault, one_tree, tree_or_fault};
use slint_lexer::{one_answer, token_rules, tokens_or_fault};

/// A law, which does nothing when it is called: a file's bytes read as one tree, or they have one fault, and never both.
pub fn one_reading()
    ensures { (file : ℕ) (bytes : List ℕ) (a b : Result SourceFile ItsFault) → IsRead file bytes a → IsRead file bytes b → a ≡ b }
{
    one_answer();
    one_tree();
    one_fault();
    tree_or_fault();
}

/// A law, which does nothing when it is called: any bytes of a file read as a tree, or they have a fault.
pub fn some_reading()
    ensures { (file : ℕ) (bytes : List ℕ) → (reading : Result SourceFile ItsFault) × IsRead file bytes reading }
{
    tokens_or_fault();
    tree_or_fault();
}

/// A law, which does nothing when it is called: the fault of a file breaks one of the rules on the reading of files, and no other.
pub fn reading_rules()
    ensures { (file : ℕ) (bytes : List ℕ) (fault : ItsFault) → IsRead file bytes (Err fault) → IsTrue (is_reading_rule fault.rule) }
{
    token_rules();
}

/// A law, which does nothing when it is called: a file reads as its first 262,145 bytes do. A fault of theirs is told as one of the file, and where they are a tree they are the whole file.
pub fn fronts_read()
    ensures alike { (number : ℕ) (full : List ℕ) (reading : Result SourceFile ItsFault) → IsRead number (take front_bytes full) reading → IsRead number full reading }
    ensures refused { (number : ℕ) (name full : List ℕ) (fault : ItsFault) → IsRead number (take front_bytes full) (Err fault) → refusal_of name (take front_bytes full) fault ≡ refusal_of name full fault }
    ensures whole { (number : ℕ) (full : List ℕ) (tree : SourceFile) → IsRead number (take front_bytes full) (Ok tree) → take front_bytes full ≡ full }
{}
