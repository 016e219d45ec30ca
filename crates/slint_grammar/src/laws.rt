ghost use Rattle.std.specs.Prelude.{List, ℕ, ◌≡◌, ◌⊎◌};
ghost use Rattle.slint_base.specs.declared.faults.Fault.{Fault as ItsFault};
ghost use Rattle.slint_lexer.specs.declared.tokens.Token.{Token as Lexed};
ghost use Rattle.syntax_tree.specs.declared.files.File.{File as SourceFile};
ghost use Rattle.slint_grammar.specs.Derivations.{DerivesFile};
ghost use Rattle.slint_grammar.specs.Faults.{IsFault};
ghost use Rattle.slint_lexer.specs.Lexing.{IsLexing};
ghost use Rattle.slint_lexer.specs.Spelled.{kinds_of, written};
ghost use Rattle.syntax_tree.specs.Bare.{SameFile};
ghost use Rattle.syntax_tree.specs.Printed.{tokens_of_file};

use slint_lexer::{lexed_fit, written_again};

/// A law, which does nothing when it is called: tokens derive at most one tree.
pub fn one_tree()
    ensures { (tokens : List Lexed) (a b : SourceFile) → DerivesFile tokens a → DerivesFile tokens b → a ≡ b }
{}

/// A law, which does nothing when it is called: tokens have at most one fault.
pub fn one_fault()
    ensures { (file len : ℕ) (tokens : List Lexed) (f g : ItsFault) → IsFault file len tokens f → IsFault file len tokens g → f ≡ g }
{}

/// A law, which does nothing when it is called: tokens derive a tree, or they have a fault, and never both.
pub fn tree_or_fault()
    ensures one { (file len : ℕ) (tokens : List Lexed) → ((tree : SourceFile) × DerivesFile tokens tree) ⊎ ((f : ItsFault) × IsFault file len tokens f) }
    ensures only_one { (file len : ℕ) (tokens : List Lexed) (tree : SourceFile) (f : ItsFault) → DerivesFile tokens tree → IsFault file len tokens f → ⊥ }
{}

/// A law, which does nothing when it is called: tokens of the kinds that a tree is written with derive the same tree, stretches
/// aside.
pub fn printed_again()
    ensures { (tokens printed : List Lexed) (file : SourceFile) → DerivesFile tokens file → kinds_of printed ≡ tokens_of_file file → (again : SourceFile) × DerivesFile printed again × SameFile again file }
{}

/// A law, which does nothing when it is called: what is printed of a tree that the bytes of a source have is read as the same tree,
/// stretches aside.
pub fn printed_reads()
    ensures { (file : ℕ) (bytes : List ℕ) (tokens : List Lexed) (tree : SourceFile) → IsLexing file bytes tokens → DerivesFile tokens tree → (printed : List Lexed) × (again : SourceFile) × IsLexing file (written (tokens_of_file tree)) printed × DerivesFile printed again × SameFile again tree }
{
    lexed_fit();
    written_again();
}
