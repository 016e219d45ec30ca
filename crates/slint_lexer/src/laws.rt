ghost use Rattle.std.specs.Prelude.{◌≡◌, ◌⊎◌, IsTrue, ℕ, List, []};
ghost use Rattle.slint_base.specs.declared.faults.Fault.{Fault as Faulted};
ghost use Rattle.slint_lexer.specs.declared.tokens.Token.{Token as Lexed};
ghost use Rattle.slint_lexer.specs.declared.marks.Mark.{Mark as Held};
ghost use Rattle.slint_lexer.specs.declared.tokens.TokenKind.{TokenKind as Kind};
ghost use Rattle.slint_lexer.specs.Spelled.{Fits, kinds_of, written};
ghost use Rattle.slint_lexer.specs.Lexing.{IsLexing, IsFaulted, AreTokens, HasFault, is_token_rule};

/// A law, which does nothing when it is called: bytes have one answer. They are at most one list of tokens and have at most one
/// fault, and what are tokens has no fault.
pub fn one_answer()
    ensures tokens { (file : ℕ) (bytes : List ℕ) (ts : List Lexed) → IsLexing file bytes ts → AreTokens file bytes ts }
    ensures fault { (file : ℕ) (bytes : List ℕ) (fault : Faulted) → IsFaulted file bytes fault → HasFault file bytes fault }
{}

/// A law, which does nothing when it is called: bytes are tokens, or they have a fault.
pub fn tokens_or_fault()
    ensures { (file : ℕ) (bytes : List ℕ) → ((ts : List Lexed) × IsLexing file bytes ts) ⊎ ((fault : Faulted) × IsFaulted file bytes fault) }
{}

/// A law, which does nothing when it is called: a fault of the tokens breaks one of the rules on tokens, and no other.
pub fn token_rules()
    ensures { (file : ℕ) (bytes : List ℕ) (fault : Faulted) → IsFaulted file bytes fault → IsTrue (is_token_rule fault.rule) }
{}

/// A law, which does nothing when it is called: the tokens that bytes are, spans aside, are each as reading gives them.
pub fn lexed_fit()
    ensures { (file : ℕ) (bytes : List ℕ) (ts : List Lexed) → IsLexing file bytes ts → (now : List Held) × Fits [] (kinds_of ts) now }
{}

/// A law, which does nothing when it is called: tokens that are each as reading gives them, as they are written, are read as these
/// tokens, spans aside.
pub fn written_again()
    ensures { (file : ℕ) (ks : List Kind) (now : List Held) → Fits [] ks now → (ts : List Lexed) × IsLexing file (written ks) ts × (kinds_of ts ≡ ks) }
{}
