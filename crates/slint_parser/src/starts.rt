ghost use Rattle.std.specs.Prelude.{◌≡◌, not};
ghost use Rattle.slint_grammar.specs.Parts.{words_at, begins_struct, may_be_empty};
ghost use Rattle.slint_grammar.specs.Derivations.{is_among};
ghost use Rattle.slint_parser.specs.Starts.{start_of};

use slint_grammar::Word;

/// The place at which an expression begins, which bears on its first token.
#[derive(Clone, Copy, PartialEq, Eq)]
pub enum Start {
    Anywhere,
    /// A value, which is a block where it begins with a brace that a name and a colon don't follow.
    InValue,
    /// What a handler runs, which is a block where it begins with a brace.
    InRun,
    /// The head of a statement, where `if` and `return` are words.
    InStmt,
    /// The head of a statement behind an `if`, where `else` is one too.
    BehindIf,
}

/// What stands one deeper inside an expression: an expression, or what a prefix operator has behind it.
#[derive(Clone, Copy, PartialEq, Eq)]
pub enum Inner {
    Expr(Start),
    Operand,
}

impl Start {
    /// Whether a name that spells a word can begin an expression there.
    pub fn admits(self, word: Word) -> bool
        ensures { result ≡ not (is_among word (words_at (start_of self))) }
    {
        match word {
            Word::If | Word::Return => !matches!(self, Start::InStmt | Start::BehindIf),
            Word::Else => !matches!(self, Start::BehindIf),
            _ => true,
        }
    }

    /// Whether a struct literal can begin an expression there.
    pub fn admits_struct(self) -> bool
        ensures { result ≡ begins_struct (start_of self) }
    {
        !matches!(self, Start::InRun)
    }

    /// Whether one without fields can.
    pub fn admits_empty_struct(self) -> bool
        ensures { result ≡ may_be_empty (start_of self) }
    {
        !matches!(self, Start::InRun | Start::InValue)
    }
}
