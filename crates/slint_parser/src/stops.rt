use slint_base::Rule;
use slint_grammar::Word;
use slint_lexer::Symbol;

/// The deepest that a token of a file may be.
pub const DEEPEST: usize = 100;

/// Where tokens break the grammar.
#[derive(Clone, Copy, Debug, PartialEq, Eq)]
pub enum Stop {
    /// The rule that is broken by a token, and how many tokens there are from it on.
    At(Rule, usize),
    /// More tokens must follow.
    AtEnd,
}

/// What the grammar looks at in the next token.
#[derive(Clone, Copy, PartialEq, Eq)]
pub enum Seen {
    End,
    Symbol(Symbol),
    Word(Word),
    Number,
    Colour,
    Text,
    Head,
    Mid,
    Tail,
}
