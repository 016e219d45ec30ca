//! From the bytes of a source to its tokens, and from tokens to text.
#![tactic(auto)]

mod classes;
mod comments;
mod found;
mod laws;
mod lexing;
mod marks;
mod names;
mod symbols;
mod tokens;
mod writing;

pub use laws::{lexed_fit, one_answer, token_rules, tokens_or_fault, written_again};
pub use lexing::lex;
pub use marks::Mark;
pub use tokens::{Symbol, Token, TokenKind};
pub use writing::write_token;
