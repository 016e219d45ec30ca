use slint_base::{End, Fault};
use slint_lexer::lex;
use slint_parser::parse;
use std::alloc::Global;
use syntax_tree::File;

/// The tree of a source, or its fault.
pub fn read(alloc: Global, source: &str) -> Result<File, End<Fault>> {
    if source.len() >= 1 << 32 {
        return Err(End::Memory);
    }
    let tokens = lex(alloc, 0, source.as_bytes())?;
    parse(alloc, 0, source.len() as u32, tokens.as_slice())
}
