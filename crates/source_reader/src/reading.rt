ghost use Rattle.source_reader.specs.Sources.{ReadsAs};

use slint_base::{End, Fault, Rule, at_start};
use slint_lexer::lex;
use slint_parser::parse;
use std::alloc::Global;
use syntax_tree::File;

/// The most bytes of a file.
pub const MOST_BYTES: usize = 262_144;

/// The tree of a file of these bytes, whose number is `file`. It faults where the file is too long, else at its first broken token, else where its
/// tokens break the grammar.
///
/// # Errors
///
/// The file's fault; or want of memory.
pub fn read_tree(alloc: Global, file: u32, bytes: &[u8]) -> Result<File, End<Fault>>
    ensures { ReadsAs file bytes.now result }
{
    if bytes.len() > MOST_BYTES {
        return Err(End::Fault(at_start(Rule::FileTooLong, file)));
    }
    let tokens = lex(alloc, file, bytes)?;
    parse(alloc, file, bytes.len() as u32, &tokens)
}
