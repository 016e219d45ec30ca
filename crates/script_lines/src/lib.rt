//! The lines of a script: which command a line is, or why it is none.
#![tactic(auto)]

mod commands;
mod laws;
mod lines;
mod numbers;
mod paths;
mod splitting;
mod words;

pub use commands::{BadLine, Command, Path, PathStep};
pub use laws::{a_written_path_is_read, lines_are_parts, whole_lines_are_parts};
pub use lines::read_line;
pub use numbers::read_int;
pub use splitting::{cut_line, whole_part};

#[cfg(test)]
mod tests;
