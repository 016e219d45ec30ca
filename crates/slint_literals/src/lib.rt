//! The written forms of values that sources and scripts share: numbers, colours, and the insides of strings.
#![tactic(auto)]

mod characters;
mod colours;
mod hexadecimal;
mod laws;
mod measures;
mod numbers;
mod printing;
mod strings;
mod writing;

pub use characters::{char_len, front_char, text_of};
pub use colours::read_colour;
pub use laws::runs_are_texts;
pub use numbers::{Number, number_length, numbers_read, read_number};
pub use printing::{print_string, print_text, printed_text_reads};
pub use strings::{Look, Run, text_look, text_run};
pub use writing::{print_colour, print_number, printed_numbers_read, read_numbers_ready};
