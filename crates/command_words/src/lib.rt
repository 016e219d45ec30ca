//! The words of the command line: which file is run, and which of its components.
#![tactic(auto)]

mod laws;
mod reading;

pub use laws::{
    a_component_is_named_before_or_behind, a_component_is_named_once, a_file_is_named_once,
    a_joined_value_is_taken_as_it_stands, a_word_alone_is_the_file, words_behind_dashes_are_files,
    words_without_a_file_are_unreadable,
};
pub use reading::{Words, read_words};
