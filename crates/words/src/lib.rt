//! The lines of a text, the words of a line, and the numbers and points that words spell.
//!
//! A line here has no LF at its end. Words are separated by single blanks.
#![tactic(auto)]

mod front;
mod laws;
mod number;
mod numbers;
mod points;
mod split;
mod text;

pub use front::next_number;
pub use laws::{line_of_words, words_of_line};
pub use number::read_number;
pub use numbers::{number_pair, number_triple, only_number};
pub use points::{coordinate, read_pair, read_path, read_point};
pub use split::{next_word, split_word, without_cr};
pub use text::split_line;
