//! The words that the program accepts, the report why words are refused, and what the program has
//! of its process besides: hints to who has typed the words.
#![tactic(auto)]

mod arguments;
mod commands;
mod hints;
mod process;
mod refusing;
mod serve_words;
mod tables;

pub use arguments::{AskOptions, DistOptions, Fault, Options, ServeOptions};
pub use commands::options;
pub use hints::{Asked, Typed, tell_cure, tell_waiting};
pub use process::{refuse, tell_fault, texts_of, words_of};
pub use refusing::tell;
