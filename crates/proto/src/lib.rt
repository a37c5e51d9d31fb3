//! The protocol: streams of its lines, each answered, the workers that serve them, and a server on
//! a listener. What a line says and how its answer reads is `lines`, over the `words` of a line:
//! their calls are here too.
#![tactic(auto)]

mod serve;
mod server;
mod workers;

pub use answering::{Bordered, answer_of, answer_query};
pub use clearance::Queried;
pub use line_io::End;
pub use lines::{
    Answer, CommandName, Line, MOST_COUNTED, Query, QueryKind, Text, Verb, parse_line, put_answer,
    read_order, read_query, read_stamp, reply_text, split_verb, verb_of,
};
pub use serve::serve_stream;
pub use server::{Listening, serve_run};
pub use words::{
    line_of_words, next_number, number_pair, number_triple, only_number, read_number, split_word,
    without_cr, words_of_line,
};
pub use workers::{Streams, pool};
