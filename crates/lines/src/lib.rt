//! The lines and replies of the protocol: what a line says, and the text of its answer.
//!
//! A line here has no LF at its end, nor a CR before it. A reply line ends in LF.
#![tactic(auto)]

mod answer;
mod arguments;
mod command;
mod line;
mod query;
mod reply;
mod text;
mod verb;

pub use answer::Answer;
pub use command::{read_order, read_stamp};
pub use line::{Line, MOST_COUNTED, parse_line};
pub use query::{Query, read_query};
pub use reply::{put_answer, reply_text};
pub use text::Text;
pub use verb::{CommandName, QueryKind, Verb, split_verb, verb_of};
