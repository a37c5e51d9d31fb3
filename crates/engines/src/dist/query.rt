//! The answer to one query line on a bitmap.

ghost use Rattle.std.specs.Prelude.{◌≡◌};
ghost use Rattle.engines.specs.dist.Query.{IsReplyTo, asked_in, status_of};

use answering::answer_query;
use bits::Bitmap;
use lines::{Answer, Verb, read_query, split_verb};
use metric::{Edge, Refusal};
use std::alloc::Global;
use streams::{DONE, REFUSED};

/// The answer to a line, which may be a refusal of the line or of its query. A command that isn't a
/// query is unknown here, whatever its arguments.
pub fn answer_query_line(alloc: Global, bitmap: &Bitmap, edge: Edge, line: &[u8]) -> Answer
    ensures { IsReplyTo bitmap.now edge (asked_in line.now) result }
{
    let Some((Verb::Ask(kind), rest)) = split_verb(line) else {
        return Answer::Refused(Refusal::UnknownCommand);
    };
    match read_query(alloc, kind, rest) {
        Ok(query) => answer_query(alloc, bitmap, edge, &query),
        Err(refusal) => Answer::Refused(refusal),
    }
}

/// The status of a run that ends with this answer: 1 for a refusal.
pub fn status(answer: &Answer) -> u8
    ensures { result ≡ status_of answer.now }
{
    match answer {
        Answer::Refused(_) => REFUSED,
        _ => DONE,
    }
}
