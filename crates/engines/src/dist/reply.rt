//! The reply to one query line on a map, and what is needed to write it.

ghost use Rattle.std.specs.Prelude.{◌≡◌, IfOk};

use crate::dist::query::{answer_query_line, status};
use bits::Bitmap;
use lines::{Text, reply_text};
use metric::{Edge, NoMemory};
use std::alloc::Global;

/// The text of a reply, and the status of a run that ends with it.
#[derive(Drop)]
pub struct QueryReply {
    pub text: Text,
    pub status: u8,
}

impl QueryReply {
    ghost use Rattle.engines.specs.dist.Replied.{IsReplyOf};

    /// The reply to the line on a map with this edge. Does here everything that allocates memory.
    pub fn of(alloc: Global, map: &Bitmap, edge: Edge, line: &[u8]) -> Result<Self, NoMemory>
        ensures { IfOk result (IsReplyOf edge line.now map.now) }
    {
        let answer = answer_query_line(alloc, map, edge, line);
        let mut text = Text::new(alloc)?;
        reply_text(&answer, &mut text);
        Ok(QueryReply {
            text,
            status: status(&answer),
        })
    }
}
