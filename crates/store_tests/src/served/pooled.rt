//! A pool goes on with as many workers after streams that end early.

ghost use Rattle.std.specs.Prelude.{◌≡◌};

use super::{Input, SQUARE, pool_in, setting, stream_of};
use crate::compare::same;
use crate::keeping::kept;
use crate::opened::blank;
use map_core::Reply;
use memory_streams::MemoryStream;
use proto::Streams;
use std::alloc::Global;
use std::marker::Brand;
use std::test::Fail;

/// Streams in memory, in order, and how many were taken.
#[derive(Drop)]
struct Listed {
    alloc: Global,
    rows: &'static [Input<'static>],
    given: usize,
}

impl Streams for Listed {
    type S = MemoryStream<'static>;

    ghost fresh = { λ stream. stream.read.failed ≡ 0 };

    fn next(&mut self) -> Option<MemoryStream<'static>> {
        let input = *self.rows.get(self.given)?;
        self.given = self.given.saturating_add(1);
        Some(stream_of(self.alloc, input))
    }
}

/// More letters than a line may have.
const LETTERS: [u8; 16_385] = [b'A'; 16_385];

/// A stream that pins and whose ninth read fails, and one that publishes and collects: if the first
/// stream unpinned, its version goes.
const FAILING: [Input<'static>; 2] = [
    (b"PIN\nPAINT 0 0 1 1\nPUBLISH\nQUIT\n", Some(9), None),
    (b"PAINT 0 0 2 1\nPUBLISH\nCOLLECT\nQUIT\n", None, None),
];

/// Streams that end by a line too long, by too many bytes, by a failed write (whose first command
/// is accepted, and no other is done) or by QUIT, followed by more bytes; each more often than
/// there are workers, of which there is one; and a good stream.
const ENDING: [Input<'static>; 13] = [
    (&LETTERS, None, None),
    (&LETTERS, None, None),
    (&LETTERS, None, None),
    (b"STAMP 0 0 17100001\nREVERT\n", None, None),
    (b"STAMP 0 0 17100001\nREVERT\n", None, None),
    (b"STAMP 0 0 17100001\nREVERT\n", None, None),
    (b"REVERT\nREVERT\nQUIT\n", None, Some(1)),
    (b"REVERT\nREVERT\nQUIT\n", None, Some(1)),
    (b"REVERT\nREVERT\nQUIT\n", None, Some(1)),
    (b"QUIT\nREVERT\n", None, None),
    (b"QUIT\nREVERT\n", None, None),
    (b"QUIT\nREVERT\n", None, None),
    (
        b"PAINT 0 0 2 1\nPUBLISH\nCOLLECT\nQUIT\nREVERT\n",
        None,
        None,
    ),
];

/// Streams served by one worker, and the log's length then. The last entry is a collect at that
/// place.
const POOLED: [(&[Input<'static>], u32); 2] = [(&FAILING, 3), (&ENDING, 6)];

#[test]
fn the_next_stream_is_served(rt: HostRuntime) -> Result<(), Fail> {
    for (rows, entries) in POOLED {
        let blank = blank(&rt, rt.alloc(), setting(2, 1), SQUARE)?;
        let streams = Listed {
            alloc: rt.alloc(),
            rows,
            given: 0,
        };
        let done = pool_in::<Brand, _, _>(&rt, rt.alloc(), blank, streams)?;
        let collected = Reply::Collected {
            place: entries,
            floor: 1,
            freed: 1,
            kept: kept([0, 2, 0, 0]),
        };
        same(&rt, done, (entries as usize, Some(collected)), entries);
    }
    Ok(())
}
