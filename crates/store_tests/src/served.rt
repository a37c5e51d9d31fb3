//! Served streams, where no clause says it: that memory is found, and worked streams with answers
//! from outside.

ghost use Rattle.std.specs.Prelude.{◌≡◌};
ghost use Rattle.line_io.specs.Wire.{CanGoOn};

mod asked;
mod failing;
mod locks;
mod meeting;
mod pooled;
mod worked;

use crate::compare::same;
use crate::opened::{Spotted, hand_back, next, open};
use map_core::{Reply, Setting};
use memory_streams::{MemorySink, MemorySource, MemoryStream};
use metric::{Edge, Stream};
use proto::{End, Streams, pool, serve_stream};
use session::Blank;
use shelf::StoreName;
use std::alloc::Global;
use std::marker::Brand;
use std::process::Abort;
use std::sync::Wait;
use std::test::Fail;
use std::thread::Threads;

/// The setting of a store with this many blocks and sessions, and ample limits otherwise.
const fn setting(blocks: u32, sessions: u32) -> Setting {
    Setting {
        blocks,
        versions: 8,
        sessions,
        log: 100_000,
        edge: Edge::Open,
    }
}

/// A map of 64 by 64 cells without obstacles.
const SQUARE: Spotted = ([64, 64], 0);

/// The bytes to read, and the call of the reader or of the writer that fails.
type Input<'a> = (&'a [u8], Option<u64>, Option<u64>);

/// The result of a stream.
#[derive(Drop)]
struct Run {
    end: End,
    written: Vec<u8>,
    left: usize,
    entries: u32,
}

/// A stream in memory.
fn stream_of<'a>(alloc: Global, input: Input<'a>) -> MemoryStream<'a>
    ensures { (result.read.failed ≡ 0) × (result.written.failed ≡ 0) }
{
    let (bytes, failing_read, failing_write) = input;
    let source = MemorySource::new(bytes);
    let source = match failing_read {
        Some(call) => source.failing_at(call),
        None => source,
    };
    let sink = MemorySink::new(alloc);
    let sink = match failing_write {
        Some(call) => sink.failing_at(call),
        None => sink,
    };
    MemoryStream::new(source, sink)
}

/// Serves a stream with the session of a store opened for it, and checks that the session was
/// unpinned: a collect after a publish keeps only the newest version, and nobody else made an
/// entry. Returns the result.
fn serve_in<Id: StoreName, R: Wait + Abort, S: Stream>(
    rt: &R,
    alloc: Global,
    blank: Blank,
    stream: &mut S,
) -> Result<(End, u32), Fail>
    requires blank { blank ≡ Id.store }
    requires stream { CanGoOn (S.wire stream.old) }
{
    let (store, mut sessions) = open::<Id>(alloc, blank)?;
    let session = next(rt, &mut sessions);
    let (mut session, end) = serve_stream(rt, alloc, &store, session, stream);
    let entries = session.made();
    let published = session.publish(&mut store.lock(rt));
    let collected = session.collect(&mut store.lock(rt));
    match (published, collected) {
        (Ok(Reply::Published { place, version }), Ok(Reply::Collected { floor, .. })) => {
            same(rt, floor, version, "a pin is left");
            let entry = entries.saturating_add(1);
            same(rt, place, entry, "an entry that nobody made");
        }
        _ => panic!(rt; "no publish and no collect"),
    }
    hand_back(rt, &mut sessions, session);
    let _ = store.close(sessions);
    Ok((end, entries))
}

/// Serves a stream in memory with the session of a new store.
fn serve<R: Wait + Abort>(
    rt: &R,
    alloc: Global,
    blank: Blank,
    input: Input<'_>,
) -> Result<Run, Fail> {
    let mut stream = stream_of(alloc, input);
    let (end, entries) = serve_in::<Brand, _, _>(rt, alloc, blank, &mut stream)?;
    Ok(Run {
        end,
        written: Vec::from_slice(alloc, stream.bytes())?,
        left: stream.left().len(),
        entries,
    })
}

/// Serves streams with the sessions of a store opened for them, one worker each. Returns the log's
/// length then, and its last reply.
fn pool_in<Id: StoreName + Send + Sync, R: Wait + Threads + Abort + Sync, T: Streams + Send + Drop>(
    rt: &R,
    alloc: Global,
    blank: Blank,
    streams: T,
) -> Result<(usize, Option<Reply>), Fail>
    requires { blank ≡ Id.store }
{
    let (store, sessions) = open::<Id>(alloc, blank)?;
    match pool(rt, alloc, &store, sessions, streams) {
        Ok(sessions) => {
            let (_, log) = store.close(sessions);
            let last = match log.last() {
                Some(last) => Some(last.entry.reply),
                None => None,
            };
            Ok((log.len(), last))
        }
        Err(_) => panic!(rt; "no memory for the workers"),
    }
}
