//! The command `dist`: from the bytes of an image to the text of its distances.

ghost use Rattle.std.specs.Prelude.{◌≡◌, ◌≢◌, ◌+◌, ◌≤◌, None, IfOk, OnErr};
ghost use Rattle.metric.specs.Kind.{distance_of};
ghost use Rattle.metric.specs.Stream.{Counts, CanFail};
ghost use Rattle.engines.specs.dist.Dist.{AnswersImage, AnswersMap, BeginsToAnswerImage};
ghost use Rattle.engines.specs.dist.Dist.{BeginsToAnswerMap};

mod query;
mod reply;

use crate::dist::reply::QueryReply;
use bits::Bitmap;
use command_line::DistOptions;
use metric::{Chess, City, Euclid2, Metric, MetricKind, Refusal, Sink, Source, WriteFault};
use pbm::{ImageStop, read_source};
use printing::TableWriter;
use std::alloc::Global;
use std::thread::Threads;
use streams::{DONE, REFUSED, write_refusal, write_text};

/// Reads an image, and the reader to its end, and writes its cells' distances to their nearest
/// obstacles, one line per row, as the options ask. Returns the status.
///
/// As many workers as the options say share the rows, if there are 2^22 cells or more, and else one
/// works; the text doesn't depend on their number. A refused image, or out of memory, is one line
/// instead, with status 1. Everything is computed before the first byte is written. If a call of
/// the reader or the writer fails, it calls neither again, and the status is 1.
pub fn dist_run<R: Source, W: Sink, T: Threads + Sync>(
    rt: &T,
    alloc: Global,
    options: &DistOptions<'_>,
    reader: &mut R,
    writer: &mut W,
) -> u8
    requires reader { CanFail (R.failed_reads reader.old) }
    requires writer { CanFail (W.failed_writes writer.old) }

    // If no call failed, the whole answer was written.
    ensures answers { R.failed_reads reader.new ≡ R.failed_reads reader.old
        → W.failed_writes writer.new ≡ W.failed_writes writer.old
        → AnswersImage options.now (R.rest reader.old) (W.held writer.old)
        (W.held writer.new) result }

    // If a read failed, nothing was written.
    ensures failed_read { R.failed_reads reader.new ≢ R.failed_reads reader.old
        → (W.held writer.new ≡ W.held writer.old)
        × (W.failed_writes writer.new ≡ W.failed_writes writer.old) × (result ≡ 1) }

    // If a write failed, a prefix of the answer was written.
    ensures failed_write { W.failed_writes writer.new ≢ W.failed_writes writer.old
        → BeginsToAnswerImage options.now (R.rest reader.old) (W.held writer.old)
        (W.held writer.new) × (result ≡ 1) }
    ensures one_failure { R.failed_reads reader.new + W.failed_writes writer.new
        ≤ R.failed_reads reader.old + W.failed_writes writer.old + 1 }
{
    match read_source(alloc, reader) {
        Ok(map) => write_answer(rt, alloc, options, &map, writer).unwrap_or(REFUSED),
        Err(ImageStop::Fault(fault)) => {
            write_refusal(writer, Refusal::BadImage(fault)).unwrap_or(REFUSED)
        }
        Err(ImageStop::Memory(refused)) => {
            write_refusal(writer, Refusal::from(refused)).unwrap_or(REFUSED)
        }
        Err(ImageStop::Failed) => REFUSED,
    }
}

/// Writes the answer to an image of this map.
fn write_answer<W: Sink, T: Threads + Sync>(
    rt: &T,
    alloc: Global,
    options: &DistOptions<'_>,
    map: &Bitmap,
    writer: &mut W,
) -> Result<u8, WriteFault>
    requires { CanFail (W.failed_writes writer.old) }
    ensures whole { IfOk result
        (AnswersMap options.now map.now (W.held writer.old) (W.held writer.new)) }
    ensures front { OnErr result
        (BeginsToAnswerMap options.now map.now (W.held writer.old) (W.held writer.new)) }
    ensures counts { Counts (W.failed_writes writer.old) result (W.failed_writes writer.new) }
{
    match options.query {
        Some(line) => match QueryReply::of(alloc, map, options.edge, line.as_bytes()) {
            Ok(reply) => write_text(writer, reply.text.as_bytes(), reply.status),
            Err(refused) => write_refusal(writer, Refusal::from(refused)),
        },
        None => match options.metric {
            MetricKind::Euclid2 => write_map::<Euclid2, W, T>(rt, alloc, options, map, writer),
            MetricKind::City => write_map::<City, W, T>(rt, alloc, options, map, writer),
            MetricKind::Chess => write_map::<Chess, W, T>(rt, alloc, options, map, writer),
        },
    }
}

/// Writes the lines of a map's table by this metric, which is the one in the options.
fn write_map<M: Metric + Sync, W: Sink, T: Threads + Sync>(
    rt: &T,
    alloc: Global,
    options: &DistOptions<'_>,
    map: &Bitmap,
    writer: &mut W,
) -> Result<u8, WriteFault>
    requires writer { CanFail (W.failed_writes writer.old) }
    requires table { options.now.query ≡ None }
    requires metric { M.distance ≡ distance_of options.now.metric }
    ensures whole { IfOk result
        (AnswersMap options.now map.now (W.held writer.old) (W.held writer.new)) }
    ensures front { OnErr result
        (BeginsToAnswerMap options.now map.now (W.held writer.old) (W.held writer.new)) }
    ensures counts { Counts (W.failed_writes writer.old) result (W.failed_writes writer.new) }
{
    let (edge, workers) = (options.edge, options.workers);
    match TableWriter::<M>::of(rt, alloc, map, edge, options.nearest, workers) {
        Ok(table) => {
            table.write(rt, writer)?;
            Ok(DONE)
        }
        Err(refused) => write_refusal(writer, Refusal::from(refused)),
    }
}
