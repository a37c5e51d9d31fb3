//! The command `steps`: a world that does the events of a text, one per line, and answers each.

ghost use Rattle.std.specs.Prelude.{◌≡◌, ◌≢◌, ◌+◌, ◌≤◌};
ghost use Rattle.metric.specs.Stream.{CanFail};
ghost use Rattle.steps.specs.Steps.{AnswersText, BeginsToAnswerText};

mod answer;
mod line;
mod opening;
mod run;

use metric::{Refusal, Sink, Source};
use run::write_steps;
use std::alloc::Global;
use streams::{InputStop, REFUSED, read_to_end, write_refusal};

/// Reads a text to the end of the reader, opens the world of its first line, and writes one answer
/// line for it and for each line after it. Returns the status.
///
/// If the first line opens no world, or memory runs out while reading or opening, the answer is one
/// line, with status 1. If a call of the reader or the writer fails, it calls neither again, and
/// the status is 1.
pub fn steps_run<R: Source, W: Sink>(alloc: Global, reader: &mut R, writer: &mut W) -> u8
    requires reader { CanFail (R.failed_reads reader.old) }
    requires writer { CanFail (W.failed_writes writer.old) }

    // If no call failed, each line has its answer.
    ensures answers { R.failed_reads reader.new ≡ R.failed_reads reader.old
        → W.failed_writes writer.new ≡ W.failed_writes writer.old
        → AnswersText (R.rest reader.old) (W.held writer.old) (W.held writer.new) result }

    // If a read failed, nothing was written.
    ensures failed_read { R.failed_reads reader.new ≢ R.failed_reads reader.old
        → (W.held writer.new ≡ W.held writer.old)
        × (W.failed_writes writer.new ≡ W.failed_writes writer.old) × (result ≡ 1) }

    // If a write failed, a prefix of the answers to a prefix of the lines was written.
    ensures failed_write { W.failed_writes writer.new ≢ W.failed_writes writer.old
        → BeginsToAnswerText (R.rest reader.old) (W.held writer.old) (W.held writer.new)
        × (result ≡ 1) }
    ensures one_failure { R.failed_reads reader.new + W.failed_writes writer.new
        ≤ R.failed_reads reader.old + W.failed_writes writer.old + 1 }
{
    match read_to_end(alloc, reader) {
        Ok(bytes) => write_steps(alloc, bytes.as_slice(), writer).unwrap_or(REFUSED),
        Err(InputStop::Memory(refused)) => {
            write_refusal(writer, Refusal::from(refused)).unwrap_or(REFUSED)
        }
        Err(InputStop::Failed) => REFUSED,
    }
}
