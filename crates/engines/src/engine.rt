//! Chooses the engine that the words name, and runs it.

ghost use Rattle.std.specs.Prelude.{◌≡◌, ◌≢◌, ◌+◌, ◌≤◌, IsErr};
ghost use Rattle.metric.specs.Stream.{CanFail};
ghost use Rattle.command_line.specs.CommandLine.{texts_of};
ghost use Rattle.command_line.specs.Told.{Begins};
ghost use Rattle.engines.specs.Runs.{BeginsFor, BeginsRunOf, IsDoneFor, IsRunOf};

use crate::dist::dist_run;
use command_line::{Fault, Options, options, tell};
use metric::{Sink, Source};
use std::alloc::Global;
use std::thread::Threads;
use steps::steps_run;
use streams::REFUSED;

/// Runs what the words name, of which the first is the program's name. Returns the status.
///
/// `serve` and `ask` need the network, and are left to the caller: here they write nothing, and the
/// status is 1. Reports on `errors` why words are refused, with status 2. Help and the version go
/// to the writer, with status 0, and so does out of memory, with status 1. If a call of a stream
/// fails, it calls none again, and the status is 1.
pub fn run_words<R: Source, W: Sink, E: Sink, T: Threads + Sync>(
    rt: &T,
    alloc: Global,
    words: &[&str],
    reader: &mut R,
    writer: &mut W,
    errors: &mut E,
) -> u8
    requires reader { CanFail (R.failed_reads reader.old) }
    requires writer { CanFail (W.failed_writes writer.old) }
    requires errors { CanFail (E.failed_writes errors.old) }

    // If no call failed, the words were run, or the reason why not was reported.
    ensures done { R.failed_reads reader.new ≡ R.failed_reads reader.old
        → W.failed_writes writer.new ≡ W.failed_writes writer.old
        → E.failed_writes errors.new ≡ E.failed_writes errors.old
        → IsRunOf (texts_of words.entry.now) (R.rest reader.old) (W.held writer.old)
        (W.held writer.new) (E.held errors.old)
        (E.held errors.new) result }

    // If a read failed, nothing was written.
    ensures failed_read { R.failed_reads reader.new ≢ R.failed_reads reader.old
        → (W.held writer.new ≡ W.held writer.old) × (E.held errors.new ≡ E.held errors.old)
        × (result ≡ 1) }

    // If a write failed, a prefix of what these words ask for was written.
    ensures failed_write { W.failed_writes writer.new ≢ W.failed_writes writer.old
        → BeginsRunOf (texts_of words.entry.now) (R.rest reader.old) (W.held writer.old)
        (W.held writer.new)
        × (E.held errors.new ≡ E.held errors.old) × (result ≡ 1) }

    // If the mistake couldn't be reported, a prefix of its text was.
    ensures failed_error { E.failed_writes errors.new ≢ E.failed_writes errors.old
        → Begins (E.held errors.old) (E.held errors.new) × (W.held writer.new ≡ W.held writer.old)
        × (result ≡ 1) }
    ensures one_failure { R.failed_reads reader.new + W.failed_writes writer.new
        + E.failed_writes errors.new
        ≤ R.failed_reads reader.old + W.failed_writes writer.old + E.failed_writes errors.old + 1 }
{
    run_said(rt, alloc, options(alloc, words), reader, writer, errors)
}

/// Runs what words have said, or reports why they are refused. Returns the status.
pub fn run_said<R: Source, W: Sink, E: Sink, T: Threads + Sync>(
    rt: &T,
    alloc: Global,
    said: Result<Options<'_>, Fault<'_>>,
    reader: &mut R,
    writer: &mut W,
    errors: &mut E,
) -> u8
    requires reader { CanFail (R.failed_reads reader.old) }
    requires writer { CanFail (W.failed_writes writer.old) }
    requires errors { CanFail (E.failed_writes errors.old) }
    ensures done { R.failed_reads reader.new ≡ R.failed_reads reader.old
        → W.failed_writes writer.new ≡ W.failed_writes writer.old
        → E.failed_writes errors.new ≡ E.failed_writes errors.old
        → IsDoneFor said.entry (R.rest reader.old) (W.held writer.old) (W.held writer.new)
        (E.held errors.old) (E.held errors.new) result }
    ensures failed_read { R.failed_reads reader.new ≢ R.failed_reads reader.old
        → (W.held writer.new ≡ W.held writer.old) × (E.held errors.new ≡ E.held errors.old)
        × (result ≡ 1) }
    ensures failed_write { W.failed_writes writer.new ≢ W.failed_writes writer.old
        → BeginsFor said.entry (R.rest reader.old) (W.held writer.old) (W.held writer.new)
        × (E.held errors.new ≡ E.held errors.old) × (result ≡ 1) }
    ensures failed_error { E.failed_writes errors.new ≢ E.failed_writes errors.old
        → IsErr said.entry × Begins (E.held errors.old) (E.held errors.new)
        × (W.held writer.new ≡ W.held writer.old) × (result ≡ 1) }
    ensures one_failure { R.failed_reads reader.new + W.failed_writes writer.new
        + E.failed_writes errors.new
        ≤ R.failed_reads reader.old + W.failed_writes writer.old + E.failed_writes errors.old + 1 }
{
    match said {
        Ok(Options::Dist(options)) => dist_run(rt, alloc, &options, reader, writer),
        Ok(Options::Steps) => steps_run(alloc, reader, writer),
        Ok(Options::Serve(_) | Options::Ask(_)) => REFUSED,
        Err(fault) => tell(alloc, &fault, writer, errors),
    }
}
