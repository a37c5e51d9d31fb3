//! The command `ask`: sends lines to a server, and prints its replies.

ghost use Rattle.std.specs.Prelude.{◌≡◌, ◌≢◌, ◌≤◌, ◌+◌, ◌⊎◌, OnOk, OnErr, IfErr};
ghost use Rattle.std.specs.Prelude.{Err, Ok, true, false, bytes_eq};
ghost use Rattle.metric.specs.Stream.{Appends, AppendsFront, CanFail, Counts};
ghost use Rattle.ask.specs.Talking.{Breaks, CallFails, Completes, Converses, GoesUnanswered};
ghost use Rattle.ask.specs.Talking.{IsNetFault, Rounds, talk_at};
ghost use Rattle.ask.specs.Passing.{Asks, AsksAll, BreaksOff, EndsEarly, PassesFront};
ghost use Rattle.ask.specs.Passing.{PassesOn, bye, stop_text};
ghost use Rattle.ask.specs.declared.ask.Stop.TheVariants.{Net, Standard};

mod exchange;
mod request;

use crate::told::Hearer;
use exchange::exchange;
use metric::{NoMemory, Refusal, Sink, Source, Stream};
use request::read_request;
use std::alloc::Global;
use streams::{DONE, REFUSED, write_net_fault, write_refusal, write_text};

/// Why a run of `ask` ended early.
#[derive(Clone, Copy, PartialEq, Eq)]
pub enum Stop {
    /// A standard stream failed.
    Standard,
    /// The connection failed, or the server ended it before the end of a reply that was due.
    Net,
    /// There was no memory for a line or a reply.
    Memory(NoMemory),
}

/// Sends the reader's lines to the stream, each with the bytes that it counts, and writes each
/// reply, with the bytes that it counts, before it sends the next line. Then the hearer hears of
/// both. Returns the status.
///
/// It ends after `BYE`, or at the reader's end; it doesn't send a last line without its LF, or
/// without all bytes that it counts. If the stream fails, or ends before the end of a reply that is
/// due, it writes `FAULT net`, and when out of memory `ERR 5 Memory`, with status 1. If a call of
/// the reader or the writer fails, it writes nothing more, and the status is 1.
pub fn ask_run<S: Stream, R: Source, W: Sink, H: Hearer>(
    alloc: Global,
    stream: &mut S,
    reader: &mut R,
    writer: &mut W,
    hearer: &mut H,
) -> u8
    requires stream_reads { CanFail (S.failed_reads stream.old) }
    requires stream_writes { CanFail (S.failed_writes stream.old) }
    requires reader { CanFail (R.failed_reads reader.old) }
    requires writer { CanFail (W.failed_writes writer.old) }

    // What was sent is a prefix of what was read.
    ensures sent { PassesFront (R.rest reader.old) (R.rest reader.new) (S.held stream.old)
        (S.held stream.new) }

    // A run that succeeds has sent each request that there was, until the server said BYE.
    ensures asked { result ≡ 0
        → AsksAll (R.rest reader.old) (R.rest reader.new) (S.held stream.old) (S.held stream.new)
        (W.held writer.old) (W.held writer.new) }

    // A run that succeeds has written all that was read of the stream, and nothing else.
    ensures printed { result ≡ 0
        → PassesOn (S.rest stream.old) (S.rest stream.new) (W.held writer.old) (W.held writer.new) }
    ensures well { result ≡ 0 → (R.failed_reads reader.new ≡ R.failed_reads reader.old)
        × (W.failed_writes writer.new ≡ W.failed_writes writer.old)
        × (S.failed_reads stream.new ≡ S.failed_reads stream.old)
        × (S.failed_writes stream.new ≡ S.failed_writes stream.old) }

    // If a read failed, a prefix of that was written, and nothing after it.
    ensures failed_read { R.failed_reads reader.new ≢ R.failed_reads reader.old
        → PassesFront (S.rest stream.old) (S.rest stream.new) (W.held writer.old)
        (W.held writer.new) × (result ≡ 1) }

    // If a write failed, a prefix of that was written, and after it at most a prefix of why the run
    // ended.
    ensures failed_write { W.failed_writes writer.new ≢ W.failed_writes writer.old
        → BreaksOff (IsNetFault (CallFails
        (S.failed_reads stream.old) (S.failed_reads stream.new)
        (S.failed_writes stream.old) (S.failed_writes stream.new))
        (talk_at (R.rest reader.old) (S.held stream.old) (S.rest stream.old) (W.held writer.old))
        (talk_at (R.rest reader.new) (S.held stream.new) (S.rest stream.new) (W.held writer.new)))
        ((S.failed_reads stream.new ≡ S.failed_reads stream.old)
        × (S.failed_writes stream.new ≡ S.failed_writes stream.old))
        (S.rest stream.old) (S.rest stream.new) (W.held writer.old) (W.held writer.new)
        × (result ≡ 1) }

    // If neither failed, a run that doesn't succeed has written a prefix of that, and after it the
    // line of why it ended.
    ensures ended { R.failed_reads reader.new ≡ R.failed_reads reader.old
        → W.failed_writes writer.new ≡ W.failed_writes writer.old
        → result ≢ 0
        → EndsEarly (IsNetFault (CallFails
        (S.failed_reads stream.old) (S.failed_reads stream.new)
        (S.failed_writes stream.old) (S.failed_writes stream.new))
        (talk_at (R.rest reader.old) (S.held stream.old) (S.rest stream.old) (W.held writer.old))
        (talk_at (R.rest reader.new) (S.held stream.new) (S.rest stream.new) (W.held writer.new)))
        ((S.failed_reads stream.new ≡ S.failed_reads stream.old)
        × (S.failed_writes stream.new ≡ S.failed_writes stream.old))
        (S.rest stream.old) (S.rest stream.new) (W.held writer.old) (W.held writer.new)
        × (result ≡ 1) }

    // A run that succeeds consists of whole exchanges, up to a reply BYE or to the reader's end.
    ensures whole { result ≡ 0 → Completes
        (talk_at (R.rest reader.old) (S.held stream.old) (S.rest stream.old) (W.held writer.old))
        (talk_at (R.rest reader.new) (S.held stream.new) (S.rest stream.new) (W.held writer.new)) }

    // Each request was sent after the reply to the one before it was received and printed, and none
    // after a reply BYE.
    ensures order { Converses
        (talk_at (R.rest reader.old) (S.held stream.old) (S.rest stream.old) (W.held writer.old))
        (talk_at (R.rest reader.new) (S.held stream.new) (S.rest stream.new) (W.held writer.new)) }
    ensures one_failure { R.failed_reads reader.new + W.failed_writes writer.new
        ≤ R.failed_reads reader.old + W.failed_writes writer.old + 1 }
{
    let mut request = Vec::new(alloc);
    let mut reply = Vec::new(alloc);
    match ask_lines(stream, reader, writer, hearer, &mut request, &mut reply) {
        Ok(()) => DONE,
        Err(stop) => end(writer, stop),
    }
}

/// Ends a run early: writes why, unless a standard stream failed. Returns the status.
fn end<W: Sink>(writer: &mut W, stop: Stop) -> u8
    requires { stop ≢ Standard → CanFail (W.failed_writes writer.old) }
    ensures status { result ≡ 1 }
    ensures whole { W.failed_writes writer.new ≡ W.failed_writes writer.old
        → Appends (W.held writer.old) (stop_text stop) (W.held writer.new) }
    ensures front { AppendsFront (W.held writer.old) (stop_text stop) (W.held writer.new) }
    ensures counts { W.failed_writes writer.new ≤ W.failed_writes writer.old + 1 }
    ensures standard { stop ≡ Standard → writer.new ≡ writer.old }
{
    match stop {
        Stop::Standard => REFUSED,
        Stop::Net => write_net_fault(writer).unwrap_or(REFUSED),
        Stop::Memory(refused) => {
            write_refusal(writer, Refusal::from(refused)).unwrap_or(REFUSED)
        }
    }
}

/// Writes a reply, and flushes it.
fn print<W: Sink>(writer: &mut W, reply: &[u8]) -> Result<(), Stop>
    requires { CanFail (W.failed_writes writer.old) }
    ensures all { OnOk result (Appends (W.held writer.old) reply.now (W.held writer.new)) }
    ensures front { AppendsFront (W.held writer.old) reply.now (W.held writer.new) }
    ensures counts { Counts (W.failed_writes writer.old) result (W.failed_writes writer.new) }
    ensures stop { IfErr result (λ stop. stop ≡ Standard) }
{
    match write_text(writer, reply, DONE) {
        Ok(_) => Ok(()),
        Err(_) => Err(Stop::Standard),
    }
}

/// Asks line after line, at most 2^64 - 1 of them; after the last of these it stops as if the
/// network had failed.
fn ask_lines<S: Stream, R: Source, W: Sink, H: Hearer>(
    stream: &mut S,
    reader: &mut R,
    writer: &mut W,
    hearer: &mut H,
    request: &mut Vec<u8>,
    reply: &mut Vec<u8>,
) -> Result<(), Stop>
    requires stream_reads { CanFail (S.failed_reads stream.old) }
    requires stream_writes { CanFail (S.failed_writes stream.old) }
    requires reader { CanFail (R.failed_reads reader.old) }
    requires writer { CanFail (W.failed_writes writer.old) }
    ensures sent { PassesFront (R.rest reader.old) (R.rest reader.new) (S.held stream.old)
        (S.held stream.new) }
    ensures printed { OnOk result
        (PassesOn (S.rest stream.old) (S.rest stream.new) (W.held writer.old) (W.held writer.new)) }
    ensures cut { OnErr result
        (PassesFront (S.rest stream.old) (S.rest stream.new) (W.held writer.old)
        (W.held writer.new)) }
    ensures stream_reads { result ≢ Err Net
        → S.failed_reads stream.new ≡ S.failed_reads stream.old }
    ensures stream_writes { result ≢ Err Net
        → S.failed_writes stream.new ≡ S.failed_writes stream.old }
    ensures net { result ≡ Err Net → IsNetFault (CallFails
        (S.failed_reads stream.old) (S.failed_reads stream.new)
        (S.failed_writes stream.old) (S.failed_writes stream.new))
        (talk_at (R.rest reader.old) (S.held stream.old) (S.rest stream.old) (W.held writer.old))
        (talk_at (R.rest reader.new) (S.held stream.new) (S.rest stream.new) (W.held writer.new)) }
    ensures reader { result ≢ Err Standard → R.failed_reads reader.new ≡ R.failed_reads reader.old }
    ensures writer { result ≢ Err Standard
        → W.failed_writes writer.new ≡ W.failed_writes writer.old }
    ensures failed { result ≡ Err Standard → R.failed_reads reader.new + W.failed_writes writer.new
        ≡ R.failed_reads reader.old + W.failed_writes writer.old + 1 }
    ensures asked { OnOk result
        (AsksAll (R.rest reader.old) (R.rest reader.new) (S.held stream.old) (S.held stream.new)
        (W.held writer.old) (W.held writer.new)) }
    ensures whole { OnOk result (Completes
        (talk_at (R.rest reader.old) (S.held stream.old) (S.rest stream.old) (W.held writer.old))
        (talk_at (R.rest reader.new) (S.held stream.new) (S.rest stream.new) (W.held writer.new))) }
    ensures order { Breaks
        (talk_at (R.rest reader.old) (S.held stream.old) (S.rest stream.old) (W.held writer.old))
        (talk_at (R.rest reader.new) (S.held stream.new) (S.rest stream.new) (W.held writer.new)) }
{
    'lines: for _ in 0..u64::MAX {
        if !ask_line(stream, reader, writer, hearer, request, reply)? {
            return Ok(());
        }
    }
    Err(Stop::Net)
}

/// Asks one line, and returns whether another may follow. The buffers are for the line and its
/// reply.
fn ask_line<S: Stream, R: Source, W: Sink, H: Hearer>(
    stream: &mut S,
    reader: &mut R,
    writer: &mut W,
    hearer: &mut H,
    request: &mut Vec<u8>,
    reply: &mut Vec<u8>,
) -> Result<bool, Stop>
    requires stream_reads { CanFail (S.failed_reads stream.old) }
    requires stream_writes { CanFail (S.failed_writes stream.old) }
    requires reader { CanFail (R.failed_reads reader.old) }
    requires writer { CanFail (W.failed_writes writer.old) }
    ensures went { result ≡ Ok true
        → Asks (R.rest reader.old) (R.rest reader.new) (S.held stream.old) (S.held stream.new) }
    ensures over { result ≡ Ok false
        → AsksAll (R.rest reader.old) (R.rest reader.new) (S.held stream.old) (S.held stream.new)
        (W.held writer.old) (W.held writer.new) }
    ensures sent { PassesFront (R.rest reader.old) (R.rest reader.new) (S.held stream.old)
        (S.held stream.new) }
    ensures printed { OnOk result
        (PassesOn (S.rest stream.old) (S.rest stream.new) (W.held writer.old) (W.held writer.new)) }
    ensures cut { OnErr result
        (PassesFront (S.rest stream.old) (S.rest stream.new) (W.held writer.old)
        (W.held writer.new)) }
    ensures stream_reads { result ≢ Err Net
        → S.failed_reads stream.new ≡ S.failed_reads stream.old }
    ensures stream_writes { result ≢ Err Net
        → S.failed_writes stream.new ≡ S.failed_writes stream.old }
    ensures net { result ≡ Err Net → CallFails
        (S.failed_reads stream.old) (S.failed_reads stream.new)
        (S.failed_writes stream.old) (S.failed_writes stream.new)
        ⊎ GoesUnanswered
        (talk_at (R.rest reader.old) (S.held stream.old) (S.rest stream.old) (W.held writer.old))
        (talk_at (R.rest reader.new) (S.held stream.new) (S.rest stream.new) (W.held writer.new)) }
    ensures reader { result ≢ Err Standard → R.failed_reads reader.new ≡ R.failed_reads reader.old }
    ensures writer { result ≢ Err Standard
        → W.failed_writes writer.new ≡ W.failed_writes writer.old }
    ensures failed { result ≡ Err Standard → R.failed_reads reader.new + W.failed_writes writer.new
        ≡ R.failed_reads reader.old + W.failed_writes writer.old + 1 }
    ensures whole { result ≡ Ok false → Completes
        (talk_at (R.rest reader.old) (S.held stream.old) (S.rest stream.old) (W.held writer.old))
        (talk_at (R.rest reader.new) (S.held stream.new) (S.rest stream.new) (W.held writer.new)) }
    ensures exchanged { result ≡ Ok true → Rounds 1
        (talk_at (R.rest reader.old) (S.held stream.old) (S.rest stream.old) (W.held writer.old))
        (talk_at (R.rest reader.new) (S.held stream.new) (S.rest stream.new) (W.held writer.new)) }
    ensures order { result ≢ Ok true → Breaks
        (talk_at (R.rest reader.old) (S.held stream.old) (S.rest stream.old) (W.held writer.old))
        (talk_at (R.rest reader.new) (S.held stream.new) (S.rest stream.new) (W.held writer.new)) }
{
    if !read_request(reader, request)? {
        return Ok(false);
    }
    exchange(stream, request.as_slice(), reply)?;
    print(writer, reply.as_slice())?;
    hearer.heard(request.as_slice(), reply.as_slice());
    Ok(!is_bye(reply.as_slice()))
}

/// Whether a reply ends the stream.
fn is_bye(reply: &[u8]) -> bool
    ensures { result ≡ bytes_eq reply.now bye }
{
    reply == b"BYE\n".as_slice()
}
