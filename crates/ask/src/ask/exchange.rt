//! Sends a line, and reads its reply.

ghost use Rattle.std.specs.Prelude.{◌≡◌, ◌≢◌, ◌+◌, ◌⊎◌, ℕ, List, [], OnOk, OnErr, IfErr, Err};
ghost use Rattle.metric.specs.Stream.{Appends, AppendsFront, CanFail, Counts, Takes};
ghost use Rattle.streams.specs.Counted.{IsCounted};
ghost use Rattle.ask.specs.Passing.{EndsWithin};
ghost use Rattle.ask.specs.Talking.{CallFails, IsReplyTo, asks_for_bytes, bytes_promised};
ghost use Rattle.ask.specs.Talking.{counted_for};
ghost use Rattle.streams.specs.Gathered.{Gathers, TakesAtMost};
ghost use Rattle.words.specs.TextLines.{lines_of};
ghost use Rattle.ask.specs.declared.ask.Stop.TheVariants.{Net, Standard};
ghost use Rattle.streams.specs.declared.gather.PartStop.TheVariants.{Ended, Failed};

use crate::ask::Stop;
use crate::ask::request::without_end;
use lines::{Verb, verb_of};
use metric::Stream;
use streams::{PartStop, read_count, read_line};
use words::{only_number, split_line, split_word};

/// Sends a line with the bytes that it counts, and replaces the buffer by its reply, with the bytes
/// that the reply counts.
pub fn exchange<S: Stream>(stream: &mut S, request: &[u8], reply: &mut Vec<u8>) -> Result<(), Stop>
    requires reads { CanFail (S.failed_reads stream.old) }
    requires writes { CanFail (S.failed_writes stream.old) }
    ensures sent { OnOk result (Appends (S.held stream.old) request.now (S.held stream.new)) }
    ensures front { AppendsFront (S.held stream.old) request.now (S.held stream.new) }
    ensures all { OnOk result (Takes (S.rest stream.old) reply.new.items (S.rest stream.new)) }
    ensures taken { (taken : List ℕ) × Takes (S.rest stream.old) taken (S.rest stream.new) }
    ensures counts { result ≢ Err Net → (S.failed_reads stream.new ≡ S.failed_reads stream.old)
        × (S.failed_writes stream.new ≡ S.failed_writes stream.old) }
    ensures fault { result ≡ Err Net → CallFails
        (S.failed_reads stream.old) (S.failed_reads stream.new)
        (S.failed_writes stream.old) (S.failed_writes stream.new)
        ⊎ (Appends (S.held stream.old) request.now (S.held stream.new)
        × EndsWithin (counted_for request.now) (S.rest stream.old) (S.rest stream.new)) }
    ensures net { result ≢ Err Standard }
    ensures reply { OnOk result (IsReplyTo request.now reply.new.items) }
    ensures part { OnErr result
        (TakesAtMost (counted_for request.now) (S.rest stream.old) (S.rest stream.new)) }
    ensures cut { OnErr result ((S.rest stream.new ≡ S.rest stream.old)
        ⊎ Appends (S.held stream.old) request.now (S.held stream.new)) }
{
    send(stream, request)?;
    reply.clear();
    read_reply(stream, asks_for_bytes(request), reply)
}

/// Whether bytes follow a good reply to a request.
fn asks_for_bytes(request: &[u8]) -> bool
    ensures { result ≡ asks_for_bytes (lines_of request.now) }
{
    match split_line(request) {
        Some((line, _)) => matches!(verb_of(line), Some(Verb::Dump)),
        None => false,
    }
}

/// Sends a line.
fn send<S: Stream>(stream: &mut S, request: &[u8]) -> Result<(), Stop>
    requires { CanFail (S.failed_writes stream.old) }
    ensures all { OnOk result (Appends (S.held stream.old) request.now (S.held stream.new)) }
    ensures front { AppendsFront (S.held stream.old) request.now (S.held stream.new) }
    ensures unread { S.unread stream.new ≡ S.unread stream.old }
    ensures counts { Counts (S.failed_writes stream.old) result (S.failed_writes stream.new) }
    ensures net { IfErr result (λ stop. stop ≡ Net) }
{
    if stream.write_all(request).is_err() || stream.flush().is_err() {
        return Err(Stop::Net);
    }
    Ok(())
}

/// Appends a reply to the buffer, with the bytes that it counts if it was asked for bytes.
fn read_reply<S: Stream>(stream: &mut S, dump: bool, reply: &mut Vec<u8>) -> Result<(), Stop>
    requires { CanFail (S.failed_reads stream.old) }
    ensures all { OnOk result (Gathers (S.rest stream.old) reply.old.items reply.new.items
        (S.rest stream.new)) }
    ensures taken { (taken : List ℕ) × Takes (S.rest stream.old) taken (S.rest stream.new) }
    ensures written { S.written stream.new ≡ S.written stream.old }
    ensures reads { result ≢ Err Net → S.failed_reads stream.new ≡ S.failed_reads stream.old }
    ensures fault { reply.old.items ≡ [] → result ≡ Err Net
        → (S.failed_reads stream.new ≡ S.failed_reads stream.old + 1)
        ⊎ EndsWithin (bytes_promised dump) (S.rest stream.old) (S.rest stream.new) }
    ensures net { result ≢ Err Standard }
    ensures reply { reply.old.items ≡ []
        → OnOk result (IsCounted (bytes_promised dump) reply.new.items) }
    ensures part { reply.old.items ≡ [] → OnErr result
        (TakesAtMost (bytes_promised dump) (S.rest stream.old) (S.rest stream.new)) }
{
    match read_whole(stream, dump, reply) {
        Ok(()) => Ok(()),
        Err(PartStop::Memory(refused)) => Err(Stop::Memory(refused)),
        Err(PartStop::Ended | PartStop::Failed) => Err(Stop::Net),
    }
}

/// Reads a line into the empty buffer, and the bytes that it counts if it was asked for bytes.
fn read_whole<S: Stream>(stream: &mut S, dump: bool, reply: &mut Vec<u8>) -> Result<(), PartStop>
    requires { CanFail (S.failed_reads stream.old) }
    ensures all { OnOk result (Gathers (S.rest stream.old) reply.old.items reply.new.items
        (S.rest stream.new)) }
    ensures taken { (taken : List ℕ) × Takes (S.rest stream.old) taken (S.rest stream.new) }
    ensures written { S.written stream.new ≡ S.written stream.old }
    ensures reads { result ≢ Err Failed → S.failed_reads stream.new ≡ S.failed_reads stream.old }
    ensures failed { result ≡ Err Failed
        → S.failed_reads stream.new ≡ S.failed_reads stream.old + 1 }
    ensures ended { reply.old.items ≡ [] → result ≡ Err Ended
        → EndsWithin (bytes_promised dump) (S.rest stream.old) (S.rest stream.new) }
    ensures reply { reply.old.items ≡ []
        → OnOk result (IsCounted (bytes_promised dump) reply.new.items) }
    ensures part { reply.old.items ≡ [] → OnErr result
        (TakesAtMost (bytes_promised dump) (S.rest stream.old) (S.rest stream.new)) }
{
    read_line(stream, reply)?;
    let count = promised(without_end(reply.as_slice()), dump);
    read_count(stream, reply, count)
}

/// How many bytes follow a line that is `OK` and a number, if bytes were asked for; none follow any
/// other line.
fn promised(line: &[u8], dump: bool) -> u32
    ensures { result ≡ bytes_promised dump line.now }
{
    if !dump {
        return 0;
    }
    let (word, rest) = split_word(line);
    if word != b"OK".as_slice() {
        return 0;
    }
    only_number(rest).unwrap_or(0)
}
