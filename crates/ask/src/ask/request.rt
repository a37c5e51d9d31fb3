//! A line of `ask`, with the bytes that it counts.

ghost use Rattle.std.specs.Prelude.{◌≡◌, ◌≢◌, ◌++◌, ◌∷◌, [], ℕ, List, ◌+◌, OnOk, OnErr, Ok, Err};
ghost use Rattle.std.specs.Prelude.{false, true};
ghost use Rattle.std.specs.Str.Lines.{strip_carriage_return};
ghost use Rattle.metric.specs.Stream.{CanFail, Takes};
ghost use Rattle.ask.specs.Asking.{IsRequest, counted_by};
ghost use Rattle.ask.specs.Passing.{EndsCut};
ghost use Rattle.streams.specs.Gathered.{Gathers, TakesAtMost};
ghost use Rattle.ask.specs.declared.ask.Stop.TheVariants.{Net, Standard};
ghost use Rattle.streams.specs.declared.gather.PartStop.TheVariants.{Ended, Failed};

use crate::ask::Stop;
use lines::{Line, MOST_COUNTED, Verb, read_stamp, split_verb};
use metric::Source;
use streams::{PartStop, read_count, read_line};
use words::without_cr;

/// Replaces the buffer by a line and the bytes that it counts. `false` if the reader ends before
/// all of them.
pub fn read_request<R: Source>(reader: &mut R, request: &mut Vec<u8>) -> Result<bool, Stop>
    requires { CanFail (R.failed_reads reader.old) }
    ensures all { result ≡ Ok true
        → Takes (R.rest reader.old) request.new.items (R.rest reader.new) }
    ensures taken { (taken : List ℕ) × Takes (R.rest reader.old) taken (R.rest reader.new) }
    ensures counts { result ≢ Err Standard → R.failed_reads reader.new ≡ R.failed_reads reader.old }
    ensures failed { result ≡ Err Standard
        → R.failed_reads reader.new ≡ R.failed_reads reader.old + 1 }
    ensures other { result ≢ Err Net }
    ensures request { result ≡ Ok true → IsRequest request.new.items }
    ensures ended { result ≡ Ok false → EndsCut (R.rest reader.old) (R.rest reader.new) }
    ensures part { OnErr result (TakesAtMost counted_by (R.rest reader.old) (R.rest reader.new)) }
{
    request.clear();
    match read_whole(reader, request) {
        Ok(()) => Ok(true),
        Err(PartStop::Ended) => Ok(false),
        Err(PartStop::Failed) => Err(Stop::Standard),
        Err(PartStop::Memory(refused)) => Err(Stop::Memory(refused)),
    }
}

/// Reads a line and the bytes that it counts into the empty buffer.
fn read_whole<R: Source>(reader: &mut R, request: &mut Vec<u8>) -> Result<(), PartStop>
    requires { CanFail (R.failed_reads reader.old) }
    ensures all { OnOk result (Gathers (R.rest reader.old) request.old.items request.new.items
        (R.rest reader.new)) }
    ensures taken { (taken : List ℕ) × Takes (R.rest reader.old) taken (R.rest reader.new) }
    ensures counts { result ≢ Err Failed → R.failed_reads reader.new ≡ R.failed_reads reader.old }
    ensures failed { result ≡ Err Failed
        → R.failed_reads reader.new ≡ R.failed_reads reader.old + 1 }
    ensures request { request.old.items ≡ [] → OnOk result (IsRequest request.new.items) }
    ensures ended { request.old.items ≡ [] → result ≡ Err Ended
        → EndsCut (R.rest reader.old) (R.rest reader.new) }
    ensures part { request.old.items ≡ []
        → OnErr result (TakesAtMost counted_by (R.rest reader.old) (R.rest reader.new)) }
{
    read_line(reader, request)?;
    let count = counted(without_end(request.as_slice()));
    read_count(reader, request, count)
}

/// A line without its LF and the CR before it.
pub fn without_end(line: &[u8]) -> &[u8]
    ensures { (front : List ℕ) → line.now ≡ front ++ 10 ∷ []
        → result.now ≡ strip_carriage_return front }
{
    match line.split_last() {
        Some((_, line)) => without_cr(line),
        None => line,
    }
}

/// How many bytes a server reads after a line.
fn counted(line: &[u8]) -> u32
    ensures { result ≡ counted_by line.now }
{
    let Some((Verb::Stamp, rest)) = split_verb(line) else {
        return 0;
    };
    match read_stamp(rest) {
        Some(Line::Stamp { length, .. }) if length <= MOST_COUNTED => length,
        _ => 0,
    }
}
