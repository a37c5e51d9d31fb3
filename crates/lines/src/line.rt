//! Lines, and what they say.

ghost use Rattle.std.specs.Prelude.{◌≡◌, ◌≢◌, IfOk, IfErr, IsOkAnd, Ok, Err};
ghost use Rattle.metric.specs.declared.refusal.Refusal.{Refusal};
ghost use Rattle.lines.specs.Said.{said, said_by, SaysPoints};

use crate::command::{bare_line, read_order, read_stamp};
use crate::query::{Query, read_query};
use crate::verb::{Verb, split_verb};
use events::Command;
use metric::Refusal;
use std::alloc::Global;

/// The most bytes of a stamp's image: the plain image of the largest map fits.
pub const MOST_COUNTED: u32 = 17_100_000;

/// What a line says.
#[derive(Debug, Drop)]
pub enum Line {
    /// A command to the keeper of the map; never a stamp, whose image follows its line.
    Command(Command),
    /// A stamp at a position, whose image takes `length` bytes after the line. A coordinate over 16
    /// bits reads as 65535, which is outside every map too; here `length` has no limit.
    Stamp { x: u16, y: u16, length: u32 },
    /// Pins the newest version.
    Pin,
    /// Unpins.
    Unpin,
    /// A query on the pinned version.
    Query(Query),
    /// Asks for the pinned bitmap.
    Dump,
    /// Ends the stream.
    Quit,
}

/// Parses a line without its LF and the CR before it. A number has 1 to 10 digits, and is at most
/// 4294967295.
///
/// Refuses, in this order: a first word that is none of the fifteen commands, whatever follows it;
/// arguments of the wrong number or form, a rectangle without a cell, or one with a corner over
/// 4096; a path of no points or over 1000; and out of memory, which only the points of a path can
/// meet, and only if the line is valid.
#[tactic(auto, unfolding(crate::specs::Said::said))]
pub fn parse_line(alloc: Global, bytes: &[u8]) -> Result<Line, Refusal>
    ensures line { IfOk result (λ line. said bytes.now ≡ Ok (said_by line)) }
    ensures refusal { IfErr result (λ refusal. refusal ≢ Refusal.Memory
        → said bytes.now ≡ Err refusal) }
    ensures memory { result ≡ Err Refusal.Memory → IsOkAnd (said bytes.now) SaysPoints }
{
    let (verb, rest) = split_verb(bytes).ok_or(Refusal::UnknownCommand)?;
    match verb {
        Verb::Order(order) => read_order(order, rest)
            .map(Line::Command)
            .ok_or(Refusal::BadArguments),
        Verb::Ask(kind) => Ok(Line::Query(read_query(alloc, kind, rest)?)),
        Verb::Stamp => read_stamp(rest).ok_or(Refusal::BadArguments),
        Verb::Pin => bare_line(rest, Line::Pin).ok_or(Refusal::BadArguments),
        Verb::Unpin => bare_line(rest, Line::Unpin).ok_or(Refusal::BadArguments),
        Verb::Dump => bare_line(rest, Line::Dump).ok_or(Refusal::BadArguments),
        Verb::Quit => bare_line(rest, Line::Quit).ok_or(Refusal::BadArguments),
    }
}
