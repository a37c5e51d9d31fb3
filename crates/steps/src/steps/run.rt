//! The world of a text, and the answers to its lines.

ghost use Rattle.std.specs.Prelude.{◌≡◌, ◌≤◌, length, IfOk, OnOk, OnErr};
ghost use Rattle.metric.specs.Stream.{Counts, CanFail};
ghost use Rattle.steps.specs.StepLines.{step_said};
ghost use Rattle.steps.specs.StepRuns.{IsAnswerLine, IsWorldTold, IsToldInPart};
ghost use Rattle.steps.specs.Steps.{IsBegun, IsAnsweredWhole, KeepsAll};
ghost use Rattle.words.specs.TextLines.{lines_of};

use crate::steps::answer::{bad_line, opened_line, step_line};
use crate::steps::line::{StepLine, parse_step};
use crate::steps::opening::Opened;
use lines::{Answer, Text, reply_text};
use map_core::{Event, NotEnabled, StepReply, World};
use metric::{Refusal, Sink, WriteFault};
use std::alloc::Global;
use streams::{DONE, write_refusal};
use words::split_line;

/// Does this many steps of the keeper if all of them are enabled. Returns the answer to the last.
fn keep(alloc: Global, world: &mut World, count: u32) -> Result<StepReply, NotEnabled>
    ensures { KeepsAll count world.old result world.new }
{
    if count == 0 || world.steps_left() < count {
        return Err(NotEnabled);
    }
    let mut answer = world.step(alloc, &Event::Keep);
    'steps: for _ in 1..count {
        answer = world.step(alloc, &Event::Keep);
    }
    answer
}

/// Does what a line says, and replaces the text by its answer line.
fn answer_line(alloc: Global, world: &mut World, line: &[u8], text: &mut Text)
    ensures answered { IsAnswerLine (step_said line.now) world.old text.new world.new }
    ensures fits { length text.new ≤ 128 }
{
    match parse_step(line) {
        StepLine::Event(event) => step_line(world.step(alloc, &event), text),
        StepLine::Keep { count } => step_line(keep(alloc, world, count), text),
        StepLine::Refused(refusal) => reply_text(&Answer::Refused(refusal), text),
        StepLine::Bad => bad_line(text),
    }
}

/// Writes the number of positions of a world's map, and the answers to the lines of a text.
fn write_world<W: Sink>(
    alloc: Global,
    opened: &mut Opened,
    lines: &[u8],
    writer: &mut W,
) -> Result<u8, WriteFault>
    requires { CanFail (W.failed_writes writer.old) }
    ensures status { IfOk result (λ status. status ≡ 0) }
    ensures whole { OnOk result
        (IsWorldTold opened.old.world opened.old.tiles (lines_of lines.now) (W.held writer.old)
        (W.held writer.new)) }
    ensures front { OnErr result
        (IsToldInPart opened.old.world opened.old.tiles (lines_of lines.now) (W.held writer.old)
        (W.held writer.new)) }
    ensures counts { Counts (W.failed_writes writer.old) result (W.failed_writes writer.new) }
{
    let (world, text) = (&mut opened.world, &mut opened.text);
    opened_line(opened.tiles, text);
    writer.write_all(text.as_bytes())?;
    let mut rest = lines;
    'lines: while let Some((line, others)) = split_line(rest) {
        answer_line(alloc, world, line, text);
        writer.write_all(text.as_bytes())?;
        rest = others;
    }
    writer.flush()?;
    Ok(DONE)
}

/// Writes the answer to a text.
pub fn write_steps<W: Sink>(alloc: Global, bytes: &[u8], writer: &mut W) -> Result<u8, WriteFault>
    requires { CanFail (W.failed_writes writer.old) }
    ensures whole { IfOk result
        (IsAnsweredWhole bytes.now (W.held writer.old) (W.held writer.new)) }
    ensures front { OnErr result (IsBegun bytes.now (W.held writer.old) (W.held writer.new)) }
    ensures counts { Counts (W.failed_writes writer.old) result (W.failed_writes writer.new) }
{
    let Some((first, later)) = split_line(bytes) else {
        return write_refusal(writer, Refusal::BadArguments);
    };
    match Opened::of(alloc, first) {
        Ok(mut opened) => write_world(alloc, &mut opened, later, writer),
        Err(refusal) => write_refusal(writer, refusal),
    }
}
