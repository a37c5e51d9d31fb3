//! Serves one line of a stream: reads it, answers it and writes the answer.

ghost use Rattle.std.specs.Prelude.{◌≡◌, ℕ, List, Ok};
ghost use Rattle.proto.specs.Exchanges.{IsStampAnswer, line_seen_in};
ghost use Rattle.lines.specs.Replies.{reply_line};
ghost use Rattle.lines.specs.Said as saids;
ghost use Rattle.proto.specs.Served.{HasHeard, IsSaid, IsServed, end_after};
ghost use Rattle.line_io.specs.Counted.{AreKept};
ghost use Rattle.metric.specs.Wire.{Wire};
ghost use Rattle.line_io.specs.Wire.{CanGoOn};

use crate::serve::caller::Caller;
use events::Command;
use line_io::{Counted, End, LineBuffer, read_counted, say, say_last};
use lines::{Answer, Line, MOST_COUNTED, Text, parse_line};
use metric::{NoMemory, PbmFault, Refusal, Stream, WriteFault};
use pbm::read_image;
use session::Store;
use shelf::StoreName;
use std::alloc::Global;
use std::sync::Wait;
use words::without_cr;

/// What serves the lines of a stream: the store, and the buffers of a line and of a reply line.
#[derive(Drop)]
pub struct Service<'a, Id: StoreName, R: Wait> {
    rt: &'a R,
    alloc: Global,
    store: &'a Store<Id>,
    line: LineBuffer,
    text: Text,
}

impl<'a, Id: StoreName, R: Wait> Service<'a, Id, R> {
    /// A service with its buffers. Fails only when out of memory.
    pub fn new(rt: &'a R, alloc: Global, store: &'a Store<Id>) -> Result<Self, NoMemory> {
        let line = LineBuffer::new(alloc)?;
        let text = Text::new(alloc)?;
        Ok(Service {
            rt,
            alloc,
            store,
            line,
            text,
        })
    }

    /// Serves one line of a stream. If the stream ends there, returns how.
    pub fn serve_line<S: Stream>(
        &mut self,
        caller: Caller<Id>,
        stream: &mut S,
    ) -> (Caller<Id>, Option<End>)
        requires { CanGoOn (S.wire stream.old) }
        ensures { IsServed Id.store result.1 (S.wire stream.old) caller
            (S.wire stream.new) result.0 }
    {
        match self.line.read(stream) {
            Ok(()) => {
                let asked = parse_line(self.alloc, without_cr(self.line.as_bytes()));
                self.serve(caller, asked, stream)
            }
            Err(End::LineTooLong) => {
                let answer = Answer::Refused(Refusal::LineTooLong);
                let end = say_last(stream, &mut self.text, &answer, End::LineTooLong);
                (caller, Some(end))
            }
            Err(end) => (caller, Some(end)),
        }
    }

    /// Serves a line that was read to its LF.
    fn serve<S: Stream>(
        &mut self,
        mut caller: Caller<Id>,
        asked: Result<Line, Refusal>,
        stream: &mut S,
    ) -> (Caller<Id>, Option<End>)
        requires { CanGoOn (S.wire stream.old) }
        ensures { (before : Wire) → HasHeard before (line_seen_in asked) (S.wire stream.old)
            → IsServed Id.store result.1 before caller (S.wire stream.new) result.0 }
    {
        match asked {
            Ok(Line::Quit) => {
                let caller = Caller::new(caller.into_session());
                let end = say_last(stream, &mut self.text, &Answer::Bye, End::Quit);
                (caller, Some(end))
            }
            Ok(Line::Dump) => {
                let end = end_of(caller.dump(self.alloc, stream, &mut self.text));
                (caller, end)
            }
            Ok(Line::Stamp { x, y, length }) => self.serve_stamp(caller, x, y, length, stream),
            Ok(Line::Command(command)) => {
                let answer = caller.command(self.rt, self.store, command);
                self.reply(caller, answer, stream)
            }
            Ok(Line::Query(query)) => {
                let answer = caller.query(self.alloc, &query);
                self.reply(caller, answer, stream)
            }
            Ok(Line::Pin) => {
                let (caller, answer) = caller.pin(self.alloc);
                self.reply(caller, answer, stream)
            }
            Ok(Line::Unpin) => {
                let (caller, answer) = caller.unpin();
                self.reply(caller, answer, stream)
            }
            Err(refusal) => {
                let answer = caller.refuse(refusal);
                self.reply(caller, answer, stream)
            }
        }
    }

    /// Serves a stamp, whose image is the `length` bytes after its line.
    fn serve_stamp<S: Stream>(
        &mut self,
        caller: Caller<Id>,
        x: u16,
        y: u16,
        length: u32,
        stream: &mut S,
    ) -> (Caller<Id>, Option<End>)
        requires { CanGoOn (S.wire stream.old) }
        ensures { (before : Wire)
            → HasHeard before (Ok (saids.stamp x y length)) (S.wire stream.old)
            → IsServed Id.store result.1 before caller (S.wire stream.new) result.0 }
    {
        if length > MOST_COUNTED {
            let answer = Answer::Refused(Refusal::TooMuchData);
            let end = say_last(stream, &mut self.text, &answer, End::TooMuchData);
            return (caller, Some(end));
        }
        match read_counted(self.alloc, stream, length) {
            Ok(kept) => {
                let (caller, answer) = self.stamp(caller, x, y, kept);
                self.reply(caller, answer, stream)
            }
            Err(end) => (caller, Some(end)),
        }
    }

    /// Answers a stamp whose image is at the front of the bytes kept.
    fn stamp(&self, mut caller: Caller<Id>, x: u16, y: u16, kept: Counted) -> (Caller<Id>, Answer)
        ensures { (bytes : List ℕ) → AreKept kept bytes
            → IsStampAnswer Id.store x y bytes caller result.1 result.0 }
    {
        let bytes = match kept {
            Ok(bytes) => bytes,
            Err(refused) => return (caller, Answer::Refused(Refusal::from(refused))),
        };
        match read_image(self.alloc, bytes.as_slice()) {
            Ok((bitmap, _)) => {
                let answer = caller.command(self.rt, self.store, Command::Stamp { x, y, bitmap });
                (caller, answer)
            }
            Err(PbmFault::Memory) => (caller, Answer::Refused(Refusal::Memory)),
            Err(fault) => (caller, Answer::Refused(Refusal::BadImage(fault))),
        }
    }

    /// Writes an answer. The stream goes on unless the write fails.
    fn reply<S: Stream>(
        &mut self,
        caller: Caller<Id>,
        answer: Answer,
        stream: &mut S,
    ) -> (Caller<Id>, Option<End>)
        requires { CanGoOn (S.wire stream.old) }
        ensures caller { result.0 ≡ caller }
        ensures said { IsSaid result.1 (S.wire stream.old) (reply_line answer) (S.wire stream.new) }
    {
        let end = end_of(say(stream, &mut self.text, &answer));
        (caller, end)
    }
}

/// How the stream ends if a write failed.
fn end_of(written: Result<(), WriteFault>) -> Option<End>
    ensures { result ≡ end_after written }
{
    match written {
        Ok(()) => None,
        Err(_) => Some(End::WriteFailed),
    }
}
