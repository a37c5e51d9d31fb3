//! Writes reply lines to a client.

ghost use Rattle.lines.specs.Replies.{reply_line};
ghost use Rattle.line_io.specs.Saying.{HasSaid};
ghost use Rattle.line_io.specs.Wire.{CanGoOn, HasPut};

use crate::end::End;
use crate::wire::{pass_on, put};
use lines::{Answer, Text, reply_text};
use metric::{Stream, WriteFault};

/// Writes a reply line.
pub fn say<S: Stream>(stream: &mut S, text: &mut Text, answer: &Answer) -> Result<(), WriteFault>
    requires { CanGoOn (S.wire stream.old) }
    ensures { HasPut result (S.wire stream.old) (reply_line answer.now) (S.wire stream.new) }
{
    reply_text(answer, text);
    put(stream, text.as_bytes())
}

/// Writes a reply line and flushes it.
fn say_now<S: Stream>(stream: &mut S, text: &mut Text, answer: &Answer) -> Result<(), WriteFault>
    requires { CanGoOn (S.wire stream.old) }
    ensures { HasPut result (S.wire stream.old) (reply_line answer.now) (S.wire stream.new) }
{
    say(stream, text, answer)?;
    pass_on(stream)
}

/// Writes the last reply line of a stream and flushes it. Returns how the stream ends: as given, or
/// by a failed write.
pub fn say_last<S: Stream>(stream: &mut S, text: &mut Text, answer: &Answer, end: End) -> End
    requires { CanGoOn (S.wire stream.old) }
    ensures { HasSaid end result (S.wire stream.old) (reply_line answer.now) (S.wire stream.new) }
{
    say_now(stream, text, answer).map_or(End::WriteFailed, |()| end)
}
