//! The texts of events' answers.

ghost use Rattle.std.specs.Prelude.{◌≡◌, ◌≤◌, ◌∷◌, ◌++◌, [], codes, length};
ghost use Rattle.std.specs.Fmt.{decimal};
ghost use Rattle.steps.specs.StepAnswers.{step_text};

use lines::{Answer, Text, put_answer};
use map_core::{NotEnabled, StepReply};

/// Writes a name and a number.
fn put_named(text: &mut Text, name: &[u8], number: u32)
    requires empty { text.old ≡ [] }
    requires short { length name.now ≤ 8 }
    ensures text { text.new ≡ name.now ++ decimal number }
    ensures few { length text.new ≤ 18 }
{
    text.put(name);
    text.put_number(number);
}

/// Writes the answer to an event, without its LF.
fn put_reply(text: &mut Text, reply: StepReply)
    requires { text.old ≡ [] }
    ensures text { text.new ≡ step_text (Ok reply) }
    ensures few { length text.new ≤ 100 }
{
    match reply {
        StepReply::Announced { version } => put_named(text, b"PIN ", version),
        StepReply::Now { place, version } => {
            put_named(text, b"NOW ", place);
            text.put(b" ");
            text.put_number(version);
        }
        StepReply::Block { block } => put_named(text, b"BLOCK ", block),
        StepReply::Word { word } => {
            text.put(b"WORD ");
            text.put_hex(16, word);
        }
        StepReply::Left => text.put(b"LEFT"),
        StepReply::Confirmed { version } => put_named(text, b"EXACT ", version),
        StepReply::Ordered { steps } => put_named(text, b"ORDERED ", steps),
        StepReply::Refused { refusal } => put_answer(text, Answer::Refused(refusal)),
        StepReply::Written => text.put(b"WRITE"),
        StepReply::Scanned { reader, word } => {
            put_named(text, b"SCAN ", reader);
            text.put(b" ");
            text.put_long(word);
        }
        StepReply::Committed { reply } => put_answer(text, Answer::Done(reply)),
    }
}

/// Replaces the text by the answer line of an event. Every one fits a text.
pub fn step_line(answer: Result<StepReply, NotEnabled>, text: &mut Text)
    ensures line { text.new ≡ step_text answer ++ 10 ∷ [] }
    ensures fits { length text.new ≤ 128 }
{
    text.clear();
    match answer {
        Ok(reply) => put_reply(text, reply),
        Err(NotEnabled) => text.put(b"NOT ENABLED"),
    }
    text.put(b"\n");
}

/// Writes the answer line of a line that has none of the known forms.
pub fn bad_line(text: &mut Text)
    ensures line { text.new ≡ codes "BAD LINE" ++ 10 ∷ [] }
    ensures fits { length text.new ≤ 128 }
{
    text.clear();
    text.put(b"BAD LINE\n");
}

/// Writes the answer line of the first line, with the map's number of positions.
pub fn opened_line(tiles: u16, text: &mut Text)
    ensures line { text.new ≡ (codes "OPENED " ++ decimal tiles) ++ 10 ∷ [] }
    ensures fits { length text.new ≤ 128 }
{
    text.clear();
    put_named(text, b"OPENED ", u32::from(tiles));
    text.put(b"\n");
}
