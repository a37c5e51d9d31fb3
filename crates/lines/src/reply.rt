//! The texts of replies.

ghost use Rattle.std.specs.Prelude.{◌≡◌, ◌≤◌, ◌+◌, [], ◌∷◌, ◌++◌, codes, length};
ghost use Rattle.std.specs.Fmt.{decimal};
ghost use Rattle.metric.specs.Refusal.{refusal_text};
ghost use Rattle.lines.specs.Replies.{answer_text, cell_text, found_text, near_text, numbers_of};
ghost use Rattle.lines.specs.Replies.{numbers_text, one_text, reply_line, spot_text};

use crate::answer::Answer;
use crate::text::Text;
use events::Reply;
use metric::{Cell, Near, PbmFault, Refusal, Spot};

/// Appends a cell: two numbers and a blank.
fn put_cell(text: &mut Text, cell: Cell)
    requires { length text.old + 21 ≤ 128 }
    ensures text { text.new ≡ text.old ++ cell_text cell }
    ensures few { length text.new ≤ length text.old + 21 }
{
    text.put_number(u32::from(cell.x));
    text.put(b" ");
    text.put_number(u32::from(cell.y));
}

/// Appends an obstacle's position: two signed numbers and a blank.
fn put_spot(text: &mut Text, spot: Spot)
    requires { length text.old + 23 ≤ 128 }
    ensures text { text.new ≡ text.old ++ spot_text spot }
    ensures few { length text.new ≤ length text.old + 23 }
{
    text.put_signed(spot.x);
    text.put(b" ");
    text.put_signed(spot.y);
}

/// Writes a distance and its obstacle.
fn put_near(text: &mut Text, near: Near)
    requires { text.old ≡ [] }
    ensures text { text.new ≡ near_text near }
    ensures few { length text.new ≤ 100 }
{
    text.put(b"OK ");
    text.put_number(near.dist);
    text.put(b" ");
    put_spot(text, near.cell);
}

/// Writes a distance, the cell that has it, and its obstacle.
fn put_found(text: &mut Text, cell: Cell, near: Near)
    requires { text.old ≡ [] }
    ensures text { text.new ≡ found_text (cell, near) }
    ensures few { length text.new ≤ 100 }
{
    text.put(b"OK ");
    text.put_number(near.dist);
    text.put(b" ");
    put_cell(text, cell);
    text.put(b" ");
    put_spot(text, near.cell);
}

/// Writes the reply to a command.
fn put_done(text: &mut Text, reply: Reply)
    requires { text.old ≡ [] }
    ensures text { text.new ≡ codes "OK" ++ numbers_text (numbers_of reply) }
    ensures few { length text.new ≤ 100 }
{
    text.put(b"OK");
    match reply {
        Reply::Painted { place, changed } => put_pair(text, place, changed),
        Reply::Published { place, version } => put_pair(text, place, version),
        Reply::Reverted { place } | Reply::Checkpointed { place } => put_detail(text, place),
        Reply::Collected {
            place,
            floor,
            freed,
            kept: _,
        } => {
            put_pair(text, place, floor);
            put_detail(text, freed);
        }
    }
}

/// Writes a number after `OK`.
fn put_one(text: &mut Text, number: u64)
    requires { text.old ≡ [] }
    ensures text { text.new ≡ one_text number }
    ensures few { length text.new ≤ 100 }
{
    text.put(b"OK ");
    text.put_long(number);
}

/// Appends two numbers.
fn put_pair(text: &mut Text, first: u32, second: u32)
    requires { length text.old + 22 ≤ 128 }
    ensures text { text.new ≡ text.old ++ ((32 ∷ decimal first) ++ (32 ∷ decimal second)) }
    ensures few { length text.new ≤ length text.old + 22 }
{
    put_detail(text, first);
    put_detail(text, second);
}

/// Writes a refusal.
fn put_refusal(text: &mut Text, refusal: Refusal)
    requires { text.old ≡ [] }
    ensures text { text.new ≡ refusal_text refusal }
    ensures few { length text.new ≤ 100 }
{
    text.put(refusal.title().as_bytes());
    match refusal {
        Refusal::BlocksFull { needed, free } => {
            put_detail(text, needed);
            put_detail(text, free);
        }
        Refusal::Crooked { index } => put_detail(text, index),
        Refusal::BadImage(PbmFault::Memory) => {}
        Refusal::BadImage(fault) => put_name(text, fault.name()),
        Refusal::BadSetting(field) => put_name(text, field.name()),
        _ => {}
    }
}

/// Appends a blank and a number.
fn put_detail(text: &mut Text, number: u32)
    requires { length text.old + 11 ≤ 128 }
    ensures text { text.new ≡ text.old ++ (32 ∷ decimal number) }
    ensures few { length text.new ≤ length text.old + 11 }
{
    text.put(b" ");
    text.put_number(number);
}

/// Appends a name that is part of a refusal.
fn put_name(text: &mut Text, name: &str)
    requires { length text.old + (length name.now + 1) ≤ 128 }
    ensures text { text.new ≡ text.old ++ (32 ∷ name.now) }
{
    text.put(b" ");
    text.put(name.as_bytes());
}

/// Writes an answer, without its LF, to an empty text.
pub fn put_answer(text: &mut Text, answer: Answer)
    requires { text.old ≡ [] }
    ensures text { text.new ≡ answer_text answer }
    ensures few { length text.new ≤ 100 }
{
    match answer {
        Answer::Near(Some(near)) => put_near(text, near),
        Answer::Found(Some((cell, near))) | Answer::Clear(Some((cell, near))) => {
            put_found(text, cell, near);
        }
        Answer::Near(None) | Answer::Found(None) => text.put(b"NONE"),
        Answer::Clear(None) => text.put(b"OK CLEAR"),
        Answer::Done(reply) => put_done(text, reply),
        Answer::Version(version) => put_one(text, u64::from(version)),
        Answer::Dumped(length) => put_one(text, length),
        Answer::Bye => text.put(b"BYE"),
        Answer::Refused(refusal) => put_refusal(text, refusal),
    }
}

/// Replaces the text by the reply line of an answer. Every reply line fits a text. The bytes of a
/// dump, which follow its line, aren't part of it.
pub fn reply_text(answer: &Answer, text: &mut Text)
    ensures line { text.new ≡ reply_line answer.now }
    ensures fits { length text.new ≤ 128 }
{
    text.clear();
    put_answer(text, *answer);
    text.put(b"\n");
}
