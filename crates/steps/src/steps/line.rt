//! Lines of steps, and what they say.

ghost use Rattle.std.specs.Prelude.{◌≡◌, option_map, unwrap_or};
ghost use Rattle.lines.specs.Said.{first_verb, said_of};
ghost use Rattle.words.specs.Words.{words_left};
ghost use Rattle.steps.specs.StepLines.{bad, letter_named, letter_said, order_said};
ghost use Rattle.steps.specs.StepLines.{step_said, step_said_by};

use lines::{Verb, read_order, split_verb};
use map_core::Event;
use metric::Refusal;
use words::{number_pair, number_triple, only_number, split_word};

/// What a line says.
#[derive(Drop)]
pub enum StepLine {
    /// One event.
    Event(Event),
    /// Several steps of the keeper.
    Keep { count: u32 },
    /// A command of the keeper that is refused before it is an order.
    Refused(Refusal),
    /// None of the forms of a line.
    Bad,
}

/// The kinds of lines, by their first word.
#[derive(Clone, Copy)]
pub enum Letter {
    Announce,
    Load,
    LookMap,
    LookTile,
    Leave,
    Confirm,
    Order,
    Keep,
}

/// The kind of line that this letter starts.
fn letter_of(word: &[u8]) -> Option<Letter>
    ensures { result ≡ letter_named word.now }
{
    if word == b"A".as_slice() {
        Some(Letter::Announce)
    } else if word == b"L".as_slice() {
        Some(Letter::Load)
    } else if word == b"M".as_slice() {
        Some(Letter::LookMap)
    } else if word == b"T".as_slice() {
        Some(Letter::LookTile)
    } else if word == b"V".as_slice() {
        Some(Letter::Leave)
    } else if word == b"E".as_slice() {
        Some(Letter::Confirm)
    } else if word == b"C".as_slice() {
        Some(Letter::Order)
    } else if word == b"K".as_slice() {
        Some(Letter::Keep)
    } else {
        None
    }
}

/// What the line of the protocol in the rest of a line says. Only a command to the keeper says
/// anything.
#[tactic(auto, unfolding(lines::specs::Said::said, lines::specs::Said::verb_in))]
fn order(rest: Option<&[u8]>) -> StepLine
    ensures { step_said_by result ≡ order_said (first_verb (words_left rest.entry))
        (said_of (words_left rest.entry)) }
{
    let Some(line) = rest else {
        return StepLine::Bad;
    };
    let Some((Verb::Order(order), rest)) = split_verb(line) else {
        return StepLine::Bad;
    };
    match read_order(order, rest) {
        Some(command) => StepLine::Event(Event::Order { command }),
        None => StepLine::Refused(Refusal::BadArguments),
    }
}

/// What a letter says with the rest of its line; nothing if that isn't what the letter takes.
fn letter_line(letter: Letter, rest: Option<&[u8]>) -> Option<StepLine>
    ensures { unwrap_or (option_map step_said_by result) bad
        ≡ letter_said letter (words_left rest.entry) }
{
    Some(match letter {
        Letter::Announce => StepLine::Event(Event::Announce {
            reader: only_number(rest)?,
        }),
        Letter::Load => StepLine::Event(Event::Load {
            reader: only_number(rest)?,
        }),
        Letter::LookMap => {
            let (reader, position) = number_pair(rest)?;
            StepLine::Event(Event::LookMap { reader, position })
        }
        Letter::LookTile => {
            let (reader, block, row) = number_triple(rest)?;
            StepLine::Event(Event::LookTile { reader, block, row })
        }
        Letter::Leave => StepLine::Event(Event::Leave {
            reader: only_number(rest)?,
        }),
        Letter::Confirm => StepLine::Event(Event::Confirm {
            reader: only_number(rest)?,
        }),
        Letter::Order => order(rest),
        Letter::Keep => StepLine::Keep {
            count: only_number(rest)?,
        },
    })
}

/// What a line says, without its LF and the CR before it.
#[tactic(auto, unfolding(crate::specs::StepLines::step_said))]
pub fn parse_step(line: &[u8]) -> StepLine
    ensures { step_said_by result ≡ step_said line.now }
{
    let (word, rest) = split_word(line);
    let Some(letter) = letter_of(word) else {
        return StepLine::Bad;
    };
    letter_line(letter, rest).unwrap_or(StepLine::Bad)
}
