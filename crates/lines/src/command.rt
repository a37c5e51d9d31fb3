//! The commands of a line that take no memory.

ghost use Rattle.std.specs.Prelude.{◌≡◌, option_map};
ghost use Rattle.words.specs.Numbers.{number_triple, numbers};
ghost use Rattle.lines.specs.Said.{said_by, stamp_of};
ghost use Rattle.lines.specs.Told.{alone, draw, order_told, rect_told, told_by};
ghost use Rattle.words.specs.Words.{words_left};

use crate::arguments::read_rect;
use crate::line::Line;
use crate::verb::CommandName;
use events::Command;
use words::{coordinate, number_triple};

/// The keeper's command of this name, with the rest of the line as its arguments; none where their
/// number or form is wrong.
pub fn read_order(order: CommandName, rest: Option<&[u8]>) -> Option<Command>
    ensures { option_map told_by result ≡ order_told order (words_left rest.entry) }
{
    match order {
        CommandName::Paint => paint(rest, true),
        CommandName::Clear => paint(rest, false),
        CommandName::Publish => bare_order(rest, Command::Publish),
        CommandName::Revert => bare_order(rest, Command::Revert),
        CommandName::Collect => bare_order(rest, Command::Collect),
        CommandName::Checkpoint => bare_order(rest, Command::Checkpoint),
    }
}

/// The command that sets the rectangle in the rest of a line to this value.
fn paint(rest: Option<&[u8]>, black: bool) -> Option<Command>
    ensures { option_map told_by result ≡ option_map (draw black)
        (rect_told (words_left rest.entry)) }
{
    let rect = read_rect(rest)?;
    Some(Command::Paint { rect, black })
}

/// A command to the keeper without arguments; none where the line has a rest.
fn bare_order(rest: Option<&[u8]>, command: Command) -> Option<Command>
    ensures { option_map told_by result ≡ alone (told_by command) (words_left rest.entry) }
{
    if rest.is_some() { None } else { Some(command) }
}

/// A line without arguments; none where it has a rest.
pub fn bare_line(rest: Option<&[u8]>, line: Line) -> Option<Line>
    ensures { option_map said_by result ≡ alone (said_by line) (words_left rest.entry) }
{
    if rest.is_some() { None } else { Some(line) }
}

/// The stamp whose position and number of bytes are the whole rest of a line; none otherwise.
pub fn read_stamp(rest: Option<&[u8]>) -> Option<Line>
    ensures { option_map said_by result ≡ option_map stamp_of
        (number_triple (numbers (words_left rest.entry))) }
{
    let (x, y, length) = number_triple(rest)?;
    Some(Line::Stamp {
        x: coordinate(x),
        y: coordinate(y),
        length,
    })
}
