//! What sessions do in a table of rows, and their answers.

use map_core::{Command, Reply};
use metric::Refusal;

/// What a session does, with its pin if it has one.
#[derive(Clone, Copy)]
pub enum Act {
    /// Paints the cells of the rectangle with these corners.
    Paint([u16; 4]),
    /// Clears them.
    Clear([u16; 4]),
    /// Stamps a row of three obstacles, with its first cell here.
    Stamp(u16, u16),
    Publish,
    Revert,
    Collect,
    Checkpoint,
    Pin,
    Unpin,
    /// Asks its pin for the nearest obstacle of a cell.
    Near([u16; 2]),
    /// Puts a ticket of the log into the tray.
    Ticket,
    /// Learns the ticket in the tray.
    Learn,
    /// Discards it.
    Discard,
}

/// The answer.
#[derive(Clone, Copy, PartialEq, Debug)]
pub enum Told {
    /// The command's place, and how many cells changed.
    Painted(u32, u32),
    /// Its place, and the version.
    Published(u32, u32),
    /// Its place.
    Reverted(u32),
    /// Its place, after which there is no entry yet.
    Checkpointed(u32),
    /// Its place, the least version kept, and how many blocks came back.
    Collected(u32, u32, u32),
    /// How many blocks it needs, and how many are free.
    Full(u32, u32),
    Refused(Refusal),
    /// The version that its pin holds.
    Version(u32),
    /// The version that its pin holds, the nearest obstacle's distance, and its position.
    Near(u32, u32, [i16; 2]),
    /// The version that its pin holds, where there is no obstacle.
    Free(u32),
    Nothing,
}

/// Which session acts, what it does, and its answer.
pub type Row = (usize, Act, Told);

/// The first session, the second one and the third one.
pub const A: usize = 0;

pub const B: usize = 1;

pub const C: usize = 2;

/// The answer to a command.
pub fn answered(answer: Result<Reply, (Command, Refusal)>) -> Told {
    match answer {
        Ok(Reply::Painted { place, changed }) => Told::Painted(place, changed),
        Ok(Reply::Published { place, version }) => Told::Published(place, version),
        Ok(Reply::Reverted { place }) => Told::Reverted(place),
        Ok(Reply::Checkpointed { place }) => Told::Checkpointed(place),
        Ok(
            Reply::Collected {
                place,
                floor,
                freed,
                kept: _,
            },
        ) => Told::Collected(place, floor, freed),
        Err((_, Refusal::BlocksFull { needed, free })) => Told::Full(needed, free),
        Err((_, refusal)) => Told::Refused(refusal),
    }
}
