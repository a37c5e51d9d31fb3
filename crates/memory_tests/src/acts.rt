//! Commands in tables of rows, and their answers.

use map_core::Reply;
use metric::Refusal;

/// A command.
#[derive(Clone, Copy)]
pub enum Act {
    /// Paints the cells of the rectangle with these corners.
    Paint([u16; 4]),
    /// Paints the whole map, of which more tiles change than blocks are free.
    PaintAll,
    /// Stamps an obstacle, a free cell and an obstacle, with the first of them here.
    Stamp(u16, u16),
    Publish,
    Revert,
    Collect,
    Checkpoint,
}

/// The answer.
#[derive(Clone, Copy, PartialEq, Debug)]
pub enum Told {
    /// Its place, and how many cells changed.
    Painted(u32, u32),
    /// Its place, and the version.
    Published(u32, u32),
    /// Its place.
    Reverted(u32),
    /// Its place, the least version kept, and how many blocks came back.
    Collected(u32, u32, u32),
    /// Its place.
    Checkpointed(u32),
    Refused(Refusal),
}

/// A command, its answer, and how many blocks a paint of the whole map needs before it, and how
/// many are free.
pub type Row = (Act, Told, [u32; 2]);

impl Act {
    /// The call's name.
    pub fn name(self) -> &'static str {
        match self {
            Act::Paint(_) => "paint",
            Act::PaintAll => "paint of too many tiles",
            Act::Stamp(..) => "stamp",
            Act::Publish => "publish",
            Act::Revert => "revert",
            Act::Collect => "collect",
            Act::Checkpoint => "checkpoint",
        }
    }
}

/// The answer to a command.
pub fn answered(answer: Result<Reply, Refusal>) -> Told {
    match answer {
        Ok(Reply::Painted { place, changed }) => Told::Painted(place, changed),
        Ok(Reply::Published { place, version }) => Told::Published(place, version),
        Ok(Reply::Reverted { place }) => Told::Reverted(place),
        Ok(
            Reply::Collected {
                place,
                floor,
                freed,
                kept: _,
            },
        ) => Told::Collected(place, floor, freed),
        Ok(Reply::Checkpointed { place }) => Told::Checkpointed(place),
        Err(refusal) => Told::Refused(refusal),
    }
}
