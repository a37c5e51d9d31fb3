//! Commands, their replies, and the log's entries.

use crate::kept::Kept;
use bits::Bitmap;
use metric::Rect;

/// A command to the keeper of the map. There is one draft, and the published versions.
#[derive(Debug, Drop)]
pub enum Command {
    /// Sets each cell of a rectangle of the draft to one value.
    Paint { rect: Rect, black: bool },
    /// Sets each cell of the rectangle at `(x, y)`, of the bitmap's size, to the bitmap's value,
    /// obstacle or not.
    Stamp { x: u16, y: u16, bitmap: Bitmap },
    /// Appends the draft as the next version, even if nothing changed.
    Publish,
    /// Makes the draft the newest version.
    Revert,
    /// Releases versions that no reader may need, and frees blocks. It changes no bitmap.
    Collect,
    /// Changes no bitmap. The entries up to and including its own no longer count against the log's
    /// limit; places go on counting.
    Checkpoint,
}

/// The reply to an accepted command. Each has the command's place in the log, from 1.
#[derive(Clone, Copy, Debug, PartialEq, Eq)]
pub enum Reply {
    /// To a paint or a stamp, with the number of cells that changed.
    Painted {
        place: u32,
        changed: u32,
    },
    /// To a publish, with the number of the new version.
    Published {
        place: u32,
        version: u32,
    },
    /// To a revert.
    Reverted {
        place: u32,
    },
    /// To a collect, with the least version kept, the number of blocks freed, and the versions
    /// kept.
    Collected {
        place: u32,
        floor: u32,
        freed: u32,
        kept: Kept,
    },
    /// To a checkpoint.
    Checkpointed {
        place: u32,
    },
}

/// An entry of the log: an accepted command with its reply.
#[derive(Debug, Drop)]
pub struct Entry {
    pub command: Command,
    pub reply: Reply,
}
