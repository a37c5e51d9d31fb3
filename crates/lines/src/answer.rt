//! The answers to lines.

use events::Reply;
use metric::{Cell, Near, Refusal};

/// The answer to a line.
#[derive(Clone, Copy, Debug)]
pub enum Answer {
    /// The nearest obstacle of a cell; none where there is no obstacle.
    Near(Option<Near>),
    /// The cell with the least distance, with its nearest obstacle; none where there is no
    /// obstacle.
    Found(Option<(Cell, Near)>),
    /// The first cell along the path that is nearer to an obstacle than the query allows, with its
    /// nearest obstacle; none where each cell is clear.
    Clear(Option<(Cell, Near)>),
    /// The keeper of the map accepted the command, with this reply.
    Done(Reply),
    /// The version that was pinned or unpinned.
    Version(u32),
    /// The number of bytes of the pinned bitmap; they follow the line.
    Dumped(u64),
    /// The stream ends.
    Bye,
    /// The line was refused.
    Refused(Refusal),
}
