//! The effect of a command on a bitmap.

ghost use Rattle.std.specs.Prelude.{◌≡◌, IfOk, true};
ghost use Rattle.bits.specs.Cells.{IsBitmap};
ghost use Rattle.events.specs.Drawing.{drawn, draws, is_inside, lies_within, cells_changed};
ghost use Rattle.events.specs.Ledger.{takes_room};

use crate::command::Command;
use bits::Bitmap;
use metric::NoMemory;
use std::alloc::Global;

impl Command {
    /// Whether the command's area lies within a map of this size; true for a command without an
    /// area.
    pub fn lies_within(&self, width: u16, height: u16) -> bool
        ensures { result ≡ lies_within width height self.now }
    {
        match self {
            Command::Paint { rect, .. } => rect.x1 <= width && rect.y1 <= height,
            Command::Stamp { x, y, bitmap } => {
                u32::from(*x) + u32::from(bitmap.width()) <= u32::from(width)
                    && u32::from(*y) + u32::from(bitmap.height()) <= u32::from(height)
            }
            Command::Publish | Command::Revert | Command::Collect | Command::Checkpoint => true,
        }
    }

    /// Whether it is a paint or a stamp.
    pub fn draws(&self) -> bool
        ensures { result ≡ draws self.now }
    {
        matches!(self, Command::Paint { .. } | Command::Stamp { .. })
    }

    /// Whether its entry takes capacity in the log; only that of a checkpoint takes none.
    pub fn takes_room(&self) -> bool
        ensures { result ≡ takes_room self.now }
    {
        !matches!(self, Command::Checkpoint)
    }

    /// Sets the cells of a bitmap to the command's values, and returns how many changed.
    #[tactic(auto, using(crate::proofs::logs::DrawLemmas::drawings))]
    pub fn draw(&self, draft: &mut Bitmap) -> u32
        requires inside { is_inside draft.old self.now ≡ true }
        requires bitmap { IsBitmap draft.old }
        ensures drawn { draft.new ≡ drawn draft.old self.now }
        ensures changed { result ≡ cells_changed draft.old self.now }
    {
        match self {
            Command::Paint { rect, black } => draft.fill(*rect, *black),
            Command::Stamp { x, y, bitmap } => draft.stamp(*x, *y, bitmap),
            Command::Publish | Command::Revert | Command::Collect | Command::Checkpoint => 0,
        }
    }

    /// Copies the command. Fails only when out of memory.
    pub fn try_copy(&self, alloc: Global) -> Result<Self, NoMemory>
        ensures { IfOk result (λ copy. copy ≡ self.now) }
    {
        match self {
            Command::Paint { rect, black } => Ok(Command::Paint {
                rect: *rect,
                black: *black,
            }),
            Command::Stamp { x, y, bitmap } => Ok(Command::Stamp {
                x: *x,
                y: *y,
                bitmap: bitmap.try_copy(alloc)?,
            }),
            Command::Publish => Ok(Command::Publish),
            Command::Revert => Ok(Command::Revert),
            Command::Collect => Ok(Command::Collect),
            Command::Checkpoint => Ok(Command::Checkpoint),
        }
    }
}
