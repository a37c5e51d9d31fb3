//! The nearest obstacles of all columns before a row, or from a row on, searched from that row.
//! With a wall, rows count the frame.

ghost use Rattle.std.specs.Prelude.{◌≡◌, ◌+◌, ◌*◌, ◌≤◌, length};
ghost use Rattle.metric.specs.Edge.{shift};
ghost use Rattle.bits.specs.Cells.{IsBitmap};
ghost use Rattle.column.specs.Capped.{capped};
ghost use Rattle.column.specs.Lines.{IsLineBefore, IsLineFrom};

use crate::NONE;
use crate::seek::{MOST_WORDS, look_at};
use bits::Bitmap;
use metric::Edge;

/// Fills the line with the nearest obstacles before row `y`. It allocates no memory.
///
/// Searches the rows from `y` upwards, usually until each column has an entry.
pub fn seek_before(bitmap: &Bitmap, edge: Edge, y: u16, line: &mut [u16])
    requires bitmap { IsBitmap bitmap.now }
    requires row { y ≤ bitmap.now.height + 2 * shift edge }
    requires width { length line.old ≡ bitmap.now.width }
    ensures { IsLineBefore (capped edge bitmap.now) y line.new }
{
    let mut missing = [u64::MAX; MOST_WORDS];
    line.fill(NONE);
    'rows: for row in (0..y).rev() {
        if (y - row).is_power_of_two() && !line.contains(&NONE) {
            return;
        }
        look_at(bitmap, edge, row, &mut missing, line);
    }
}

/// Fills the line with the nearest obstacles from row `y` on. It allocates no memory.
///
/// Searches the rows from `y` downwards, usually until each column has an entry.
pub fn seek_from(bitmap: &Bitmap, edge: Edge, y: u16, line: &mut [u16])
    requires bitmap { IsBitmap bitmap.now }
    requires row { y ≤ bitmap.now.height + 2 * shift edge }
    requires width { length line.old ≡ bitmap.now.width }
    ensures { IsLineFrom (capped edge bitmap.now) y line.new }
{
    let mut missing = [u64::MAX; MOST_WORDS];
    line.fill(NONE);
    'rows: for row in y..bitmap.height() + 2 * edge.shift() {
        if (row - y).is_power_of_two() && !line.contains(&NONE) {
            return;
        }
        look_at(bitmap, edge, row, &mut missing, line);
    }
}
