//! A range of rows of a bitmap, computed in order.

ghost use Rattle.std.specs.Prelude.{◌≡◌, ◌+◌, ◌*◌, ◌≤◌};
ghost use Rattle.metric.specs.Edge.{shift};
ghost use Rattle.bits.specs.Cells.{IsBitmap};

use bits::Bitmap;
use metric::Edge;

/// Rows `y0` to `y1 - 1` of a bitmap with this edge.
#[derive(Clone, Copy, Debug)]
pub struct Batch<'a> {
    pub bitmap: &'a Bitmap,
    pub edge: Edge,
    pub y0: u16,
    pub y1: u16,
    pub ghost order: { y0 ≤ y1 },
    pub ghost within: { y1 ≤ bitmap.now.height },
}

impl<'a> Batch<'a> {
    /// These rows of a bitmap.
    pub fn new(bitmap: &'a Bitmap, edge: Edge, y0: u16, y1: u16) -> Self
        requires order { y0 ≤ y1 }
        requires within { y1 ≤ bitmap.now.height }
        ensures bitmap { result.bitmap.now ≡ bitmap.now }
        ensures edge { result.edge ≡ edge }
        ensures from { result.y0 ≡ y0 }
        ensures to { result.y1 ≡ y1 }
    {
        Batch {
            bitmap,
            edge,
            y0,
            y1,
        }
    }

    /// The number of cells of a row.
    pub fn width(&self) -> usize
        ensures width { result ≡ self.now.bitmap.now.width }
        ensures bitmap { IsBitmap self.now.bitmap.now }
    {
        usize::from(self.bitmap.width())
    }

    /// The number of columns of a row, including those of the frame with a wall.
    pub fn columns(&self) -> u16
        ensures columns { result ≡ self.now.bitmap.now.width + 2 * shift self.now.edge }
        ensures bitmap { IsBitmap self.now.bitmap.now }
    {
        self.bitmap.width() + 2 * self.edge.shift()
    }
}
